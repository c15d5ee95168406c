// A case from its opening to its closing, whose slip the engine's promises tell beforehand.
ghost use Rattle.std.specs.Prelude.{◌≡◌, IfOk};
ghost use Rattle.trial.specs.Script.{script_slip};

use super::TrialSide;
use engine::examiner::Examiner;
use engine::shelf::Shelf;
use records::slip::Slip;
use records::step::Premise;
use std::alloc::{AllocError, Global};

// Opens a case on the side with one goal, files variable 1, settles the goal by it and closes.
pub fn settle_first<F: Shelf + Drop>(
    heap: Global,
    shelf: F,
    case: u32,
) -> Result<Option<Slip>, AllocError>
    ensures { IfOk result (λ s. s ≡ script_slip (F.Shelf.K shelf) (F.Shelf.W shelf) case) }
{
    let mut examiner = Examiner::new(heap, TrialSide { goals: 1 }, shelf)?;
    let Ok(ticket) = examiner.open(case) else {
        return Ok(None);
    };
    let _ = examiner.premise(Premise::Truth {
        class: 0,
        number: 1,
        part: 0,
    });
    let _ = examiner.settle(1, 1);
    Ok(Some(examiner.close(ticket)))
}
