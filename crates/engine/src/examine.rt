// A whole examination: an examiner is made, the calls are made of it, and it is let go.
ghost use Rattle.std.specs.Prelude.{◌≡◌, MatchResult};
ghost use Rattle.engine.specs.Lawful.{AllRunsLawful};
ghost use Rattle.engine.specs.Means.{rules};
ghost use Rattle.engine.specs.Verdicts.{Examined};

use super::examiner::Examiner;
use super::run::{Answer, Call, run};
use super::shelf::Shelf;
use super::side::Side;
use std::alloc::{AllocError, Global};

// Makes an examiner of the side and the shelf and the calls of it, in order, while there is room for their answers;
// answers how many were made. A slip with the side's verdict is given only where every goal is true in every world.
pub fn examine<S: Side + Drop, F: Shelf + Drop>(
    heap: Global,
    side: S,
    shelf: F,
    calls: &[Call],
    answers: &mut [Answer],
) -> Result<usize, AllocError>
    ensures examined { MatchResult result (λ n. Examined S.Side F.Shelf side shelf n calls.now answers.old answers.new) (λ _. answers.new ≡ answers.old) }
    ensures lawful { AllRunsLawful (rules S.Side F.Shelf side shelf) }
{
    let mut examiner = Examiner::new(heap, side, shelf)?;
    Ok(run(&mut examiner, calls, answers))
}
