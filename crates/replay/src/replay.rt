// The replay of a proof by an examiner.
ghost use Rattle.std.specs.Prelude.{◌≡◌, IfOk};
ghost use Rattle.engine.specs.Lawful.{AllRunsLawful};
ghost use Rattle.engine.specs.Means.{rules};
ghost use Rattle.replay.specs.Replay.{replayed};
ghost use Rattle.replay.specs.Reports.{told_outcome, ReportHolds, TakesAll, Replays};

use super::progress::Progress;
use super::report::{Report, Taken};
use base::faults::Fault;
use engine::examiner::Examiner;
use engine::examiner::questions::entries_on;
use engine::shelf::Shelf;
use engine::side::Side;
use std::alloc::{AllocError, Global};

// Replays a proof on a side and a shelf under a case's number: opens, takes records from the front until the proof ends or one is
// refused, and closes. Refused where the opening is. A slip with the side's verdict says that every goal is true in every
// world; and every run of such an examiner, this one too, is lawful.
pub fn replay<S: Side + Drop, F: Shelf + Drop, P: Progress>(
    heap: Global,
    side: S,
    shelf: F,
    case: u32,
    proof: &[u8],
    progress: &mut P,
) -> Result<Result<Report, Fault>, AllocError>
    ensures is { IfOk result (λ o. told_outcome o ≡ replayed (rules S.Side F.Shelf side shelf) case proof.now) }
    ensures holds { IfOk result (λ o. ReportHolds S.Side side o) }
    ensures lawful { AllRunsLawful (rules S.Side F.Shelf side shelf) }
{
    let mut examiner = Examiner::new(heap, side, shelf)?;
    Ok(replay_on(&mut examiner, case, proof, progress))
}

// Replays a proof on an examiner.
fn replay_on<S: Side, F: Shelf, P: Progress>(
    examiner: &mut Examiner<S, F>,
    case: u32,
    proof: &[u8],
    progress: &mut P,
) -> Result<Report, Fault>
    ensures { Replays S.Side F.Shelf case proof.now result examiner.old }
{
    let ticket = examiner.open(case)?;
    let taken = take_all(examiner, proof, progress);
    let clauses = examiner.shelf().count();
    let entries = entries_on(examiner.shelf());
    let settled = examiner.settled_count();
    let goals = examiner.side().goal_count();
    let slip = examiner.close(ticket);
    Ok(Report {
        taken,
        clauses,
        entries,
        settled,
        goals,
        slip,
    })
}

// How many records are taken between two reports of progress.
const STRIDE: usize = 65_536;

// Reports progress after every so many records.
fn tell<P: Progress>(progress: &mut P, records: usize, bytes: usize) {
    if records % STRIDE == 0 {
        progress.taken(records, bytes);
    }
}

// Takes records from the front until the proof ends or one is refused.
fn take_all<S: Side, F: Shelf, P: Progress>(
    examiner: &mut Examiner<S, F>,
    proof: &[u8],
    progress: &mut P,
) -> Taken
    ensures { TakesAll S.Side F.Shelf proof.now result examiner.old examiner.new }
{
    let mut records = 0usize;
    let mut bytes = 0usize;
    // The length of a record is known once it is taken.
    while bytes < proof.len() {
        let (answer, used) = examiner.take(&proof[bytes..]);
        if let Err(fault) = answer {
            return Taken {
                records,
                bytes,
                refusal: Some(fault),
            };
        }
        records += 1;
        bytes += used;
        tell(progress, records, bytes);
    }
    Taken {
        records,
        bytes,
        refusal: None,
    }
}
