// Examiners of the trial side, call by call.
use super::TrialSide;
use super::script::settle_first;
use base::faults::{Cause, Fault, Layer};
use base::values::ValueWord;
use clauses::entry::Entry;
use engine::examiner::Examiner;
use engine::examiner::questions::entries_on;
use engine::run::{Answer, Call, make_call};
use engine::shelf::Shelf;
use engine::ticket::Ticket;
use records::record::write_record;
use records::slip::Slip;
use records::step::{Premise, Step};
use shelves::flat::FlatShelf;
use std::alloc::{AllocError, Global};
use std::test::Fail;

type TrialExaminer = Examiner<TrialSide, FlatShelf>;

fn shelf(heap: Global, clauses: usize, entries: usize) -> Result<FlatShelf, AllocError> {
    let ends = Vec::with_capacity(heap, clauses)?;
    let row = Vec::with_capacity(heap, entries)?;
    Ok(FlatShelf::new(ends, row))
}

fn examiner(heap: Global, goals: u32) -> Result<TrialExaminer, AllocError> {
    let shelf = shelf(heap, 40_000, 1_200_000)?;
    Examiner::new(heap, TrialSide { goals }, shelf)
}

fn trial(class: u8, number: u16) -> Premise {
    Premise::Truth {
        class,
        number,
        part: 0,
    }
}

const OTHER: Premise = Premise::Falsity {
    clause: 1,
    values: ValueWord { bits: 0 },
};

// A refusal of the case, with so many clauses on the shelf.
fn refused(cause: Cause, clauses: usize) -> Result<u32, Fault> {
    Err(Layer::Case.fault(cause, clauses))
}

fn refused_by(layer: Layer, cause: Cause, place: usize) -> Result<u32, Fault> {
    Err(layer.fault(cause, place))
}

// The refusal that a call answers.
fn refusal(answer: Answer) -> Option<Fault> {
    match answer {
        Answer::Refused(fault) => Some(fault),
        _ => None,
    }
}

// Each of the six calls, as a host makes them.
#[test]
fn six_calls(rt: HostRuntime) -> Result<(), Fail> {
    let mut examiner = examiner(rt.alloc(), 2)?;
    let ticket = examiner.open(7)?;
    assert_eq!(rt; ticket.number(), 7);
    assert_eq!(rt; examiner.premise(trial(0, 1)), Ok(1));
    assert_eq!(rt; examiner.premise(trial(2, 1)), Ok(2));
    assert_eq!(rt; examiner.resolve(1, 2, 1), Ok(3));
    assert_eq!(rt; examiner.settle(2, 3), Ok(0));
    let mut record = [0u8; 16];
    let step = Step::Settle { goal: 1, clause: 1 };
    assert_eq!(rt; write_record(step, &mut record), Some(10));
    assert_eq!(rt; examiner.take(&record), (Ok(0), 10));
    assert_eq!(rt; examiner.settled_count(), 2);
    let slip = examiner.close(ticket);
    assert_eq!(rt;
        slip,
        Slip::True {
            case: 7,
            clauses: 3
        }
    );
    assert_eq!(rt; examiner.open_case(), None);
    Ok(())
}

// Before any opening, and after a close.
#[test]
fn no_case_open(rt: HostRuntime) -> Result<(), Fail> {
    let mut examiner = examiner(rt.alloc(), 1)?;
    assert_eq!(rt;
        examiner.premise(trial(0, 1)),
        refused(Cause::NoCaseOpen, 0)
    );
    assert_eq!(rt; examiner.resolve(0, 0, 0), refused(Cause::NoCaseOpen, 0));
    assert_eq!(rt; examiner.settle(0, 0), refused(Cause::NoCaseOpen, 0));
    // What the bytes are, and whose premise it is, is asked first.
    let malformed = refused_by(Layer::Records, Cause::RecordMalformed, 0);
    let other_side = refused_by(Layer::Records, Cause::OtherSide, 0);
    assert_eq!(rt; examiner.take(&[]), (malformed, 0));
    assert_eq!(rt; examiner.take(&[0, 6, 2, 1, 0, 0, 1, 0]), (malformed, 0));
    assert_eq!(rt; examiner.premise(OTHER), other_side);
    let mut record = [0u8; 16];
    assert_eq!(rt; write_record(Step::Premise(OTHER), &mut record), Some(14));
    assert_eq!(rt; examiner.take(&record), (other_side, 0));
    let slip = examiner.close(Ticket::of(0));
    assert_eq!(rt; slip, Slip::Stray { case: 0 });
    let ticket = examiner.open(u32::MAX)?;
    assert_eq!(rt; examiner.premise(trial(0, 5)), Ok(1));
    let slip = examiner.close(ticket);
    assert_eq!(rt;
        slip,
        Slip::Unproved {
            case: u32::MAX,
            clauses: 1,
            goal: 1
        }
    );
    assert_eq!(rt;
        examiner.premise(trial(0, 1)),
        refused(Cause::NoCaseOpen, 1)
    );
    let slip = examiner.close(Ticket::of(u32::MAX));
    assert_eq!(rt; slip, Slip::Stray { case: u32::MAX });
    Ok(())
}

// A refused opening between two steps changes nothing; another ticket is stray; one of the right number closes.
#[test]
fn openings_and_tickets(rt: HostRuntime) -> Result<(), Fail> {
    let mut examiner = examiner(rt.alloc(), 1)?;
    let ticket = examiner.open(3)?;
    assert_eq!(rt; examiner.premise(trial(0, 1)), Ok(1));
    let second = refusal(make_call(&mut examiner, Call::Open(4)));
    assert_eq!(rt; second, Some(Layer::Case.fault(Cause::CaseOpen, 0)));
    assert_eq!(rt; examiner.settle(1, 1), Ok(0));
    let slip = examiner.close(Ticket::of(4));
    assert_eq!(rt; slip, Slip::Stray { case: 4 });
    assert_eq!(rt; examiner.open_case(), Some(3));
    assert_eq!(rt; examiner.settled_count(), 1);
    let slip = examiner.close(Ticket::of(3));
    assert_eq!(rt;
        slip,
        Slip::True {
            case: 3,
            clauses: 1
        }
    );
    let slip = examiner.close(ticket);
    assert_eq!(rt; slip, Slip::Stray { case: 3 });
    // An opening empties the shelf and the settled goals.
    let ticket = examiner.open(3)?;
    assert_eq!(rt; examiner.settled_count(), 0);
    let slip = examiner.close(ticket);
    assert_eq!(rt;
        slip,
        Slip::Unproved {
            case: 3,
            clauses: 0,
            goal: 1
        }
    );
    Ok(())
}

// Numbers and positions that are not there, and what resolution refuses.
#[test]
fn resolutions(rt: HostRuntime) -> Result<(), Fail> {
    let mut examiner = examiner(rt.alloc(), 1)?;
    let ticket = examiner.open(1)?;
    assert_eq!(rt; examiner.premise(trial(0, 1)), Ok(1));
    assert_eq!(rt; examiner.premise(trial(2, 1)), Ok(2));
    let not_there = refused(Cause::NotThere, 2);
    assert_eq!(rt; examiner.premise(trial(5, 1)), not_there);
    assert_eq!(rt; examiner.resolve(0, 2, 1), not_there);
    assert_eq!(rt; examiner.resolve(1, 0, 1), not_there);
    assert_eq!(rt; examiner.resolve(3, 2, 1), not_there);
    assert_eq!(rt; examiner.resolve(1, 3, 1), not_there);
    assert_eq!(rt; examiner.resolve(1, 2, 0), not_there);
    assert_eq!(rt; examiner.resolve(1, 2, 2), not_there);
    // A clause with itself, and the second without the complement.
    assert_eq!(rt;
        examiner.resolve(2, 2, 1),
        refused(Cause::ComplementMissing, 2)
    );
    assert_eq!(rt;
        examiner.resolve(2, 1, 2),
        refused(Cause::ComplementMissing, 2)
    );
    assert_eq!(rt; examiner.premise(trial(4, 1)), refused(Cause::BothSigns, 2));
    assert_eq!(rt; examiner.resolve(2, 1, 1), Ok(3));
    assert_eq!(rt; examiner.shelf().length(3), 1);
    // A premise that has a literal twice is filed with it once.
    assert_eq!(rt; examiner.premise(trial(1, 9)), Ok(4));
    assert_eq!(rt; examiner.shelf().length(4), 1);
    // A resolvent keeps a literal once that both clauses have.
    assert_eq!(rt; examiner.premise(trial(3, 1)), Ok(5));
    assert_eq!(rt; examiner.premise(trial(2, 2)), Ok(6));
    assert_eq!(rt; examiner.resolve(5, 6, 2), Ok(7));
    assert_eq!(rt; examiner.shelf().length(7), 3);
    let slip = examiner.close(ticket);
    assert_eq!(rt;
        slip,
        Slip::Unproved {
            case: 1,
            clauses: 7,
            goal: 1
        }
    );
    Ok(())
}

// Goals that are not there, that a clause is outside of, and that are settled.
#[test]
fn settlings(rt: HostRuntime) -> Result<(), Fail> {
    let mut examiner = examiner(rt.alloc(), 2)?;
    let ticket = examiner.open(1)?;
    assert_eq!(rt; examiner.premise(trial(0, 1)), Ok(1));
    assert_eq!(rt; examiner.premise(trial(0, 2)), Ok(2));
    assert_eq!(rt; examiner.settle(0, 1), refused(Cause::NotThere, 2));
    assert_eq!(rt; examiner.settle(3, 1), refused(Cause::NotThere, 2));
    assert_eq!(rt; examiner.settle(1, 0), refused(Cause::NotThere, 2));
    assert_eq!(rt; examiner.settle(1, 3), refused(Cause::NotThere, 2));
    assert_eq!(rt; examiner.settle(1, 2), refused(Cause::OutsideGoal, 2));
    assert_eq!(rt; examiner.settle(1, 1), Ok(0));
    assert_eq!(rt; examiner.settle(1, 2), refused(Cause::OutsideGoal, 2));
    assert_eq!(rt; examiner.settle(1, 1), refused(Cause::GoalSettled, 2));
    let slip = examiner.close(ticket);
    assert_eq!(rt;
        slip,
        Slip::Unproved {
            case: 1,
            clauses: 2,
            goal: 2
        }
    );
    Ok(())
}

// No goals at all, as many as there may be, and one more.
#[test]
fn numbers_of_goals(rt: HostRuntime) -> Result<(), Fail> {
    let mut none = examiner(rt.alloc(), 0)?;
    let ticket = none.open(5)?;
    let slip = none.close(ticket);
    assert_eq!(rt;
        slip,
        Slip::True {
            case: 5,
            clauses: 0
        }
    );
    let mut most = examiner(rt.alloc(), 16_384)?;
    let ticket = most.open(5)?;
    for goal in 1..=16_384u16 {
        assert_eq!(rt; most.premise(trial(0, goal)), Ok(u32::from(goal)));
        assert_eq!(rt; most.settle(goal, u32::from(goal)), Ok(0));
    }
    let slip = most.close(ticket);
    assert_eq!(rt;
        slip,
        Slip::True {
            case: 5,
            clauses: 16_384
        }
    );
    let mut more = examiner(rt.alloc(), 16_385)?;
    let opened = refusal(make_call(&mut more, Call::Open(5)));
    assert_eq!(rt; opened, Some(Layer::Case.fault(Cause::TablesUnlawful, 0)));
    Ok(())
}

// Each step of a chain makes the clause one literal longer: 1,024 are filed, 1,025 are not.
#[test]
fn long_clauses(rt: HostRuntime) -> Result<(), Fail> {
    let mut examiner = examiner(rt.alloc(), 1)?;
    let ticket = examiner.open(1)?;
    assert_eq!(rt; examiner.premise(trial(0, 1)), Ok(1));
    let mut last = 1;
    for k in 1..=1_023u16 {
        let premise = examiner.premise(trial(3, k)).unwrap_or(0);
        last = examiner.resolve(premise, last, 1).unwrap_or(0);
    }
    assert_eq!(rt; last, 2_047);
    assert_eq!(rt; examiner.shelf().length(last), 1_024);
    assert_eq!(rt; examiner.premise(trial(3, 1_024)), Ok(2_048));
    let _ = examiner.settle(1, last);
    let slip = examiner.close(ticket);
    assert_eq!(rt;
        slip,
        Slip::Unproved {
            case: 1,
            clauses: 2_048,
            goal: 1
        }
    );
    Ok(())
}

// Shelves with no room for a clause, or for an entry, and one that has clauses at the making.
#[test]
fn small_shelves(rt: HostRuntime) -> Result<(), Fail> {
    let heap = rt.alloc();
    let full = refused_by(Layer::Shelf, Cause::ShelfFull, 0);
    let mut no_clauses = Examiner::new(heap, TrialSide { goals: 1 }, shelf(heap, 0, 8)?)?;
    let ticket = no_clauses.open(1)?;
    assert_eq!(rt; no_clauses.premise(trial(0, 1)), full);
    let _ = no_clauses.close(ticket);
    let mut no_entries = Examiner::new(heap, TrialSide { goals: 1 }, shelf(heap, 8, 0)?)?;
    let ticket = no_entries.open(1)?;
    assert_eq!(rt; no_entries.premise(trial(0, 1)), full);
    let _ = no_entries.close(ticket);
    let mut filled = shelf(heap, 8, 8)?;
    let clause = [Entry::default(); 3];
    assert_eq!(rt; filled.file(&clause), Some(1));
    let mut examiner = Examiner::new(heap, TrialSide { goals: 1 }, filled)?;
    assert_eq!(rt; examiner.settle(1, 1), refused(Cause::NoCaseOpen, 1));
    assert_eq!(rt; entries_on(examiner.shelf()), 3);
    let ticket = examiner.open(1)?;
    assert_eq!(rt; examiner.shelf().count(), 0);
    let _ = examiner.close(ticket);
    Ok(())
}

// The slip that the engine's promises tell, on a shelf with room for the clause and on one without.
#[test]
fn a_case_with_one_goal(rt: HostRuntime) -> Result<(), Fail> {
    let heap = rt.alloc();
    let slip = settle_first(heap, shelf(heap, 1, 1)?, 7)?;
    assert_eq!(rt;
        slip,
        Some(Slip::True {
            case: 7,
            clauses: 1
        })
    );
    let slip = settle_first(heap, shelf(heap, 1, 0)?, 7)?;
    assert_eq!(rt;
        slip,
        Some(Slip::Unproved {
            case: 7,
            clauses: 0,
            goal: 1
        })
    );
    Ok(())
}
