// The steps of a proof.
use base::values::ValueWord;

// A premise, by the side that it belongs to: a clause of the circuits, by class, number and part; or a clause of the
// formula under a word of values.
#[derive(Clone, Copy, PartialEq, Eq, Debug)]
pub enum Premise {
    Truth { class: u8, number: u16, part: u8 },
    Falsity { clause: u16, values: ValueWord },
}

// A step: a premise is filed; two filed clauses are resolved at a position of the first, from 1; or a goal is settled
// by a filed clause.
#[derive(Clone, Copy, PartialEq, Eq, Debug)]
pub enum Step {
    Premise(Premise),
    Resolve {
        first: u32,
        second: u32,
        position: u16,
    },
    Settle {
        goal: u16,
        clause: u32,
    },
}
