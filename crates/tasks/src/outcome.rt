// How far a task came.
use base::faults::Fault;
use circuit::tables::CircuitHead;
use formula::tables::Head;
use replay::report::Report;

// The heads of the texts that were accepted.
#[derive(Clone, Copy, Drop)]
pub struct Heads {
    pub formula: Head,
    pub circuit: Option<CircuitHead>,
}

// A text is refused, or the opening, or the case was closed with a slip.
#[derive(Clone, Copy, Drop)]
pub enum Outcome {
    FormulaRefused(Fault),
    CircuitRefused {
        formula: Head,
        fault: Fault,
    },
    OpeningRefused {
        heads: Heads,
        fault: Fault,
    },
    Closed {
        heads: Heads,
        report: Report,
        slip: [u8; 16],
    },
}
