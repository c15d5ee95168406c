// What is reported of a replay.
use base::faults::Fault;
use records::slip::Slip;

// How many records were taken, of how many bytes, and the refusal of the next one if there was one.
#[derive(Clone, Copy, Drop)]
pub struct Taken {
    pub records: usize,
    pub bytes: usize,
    pub refusal: Option<Fault>,
}

// What was taken, what the shelf then holds, how many of the side's goals are settled, and the slip.
#[derive(Clone, Copy, Drop)]
pub struct Report {
    pub taken: Taken,
    pub clauses: u32,
    pub entries: u32,
    pub settled: u32,
    pub goals: u32,
    pub slip: Slip,
}
