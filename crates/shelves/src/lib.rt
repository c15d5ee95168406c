// Shelves: where an examiner keeps its clauses.
#![tactic(auto)]

pub mod flat;

// The most clauses that a shelf takes, and the most entries in all.
pub const MOST_CLAUSES: usize = 1_000_000;

pub const MOST_ENTRIES: usize = 16_000_000;
