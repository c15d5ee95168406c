// The bytes that go between a solver, the checker and the patch writer: records of proof steps, and slips.
#![tactic(auto)]

mod print;
pub mod record;
pub mod slip;
pub mod step;
