// Replaying a proof: a case is opened, the records are taken in order, and the case is closed.
#![tactic(auto)]

pub mod progress;
pub mod replay;
pub mod report;
