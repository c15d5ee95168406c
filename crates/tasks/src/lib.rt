// The whole task on bytes: a formula text, a circuit text and a proof in, a slip of sixteen bytes out.
#![tactic(auto)]

pub mod outcome;
pub mod task;
