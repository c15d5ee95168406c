// Whole texts read into rows of their own.
#![tactic(auto)]

pub mod read;
pub mod rows;
