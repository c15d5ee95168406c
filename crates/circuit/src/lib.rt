// Circuits: their tables and the reader of circuit texts.
#![tactic(auto)]

mod print;
pub mod read;
pub mod tables;
