// Formulas: their tables and the reader of formula texts.
#![tactic(auto)]

pub mod lookup;
pub mod marks;
mod print;
pub mod read;
pub mod tables;
