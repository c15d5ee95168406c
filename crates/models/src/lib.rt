// Formulas and circuits in lent tables, and when a formula is true.
#![tactic(auto)]

pub mod tables;
