// Literals and clauses: what resolution, settling and containment need of a literal, for every kind of literal.
#![tactic(auto)]

pub mod clause;
pub mod entry;
pub mod literal;
