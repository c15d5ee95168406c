// The engine of steps and goals: a shelf of clauses, a side with its premises and goals, and the examiner of both.
#![tactic(auto)]

pub mod examine;
pub mod examiner;
pub mod laws;
pub mod run;
pub mod shelf;
pub mod side;
pub mod ticket;
