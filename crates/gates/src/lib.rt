// The clauses of circuits: what each gate and output says, and the formula's clauses over the wires.
#![tactic(auto)]

pub mod goals;
pub mod opening;
pub mod wiring;
