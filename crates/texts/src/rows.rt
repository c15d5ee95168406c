// The rows of a formula and of a circuit, owned: two types, as their columns, readers and laws differ.

use circuit::tables::{CircuitHead, Gate};
use formula::tables::{Clause, Head, Literal, Variable};

#[derive(Drop)]
pub struct FormulaRows {
    pub head: Head,
    pub variables: Vec<Variable>,
    pub clauses: Vec<Clause>,
    pub literals: Vec<Literal>,
}

#[derive(Drop)]
pub struct CircuitRows {
    pub head: CircuitHead,
    pub outputs: Vec<u32>,
    pub gates: Vec<Gate>,
}
