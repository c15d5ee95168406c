// Lent tables of a formula and of a circuit, as a reading leaves them.
use circuit::tables::{CircuitHead, Gate};
use formula::tables::{Clause, Head, Literal, Variable};

pub mod lookup;

// The tables of a formula.
#[derive(Clone, Copy, Drop)]
pub struct FormulaTables<'a> {
    pub head: Head,
    pub variables: &'a [Variable],
    pub clauses: &'a [Clause],
    pub literals: &'a [Literal],
}

// The tables of a circuit.
#[derive(Clone, Copy, Drop)]
pub struct CircuitTables<'a> {
    pub head: CircuitHead,
    pub outputs: &'a [u32],
    pub gates: &'a [Gate],
}
