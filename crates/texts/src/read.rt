// Reads a whole text into rows that are long enough for every formula or circuit of its length.
ghost use Rattle.std.specs.Prelude.{◌≡◌, IfOk};
ghost use Rattle.models.specs.HeldTables.{formula_rows, circuit_rows};
ghost use Rattle.texts.specs.Spelled.{rows_of, circuit_rows_of, told_rows, told_circuit_rows, ReadsFormula, ReadsCircuit};
ghost use Rattle.texts.specs.TextRows.{formula_in, circuit_in};

use super::rows::{CircuitRows, FormulaRows};
use base::faults::Fault;
use circuit::tables::{Gate, MAX_OUTPUTS, MAX_WIRES};
use formula::tables::{Clause, Literal, MAX_CLAUSES, MAX_VARIABLES, Variable};
use models::tables::{CircuitTables, FormulaTables};
use spelling::{read_circuit, read_formula};
use std::alloc::{AllocError, Global};
use words::place::Place;

// Reads a formula from the start of a text.
pub fn formula_rows(heap: Global, text: &[u8]) -> Result<Result<FormulaRows, Fault>, AllocError>
    ensures is { IfOk result (λ o. told_rows o ≡ formula_in text.now) }
    ensures spelt { IfOk result (λ o. ReadsFormula text.now (told_rows o)) }
{
    let mut variables = vec![in heap; Variable::default(); MAX_VARIABLES as usize]?;
    let mut clauses = vec![in heap; Clause::default(); MAX_CLAUSES as usize]?;
    let mut literals = vec![in heap; Literal::default(); text.len() / 2]?;
    let mut place = Place::default();
    // A match: a proof cannot name what a closure that takes the rows returns.
    match read_formula(
        text,
        &mut place,
        variables.as_mut_slice(),
        clauses.as_mut_slice(),
        literals.as_mut_slice(),
    ) {
        Ok(head) => Ok(Ok(FormulaRows {
            head,
            variables,
            clauses,
            literals,
        })),
        Err(fault) => Ok(Err(fault)),
    }
}

// Reads a circuit from the start of a text.
pub fn circuit_rows(heap: Global, text: &[u8]) -> Result<Result<CircuitRows, Fault>, AllocError>
    ensures is { IfOk result (λ o. told_circuit_rows o ≡ circuit_in text.now) }
    ensures spelt { IfOk result (λ o. ReadsCircuit text.now (told_circuit_rows o)) }
{
    let mut outputs = vec![in heap; 0u32; MAX_OUTPUTS as usize]?;
    let mut gates = vec![in heap; Gate::default(); MAX_WIRES as usize]?;
    let mut place = Place::default();
    // A match: a proof cannot name what a closure that takes the rows returns.
    match read_circuit(
        text,
        &mut place,
        outputs.as_mut_slice(),
        gates.as_mut_slice(),
    ) {
        Ok(head) => Ok(Ok(CircuitRows {
            head,
            outputs,
            gates,
        })),
        Err(fault) => Ok(Err(fault)),
    }
}

impl FormulaRows {
    // The rows, lent as tables.
    pub fn tables(&self) -> FormulaTables<'_>
        ensures { formula_rows result ≡ rows_of self.now }
    {
        FormulaTables {
            head: self.head,
            variables: self.variables.as_slice(),
            clauses: self.clauses.as_slice(),
            literals: self.literals.as_slice(),
        }
    }
}

impl CircuitRows {
    // The rows, lent as tables.
    pub fn tables(&self) -> CircuitTables<'_>
        ensures { circuit_rows result ≡ circuit_rows_of self.now }
    {
        CircuitTables {
            head: self.head,
            outputs: self.outputs.as_slice(),
            gates: self.gates.as_slice(),
        }
    }
}
