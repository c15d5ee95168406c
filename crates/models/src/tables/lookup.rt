// What lent tables hold: whether a reading leaves them, the clauses and the variables' records.
ghost use Rattle.std.specs.Prelude.{◌≡◌, true};
ghost use Rattle.models.specs.HeldTables.{formula_rows, circuit_rows, lawful_formula, lawful_circuit, record_at, clause_of, Held, HeldCircuit};
ghost use Rattle.spelling.specs.CircuitGrammar.{Aig};
ghost use Rattle.spelling.specs.Dqbf.{Dqbf};

use super::{CircuitTables, FormulaTables};
use audit::circuits::audit_circuit;
use audit::formulas::audit_formula;
use formula::lookup::variable;
use formula::tables::{Literal, MAX_LITERALS, Variable};

impl<'a> FormulaTables<'a> {
    // Whether an accepted reading leaves these tables; they then hold a lawful formula.
    pub fn is_lawful(&self) -> bool
        ensures is { result ≡ lawful_formula (formula_rows self.now) }
        ensures held { result ≡ true → (f : Dqbf) × Held (formula_rows self.now) f }
    {
        audit_formula(self.head, self.variables, self.clauses, self.literals)
    }

    // The record of a variable; that of an undeclared one where there is none.
    pub fn variable(&self, number: u32) -> Variable
        ensures { result ≡ record_at self.now.variables.now number }
    {
        variable(self.variables, number).unwrap_or_default()
    }

    // The literals of a clause, by its number from 1; none where there is no such clause.
    pub fn clause(&self, number: u32) -> &[Literal]
        ensures { result.now ≡ clause_of (formula_rows self.now) number }
    {
        if number == 0 || number > self.head.clauses {
            return &[];
        }
        let span = self
            .clauses
            .get(number as usize - 1)
            .copied()
            .unwrap_or_default();
        let Some(rest) = self.literals.get(span.first as usize..) else {
            return &[];
        };
        let len = (span.len as usize).min(MAX_LITERALS).min(rest.len());
        &rest[..len]
    }
}

impl<'a> CircuitTables<'a> {
    // Whether an accepted reading leaves these tables; they then hold a lawful circuit.
    pub fn is_lawful(&self) -> bool
        ensures is { result ≡ lawful_circuit (circuit_rows self.now) }
        ensures held { result ≡ true → (c : Aig) × HeldCircuit (circuit_rows self.now) c }
    {
        audit_circuit(self.head, self.outputs, self.gates)
    }
}
