// The readers with the law that they obey: a text is accepted exactly if it spells a lawful formula or circuit.
#![tactic(auto)]

ghost use Rattle.formula.specs.Reading.{tables, Reads};
ghost use Rattle.circuit.specs.Reading.{circuit_from, Agrees};
ghost use Rattle.spelling.specs.CircuitLaw.{AcceptsCircuit};
ghost use Rattle.spelling.specs.FormulaLaw.{Accepts};
ghost use Rattle.std.specs.Prelude.{length};

use base::faults::Fault;
use circuit::tables::{CircuitHead, Gate};
use formula::tables::{Clause, Head, Literal, Variable};
use words::place::Place;

// Reads a formula from the place on, as `formula::read::read_formula` does.
pub fn read_formula(
    text: &[u8],
    place: &mut Place,
    vars: &mut [Variable],
    clauses: &mut [Clause],
    literals: &mut [Literal],
) -> Result<Head, Fault>
    ensures is { Reads text.now place.old.at result (tables vars.old clauses.old literals.old) (tables vars.new clauses.new literals.new) place.new.at }
    ensures spelt { Accepts text.now place.old.at result (tables vars.new clauses.new literals.new) place.new.at }
{
    formula::read::read_formula(text, place, vars, clauses, literals)
}

// Reads a circuit from the place on, as `circuit::read::read_circuit` does.
pub fn read_circuit(
    text: &[u8],
    place: &mut Place,
    outputs: &mut [u32],
    gates: &mut [Gate],
) -> Result<CircuitHead, Fault>
    ensures is { Agrees (circuit_from text.now place.old.at (length outputs.old) (length gates.old)) result (length outputs.old) outputs.new (length gates.old) gates.new place.old.at place.new.at }
    ensures spelt { AcceptsCircuit text.now place.old.at result outputs.new gates.new place.new.at }
{
    circuit::read::read_circuit(text, place, outputs, gates)
}
