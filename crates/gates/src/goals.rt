// The goals of the truth side: the formula's clauses over the wires.
ghost use Rattle.std.specs.Prelude.{◌≡◌, min, length, take};
ghost use Rattle.clauses.specs.Clauses.{over};
ghost use Rattle.models.specs.HeldTables.{formula_rows};
ghost use Rattle.gates.specs.Wiring.{goal_entry, goal_clause};

use super::wiring::wire_entry;
use clauses::entry::Entry;
use formula::tables::{Kind, Literal};
use models::tables::FormulaTables;

// A literal of the formula over the wires: universal i is wire i, existential k is wire M + k.
fn goal_entry(formula: &FormulaTables, wires: u32, literal: Literal) -> Entry
    ensures { result ≡ goal_entry formula.now.variables.now wires literal }
{
    let variable = formula.variable(literal.variable);
    let wire = match variable.kind {
        Kind::Undeclared => return wire_entry(0),
        Kind::Universal => u64::from(variable.position),
        Kind::Existential => u64::from(wires) + u64::from(variable.position),
    };
    wire_entry(2 * wire + u64::from(literal.negative))
}

// Copies a goal, or as much of it as there is room for, to the front of a row; answers how many literals.
pub fn copy_goal(formula: &FormulaTables, wires: u32, number: u32, row: &mut [Entry]) -> usize
    ensures answer { result ≡ min (length (goal_clause (formula_rows formula.now) wires number)) (length row.old) }
    ensures after { row.new ≡ over (take (length row.old) (goal_clause (formula_rows formula.now) wires number)) row.old }
{
    let clause = formula.clause(number);
    let count = clause.len().min(row.len());
    // By numbers: what is written through a row's `iter_mut` in a `zip` is not known behind the loop.
    for (i, literal) in clause[..count].iter().enumerate() {
        row[i] = goal_entry(formula, wires, *literal);
    }
    count
}
