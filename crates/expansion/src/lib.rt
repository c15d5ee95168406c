// Expansion of the universals: the clauses of a formula under words of values.
#![tactic(auto)]

ghost use Rattle.std.specs.Prelude.{◌≡◌, ◌≤◌, length};
ghost use Rattle.clauses.specs.Clauses.{over};
ghost use Rattle.clauses.specs.Laid.{Laid};
ghost use Rattle.expansion.specs.Instances.{annotated_literal, true_universal, some_universal_true, instance, is_named, clause_instance};
ghost use Rattle.expansion.specs.ModelWorlds.{HoldsInModels};
ghost use Rattle.models.specs.HeldTables.{formula_rows};

use base::faults::Cause;
use base::values::ValueWord;
use clauses::entry::Entry;
use formula::tables::{Kind, Literal};
use models::tables::FormulaTables;

// A formula whose universals have the values of a word.
#[derive(Clone, Copy, Drop)]
struct Expansion<'a> {
    formula: &'a FormulaTables<'a>,
    values: ValueWord,
}

impl<'a> Expansion<'a> {
    // Whether there is such a clause, and the word has no value above the universals.
    fn is_named(&self, clause: u32) -> bool
        ensures { result ≡ is_named (formula_rows self.now.formula.now) clause self.now.values }
    {
        let head = self.formula.head;
        (1..=head.clauses).contains(&clause)
            && self.values.is_within(ValueWord::first(head.universals))
    }

    // Whether a literal is universal and true.
    fn is_true_universal(&self, literal: Literal) -> bool
        ensures { result ≡ true_universal self.now.formula.now.variables.now self.now.values literal }
    {
        let variable = self.formula.variable(literal.variable);
        variable.kind == Kind::Universal && literal.negative != self.values.has(variable.position)
    }

    // Whether some universal literal of a clause is true.
    fn has_true_universal(&self, clause: &[Literal]) -> bool
        ensures { result ≡ some_universal_true self.now.formula.now.variables.now self.now.values clause.now }
    {
        clause
            .iter()
            .any(|literal| self.is_true_universal(*literal))
    }

    // An existential literal with the values of its dependencies; none for any other literal.
    fn annotate(&self, literal: Literal) -> Option<Entry>
        ensures { result ≡ annotated_literal self.now.formula.now.variables.now self.now.values literal }
    {
        let variable = self.formula.variable(literal.variable);
        if variable.kind != Kind::Existential {
            return None;
        }
        let code = 2 * u64::from(variable.position) + u64::from(literal.negative);
        let values = self.values.intersection(variable.dependencies);
        Some(Entry::of(code, values))
    }

    // How many existential literals a clause has.
    fn count_existentials(&self, clause: &[Literal]) -> usize
        ensures { result ≡ length (instance self.now.formula.now.variables.now self.now.values clause.now) }
    {
        clause
            .iter()
            .filter_map(|literal| self.annotate(*literal))
            .count()
    }

    // Writes the existential literals of a clause, annotated, at the front of a row.
    fn write_existentials(&self, clause: &[Literal], row: &mut [Entry])
        requires { length (instance self.now.formula.now.variables.now self.now.values clause.now) ≤ length row.old }
        ensures { row.new ≡ over (instance self.now.formula.now.variables.now self.now.values clause.now) row.old }
    {
        let entries = clause.iter().filter_map(|literal| self.annotate(*literal));
        // By numbers: what is written through a row's `iter_mut` in a `zip` is not known behind the loop.
        for (i, entry) in entries.enumerate() {
            row[i] = entry;
        }
    }
}

// Lays a clause under a word of values at the front of a row: its existential literals in order, annotated with the values
// of their dependencies; answers how many. Refused where there is no such clause, the word has a value above the universals, or a
// universal literal is true; and where the row is shorter, with nothing changed.
pub fn lay_instance(
    formula: &FormulaTables,
    clause: u32,
    values: ValueWord,
    row: &mut [Entry],
) -> Result<usize, Cause>
    ensures laid { Laid (clause_instance (formula_rows formula.now) clause values) result row.old row.new }
    ensures holds { HoldsInModels (formula_rows formula.now) clause values }
{
    let expansion = Expansion { formula, values };
    if !expansion.is_named(clause) {
        return Err(Cause::NotThere);
    }
    let literals = formula.clause(clause);
    if expansion.has_true_universal(literals) {
        return Err(Cause::UniversalTrue);
    }
    let count = expansion.count_existentials(literals);
    if count > row.len() {
        return Err(Cause::TableShort);
    }
    expansion.write_existentials(literals, row);
    Ok(count)
}
