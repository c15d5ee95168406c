// The audit of formula tables.
ghost use Rattle.std.specs.Prelude.{◌≡◌, ◌+◌, ◌<◌, ◌≤◌, [], true, length, Decides, slice_set};
ghost use Rattle.std.specs.Bool.{then_some};
ghost use Rattle.formula.specs.declared.tables.TheConstants.{MAX_EXISTENTIALS, MAX_UNIVERSALS, MAX_VARIABLES};
ghost use Rattle.audit.specs.FormulaAudit.{head_lawful, free, owns, all_owned, records_lawful, clause_lawful, spans_lawful, formula_lawful, LeftByAFormulaText};

use super::all_are;
use base::values::ValueWord;
use formula::lookup::variable;
use formula::marks::Marks;
use formula::tables::{
    Clause, Head, Kind, Literal, MAX_CLAUSES, MAX_EXISTENTIALS, MAX_LITERALS, MAX_UNIVERSALS,
    MAX_VARIABLES, Variable,
};

fn lawful_head(head: Head, variables: usize, clauses: usize) -> bool
    ensures { result ≡ head_lawful head variables clauses }
{
    head.variables >= 1
        && head.variables <= MAX_VARIABLES
        && head.variables as usize <= variables
        && head.clauses <= MAX_CLAUSES
        && head.clauses as usize <= clauses
        && head.universals <= MAX_UNIVERSALS
        && head.existentials <= MAX_EXISTENTIALS
}

// The variable that has each position among the universals and among the existentials. No variable has number 0, so
// a 0 stands for none, as in the lent tables.
#[derive(Drop)]
struct Owners {
    universals: [u32; MAX_UNIVERSALS as usize + 1],
    existentials: [u32; MAX_EXISTENTIALS as usize + 1],
}

// Makes v the owner of a position from 1 to `last`; false where there is no such position, or it has an owner.
fn enter(owners: &mut [u32], last: u32, position: u32, v: u32) -> bool
    requires { last < length owners.old }
    ensures is { result ≡ free last owners.old position }
    ensures entered { result ≡ true → owners.new ≡ slice_set owners.old position v }
{
    if position == 0 || position > last || owners[position as usize] != 0 {
        return false;
    }
    owners[position as usize] = v;
    true
}

impl Owners {
    // Enters variable v as the owner of its position; false where its record is none that a reading leaves, or the
    // position has an owner.
    fn own(&mut self, head: Head, v: u32, variable: Variable) -> bool
        requires universals { head.universals ≤ MAX_UNIVERSALS }
        requires existentials { head.existentials ≤ MAX_EXISTENTIALS }
        ensures { then_some result self.new ≡ owns head v variable self.old }
    {
        let Variable {
            kind,
            position,
            dependencies,
        } = variable;
        match kind {
            Kind::Undeclared => variable == Variable::default(),
            Kind::Universal => {
                dependencies == ValueWord::empty()
                    && enter(&mut self.universals, head.universals, position, v)
            }
            Kind::Existential => {
                dependencies.is_within(ValueWord::first(head.universals))
                    && enter(&mut self.existentials, head.existentials, position, v)
            }
        }
    }
}

// Whether each of these positions has an owner.
fn has_owners(owners: &[u32]) -> bool
    ensures { result ≡ all_owned owners.now }
{
    owners.iter().all(|owner| *owner != 0)
}

// Whether the declared variables own their positions, one each, and the records behind them are free.
fn lawful_variables(head: Head, declared: &[Variable], free: &[Variable]) -> bool
    requires variables { length declared.now ≤ MAX_VARIABLES }
    requires universals { head.universals ≤ MAX_UNIVERSALS }
    requires existentials { head.existentials ≤ MAX_EXISTENTIALS }
    ensures { result ≡ records_lawful head declared.now free.now }
{
    let mut owners = Owners {
        universals: [0; MAX_UNIVERSALS as usize + 1],
        existentials: [0; MAX_EXISTENTIALS as usize + 1],
    };
    // A loop: each step changes the owners, which a closure of `all` may not if a proof is to know them.
    for (i, variable) in declared.iter().enumerate() {
        if !owners.own(head, i as u32 + 1, *variable) {
            return false;
        }
    }
    has_owners(&owners.universals[1..=head.universals as usize])
        && has_owners(&owners.existentials[1..=head.existentials as usize])
        && all_are(free, &Variable::default())
}

// Whether these are literals of declared variables, none of which is named twice.
fn lawful_clause(declared: &[Variable], marks: &mut Marks, literals: &[Literal]) -> bool
    requires variables { length declared.now ≤ MAX_VARIABLES }
    ensures { result ≡ clause_lawful declared.now [] literals.now }
{
    marks.next_clause();
    // A loop, as above: each step marks a variable.
    for literal in literals {
        let v = literal.variable;
        if variable(declared, v).is_none_or(|x| x.kind == Kind::Undeclared) || marks.has(v) {
            return false;
        }
        marks.add(v);
    }
    true
}

// Whether each clause is lawful and stands directly behind the one before, with zeros behind the last.
fn lawful_clauses(
    declared: &[Variable],
    used: &[Clause],
    free: &[Clause],
    literals: &[Literal],
) -> bool
    requires variables { length declared.now ≤ MAX_VARIABLES }
    ensures { result ≡ spans_lawful declared.now used.now free.now literals.now }
{
    let mut marks = Marks::new();
    let mut at = 0;
    // A loop, as above: each step moves the place in the literals and the marks.
    for clause in used {
        if clause.first as usize != at || clause.len as usize > MAX_LITERALS {
            return false;
        }
        let Some(named) = literals[at..].get(..clause.len as usize) else {
            return false;
        };
        if !lawful_clause(declared, &mut marks, named) {
            return false;
        }
        at += named.len();
    }
    all_are(free, &Clause::default()) && all_are(&literals[at..], &Literal::default())
}

// Whether an accepted reading of some text, of any length, leaves this head and these tables.
pub fn audit_formula(
    head: Head,
    vars: &[Variable],
    clauses: &[Clause],
    literals: &[Literal],
) -> bool
    ensures is { result ≡ formula_lawful head vars.now clauses.now literals.now }
    ensures lawful { Decides result (LeftByAFormulaText head vars.now clauses.now literals.now) }
{
    if !lawful_head(head, vars.len(), clauses.len()) {
        return false;
    }
    let (declared, free_vars) = vars.split_at(head.variables as usize);
    let (used, free_clauses) = clauses.split_at(head.clauses as usize);
    lawful_variables(head, declared, free_vars)
        && lawful_clauses(declared, used, free_clauses, literals)
}
