// Clauses: literals up to a 0, into the rest of the literal table.
ghost use Rattle.std.specs.Prelude.{◌≡◌, ◌+◌, ◌<◌, ◌≤◌, [], length, take, IfOk, OnOk};
ghost use Rattle.words.specs.Words.{words_from};
ghost use Rattle.base.specs.Causes.{answered};
ghost use Rattle.words.specs.Tables.{Kept};
ghost use Rattle.formula.specs.declared.tables.TheConstants.{MAX_CLAUSES, MAX_VARIABLES};
ghost use Rattle.formula.specs.Clauses.{no_clause, literal_of, judge_literal, clause_from, clauses_from};
ghost use Rattle.formula.specs.Groups.{followed};
ghost use Rattle.formula.specs.Marks.{has_mark};

use super::super::lookup::variable;
use super::super::marks::Marks;
use super::super::tables::{Clause, Kind, Literal, MAX_LITERALS, Variable};
use base::faults::{Cause, Fault, Layer};
use words::due::read_literal;
use words::forms::Numeral;
use words::place::Place;

// The literal that a number stands for, behind `count` others of its clause, where the table has room for `room`.
fn check_literal(
    vars: &[Variable],
    marks: &Marks,
    count: usize,
    room: usize,
    number: Numeral,
    at: usize,
) -> Result<Literal, Fault>
    requires above { 0 < number.value }
    ensures is { answered result ≡ judge_literal (length vars.now) vars.now count (has_mark marks.now number.value) room number at }
    ensures same { IfOk result (λ l. l ≡ literal_of number) }
    ensures known { IfOk result (λ l. l.variable ≤ length vars.now) }
    ensures room { OnOk result (count < room) }
    ensures few { OnOk result (count < MAX_LITERALS) }
{
    let v = number.value;
    if count >= MAX_LITERALS {
        return Err(Layer::Formula.fault(Cause::FormulaLimit, at));
    }
    if variable(vars, v).is_none_or(|x| x.kind == Kind::Undeclared) {
        return Err(Layer::Formula.fault(Cause::VariableUnfit, at));
    }
    if marks.has(v) {
        return Err(Layer::Formula.fault(Cause::VariableTwice, at));
    }
    if count >= room {
        return Err(Layer::Formula.fault(Cause::TableShort, at));
    }
    Ok(Literal {
        variable: v,
        negative: number.negative,
    })
}

// One clause, into the front of the rest of the literal table; answers how many literals it has.
fn read_clause(
    text: &[u8],
    place: &mut Place,
    vars: &[Variable],
    marks: &mut Marks,
    rest: &mut [Literal],
) -> Result<usize, Fault>
    requires variables { length vars.now ≤ MAX_VARIABLES }
    ensures is { followed result (λ n. Ok (take n rest.new, words_from text.now place.new.at, place.new.at)) ≡ clause_from (length vars.now) vars.now [] (words_from text.now place.old.at) (length rest.old) (length text.now) }
    ensures few { IfOk result (λ n. n ≤ MAX_LITERALS) }
    ensures room { IfOk result (λ n. n ≤ length rest.old) }
    ensures kept { IfOk result (λ n. Kept n rest.old rest.new) }
{
    marks.next_clause();
    // How many literals are read: a table that is too short is refused last of a literal's faults.
    let mut n = 0;
    loop {
        let (number, at) = read_literal(text, place)?;
        if number.value == 0 {
            return Ok(n);
        }
        let literal = check_literal(vars, marks, n, rest.len(), number, at)?;
        marks.add(literal.variable);
        rest[n] = literal;
        n += 1;
    }
}

// The clauses, as many as their table has room for, one behind the other in the literal table; answers how many
// literals they have.
pub(crate) fn read_clauses(
    text: &[u8],
    place: &mut Place,
    vars: &[Variable],
    clauses: &mut [Clause],
    literals: &mut [Literal],
) -> Result<usize, Fault>
    requires variables { length vars.now ≤ MAX_VARIABLES }
    requires few { length clauses.old ≤ MAX_CLAUSES }
    ensures is { followed result (λ n. Ok (record { spans = clauses.new; literals = take n literals.new }, words_from text.now place.new.at, place.new.at)) ≡ clauses_from (length vars.now) vars.now (length clauses.old) no_clause (words_from text.now place.old.at) place.old.at (length literals.old) (length text.now) }
    ensures room { IfOk result (λ n. n ≤ length literals.old) }
    ensures kept { IfOk result (λ n. Kept n literals.old literals.new) }
{
    let mut marks = Marks::new();
    let mut at = 0;
    for clause in clauses {
        // The rest of the literal table: a clause stands directly behind the one before it.
        let len = read_clause(text, place, vars, &mut marks, &mut literals[at..])?;
        *clause = Clause {
            first: at as u32,
            len: len as u32,
        };
        at += len;
    }
    Ok(at)
}
