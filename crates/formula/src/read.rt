// The reader of formula texts: `p cnf V C`, then groups of declarations, then C clauses.
ghost use Rattle.std.specs.Prelude.{◌≡◌, ◌≤◌, length, replicate, ◌||◌, nat_lt, IfOk, OnOk};
ghost use Rattle.words.specs.Words.{words_from};
ghost use Rattle.words.specs.Due.{got};
ghost use Rattle.base.specs.Causes.{answered};
ghost use Rattle.formula.specs.Groups.{no_variable};
ghost use Rattle.formula.specs.Reading.{count_from, header_from, head_read, place_read, tables, formula_for, Agrees, Reads, no_span, no_literal};

use self::clauses::read_clauses;
use self::groups::read_groups;
use super::tables::{Clause, Head, Literal, MAX_CLAUSES, MAX_VARIABLES, Variable};
use base::faults::{Cause, Fault, Layer};
use words::due::{read_name, read_number};
use words::place::{KeptPlace, Place};
use words::word::check_length;

pub mod clauses;
pub mod groups;

// A count of the header, judged at its word: a broken limit comes before a table that is too short.
fn read_count(
    text: &[u8],
    place: &mut Place,
    least: u32,
    most: u32,
    room: usize,
) -> Result<u32, Fault>
    ensures is { got result (words_from text.now place.new.at) place.new.at ≡ count_from (λ n. nat_lt n least || nat_lt most n) room (words_from text.now place.old.at) (length text.now) }
    ensures limit { IfOk result (λ n. n ≤ most) }
    ensures fits { IfOk result (λ n. n ≤ room) }
{
    let (count, at) = read_number(text, place)?;
    if count < least || count > most {
        return Err(Layer::Formula.fault(Cause::FormulaLimit, at));
    }
    if count as usize > room {
        return Err(Layer::Formula.fault(Cause::TableShort, at));
    }
    Ok(count)
}

// V and C, behind the words `p` and `cnf`.
fn read_header(
    text: &[u8],
    place: &mut Place,
    variable_room: usize,
    clause_room: usize,
) -> Result<(u32, u32), Fault>
    ensures is { got result (words_from text.now place.new.at) place.new.at ≡ header_from (words_from text.now place.old.at) variable_room clause_room (length text.now) }
    ensures variables { IfOk result (λ h. h.0 ≤ MAX_VARIABLES) }
    ensures variables_fit { IfOk result (λ h. h.0 ≤ variable_room) }
    ensures clauses { IfOk result (λ h. h.1 ≤ MAX_CLAUSES) }
    ensures clauses_fit { IfOk result (λ h. h.1 ≤ clause_room) }
{
    read_name(text, place, b"p")?;
    read_name(text, place, b"cnf")?;
    let variables = read_count(text, place, 1, MAX_VARIABLES, variable_room)?;
    let clauses = read_count(text, place, 0, MAX_CLAUSES, clause_room)?;
    Ok((variables, clauses))
}

// Reads a formula into tables that are zero; what a refusal leaves in them and in the place is the caller's to clear. The
// tables are lent each by itself: of a struct of references each contract would also have to say that they stay.
fn read_into(
    text: &[u8],
    place: &mut Place,
    vars: &mut [Variable],
    clauses: &mut [Clause],
    literals: &mut [Literal],
) -> Result<Head, Fault>
    requires no_variables { vars.old ≡ replicate (length vars.old) no_variable }
    requires no_clauses { clauses.old ≡ replicate (length clauses.old) no_span }
    requires no_literals { literals.old ≡ replicate (length literals.old) no_literal }
    ensures is { answered result ≡ head_read (formula_for text.now place.old.at (tables vars.old clauses.old literals.old)) }
    ensures filled { OnOk result (Reads text.now place.old.at result (tables vars.old clauses.old literals.old) (tables vars.new clauses.new literals.new) place.new.at) }
{
    check_length(text)?;
    let (variables, count) = read_header(text, place, vars.len(), clauses.len())?;
    let vars = &mut vars[..variables as usize];
    let declared = read_groups(text, place, vars)?;
    read_clauses(text, place, vars, &mut clauses[..count as usize], literals)?;
    Ok(Head {
        variables,
        clauses: count,
        universals: declared.universals,
        existentials: declared.existentials,
    })
}

fn clear(vars: &mut [Variable], clauses: &mut [Clause], literals: &mut [Literal])
    ensures no_variables { vars.new ≡ replicate (length vars.old) no_variable }
    ensures no_clauses { clauses.new ≡ replicate (length clauses.old) no_span }
    ensures no_literals { literals.new ≡ replicate (length literals.old) no_literal }
{
    vars.fill(Variable::default());
    clauses.fill(Clause::default());
    literals.fill(Literal::default());
}

// Reads a formula into tables that are cleared before, and again after a refusal.
fn read_or_clear(
    text: &[u8],
    place: &mut Place,
    vars: &mut [Variable],
    clauses: &mut [Clause],
    literals: &mut [Literal],
) -> Result<Head, Fault>
    ensures read { let f = formula_for text.now place.old.at (tables vars.old clauses.old literals.old) in Agrees f result (tables vars.old clauses.old literals.old) (tables vars.new clauses.new literals.new) place.old.at (place_read f place.old.at) }
    ensures place { OnOk result (place.new.at ≡ place_read (formula_for text.now place.old.at (tables vars.old clauses.old literals.old)) place.old.at) }
{
    clear(vars, clauses, literals);
    let read = read_into(text, place, vars, clauses, literals);
    if read.is_err() {
        clear(vars, clauses, literals);
    }
    read
}

// Reads a formula from the place on. Accepted, the tables hold it and are zero behind it, and the place is behind
// its last word; refused, the tables are zero and the place is as it was.
pub fn read_formula(
    text: &[u8],
    place: &mut Place,
    vars: &mut [Variable],
    clauses: &mut [Clause],
    literals: &mut [Literal],
) -> Result<Head, Fault>
    ensures { Reads text.now place.old.at result (tables vars.old clauses.old literals.old) (tables vars.new clauses.new literals.new) place.new.at }
{
    let mut kept = KeptPlace::new(place);
    let head = read_or_clear(text, kept.place, vars, clauses, literals)?;
    kept.confirm();
    Ok(head)
}
