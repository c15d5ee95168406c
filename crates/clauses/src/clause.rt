// Clauses: membership, containment and resolution, one text for every kind of literal.
ghost use Rattle.std.specs.Prelude.{◌≡◌, ◌+◌, ◌-◌, ◌≤◌, ◌++◌, length, take, drop, false};
ghost use Rattle.clauses.specs.Clauses.{member, contained, found_in, filed, joined, told_clause, over, join, PremiseKept, Resolved};

use super::literal::{Alike, Literal};
use base::faults::Cause;

// The most literals that a filed clause may have.
pub const LONGEST_CLAUSE: usize = 1_024;

// What of a literal and its complement stands first in a clause: three answers, none of which holds a value.
#[derive(Clone, Copy, PartialEq, Eq, Debug)]
pub enum Found {
    Same,
    Opposite,
    Neither,
}

// Whether x stands among the items.
pub fn contains<T: Alike>(items: &[T], x: &T) -> bool
    ensures { result ≡ member T.Alike.like x.now items.now }
{
    items.iter().any(|y| y.alike(x))
}

// Whether each of these items stands among the others.
pub fn is_contained<T: Alike>(items: &[T], others: &[T]) -> bool
    ensures { result ≡ contained T.Alike.like items.now others.now }
{
    items.iter().all(|x| contains(others, x))
}

// What stands first in the clause: x, its complement, or neither.
fn find<L: Literal + Copy>(clause: &[L], x: &L) -> Found
    ensures { result ≡ found_in L.Alike.like x.now (L.Literal.opposite x.now) clause.now }
{
    let complement = x.complement();
    // Two literals are looked for at once, so a chain is no shorter.
    for y in clause {
        if y.alike(x) {
            return Found::Same;
        }
        if y.alike(&complement) {
            return Found::Opposite;
        }
    }
    Found::Neither
}

// Joins more literals to the clause that stands at the front of a row with this length, each kept only where it first
// stands, without the one excepted: how many literals the clause then has, or the cause why it is none.
fn join_all<L: Literal + Copy>(
    row: &mut [L],
    start: usize,
    more: &[L],
    except: Option<L>,
) -> Result<usize, Cause>
    requires { start + length more.now ≤ length row.old }
    ensures answer { told_clause result row.new ≡ filed (join L.Alike.like L.Literal.opposite except (joined (take start row.old) false) more.now) }
    ensures kept { row.new ≡ over (join L.Alike.like L.Literal.opposite except (joined (take start row.old) false) more.now).clause row.old }
{
    // The row is lent: its first literals are the clause.
    let mut len = start;
    // After a clash the joining goes on: the row has to hold the other literals too.
    let mut clash = false;
    for y in more {
        if except.as_ref().is_some_and(|x| y.alike(x)) {
            continue;
        }
        match find(&row[..len], y) {
            Found::Same => {}
            Found::Opposite => clash = true,
            Found::Neither => {
                row[len] = *y;
                len += 1;
            }
        }
    }
    if clash {
        return Err(Cause::BothSigns);
    }
    if len > LONGEST_CLAUSE {
        return Err(Cause::ClauseTooLong);
    }
    Ok(len)
}

// The premise with each literal kept once, at the front of the row; the row has to be as long as the premise.
pub fn keep_once<L: Literal + Copy>(premise: &[L], row: &mut [L]) -> Result<usize, Cause>
    ensures { PremiseKept L.Alike.like L.Literal.opposite premise.now result row.old row.new }
{
    if row.len() < premise.len() {
        return Err(Cause::TableShort);
    }
    join_all(row, 0, premise, None)
}

// Copies a clause without its literal at a position, from 1, to the front of the row.
fn copy_without<L: Copy>(clause: &[L], position: usize, row: &mut [L])
    requires from_one { 1 ≤ position }
    requires there { position ≤ length clause.now }
    requires room { length clause.now ≤ length row.old }
    ensures { row.new ≡ over (take (position - 1) clause.now ++ drop position clause.now) row.old }
{
    row[..position - 1].copy_from_slice(&clause[..position - 1]);
    row[position - 1..clause.len() - 1].copy_from_slice(&clause[position..]);
}

// The resolvent of two clauses at a position of the first, from 1, at the front of the row; the row has to be as
// long as both clauses.
pub fn resolve<L: Literal + Copy>(
    first: &[L],
    second: &[L],
    position: usize,
    row: &mut [L],
) -> Result<usize, Cause>
    ensures { Resolved L.Alike.like L.Literal.opposite first.now second.now position result row.old row.new }
{
    if row.len() < first.len() || row.len() - first.len() < second.len() {
        return Err(Cause::TableShort);
    }
    if position == 0 || position > first.len() {
        return Err(Cause::NotThere);
    }
    let pivot = first[position - 1].complement();
    if !contains(second, &pivot) {
        return Err(Cause::ComplementMissing);
    }
    copy_without(first, position, row);
    join_all(row, first.len() - 1, second, Some(pivot))
}
