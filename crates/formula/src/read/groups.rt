// Groups of declarations: `a` universals, `e` existentials, `d` an existential with its dependencies.
ghost use Rattle.std.specs.Prelude.{◌≡◌, ◌<◌, ◌≤◌, length, OnOk};
ghost use Rattle.words.specs.Words.{words_from};
ghost use Rattle.words.specs.Due.{Further};
ghost use Rattle.base.specs.Causes.{answered};
ghost use Rattle.formula.specs.Groups.{fresh, declared, add_in, add_dependency, group_in, inside, followed, groups_at, Begins, nothing_declared, Where};

use super::super::lookup::variable;
use super::super::tables::{Kind, MAX_EXISTENTIALS, MAX_UNIVERSALS, Variable};
use base::faults::{Cause, Fault, Layer};
use base::values::ValueWord;
use words::due::read_number;
use words::place::Place;
use words::word::{Word, take_word};

// How many universals and existentials are declared so far.
#[derive(Clone, Copy, PartialEq, Eq, Debug, Default)]
pub(crate) struct Counts {
    pub(crate) universals: u32,
    pub(crate) existentials: u32,
}

#[derive(Clone, Copy, PartialEq, Eq, Debug)]
pub(crate) enum Quantifier {
    Universal,
    Existential,
}

// A group: a list of variables under one quantifier, or an existential with its dependencies.
#[derive(Clone, Copy, PartialEq, Eq, Debug)]
pub(crate) enum Group {
    Listed(Quantifier),
    Dependent,
}

// The group that a word begins. That it begins none is no error: the clauses follow.
fn group_of(word: &[u8]) -> Option<Group>
    ensures { result ≡ group_in word.now }
{
    match word {
        [b'a'] => Some(Group::Listed(Quantifier::Universal)),
        [b'e'] => Some(Group::Listed(Quantifier::Existential)),
        [b'd'] => Some(Group::Dependent),
        _ => None,
    }
}

// A variable that is declared has to be one of the formula's, and not declared before.
fn check_fresh(vars: &[Variable], v: u32, at: usize) -> Result<(), Fault>
    ensures is { answered result ≡ fresh (length vars.now) vars.now v at }
    ensures above { OnOk result (0 < v) }
    ensures within { OnOk result (v ≤ length vars.now) }
{
    let record = variable(vars, v).ok_or(Layer::Formula.fault(Cause::VariableUnfit, at))?;
    if record.kind != Kind::Undeclared {
        return Err(Layer::Formula.fault(Cause::VariableTwice, at));
    }
    Ok(())
}

// Declares v, which stands at a place, in a group. An existential of a list depends on every universal declared so
// far; one with dependencies of its own has none yet.
fn declare(
    vars: &mut [Variable],
    counts: Counts,
    group: Group,
    v: u32,
    at: usize,
) -> Result<Counts, Fault>
    ensures is { followed result (λ c. Ok (declared c vars.new)) ≡ add_in group (length vars.old) (declared counts vars.old) v at }
    ensures above { OnOk result (0 < v) }
    ensures within { OnOk result (v ≤ length vars.old) }
{
    let (quantifier, dependencies) = match group {
        Group::Listed(Quantifier::Universal) => (Quantifier::Universal, ValueWord::empty()),
        Group::Listed(Quantifier::Existential) => (
            Quantifier::Existential,
            ValueWord::first(counts.universals),
        ),
        Group::Dependent => (Quantifier::Existential, ValueWord::empty()),
    };
    let (kind, count, limit) = match quantifier {
        Quantifier::Universal => (Kind::Universal, counts.universals, MAX_UNIVERSALS),
        Quantifier::Existential => (Kind::Existential, counts.existentials, MAX_EXISTENTIALS),
    };
    if count >= limit {
        return Err(Layer::Formula.fault(Cause::FormulaLimit, at));
    }
    check_fresh(vars, v, at)?;
    let position = count + 1;
    vars[v as usize - 1] = Variable {
        kind,
        position,
        dependencies,
    };
    Ok(match quantifier {
        Quantifier::Universal => Counts {
            universals: position,
            ..counts
        },
        Quantifier::Existential => Counts {
            existentials: position,
            ..counts
        },
    })
}

// Lets the existential v depend on u, which stands at a place.
fn declare_dependency(vars: &mut [Variable], v: u32, u: u32, at: usize) -> Result<(), Fault>
    requires above { 0 < v }
    requires within { v ≤ length vars.old }
    ensures { (c : Counts) → followed result (λ _. Ok (declared c vars.new)) ≡ add_dependency (length vars.old) (declared c vars.old) v u at }
{
    let Some(universal) = variable(vars, u).filter(|x| x.kind == Kind::Universal) else {
        return Err(Layer::Formula.fault(Cause::VariableUnfit, at));
    };
    let dependencies = &mut vars[v as usize - 1].dependencies;
    if dependencies.has(universal.position) {
        return Err(Layer::Formula.fault(Cause::VariableTwice, at));
    }
    *dependencies = dependencies.union(ValueWord::single(universal.position));
    Ok(())
}

// The rest of an `a` or an `e` group, up to its 0.
fn read_listed(
    text: &[u8],
    place: &mut Place,
    vars: &mut [Variable],
    counts: Counts,
    quantifier: Quantifier,
) -> Result<Counts, Fault>
    ensures is { followed result (λ c. groups_at text.now place.new.at Where.outside (declared c vars.new)) ≡ groups_at text.now place.old.at (Where.listed quantifier) (declared counts vars.old) }
    ensures onward { OnOk result (Further place.old.at place.new.at (length text.now)) }
{
    let mut counts = counts;
    loop {
        let (v, at) = read_number(text, place)?;
        if v == 0 {
            return Ok(counts);
        }
        counts = declare(vars, counts, Group::Listed(quantifier), v, at)?;
    }
}

// The dependencies of v, up to their 0.
fn read_dependencies(
    text: &[u8],
    place: &mut Place,
    vars: &mut [Variable],
    v: u32,
) -> Result<(), Fault>
    requires above { 0 < v }
    requires within { v ≤ length vars.old }
    ensures is { (c : Counts) → followed result (λ _. groups_at text.now place.new.at Where.outside (declared c vars.new)) ≡ groups_at text.now place.old.at (Where.dependencies v) (declared c vars.old) }
    ensures onward { OnOk result (Further place.old.at place.new.at (length text.now)) }
{
    loop {
        let (u, at) = read_number(text, place)?;
        if u == 0 {
            return Ok(());
        }
        declare_dependency(vars, v, u, at)?;
    }
}

// The rest of a `d` group: the variable that it declares, then its dependencies.
fn read_dependent(
    text: &[u8],
    place: &mut Place,
    vars: &mut [Variable],
    counts: Counts,
) -> Result<Counts, Fault>
    ensures is { followed result (λ c. groups_at text.now place.new.at Where.outside (declared c vars.new)) ≡ groups_at text.now place.old.at Where.dependent (declared counts vars.old) }
    ensures onward { OnOk result (Further place.old.at place.new.at (length text.now)) }
{
    let (v, at) = read_number(text, place)?;
    let counts = declare(vars, counts, Group::Dependent, v, at)?;
    read_dependencies(text, place, vars, v)?;
    Ok(counts)
}

// A group behind its letter.
fn read_group(
    text: &[u8],
    place: &mut Place,
    vars: &mut [Variable],
    counts: Counts,
    group: Group,
) -> Result<Counts, Fault>
    ensures is { followed result (λ c. groups_at text.now place.new.at Where.outside (declared c vars.new)) ≡ groups_at text.now place.old.at (inside group) (declared counts vars.old) }
    ensures onward { OnOk result (Further place.old.at place.new.at (length text.now)) }
{
    match group {
        Group::Listed(quantifier) => read_listed(text, place, vars, counts, quantifier),
        Group::Dependent => read_dependent(text, place, vars, counts),
    }
}

// The group that the next word begins, with the place moved behind that word; none, and the place as it was, where
// the next word begins no group.
fn next_group(text: &[u8], place: &mut Place) -> Option<Group>
    ensures is { Begins result (words_from text.now place.old.at) (words_from text.now place.new.at) place.old.at place.new.at (length text.now) }
{
    let mut ahead = *place;
    let Some(Word::Letter(word, _)) = take_word(text, &mut ahead) else {
        return None;
    };
    let group = group_of(word)?;
    *place = ahead;
    Some(group)
}

// Groups up to the first word that begins none, over the table of the formula's variables.
pub(crate) fn read_groups(
    text: &[u8],
    place: &mut Place,
    vars: &mut [Variable],
) -> Result<Counts, Fault>
    ensures { followed result (λ c. Ok (declared c vars.new, words_from text.now place.new.at, place.new.at)) ≡ groups_at text.now place.old.at Where.outside (nothing_declared vars.old) }
{
    let mut counts = Counts::default();
    while let Some(group) = next_group(text, place) {
        counts = read_group(text, place, vars, counts, group)?;
    }
    Ok(counts)
}
