// The tables that a formula is read into.
use base::values::ValueWord;

// The most variables that a formula may have.
pub const MAX_VARIABLES: u32 = 65_535;

// The most clauses.
pub const MAX_CLAUSES: u32 = 16_384;

// The most universals, and the most existentials.
pub const MAX_UNIVERSALS: u32 = 64;

pub const MAX_EXISTENTIALS: u32 = 4_096;

// The most literals of one clause.
pub const MAX_LITERALS: usize = 1_024;

// How a variable is quantified.
#[derive(Clone, Copy, PartialEq, Eq, Debug, Default)]
pub enum Kind {
    #[default]
    Undeclared,
    Universal,
    Existential,
}

// A variable's record: its kind, its position among those of its kind, from 1, and the universals that it may
// depend on. Variable v has index v - 1. The table is lent, and each entry has all three fields, 0 where they say nothing.
#[derive(Clone, Copy, PartialEq, Eq, Debug, Default)]
pub struct Variable {
    pub kind: Kind,
    pub position: u32,
    pub dependencies: ValueWord,
}

// Where a clause's literals stand in the literal table.
#[derive(Clone, Copy, PartialEq, Eq, Debug, Default)]
pub struct Clause {
    pub first: u32,
    pub len: u32,
}

// A variable or its negation.
#[derive(Clone, Copy, PartialEq, Eq, Debug, Default)]
pub struct Literal {
    pub variable: u32,
    pub negative: bool,
}

// The header's counts, V and C, and the numbers of universals and of existentials, n and E.
#[derive(Clone, Copy, PartialEq, Eq, Debug)]
pub struct Head {
    pub variables: u32,
    pub clauses: u32,
    pub universals: u32,
    pub existentials: u32,
}
