// The shelf that the options name, over rows of the lengths that they give.
use super::arguments::Arguments;
use anyhow::anyhow;
use clauses::clause::LONGEST_CLAUSE;
use linked::blocks::MOST_BLOCKS;
use linked::shelf::LinkedShelf;
use shelves::flat::FlatShelf;
use shelves::{MOST_CLAUSES, MOST_ENTRIES};
use std::alloc::{AllocError, Global};
use std::str::FromStr;

const CLAUSES: u64 = MOST_CLAUSES as u64;

const ENTRIES: u64 = MOST_ENTRIES as u64;

const BLOCKS: u64 = MOST_BLOCKS as u64;

#[derive(Clone, Copy, Drop, Default)]
pub(crate) enum ShelfKind {
    #[default]
    Flat,
    Linked,
}

impl FromStr for ShelfKind {
    type Err = anyhow::Error;

    fn from_str(name: &str) -> anyhow::Result<ShelfKind> {
        match name {
            "flat" => Ok(ShelfKind::Flat),
            "linked" => Ok(ShelfKind::Linked),
            _ => Err(anyhow!("--shelf takes flat or linked")),
        }
    }
}

// The kind of shelf, and the lengths of its rows: how many clauses, and how many entries where an option gives them.
#[derive(Clone, Copy, Drop)]
pub(crate) struct ShelfRows {
    pub kind: ShelfKind,
    clauses: u64,
    entries: Option<u64>,
    // How many entries are wanted where no option gives them.
    wanted: u64,
}

impl ShelfRows {
    // The rows that the options give, by default long enough for every limit.
    pub(crate) fn whole(arguments: &Arguments<'_>) -> anyhow::Result<ShelfRows> {
        ShelfRows::given(arguments, CLAUSES, ENTRIES)
    }

    // The rows that the options give, by default long enough for every proof of this many bytes: a clause takes a
    // record of at least 8 bytes, and has at most 1,024 entries.
    pub(crate) fn for_proof(arguments: &Arguments<'_>, bytes: usize) -> anyhow::Result<ShelfRows> {
        let clauses = (bytes as u64 / 8).min(CLAUSES);
        ShelfRows::given(
            arguments,
            clauses,
            (clauses * LONGEST_CLAUSE as u64).min(ENTRIES),
        )
    }

    // The rows that the options give, or else of these lengths.
    fn given(arguments: &Arguments<'_>, clauses: u64, wanted: u64) -> anyhow::Result<ShelfRows> {
        let kind = match arguments.value("--shelf") {
            Some(name) => name.parse()?,
            None => ShelfKind::default(),
        };
        let filed = arguments.number_given("--filed")?;
        let entries = arguments.number_given("--entries")?;
        Ok(ShelfRows {
            kind,
            clauses: filed.unwrap_or(clauses).min(CLAUSES),
            entries,
            wanted,
        })
    }

    // The flat shelf over such rows.
    pub(crate) fn flat(&self, heap: Global) -> Result<FlatShelf, AllocError> {
        let entries = self.entries.unwrap_or(self.wanted).min(ENTRIES);
        let ends = Vec::with_capacity(heap, self.clauses as usize)?;
        let row = Vec::with_capacity(heap, entries as usize)?;
        Ok(FlatShelf::new(ends, row))
    }

    // The linked shelf over such rows: its entries lie in blocks of four, and each clause may leave three of its last
    // block unused.
    pub(crate) fn linked(&self, heap: Global) -> Result<LinkedShelf, AllocError> {
        let blocks = match self.entries {
            Some(entries) => entries / 4,
            None => self
                .clauses
                .saturating_mul(3)
                .saturating_add(self.wanted)
                .div_ceil(4),
        };
        let index = Vec::with_capacity(heap, self.clauses as usize)?;
        let row = Vec::with_capacity(heap, blocks.min(BLOCKS) as usize)?;
        Ok(LinkedShelf::new(index, row))
    }
}
