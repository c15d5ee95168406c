// Entries: literals as they are stored.
ghost use Rattle.std.specs.Prelude.{◌≡◌};
ghost use Rattle.clauses.specs.Worlds.{entry_of, same_entry, complement_entry};
ghost use Rattle.clauses.specs.EntryLaws.{same_itself, same_back, same_through};
ghost use Rattle.clauses.specs.EntryLaws;

use super::literal::{Alike, Literal};
use base::values::ValueWord;

// A literal's code, 2y or 2y + 1 for y and its complement, and its values.
#[derive(Clone, Copy, PartialEq, Eq, Debug, Default)]
pub struct Entry {
    pub code: u32,
    pub values: ValueWord,
}

impl Entry {
    // The entry of a code, of which the lower four bytes are kept.
    pub fn of(code: u64, values: ValueWord) -> Entry
        ensures { result ≡ entry_of code values }
    {
        Entry {
            code: (code % 4_294_967_296) as u32,
            values,
        }
    }
}

impl Alike for Entry {
    ghost like = { same_entry };

    ghost reflexive = { same_itself };

    ghost symmetric = { same_back };

    ghost transitive = { same_through };

    fn alike(&self, other: &Entry) -> bool {
        self == other
    }
}

impl Literal for Entry {
    ghost meaning = { λ x. x };

    ghost opposite = { complement_entry };

    ghost twice = { EntryLaws.twice };

    ghost apart = { EntryLaws.apart };

    ghost one = { λ w x. w.one x };

    fn entry(&self) -> Entry {
        *self
    }

    fn complement(&self) -> Entry {
        Entry {
            code: self.code ^ 1,
            ..*self
        }
    }
}
