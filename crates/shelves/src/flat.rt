// The flat shelf: all entries in one row, and a row of the places where the clauses end.
ghost use Rattle.std.specs.Prelude.{◌≡◌, ◌+◌, ◌≤◌, min, true, [], ◌∷◌, ◌++◌, length, vec_len, vec_capacity, slice_index};
ghost use Rattle.engine.specs.Shelves.{clause_at};
ghost use Rattle.shelves.specs.Cut.{cut, rising, cut_fits};

use super::{MOST_CLAUSES, MOST_ENTRIES};
use clauses::entry::Entry;
use engine::shelf::Shelf;

// The clause with the number n has the entries from the end before its own up to `ends[n - 1]`. The rows grow within
// the capacity that they were given.
#[derive(Drop)]
pub struct FlatShelf {
    ends: Vec<u32>,
    entries: Vec<Entry>,
    // How many clauses, and how many entries in all, the shelf takes.
    clauses: u32,
    width: u32,
    ghost few: { clauses ≤ 1000000 },
    ghost narrow: { width ≤ 16000000 },
    ghost clause_room: { clauses ≤ vec_capacity ends },
    ghost entry_room: { width ≤ vec_capacity entries },
    ghost clauses_within: { vec_len ends ≤ clauses },
    ghost entries_within: { vec_len entries ≤ width },
    // The ends ascend, and the last is where the row of entries ends.
    ghost rise: { rising 0 ends.items (vec_len entries) ≡ true },
}

// Appends a clause to a row that has room for it. `extend_from_slice` may ask for memory, and `push_reserved` does not.
fn append(row: &mut Vec<Entry>, clause: &[Entry])
    requires { vec_len row.old + length clause.now ≤ vec_capacity row.old }
    ensures items { row.new.items ≡ row.old.items ++ clause.now }
    ensures len { vec_len row.new ≡ vec_len row.old + length clause.now }
    ensures capacity { vec_capacity row.new ≡ vec_capacity row.old }
{
    for entry in clause {
        row.push_reserved(*entry);
    }
}

impl FlatShelf {
    // An empty shelf over two rows, whose capacities say how many clauses and entries it takes; what they hold is
    // let go.
    pub fn new(mut ends: Vec<u32>, mut entries: Vec<Entry>) -> FlatShelf
        ensures list { cut 0 result.ends.items result.entries.items ≡ [] }
        ensures clauses { result.clauses ≡ min (vec_capacity ends) 1000000 }
        ensures width { result.width ≡ min (vec_capacity entries) 16000000 }
    {
        ends.clear();
        entries.clear();
        let clauses = ends.capacity().min(MOST_CLAUSES) as u32;
        let width = entries.capacity().min(MOST_ENTRIES) as u32;
        FlatShelf {
            ends,
            entries,
            clauses,
            width,
        }
    }

    // Where the entries of the clause at an index, from 0, begin: where those of the clause before it end.
    fn start(&self, index: usize) -> usize
        requires { index ≤ vec_len self.now.ends }
        ensures { result ≡ slice_index (0 ∷ self.now.ends.items) index }
    {
        match index.checked_sub(1) {
            Some(before) => self.ends[before] as usize,
            None => 0,
        }
    }

    // The entries of a clause; none where there is no such clause.
    fn clause(&self, number: u32) -> &[Entry]
        ensures is { result.now ≡ clause_at (cut 0 self.now.ends.items self.now.entries.items) number }
        ensures short { length result.now ≤ 16000000 }
    {
        let Some(index) = (number as usize).checked_sub(1) else {
            return &[];
        };
        let Some(end) = self.ends.get(index) else {
            return &[];
        };
        &self.entries.as_slice()[self.start(index)..*end as usize]
    }
}

impl Shelf for FlatShelf {
    ghost list = { λ s. cut 0 s.ends.items s.entries.items };

    ghost K = { λ s. s.clauses };

    ghost W = { λ s. s.width };

    ghost fits = { λ s. cut_fits s.ends.items s.entries.items s.clauses s.width (vec_len s.ends) (vec_len s.entries) s.ends.ok.0 s.entries.ok.0 s.rise s.few s.narrow s.clauses_within s.entries_within };

    fn clear(&mut self) {
        self.ends.clear();
        self.entries.clear();
    }

    fn file(&mut self, clause: &[Entry]) -> Option<u32> {
        if self.ends.len() >= self.clauses as usize {
            return None;
        }
        if clause.len() > self.width as usize - self.entries.len() {
            return None;
        }
        append(&mut self.entries, clause);
        self.ends.push_reserved(self.entries.len() as u32);
        Some(self.ends.len() as u32)
    }

    fn count(&self) -> u32 {
        self.ends.len() as u32
    }

    fn length(&self, number: u32) -> u32 {
        self.clause(number).len() as u32
    }

    fn entry(&self, number: u32, index: u32) -> Entry {
        let clause = self.clause(number);
        clause.get(index as usize).copied().unwrap_or_default()
    }

    fn copy(&self, number: u32, row: &mut [Entry]) -> usize {
        let source = self.clause(number);
        let n = source.len().min(row.len());
        row[..n].copy_from_slice(&source[..n]);
        n
    }

    fn clause_limit(&self) -> u32 {
        self.clauses
    }

    fn entry_limit(&self) -> u32 {
        self.width
    }
}
