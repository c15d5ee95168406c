// A shelf: where an examiner keeps its clauses.
ghost use Rattle.std.specs.Prelude.{◌≡◌, ℕ, ◌≤◌, min, List, [], length, take};
ghost use Rattle.clauses.specs.Clauses.{over};
ghost use Rattle.clauses.specs.declared.entry.Entry.{Entry};
ghost use Rattle.engine.specs.Shelves.{entries_in, clause_at, entry_at, filed_number, filed_list};

use clauses::entry::Entry;

// A shelf means a list of clauses and two fixed numbers: at most K clauses, of at most W entries in all. How its
// memory holds the list is its own affair.
pub trait Shelf {
    ghost list: { Self → List (List Entry) };

    ghost K: { Self → ℕ };

    ghost W: { Self → ℕ };

    // K is at most 1,000,000 and W at most 16,000,000, and the list keeps within both.
    ghost fits: { (s : Self) → (K s ≤ 1000000) × (W s ≤ 16000000) × (length (list s) ≤ K s) × (entries_in (list s) ≤ W s) };

    // Empties the list.
    fn clear(&mut self)
        ensures empty { list self.new ≡ [] }
        ensures clause_limit { K self.new ≡ K self.old }
        ensures entry_limit { W self.new ≡ W self.old };

    // Appends a clause and answers its number, from 1. Refuses, changing nothing, exactly when K clauses are filed
    // or W entries would be passed.
    fn file(&mut self, clause: &[Entry]) -> Option<u32>
        ensures answer { result ≡ filed_number (K self.old) (W self.old) (list self.old) clause.now }
        ensures after { list self.new ≡ filed_list (K self.old) (W self.old) (list self.old) clause.now }
        ensures clause_limit { K self.new ≡ K self.old }
        ensures entry_limit { W self.new ≡ W self.old };

    // How many clauses are filed.
    fn count(&self) -> u32
        ensures { result ≡ length (list self.now) };

    // How many entries a clause has; 0 where there is no such clause.
    // Total, so that hosts may ask for any number.
    fn length(&self, number: u32) -> u32
        ensures { result ≡ length (clause_at (list self.now) number) };

    // The entry of a clause at an index, from 0; (0, 0) where there is none.
    // Total, so that hosts may ask for any number.
    fn entry(&self, number: u32, index: u32) -> Entry
        ensures { result ≡ entry_at (list self.now) number index };

    // Copies a clause, or as much of it as there is room for, to the front of a row; answers how many entries.
    fn copy(&self, number: u32, row: &mut [Entry]) -> usize
        ensures answer { result ≡ min (length (clause_at (list self.now) number)) (length row.old) }
        ensures after { row.new ≡ over (take (length row.old) (clause_at (list self.now) number)) row.old };

    // K.
    fn clause_limit(&self) -> u32
        ensures { result ≡ K self.now };

    // W.
    fn entry_limit(&self) -> u32
        ensures { result ≡ W self.now };
}
