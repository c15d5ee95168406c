// Marks on the variables of one clause.
ghost use Rattle.std.specs.Prelude.{◌≡◌, ℕ, ◌<◌, ◌≤◌, false, ◌&&◌, ◌||◌, ◌==◌, nat_le, slice_index};
ghost use Rattle.formula.specs.declared.tables.TheConstants.{MAX_VARIABLES};

use super::tables::MAX_VARIABLES;

// A variable has a mark where its entry is the clause's number, so that the next clause begins with no mark and no
// entry has to be cleared.
#[derive(Drop)]
pub struct Marks {
    entries: [u16; MAX_VARIABLES as usize + 1],
    clause: u16,
    ghost begun: { 0 < clause },
    ghost within: { (v : ℕ) → slice_index entries v ≤ clause },
}

impl Marks {
    ghost use Rattle.formula.specs.Marks.{has_mark};

    // Begins the first clause, where no variable has a mark.
    pub fn new() -> Marks
        ensures { (v : ℕ) → has_mark result v ≡ false }
    {
        Marks {
            entries: [0; MAX_VARIABLES as usize + 1],
            clause: 1,
        }
    }

    // Begins the next clause, where no variable has a mark.
    pub fn next_clause(&mut self)
        ensures { (v : ℕ) → has_mark self.new v ≡ false }
    {
        if self.clause == u16::MAX {
            self.entries.fill(0);
            self.clause = 1;
        } else {
            self.clause += 1;
        }
    }

    // Whether variable v has a mark.
    pub fn has(&self, v: u32) -> bool
        ensures { result ≡ has_mark self.now v }
    {
        self.entries.get(v as usize) == Some(&self.clause)
    }

    // Marks variable v, where v is at most MAX_VARIABLES; no variable above it ever has a mark.
    pub fn add(&mut self, v: u32)
        ensures { (w : ℕ) → has_mark self.new w ≡ (has_mark self.old w || nat_le v MAX_VARIABLES && v == w) }
    {
        if v <= MAX_VARIABLES {
            self.entries[v as usize] = self.clause;
        }
    }
}
