// The linked shelf: an index of the clauses over the pool of blocks that hold them.
ghost use Rattle.std.specs.Prelude.{◌≡◌, ℕ, ◌+◌, ◌-◌, ◌*◌, ◌≤◌, min, [], length, vec_len, vec_capacity};
ghost use Rattle.engine.specs.Shelves.{entries_in, clause_at};
ghost use Rattle.linked.specs.Chains.{clause_of, clauses_of, chains, times, one_below};
ghost use Rattle.linked.specs.Moves.{blocks_of, touched, spares, Within};
ghost use Rattle.linked.specs.Fits.{linked_fits};

use super::blocks::{Block, Chain, MOST_BLOCKS};
use super::pool::Pool;
use clauses::entry::Entry;
use engine::shelf::Shelf;
use shelves::{MOST_CLAUSES, MOST_ENTRIES};

// The rows grow within the capacity that they were given.
#[derive(Drop)]
pub struct LinkedShelf {
    index: Vec<Chain>,
    pool: Pool,
    // How many clauses, and how many entries in all, the shelf takes, and how many entries it has.
    clauses: u32,
    width: u32,
    filled: u32,
    ghost few: { clauses ≤ 1000000 },
    ghost narrow: { width ≤ 16000000 },
    ghost clause_room: { clauses ≤ vec_capacity index },
    ghost entry_room: { width ≤ 4 * vec_capacity pool.blocks - 3 * clauses },
    ghost clauses_within: { vec_len index ≤ clauses },
    ghost entries_within: { filled ≤ width },
    ghost sum: { filled ≡ entries_in (clauses_of (blocks_of pool) index.items) },
    // Each block that was ever used is in one chain, and once: in a clause's, or in the list of free blocks.
    ghost apart: { (b : ℕ) → times b (chains (blocks_of pool) index.items) + times b (spares pool) ≡ one_below (touched pool) b },
    ghost whole: { length (chains (blocks_of pool) index.items) + pool.spare ≡ touched pool },
}

impl LinkedShelf {
    // An empty shelf over two rows, of whose capacities the first says how many clauses it takes, and both how many
    // entries; what they hold is let go.
    pub fn new(mut index: Vec<Chain>, mut blocks: Vec<Block>) -> LinkedShelf
        ensures list { clauses_of (blocks_of result.pool) result.index.items ≡ [] }
        ensures clauses { result.clauses ≡ min (vec_capacity index) 1000000 }
        ensures width { result.width ≡ min (4 * vec_capacity blocks - 3 * min (vec_capacity index) 1000000) 16000000 }
    {
        index.clear();
        blocks.clear();
        let clauses = index.capacity().min(MOST_CLAUSES);
        let places = blocks.capacity().min(MOST_BLOCKS);
        let width = (4 * places).saturating_sub(3 * clauses).min(MOST_ENTRIES);
        let pool = Pool {
            blocks,
            free: 0,
            spare: 0,
        };
        LinkedShelf {
            index,
            pool,
            clauses: clauses as u32,
            width: width as u32,
            filled: 0,
        }
    }

    // Where a clause is kept; a chain with no entries where there is no such clause. That its blocks
    // lie in the pool is asked by `entry` and `copy` alone, and a chain knows no pool, so it is no ghost field of one.
    fn find(&self, number: u32) -> Chain
        ensures is { clause_of (blocks_of self.now.pool) result ≡ clause_at (clauses_of (blocks_of self.now.pool) self.now.index.items) number }
        ensures within { Within self.now.pool result }
    {
        let Some(at) = (number as usize).checked_sub(1) else {
            return Chain::default();
        };
        self.index.get(at).copied().unwrap_or_default()
    }
}

impl Shelf for LinkedShelf {
    ghost list = { λ s. clauses_of (blocks_of s.pool) s.index.items };

    ghost K = { λ s. s.clauses };

    ghost W = { λ s. s.width };

    ghost fits = { λ s. linked_fits (blocks_of s.pool) s.index.items s.clauses s.width (vec_len s.index) s.filled s.index.ok.0 s.sum s.few s.narrow s.clauses_within s.entries_within };

    fn clear(&mut self) {
        while let Some(last) = self.index.pop() {
            self.pool.release(last);
            self.filled -= last.length;
        }
    }

    fn file(&mut self, clause: &[Entry]) -> Option<u32> {
        if self.index.len() >= self.clauses as usize {
            return None;
        }
        if clause.len() > (self.width - self.filled) as usize {
            return None;
        }
        let kept = self.pool.keep(clause);
        self.index.push_reserved(kept);
        self.filled += kept.length;
        Some(self.index.len() as u32)
    }

    fn count(&self) -> u32 {
        self.index.len() as u32
    }

    fn length(&self, number: u32) -> u32 {
        self.find(number).length
    }

    fn entry(&self, number: u32, index: u32) -> Entry {
        let found = self.find(number);
        if index < found.length {
            return self.pool.entry(found, index);
        }
        Entry::default()
    }

    fn copy(&self, number: u32, row: &mut [Entry]) -> usize {
        self.pool.copy(self.find(number), row)
    }

    fn clause_limit(&self) -> u32 {
        self.clauses
    }

    fn entry_limit(&self) -> u32 {
        self.width
    }
}
