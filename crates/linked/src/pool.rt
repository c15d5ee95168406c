// The pool of blocks, and its list of free blocks.
ghost use Rattle.std.specs.Prelude.{◌≡◌, ℕ, ◌+◌, ◌<◌, ◌≤◌, min, [], ◌∷◌, length, take, vec_len, vec_capacity, slice_index_or};
ghost use Rattle.clauses.specs.Clauses.{over};
ghost use Rattle.engine.specs.Shelves.{no_entry};
ghost use Rattle.linked.specs.Chains.{blocks_for, four, first_four, chain, places, clause_of, times, one_below};

use super::blocks::{Block, Chain};
use clauses::entry::Entry;

// The row of blocks grows, within its capacity, when a block is wanted and none is free. Blocks refer to one another
// by place, since the row is lent memory and a call asks for no more.
#[derive(Drop)]
pub(crate) struct Pool {
    pub(crate) blocks: Vec<Block>,
    // The free blocks are a chain like a clause's, from the place `free`: the count `spare` says where it ends, so no
    // link has to say that none follows, and `free` isn't read where the count is 0.
    pub(crate) free: u32,
    pub(crate) spare: u32,
    // The places are numbers of 32 bits.
    ghost small: { vec_len blocks ≤ 4750000 },
    // No free block is listed twice.
    ghost once: { (b : ℕ) → times b (chain blocks.items spare free) ≤ one_below (vec_len blocks) b },
}

// How many blocks so many entries take.
fn blocks_for(length: u32) -> usize
    ensures { result ≡ blocks_for length }
{
    (length as usize).div_ceil(4)
}

// A block with the first four of these entries, or with no entry where there are fewer, and a link.
fn block_from(entries: &[Entry], next: u32) -> Block
    ensures entries { four result ≡ first_four entries.now }
    ensures next { result.next ≡ next }
{
    Block {
        entries: std::array::from_fn(|k| entries.get(k).copied().unwrap_or_default()),
        next,
    }
}

impl Pool {
    ghost use Rattle.linked.specs.Moves.{blocks_of, touched, block_at, spares, Taken, Returned, Within};

    // The block at a place.
    fn block(&self, place: u32) -> &Block
        requires { place < touched self.now }
        ensures { result.now ≡ block_at self.now place }
    {
        &self.blocks[place as usize]
    }

    // Puts a block at a free place, or at a place never used before; answers the place.
    fn store(&mut self, block: Block) -> u32
        requires { touched self.old < self.old.spare + min (vec_capacity self.old.blocks) 4750000 }
        ensures wrote { block_at self.new result ≡ block }
        ensures taken { Taken (result ∷ []) self.old self.new }
    {
        if self.spare == 0 {
            let fresh = self.blocks.len() as u32;
            self.blocks.push_reserved(block);
            return fresh;
        }
        let place = self.free;
        let next = self.block(place).next;
        self.blocks[place as usize] = block;
        self.free = next;
        self.spare -= 1;
        place
    }

    // Keeps a clause in blocks, the last of them first; answers where.
    pub(crate) fn keep(&mut self, clause: &[Entry]) -> Chain
        requires short { length clause.now ≤ 16000000 }
        requires room { touched self.old + blocks_for (length clause.now) ≤ self.old.spare + min (vec_capacity self.old.blocks) 4750000 }
        ensures is { clause_of (blocks_of self.new) result ≡ clause.now }
        ensures long { result.length ≡ length clause.now }
        ensures taken { Taken (places (blocks_of self.new) result) self.old self.new }
    {
        let mut head = 0;
        for part in clause.chunks(4).rev() {
            head = self.store(block_from(part, head));
        }
        Chain {
            head,
            length: clause.len() as u32,
        }
    }

    // Puts a block on the free list; answers the place of the block that followed it in its chain.
    fn give_back(&mut self, place: u32) -> u32
        requires below { place < touched self.old }
        requires apart { times place (spares self.old) ≡ 0 }
        requires few { self.old.spare < touched self.old }
        ensures next { result ≡ (block_at self.old place).next }
        ensures returned { Returned (place ∷ []) self.old self.new }
    {
        let next = self.block(place).next;
        self.blocks[place as usize].next = self.free;
        self.free = place;
        self.spare += 1;
        next
    }

    // Puts the blocks of a clause on the free list.
    pub(crate) fn release(&mut self, clause: Chain)
        requires apart { (b : ℕ) → times b (places (blocks_of self.old) clause) + times b (spares self.old) ≤ one_below (touched self.old) b }
        requires few { self.old.spare + blocks_for clause.length ≤ touched self.old }
        ensures { Returned (places (blocks_of self.old) clause) self.old self.new }
    {
        let mut place = clause.head;
        // As many steps along the chain as the clause has blocks: no link says that none follows.
        for _ in 0..blocks_for(clause.length) {
            place = self.give_back(place);
        }
    }

    // The entry of a clause at an index.
    pub(crate) fn entry(&self, clause: Chain, index: u32) -> Entry
        requires within { Within self.now clause }
        requires index { index < clause.length }
        ensures { result ≡ slice_index_or (clause_of (blocks_of self.now) clause) index no_entry }
    {
        let mut place = clause.head;
        // As many steps along the chain as whole blocks lie before the index.
        for _ in 0..index / 4 {
            place = self.block(place).next;
        }
        self.block(place).entries[index as usize % 4]
    }

    // Copies a clause, or as much of it as there is room for, to the front of a row; answers how many entries.
    pub(crate) fn copy(&self, clause: Chain, row: &mut [Entry]) -> usize
        requires { Within self.now clause }
        ensures answer { result ≡ min clause.length (length row.old) }
        ensures after { row.new ≡ over (take (length row.old) (clause_of (blocks_of self.now) clause)) row.old }
    {
        let n = (clause.length as usize).min(row.len());
        let mut place = clause.head;
        // Entry by entry: behind a loop over `chunks_mut` a proof does not know what was written.
        for (k, entry) in row[..n].iter_mut().enumerate() {
            let block = self.block(place);
            *entry = block.entries[k % 4];
            if k % 4 == 3 {
                place = block.next;
            }
        }
        n
    }
}
