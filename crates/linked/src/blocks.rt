// Blocks of four entries, and the chains of blocks that hold clauses.
use clauses::entry::Entry;

// The most blocks that a shelf uses: they hold the most entries, and three unused places for each of the most clauses.
pub const MOST_BLOCKS: usize = 4_750_000;

// Four entries, and the place of the block that follows in the chain.
#[derive(Clone, Copy)]
pub struct Block {
    pub entries: [Entry; 4],
    pub next: u32,
}

// Where a clause is kept: the place of its first block, and how many entries it has.
#[derive(Clone, Copy, Default)]
pub struct Chain {
    pub head: u32,
    pub length: u32,
}
