// The linked shelf: each clause in a chain of blocks, over a list of free blocks.
#![tactic(auto)]

pub mod blocks;
mod pool;
pub mod shelf;
