// The examiner of a case: one side and one shelf, and the rows that its steps work in.
ghost use Rattle.std.specs.Prelude.{◌≡◌, vec_len};

use super::shelf::Shelf;
use super::side::Side;
use clauses::entry::Entry;

pub mod calls;
pub mod questions;

// All the room that its calls need is here from the making, so that none of them allocates. A row that a premise is
// laid in is longer than any premise, so that what a side answers is the clause's length.
#[derive(Drop)]
pub struct Examiner<S: Side, F: Shelf> {
    side: S,
    shelf: F,
    case: Option<u32>,
    settled: Vec<bool>,
    first: Vec<Entry>,
    second: Vec<Entry>,
    row: Vec<Entry>,
    ghost goals: { vec_len settled ≡ 16384 },
    ghost first_room: { vec_len first ≡ 2048 },
    ghost second_room: { vec_len second ≡ 1024 },
    ghost row_room: { vec_len row ≡ 2048 },
}
