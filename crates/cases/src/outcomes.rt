// What comes of a reading, and texts that are too long to write out.
use base::faults::Fault;
use std::alloc::{AllocError, Global};
use std::fmt::{Debug, Write};
use std::test::Fail;

// What came of a reading.
#[derive(Clone, Copy, PartialEq, Eq, Debug)]
pub enum Outcome {
    // The place behind the last word, the head's four counts, and a word: of a formula the dependencies of variable V,
    // of a circuit the reach of the last output. Every table is zero behind what was read.
    Accepted(usize, (u32, u32, u32, u32), u64),
    // Cause, place and layer. Every table is zero, and the reading place is as it was.
    Refused(u8, usize, u8),
    // A table or the reading place is not as it has to be.
    Unlawful,
}

// A stretch of a text, and numbers behind it, each with a space in front: the first one, the step from one to the
// next, how many they are, and what stands behind each.
pub type Piece = (&'static str, u32, u32, u32, &'static str);

// A reader that is tried on texts, with the lengths of the tables that it is lent.
pub trait Reader {
    type Rooms: Copy + Drop;

    // Reads a text from a place on into tables that hold something else before.
    fn outcome_of(
        heap: Global,
        text: &[u8],
        at: usize,
        rooms: Self::Rooms,
    ) -> Result<Outcome, AllocError>;
}

// Each text, read from its place into tables of these lengths, has its outcome.
pub fn hold_short<R: Reader>(
    heap: Global,
    cases: &[(&'static str, usize, R::Rooms, Outcome)],
) -> Result<(), Fail> {
    for (text, at, rooms, outcome) in cases {
        let found = R::outcome_of(heap, text.as_bytes(), *at, *rooms)?;
        expect(found, *outcome, text)?;
    }
    Ok(())
}

// Each text of such pieces, read into tables of these lengths, has its outcome.
pub fn hold_long<R: Reader>(
    heap: Global,
    cases: &[(&'static [Piece], R::Rooms, Outcome)],
) -> Result<(), Fail> {
    for (pieces, rooms, outcome) in cases {
        let text = build(heap, pieces)?;
        let found = R::outcome_of(heap, text.as_str().as_bytes(), 0, *rooms)?;
        expect(found, *outcome, pieces)?;
    }
    Ok(())
}

// The longest text, here of blanks, is read to its end; one byte more is refused before all else.
pub fn hold_longest<R: Reader>(heap: Global, rooms: R::Rooms) -> Result<(), Fail> {
    let mut text = vec![in heap; b' '; 16_777_216]?;
    let found = R::outcome_of(heap, text.as_slice(), 0, rooms)?;
    expect(
        found,
        Outcome::Refused(4, 16_777_216, 1),
        &"the longest text",
    )?;
    text.push(b' ')?;
    for at in [0, 16_777_218] {
        let found = R::outcome_of(heap, text.as_slice(), at, rooms)?;
        expect(found, Outcome::Refused(1, 0, 1), &"a longer text")?;
    }
    Ok(())
}

// Fails where a text has another outcome.
fn expect<D: Debug>(found: Outcome, outcome: Outcome, text: &D) -> Result<(), Fail> {
    if found != outcome {
        return Err(Fail::new(format_args!("{text:?}: {found:?}, and not {outcome:?}")));
    }
    Ok(())
}

pub fn refusal(fault: Fault) -> Outcome {
    Outcome::Refused(fault.cause.number(), fault.place, fault.layer.number())
}

pub fn all_are<T: PartialEq + Copy>(entries: &[T], zero: T) -> bool {
    entries.iter().all(|entry| *entry == zero)
}

pub fn build(heap: Global, pieces: &[Piece]) -> Result<String, AllocError> {
    let mut text = String::new(heap);
    for (stretch, first, step, count, behind) in pieces {
        text.push_str(stretch)?;
        for i in 0..*count {
            let number = step.wrapping_mul(i).wrapping_add(*first);
            write!(text, " {number}{behind}")?;
        }
    }
    Ok(text)
}
