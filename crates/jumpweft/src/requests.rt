// The lines of a session: calls of the examiner, and questions about its shelf.
use super::number::{hex, plain};
use base::values::ValueWord;
use records::step::{Premise, Step};
use std::alloc::{AllocError, Global};

// What a line asks for; a record's bytes are still hexadecimal digits.
#[derive(Clone, Copy, Drop)]
pub(crate) enum Request<'a> {
    Open(u32),
    Step(Step),
    Take(&'a [u8]),
    Close(u32),
    Show(u32),
    Shelf,
}

// The words of a line that are left. A line is read word by word and without memory, so that none is too long for it, and one that is no
// call is read no further than to the word that says so.
#[derive(Drop)]
struct Words<'a> {
    rest: &'a [u8],
}

impl<'a> Words<'a> {
    // Takes the next word; an empty one where only blanks are left.
    fn next(&mut self) -> &'a [u8] {
        let start = self.rest.iter().position(|byte| !is_blank(*byte));
        let line = start
            .and_then(|start| self.rest.get(start..))
            .unwrap_or(&[]);
        let end = line.iter().position(|byte| is_blank(*byte));
        let (word, rest) = line.split_at(end.unwrap_or(line.len()));
        self.rest = rest;
        word
    }

    // Takes the next word, which is the last; none where another follows.
    fn last(&mut self) -> Option<&'a [u8]> {
        let word = self.next();
        self.is_empty().then_some(word)
    }

    // Takes the next word as a number.
    fn number<T: TryFrom<u64>>(&mut self) -> Option<T>
    where
        T::Error: Drop,
    {
        plain(self.next())
    }

    // Takes the last word as a number.
    fn last_number<T: TryFrom<u64>>(&mut self) -> Option<T>
    where
        T::Error: Drop,
    {
        plain(self.last()?)
    }

    // Whether only blanks are left.
    fn is_empty(&self) -> bool {
        self.rest.iter().all(|byte| is_blank(*byte))
    }
}

fn is_blank(byte: u8) -> bool {
    matches!(byte, b' ' | b'\t' | b'\r')
}

// Reads a line; none where it is no call.
pub(crate) fn read_request(line: &[u8]) -> Option<Request<'_>> {
    let mut words = Words { rest: line };
    match words.next() {
        b"open" => Some(Request::Open(words.last_number()?)),
        b"premise" => Some(Request::Step(Step::Premise(premise_of(&mut words)?))),
        b"resolve" => Some(Request::Step(Step::Resolve {
            first: words.number()?,
            second: words.number()?,
            position: words.last_number()?,
        })),
        b"settle" => Some(Request::Step(Step::Settle {
            goal: words.number()?,
            clause: words.last_number()?,
        })),
        b"take" => Some(Request::Take(words.last()?)),
        b"close" => Some(Request::Close(words.last_number()?)),
        b"show" => Some(Request::Show(words.last_number()?)),
        b"shelf" if words.is_empty() => Some(Request::Shelf),
        _ => None,
    }
}

fn premise_of(words: &mut Words<'_>) -> Option<Premise> {
    match words.next() {
        b"truth" => Some(Premise::Truth {
            class: words.number()?,
            number: words.number()?,
            part: words.last_number()?,
        }),
        b"falsity" => Some(Premise::Falsity {
            clause: words.number()?,
            values: values_of(words.last()?)?,
        }),
        _ => None,
    }
}

// The word of values that 16 hexadecimal digits say.
fn values_of(digits: &[u8]) -> Option<ValueWord> {
    if digits.len() != 16 {
        return None;
    }
    Some(ValueWord { bits: hex(digits)? })
}

// The bytes that pairs of hexadecimal digits say; none where they are no pairs, or there are none.
pub(crate) fn hex_bytes(heap: Global, digits: &[u8]) -> Result<Option<Vec<u8>>, AllocError> {
    if digits.is_empty() || digits.len() % 2 != 0 {
        return Ok(None);
    }
    digits
        .chunks_exact(2)
        .map(|pair| u8::try_from(hex(pair)?).ok())
        .collect(heap)
}
