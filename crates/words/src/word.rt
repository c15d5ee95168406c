// A word: a longest run of bytes that are no blanks, handed out as a stretch of the caller's text.
ghost use Rattle.std.specs.Prelude.{◌≡◌, not, length, position, Ok};
ghost use Rattle.std.specs.Option.{option_map};
ghost use Rattle.base.specs.Causes.{answered};
ghost use Rattle.words.specs.Forms.{blank};
ghost use Rattle.words.specs.Words.{classed, words_from, listed, Onward};
ghost use Rattle.words.specs.Seen.{seen};
ghost use Rattle.words.specs.Due.{unless_long};

use super::forms::{Numeral, is_blank, is_letters, numeral_of};
use super::place::Place;
use base::faults::{Cause, Fault, Layer};

// The most bytes that a text may have.
pub const LONGEST_TEXT: usize = 16_777_216;

// A word with the place of its first byte: letters from a to z, a number with its value, or any other.
#[derive(Clone, Copy, Debug)]
pub enum Word<'a> {
    Letter(&'a [u8], usize),
    Number(&'a [u8], usize, Numeral),
    Other(&'a [u8], usize),
}

// Refuses a text that is too long, before any of it is read.
pub fn check_length(text: &[u8]) -> Result<(), Fault>
    ensures { answered result ≡ unless_long (length text.now) (Ok tt) }
{
    if text.len() > LONGEST_TEXT {
        return Err(Layer::Words.fault(Cause::TextTooLong, 0));
    }
    Ok(())
}

// Where the first word begins, if there is one.
fn first_ink(bytes: &[u8]) -> Option<usize>
    ensures { result ≡ position (λ b. not (blank b)) bytes.now }
{
    bytes.iter().position(|b| !is_blank(*b))
}

// Where the first blank stands, if there is one.
fn first_blank(bytes: &[u8]) -> Option<usize>
    ensures { result ≡ position blank bytes.now }
{
    bytes.iter().position(|b| is_blank(*b))
}

fn classify(word: &[u8], place: usize) -> Word
    ensures { seen result ≡ classed word.now place }
{
    match numeral_of(word) {
        Some(numeral) => Word::Number(word, place, numeral),
        None if is_letters(word) => Word::Letter(word, place),
        None => Word::Other(word, place),
    }
}

// The next word, with the place moved to its end; none where only blanks are left, and the place is then the text's end.
pub fn take_word<'a>(text: &'a [u8], place: &mut Place) -> Option<Word<'a>>
    ensures is { words_from text.now place.old.at ≡ listed (option_map seen result) (words_from text.now place.new.at) }
    ensures onward { Onward (option_map seen result) place.old.at place.new.at (length text.now) }
{
    let left = text.get(place.at..)?;
    let Some(blanks) = first_ink(left) else {
        place.at = text.len();
        return None;
    };
    let word = &left[blanks..];
    let len = first_blank(word).unwrap_or(word.len());
    let start = place.at + blanks;
    place.at = start + len;
    Some(classify(&word[..len], start))
}
