// The words that a reader asks for: a number, a literal, a name. Each is read or refused.
// Text and place are two parameters: of one value, each contract would also have to say that both references stay.
ghost use Rattle.std.specs.Prelude.{◌≡◌, [], ◌∷◌, length, Some, IfOk, IfErr, OnOk, OnErr};
ghost use Rattle.base.specs.Causes.{told};
ghost use Rattle.words.specs.Words.{words_from, Onward};
ghost use Rattle.words.specs.Seen.{seen};
ghost use Rattle.words.specs.Due.{got, text_ends, no_number, no_literal, number_from, literal_from, name_from, Further};

use super::forms::{Numeral, is_over_nine};
use super::place::Place;
use super::word::{Word, take_word};
use base::faults::{Cause, Fault, Layer};

// The refusal of a word that is no number where one is due.
fn refuse_number(word: &[u8], place: usize) -> Fault
    ensures { told result ≡ no_number word.now place }
{
    let cause = if is_over_nine(word) {
        Cause::NumberTooLong
    } else {
        Cause::WordForm
    };
    Layer::Words.fault(cause, place)
}

// The refusal of a word that is no literal where one is due.
fn refuse_literal(word: &[u8], place: usize) -> Fault
    ensures { told result ≡ no_literal word.now place }
{
    match word {
        [b'-', number @ ..] => refuse_number(number, place),
        _ => refuse_number(word, place),
    }
}

// The next word, where one is due.
fn due_word<'a>(text: &'a [u8], place: &mut Place) -> Result<Word<'a>, Fault>
    ensures taken { IfOk result (λ w. words_from text.now place.old.at ≡ seen w ∷ words_from text.now place.new.at) }
    ensures none { OnErr result (words_from text.now place.old.at ≡ []) }
    ensures refused { IfErr result (λ e. told e ≡ text_ends (length text.now)) }
    ensures onward { IfOk result (λ w. Onward (Some (seen w)) place.old.at place.new.at (length text.now)) }
{
    take_word(text, place).ok_or(Layer::Words.fault(Cause::TextEnds, text.len()))
}

// The number that is due, with the place of its word.
pub fn read_number(text: &[u8], place: &mut Place) -> Result<(u32, usize), Fault>
    ensures is { got result (words_from text.now place.new.at) place.new.at ≡ number_from (words_from text.now place.old.at) (length text.now) }
    ensures onward { OnOk result (Further place.old.at place.new.at (length text.now)) }
{
    match due_word(text, place)? {
        Word::Number(_, at, n) if !n.negative => Ok((n.value, at)),
        Word::Number(_, at, _) | Word::Letter(_, at) => {
            Err(Layer::Words.fault(Cause::WordForm, at))
        }
        Word::Other(word, at) => Err(refuse_number(word, at)),
    }
}

// The literal, or the 0 behind the last one, that is due, with the place of its word.
pub fn read_literal(text: &[u8], place: &mut Place) -> Result<(Numeral, usize), Fault>
    ensures is { got result (words_from text.now place.new.at) place.new.at ≡ literal_from (words_from text.now place.old.at) (length text.now) }
    ensures onward { OnOk result (Further place.old.at place.new.at (length text.now)) }
{
    match due_word(text, place)? {
        Word::Number(_, at, n) => Ok((n, at)),
        Word::Letter(_, at) => Err(Layer::Words.fault(Cause::WordForm, at)),
        Word::Other(word, at) => Err(refuse_literal(word, at)),
    }
}

// The word that is due by name, as `cnf`.
pub fn read_name(text: &[u8], place: &mut Place, name: &[u8]) -> Result<(), Fault>
    ensures is { got result (words_from text.now place.new.at) place.new.at ≡ name_from name.now (words_from text.now place.old.at) (length text.now) }
    ensures onward { OnOk result (Further place.old.at place.new.at (length text.now)) }
{
    match due_word(text, place)? {
        Word::Letter(word, _) if word == name => Ok(()),
        Word::Letter(_, at) | Word::Number(_, at, _) | Word::Other(_, at) => {
            Err(Layer::Words.fault(Cause::WordForm, at))
        }
    }
}
