// The forms of words: blanks, letters, digits and numbers.
ghost use Rattle.std.specs.Prelude.{◌≡◌};
ghost use Rattle.words.specs.Forms.{blank, letters, digits, over_nine, number_value, numeral_value};

// A number with its sign. A minus stands only before a number that is not 0.
#[derive(Clone, Copy, PartialEq, Eq, Debug)]
pub struct Numeral {
    pub negative: bool,
    pub value: u32,
}

// Blanks are space, tab, carriage return and line feed.
pub(crate) fn is_blank(b: u8) -> bool
    ensures { result ≡ blank b }
{
    b == b' ' || b == b'\t' || b == b'\r' || b == b'\n'
}

// Whether each byte is a letter from a to z.
pub(crate) fn is_letters(word: &[u8]) -> bool
    ensures { result ≡ letters word.now }
{
    word.iter().all(|b| b.is_ascii_lowercase())
}

fn is_digits(word: &[u8]) -> bool
    ensures { result ≡ digits word.now }
{
    word.iter().all(|b| b.is_ascii_digit())
}

// Whether the word is a number of ten or more digits, the first not 0.
pub(crate) fn is_over_nine(word: &[u8]) -> bool
    ensures { result ≡ over_nine word.now }
{
    word.len() > 9 && word[0] != b'0' && is_digits(word)
}

// The value of a number: 0, or up to nine digits that do not begin with 0.
pub(crate) fn number_of(word: &[u8]) -> Option<u32>
    ensures { result ≡ number_value word.now }
{
    if matches!(word, [] | [b'0', _, ..]) || word.len() > 9 {
        return None;
    }
    // A loop: with `try_fold` a proof does not see that the value fits, a fact about how many digits were read.
    let mut n = 0;
    for b in word {
        n = n * 10 + char::from(*b).to_digit(10)?;
    }
    Some(n)
}

// The value of a number, or of one other than 0 with a minus in front.
pub(crate) fn numeral_of(word: &[u8]) -> Option<Numeral>
    ensures { result ≡ numeral_value word.now }
{
    match word {
        [b'-', rest @ ..] => number_of(rest).filter(|n| *n != 0).map(|value| Numeral {
            negative: true,
            value,
        }),
        _ => number_of(word).map(|value| Numeral {
            negative: false,
            value,
        }),
    }
}
