// Numbers as the program reads them from its arguments and calls: digits alone, in any count.

// The number that decimal digits say; none where there are none, or another byte, or it is too large for the type.
pub(crate) fn plain<T: TryFrom<u64>>(word: &[u8]) -> Option<T>
where
    T::Error: Drop,
{
    T::try_from(plain_number(word)?).ok()
}

// Digits alone: `parse` would take a `+` too.
fn plain_number(word: &[u8]) -> Option<u64> {
    if word.is_empty() {
        return None;
    }
    word.iter().try_fold(0u64, |number, byte| {
        let digit = char::from(*byte).to_digit(10)?;
        number.checked_mul(10)?.checked_add(u64::from(digit))
    })
}

// The number that at most 16 hexadecimal digits say; none where there is another byte.
pub(crate) fn hex(digits: &[u8]) -> Option<u64> {
    digits.iter().try_fold(0u64, |number, byte| {
        let digit = char::from(*byte).to_digit(16)?;
        Some(number << 4 | u64::from(digit))
    })
}
