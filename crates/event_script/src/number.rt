//! Reads a word as a number.

ghost use Rattle.std.specs.Prelude.{◌≡◌, ◌≤◌, length};
ghost use Rattle.event_script.specs.Words.{digits_after, number_of};

/// How many digits a number has at most.
const MAX_DIGITS: usize = 20;

/// The number of these digits, if they are digits. At most 19 of them cannot overflow.
fn short_number(digits: &[u8]) -> Option<u64>
    requires { length digits.now ≤ 19 }
    ensures { result ≡ digits_after 0 digits.now }
{
    let mut number: u64 = 0;
    for byte in digits {
        if !byte.is_ascii_digit() {
            return None;
        }
        number = number * 10 + (*byte - b'0') as u64;
    }
    Some(number)
}

/// The number of 1 to 20 decimal digits, if it fits. Zeros in front are digits like others.
pub(crate) fn number_of(word: &[u8]) -> Option<u64>
    ensures { result ≡ number_of word.now }
{
    let (last, digits) = word.split_last()?;
    if word.len() < MAX_DIGITS {
        return short_number(word);
    }
    if word.len() > MAX_DIGITS || !last.is_ascii_digit() {
        return None;
    }
    short_number(digits)?
        .checked_mul(10)?
        .checked_add((*last - b'0') as u64)
}
