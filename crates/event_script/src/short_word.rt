//! Reads a word that is a short number, in one pass.

ghost use Rattle.std.specs.Prelude.{ℕ, ◌≡◌, ◌≢◌, ◌<◌, ◌≤◌, ◌∷◌, List, Some, IfSome, length, take};
ghost use Rattle.std.specs.Prelude.{slice_index};
ghost use Rattle.event_script.specs.Words.{digits_after, number_of, words_of};

use crate::words::count_spaces;

/// How many digits a number has at most that cannot overflow.
const SHORT: usize = 19;

/// The number that the digits in front make, and how many these are: 19 at most.
fn front_digits(text: &[u8]) -> (u64, usize)
    ensures few { result.1 ≤ 19 }
    ensures within { result.1 ≤ length text.now }
    ensures none { (k : ℕ) → k < result.1 → slice_index text.now k ≢ 32 }
    ensures number { digits_after 0 (take result.1 text.now) ≡ Some result.0 }
{
    let mut number: u64 = 0;
    for (i, byte) in text.iter().enumerate() {
        if i >= SHORT || !byte.is_ascii_digit() {
            return (number, i);
        }
        number = number * 10 + (*byte - b'0') as u64;
    }
    (number, text.len())
}

/// The first word as a number, where it has at most 19 digits, and what stands behind it.
pub(crate) fn short_word(bytes: &[u8]) -> Option<(u64, &[u8])>
    ensures { IfSome result (λ found. (word : List ℕ)
        × (words_of bytes.now ≡ word ∷ words_of found.1.now) × (number_of word ≡ Some found.0)) }
{
    let text = &bytes[count_spaces(bytes)..];
    let (number, end) = front_digits(text);
    if end == 0 || (end < text.len() && text[end] != b' ') {
        return None;
    }
    Some((number, &text[end..]))
}
