//! The lines of a script and the words of a line.

ghost use Rattle.std.specs.Prelude.{ℕ, ◌≡◌, ◌≢◌, ◌<◌, ◌≤◌, ◌∷◌, [], IfSome, MatchOption, length};
ghost use Rattle.std.specs.Prelude.{slice_index};
ghost use Rattle.event_script.specs.Words.{lines_of, without_return, words_of};

use memchr::memchr;

/// How many bytes stand before the first one of this kind, or in all where there is none.
fn count_before(bytes: &[u8], parting: u8) -> usize
    ensures within { result ≤ length bytes.now }
    ensures none { (k : ℕ) → k < result → slice_index bytes.now k ≢ parting }
    ensures there { result < length bytes.now → slice_index bytes.now result ≡ parting }
{
    for (i, byte) in bytes.iter().enumerate() {
        if *byte == parting {
            return i;
        }
    }
    bytes.len()
}

/// How many spaces stand in front.
pub(crate) fn count_spaces(bytes: &[u8]) -> usize
    ensures within { result ≤ length bytes.now }
    ensures spaces { (k : ℕ) → k < result → slice_index bytes.now k ≡ 32 }
    ensures other { result < length bytes.now → slice_index bytes.now result ≢ 32 }
{
    for (i, byte) in bytes.iter().enumerate() {
        if *byte != b' ' {
            return i;
        }
    }
    bytes.len()
}

/// The first word, and what stands behind it. There is none where all is spaces.
pub(crate) fn next_word(bytes: &[u8]) -> Option<(&[u8], &[u8])>
    ensures { MatchOption result (words_of bytes.now ≡ [])
        (λ found. words_of bytes.now ≡ found.0.now ∷ words_of found.1.now) }
{
    let text = &bytes[count_spaces(bytes)..];
    let end = count_before(text, b' ');
    if end == 0 {
        return None;
    }
    Some((&text[..end], &text[end..]))
}

/// The first line, and what stands behind its line feed, if it has one.
pub(crate) fn next_line(bytes: &[u8]) -> (&[u8], Option<&[u8]>)
    ensures parts { MatchOption result.1 (lines_of bytes.now ≡ result.0.now ∷ [])
        (λ rest. lines_of bytes.now ≡ result.0.now ∷ lines_of rest.now) }
    ensures shorter { IfSome result.1 (λ rest. length rest.now < length bytes.now) }
{
    match memchr(b'\n', bytes) {
        Some(end) => (&bytes[..end], Some(&bytes[end + 1..])),
        None => (bytes, None),
    }
}

/// The line without the carriage return at its end, if it has one.
pub(crate) fn before_return(line: &[u8]) -> &[u8]
    ensures { result.now ≡ without_return line.now }
{
    match line.split_last() {
        Some((last, text)) => if *last == b'\r' { text } else { line },
        None => line,
    }
}
