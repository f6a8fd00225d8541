//! The pieces of a manifest's text, read from the front of some bytes.

ghost use Rattle.std.specs.Prelude.{◌≡◌, ◌≢◌, ◌↔◌, ◌<◌, ◌^◌, ◌++◌, ◌∷◌, [], List, ℕ};
ghost use Rattle.std.specs.Prelude.{decimal, IsTrue, IfSome, IfNone, length};
ghost use Rattle.hex.specs.Hex.{encode_lower};
ghost use Rattle.manifest.specs.declared.entry.Extent.{Extent as TheExtent};
ghost use Rattle.manifest.specs.Entries.{IsName, IsOctets};
ghost use Rattle.manifest.specs.Pieces.{HaveNoCapital, IsPlain, LacksByte};
ghost use Rattle.manifest.specs.Text.{head_text, length_text, sum_text, word_of};

use crate::entry::{Extent, are_name_bytes};
use crate::sum::{DatabaseName, Sum};

/// The database of the head that stands here, and what follows it.
pub(crate) fn head_at(bytes: &[u8]) -> Option<(DatabaseName, &[u8])>
    ensures found { IfSome result (λ it. IsOctets 16 it.0.0
        × (bytes.now ≡ head_text it.0.0 ++ it.1.now)) }
    ensures none { IfNone result ((database rest : List ℕ) → IsOctets 16 database
        → bytes.now ≢ head_text database ++ rest) }
{
    let rest = after(bytes, b"# imgcopy manifest 1 database ")?;
    let mut database = [0; 16];
    let rest = digits_at(rest, &mut database)?;
    let rest = after(rest, b"\n")?;
    Some((DatabaseName(database), rest))
}

/// How much of a file is summed, as it stands here, and what follows it.
pub(crate) fn length_at(bytes: &[u8]) -> Option<(Extent, u64, &[u8])>
    ensures found { IfSome result (λ it. (it.1 < 2 ^ 63)
        × (bytes.now ≡ length_text it.0 it.1 ++ it.2.now)) }
    ensures none { IfNone result ((extent : TheExtent) (count : ℕ) (rest : List ℕ)
        → count < 2 ^ 63 → bytes.now ≢ length_text extent count ++ rest) }
{
    let (extent, rest) = extent_at(bytes)?;
    let (digits, rest) = cut_at(rest, extent.break_byte())?;
    Some((extent, number_of(digits)?, rest))
}

/// The sum and the name that stand here, and what follows them.
pub(crate) fn sum_at(bytes: &[u8]) -> Option<(Sum, &str, &[u8])>
    ensures found { IfSome result (λ it. IsOctets 32 it.0.0 × IsName it.1.now
        × (bytes.now ≡ sum_text it.0.0 it.1.now ++ it.2.now)) }
    ensures none { IfNone result ((sum name rest : List ℕ) → IsOctets 32 sum → IsName name
        → bytes.now ≢ sum_text sum name ++ rest) }
{
    let mut sum = [0; 32];
    let rest = digits_at(bytes, &mut sum)?;
    let rest = after(rest, b"  ")?;
    let (name, rest) = cut_at(rest, b'\n')?;
    if !are_name_bytes(name) {
        return None;
    }
    let Ok(name) = str::from_utf8(name) else {
        return None;
    };
    Some((Sum(sum), name, rest))
}

/// What a word that stands here says of a file, and what follows it.
fn extent_at(bytes: &[u8]) -> Option<(Extent, &[u8])>
    ensures found { IfSome result (λ it. bytes.now ≡ word_of it.0 ++ it.1.now) }
    ensures none { IfNone result ((extent : TheExtent) (rest : List ℕ)
        → bytes.now ≢ word_of extent ++ rest) }
{
    if let Some(rest) = after(bytes, b"# whole ") {
        return Some((Extent::Whole, rest));
    }
    Some((Extent::First, after(bytes, b"# first ")?))
}

/// What follows these bytes, if they stand here.
fn after<'a>(bytes: &'a [u8], front: &[u8]) -> Option<&'a [u8]>
    ensures found { IfSome result (λ rest. bytes.now ≡ front.now ++ rest.now) }
    ensures none { IfNone result ((rest : List ℕ) → bytes.now ≢ front.now ++ rest) }
{
    bytes.strip_prefix(front)
}

/// Fills the room with the bytes whose digits stand here, and gives what follows them.
fn digits_at<'a>(bytes: &'a [u8], room: &mut [u8]) -> Option<&'a [u8]>
    requires { length room.old < 2 ^ 62 }
    ensures found { IfSome result (λ rest. IsOctets (length room.old) room.new
        × (bytes.now ≡ encode_lower room.new ++ rest.now)) }
    ensures none { IfNone result ((wanted rest : List ℕ) → IsOctets (length room.old) wanted
        → bytes.now ≢ encode_lower wanted ++ rest) }
{
    let (digits, rest) = bytes.split_at_checked(2 * room.len())?;
    if !have_no_capital(digits) {
        return None;
    }
    match hex::decode_to_slice(digits, room) {
        Ok(()) => Some(rest),
        Err(_) => None,
    }
}

fn have_no_capital(digits: &[u8]) -> bool
    ensures { IsTrue result ↔ HaveNoCapital digits.now }
{
    digits.iter().all(|digit| !digit.is_ascii_uppercase())
}

/// What stands before the first byte of this value, and what stands behind it.
fn cut_at(bytes: &[u8], stop: u8) -> Option<(&[u8], &[u8])>
    ensures found { IfSome result (λ it. LacksByte stop it.0.now
        × (bytes.now ≡ it.0.now ++ stop ∷ it.1.now)) }
    ensures none { IfNone result (LacksByte stop bytes.now) }
{
    for (i, byte) in bytes.iter().enumerate() {
        if *byte == stop {
            return Some((&bytes[..i], &bytes[i + 1..]));
        }
    }
    None
}

/// The number below 2^63 that these digits are, without zeros in front.
fn number_of(digits: &[u8]) -> Option<u64>
    ensures found { IfSome result (λ it. (it < 2 ^ 63) × (digits.now ≡ decimal it)) }
    ensures none { IfNone result ((number : ℕ) → number < 2 ^ 63 → digits.now ≢ decimal number) }
{
    if !is_plain(digits) {
        return None;
    }
    let Ok(text) = str::from_utf8(digits) else {
        return None;
    };
    match text.parse() {
        Ok(number) if number < 1 << 63 => Some(number),
        _ => None,
    }
}

/// Whether digits have no sign in front, and no zero but a lone one.
fn is_plain(digits: &[u8]) -> bool
    ensures { IsTrue result ↔ IsPlain digits.now }
{
    match digits.first() {
        Some(b'+') => false,
        Some(b'0') => digits.len() == 1,
        _ => true,
    }
}
