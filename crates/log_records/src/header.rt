//! The header of a log, which names its format and the page count of its volume.

ghost use Rattle.std.specs.Prelude.{ℕ, ◌≡◌, ◌↔◌, IfSome, Some, IsTrue};
ghost use Rattle.log_records.specs.Log.{HasHeader, header_bytes, header_in};
ghost use Rattle.page_core.specs.declared.format.Format.{Format};

use crate::codec::is_page_count;
use crate::limits::HEADER_BYTES;
use page_core::Format;
use page_core::field::u32_at;

/// The header of a new log of so many pages: 64 bytes, of the second format. With a count of 0 or
/// above 65,536 no reader takes it for one.
pub fn encode_header(pages: u32) -> [u8; HEADER_BYTES]
    ensures { result ≡ header_bytes pages }
{
    header_in(Format::Second, pages)
}

fn header_in(format: Format, pages: u32) -> [u8; HEADER_BYTES]
    ensures { result ≡ header_in format pages }
{
    let mut bytes = [0; HEADER_BYTES];
    bytes[..7].copy_from_slice(b"AIMGLOG");
    bytes[7] = format.digit();
    bytes[8..12].copy_from_slice(&pages.to_le_bytes());
    bytes
}

/// What the header of a log says.
#[derive(Clone, Copy)]
pub struct LogHeader {
    pub format: Format,
    /// How many pages the volume had when the log began.
    pub pages: u32,
}

/// The header in front of these bytes, if there is one, of either format.
pub fn log_header(bytes: &[u8]) -> Option<LogHeader>
    ensures found { IfSome result (λ h. HasHeader h.format h.pages bytes.now) }
    ensures only { (format : Format) (pages : ℕ) → HasHeader format pages bytes.now
        → result ≡ Some (record { format = format; pages = pages }) }
{
    if bytes.len() < HEADER_BYTES {
        return None;
    }
    let header = &bytes[..HEADER_BYTES];
    let pages = u32_at(header, 8);
    let format = format_of(header, pages)?;
    if is_page_count(pages) {
        Some(LogHeader { format, pages })
    } else {
        None
    }
}

/// The format in which these bytes are the header of a log of so many pages, if they are one.
fn format_of(bytes: &[u8], pages: u32) -> Option<Format>
    ensures found { IfSome result (λ format. bytes.now ≡ header_in format pages) }
    ensures only { (format : Format) → bytes.now ≡ header_in format pages → result ≡ Some format }
{
    if is_same(bytes, &header_in(Format::Second, pages)) {
        Some(Format::Second)
    } else if is_same(bytes, &header_in(Format::First, pages)) {
        Some(Format::First)
    } else {
        None
    }
}

fn is_same(a: &[u8], b: &[u8]) -> bool
    ensures { IsTrue result ↔ (a.now ≡ b.now) }
{
    a == b
}
