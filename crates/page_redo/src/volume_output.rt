//! Writes the bytes of a volume.

ghost use Rattle.std.specs.Prelude.{◌≡◌, ◌*◌, ◌<◌, ◌≤◌, length, take, IfErr, OnOk};
ghost use Rattle.std.specs.Io.KnownBytes.{Appends};
ghost use Rattle.page_core.specs.Page.{volume_bytes};

use page_core::{PAGE_BYTES, Page, write_out};
use std::io::Write;

/// Writes the bytes of the pages of a volume, one after another, as many at once as the buffer has
/// room for. At `Err` so many of them went out: the writer failed, took nothing, or was interrupted
/// 17 times in a row. The writer is not flushed.
pub fn write_volume<W: Write>(writer: &mut W, pages: &[Page], buffer: &mut [u8]) -> Result<(), u64>
    requires { PAGE_BYTES ≤ length buffer.old }
    ensures ok { OnOk result (Appends (W.contents writer.old) (W.contents writer.new)
        (volume_bytes pages.now)) }
    ensures within { IfErr result (λ done. done < length (volume_bytes pages.now)) }
    ensures err { IfErr result (λ done.
        Appends (W.contents writer.old) (W.contents writer.new)
        (take done (volume_bytes pages.now))) }
{
    let group = buffer.len() / PAGE_BYTES;
    let mut first = 0;
    let mut done = 0;
    while first < pages.len() {
        let count = group.min(pages.len() - first);
        let filled = put_pages(buffer, &pages[first..first + count]);
        if let Err(part) = write_out(writer, &buffer[..filled]) {
            return Err(done + part);
        }
        done += filled as u64;
        first += count;
    }
    Ok(())
}

/// Puts the bytes of the pages at the front of the buffer, and answers how many they are.
fn put_pages(buffer: &mut [u8], pages: &[Page]) -> usize
    requires { PAGE_BYTES * length pages.now ≤ length buffer.old }
    ensures count { result ≡ length (volume_bytes pages.now) }
    ensures pages { result ≡ PAGE_BYTES * length pages.now }
    ensures bytes { take result buffer.new ≡ volume_bytes pages.now }
{
    for (i, page) in pages.iter().enumerate() {
        let at = PAGE_BYTES * i;
        page.write_to(&mut buffer[at..at + PAGE_BYTES]);
    }
    PAGE_BYTES * pages.len()
}
