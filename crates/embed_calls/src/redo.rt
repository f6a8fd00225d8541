//! Makes the volume of a log.

ghost use Rattle.std.specs.Prelude.{◌≡◌, ◌≢◌, ◌*◌, ◌<◌, ◌≤◌, drop, length, take};
ghost use Rattle.page_core.specs.Page.{volume_bytes};
ghost use Rattle.page_core.specs.declared.page.TheConstants.{MAX_PAGES};
ghost use Rattle.embed_calls.specs.Calls.{IsNoLog, IsRedone, IsTooShort};
ghost use Rattle.embed_calls.specs.Outcome.{answers, numbered};

use crate::outcome::{Outcome, TOO_SHORT};
use log_store::scan_log;
use page_core::{PAGE_BYTES, Page};
use std::alloc::Global;

/// Redoes a whole log over formatted pages, as `imgcopy redo` does, and puts the bytes of the volume
/// at the front of the caller's room. With code 0 `first` is how many bytes these are: 512 for each
/// page.
///
/// `TOO_SHORT` comes where the room is too short, with the bytes that are needed as `first`; 65,536
/// pages of 512 bytes are the most. The other faults are those of `check_log`. After each of them
/// the room is as it was.
pub fn redo_log(alloc: Global, log: &[u8], volume: &mut [u8]) -> Outcome
    ensures made { result.code ≡ 0 → IsRedone log.now volume.old volume.new result }
    ensures short { result.code ≡ TOO_SHORT → IsTooShort log.now (length volume.old) result.first }
    ensures refused { result.code ≢ 0 → result.code ≢ TOO_SHORT → IsNoLog log.now result }
    ensures kept { result.code ≢ 0 → volume.new ≡ volume.old }
{
    let mut reader = log;
    match scan_log::<&[u8], ()>(alloc, &mut reader) {
        Ok(scan) => put_volume(scan.history.pages(), volume),
        Err(why) => Outcome::from(why),
    }
}

/// Puts the bytes of the pages at the front of the room, if they fit there.
fn put_volume(pages: &[Page], room: &mut [u8]) -> Outcome
    requires { length pages.now ≤ MAX_PAGES }
    ensures code { result.code ≢ 0 → result ≡ numbered TOO_SHORT (PAGE_BYTES * length pages.now) }
    ensures count { result.code ≡ 0 → result ≡ answers (PAGE_BYTES * length pages.now) 0 0 }
    ensures fits { result.code ≡ 0 → PAGE_BYTES * length pages.now ≤ length room.old }
    ensures short { result.code ≢ 0 → length room.old < PAGE_BYTES * length pages.now }
    ensures bytes { result.code ≡ 0
        → take (PAGE_BYTES * length pages.now) room.new ≡ volume_bytes pages.now }
    ensures behind { result.code ≡ 0 → drop (PAGE_BYTES * length pages.now) room.new
        ≡ drop (PAGE_BYTES * length pages.now) room.old }
    ensures kept { result.code ≢ 0 → room.new ≡ room.old }
{
    let needed = PAGE_BYTES * pages.len();
    if needed > room.len() {
        return Outcome::numbered(TOO_SHORT, needed as u64);
    }
    put_pages(pages, &mut room[..needed]);
    Outcome::answers(needed as u64, 0, 0)
}

/// Puts the bytes of the pages into a room that is as long as they are.
pub(crate) fn put_pages(pages: &[Page], room: &mut [u8])
    requires { length room.old ≡ PAGE_BYTES * length pages.now }
    ensures { room.new ≡ volume_bytes pages.now }
{
    for (i, page) in pages.iter().enumerate() {
        let at = PAGE_BYTES * i;
        page.write_to(&mut room[at..at + PAGE_BYTES]);
    }
}
