//! Archives that are read side by side.

ghost use Rattle.std.specs.Prelude.{ℕ, ◌≡◌, ◌+◌, ◌^◌, ◌<◌, List, length, map, Option, IfOk, IfErr};
ghost use Rattle.std.specs.Prelude.{OnOk};
ghost use Rattle.copy_vault.specs.declared.header.ArchiveHeader.{ArchiveHeader};
ghost use Rattle.copy_vault.specs.Chain.{content};
ghost use Rattle.copy_vault.specs.ChainRead.{AreAtHand, AreRead, AreReadOn, AreRefused, IsGiven};
ghost use Rattle.copy_vault.specs.ChainRead.{IsRowGiven, hand_at, moment_of, place_list};
ghost use Rattle.copy_vault.specs.ChainReading.{heads_of};
ghost use Rattle.copy_vault.specs.Copy.{CopyView};

use crate::archive_cursor::ArchiveCursor;
use crate::chain_read_fault::ChainReadFault;
use page_core::{Lsn, Page, PageNo};
use std::io::Read;

/// The page of this number, from the last archive that has it at hand.
fn page_at_hand(cursors: &[ArchiveCursor], number: u32) -> Page
    ensures { (copies : List CopyView) → AreAtHand cursors.now number copies
        → result ≡ content copies number }
{
    let mut later = cursors.len();
    while later > 0 {
        if let Some(page) = cursors[later - 1].page_at(number) {
            return page.copy();
        }
        later -= 1;
    }
    Page::formatted(PageNo(number))
}

/// Puts the page of this number into the place of each archive that has it at hand.
fn put_row(cursors: &[ArchiveCursor], number: u32, row: &mut [Option<Page>])
    requires { length row.old ≡ length cursors.now }
    ensures { map place_list row.new ≡ map (λ it. hand_at it.page number) cursors.now }
{
    for i in 0..row.len() {
        cursors[i].copy_into(number, &mut row[i]);
    }
}

/// Reads the next page of each archive of which one may have this number, in order.
fn read_due<R: Read>(
    cursors: &mut [ArchiveCursor],
    readers: &mut [R],
    next: u32,
    end: Lsn,
) -> Result<(), ChainReadFault>
    requires { length cursors.old ≡ length readers.old }
    ensures ok { OnOk result ((heads : List ArchiveHeader) (inputs : List (Option (List ℕ)))
        (copies : List CopyView)
        → AreRead end next 0 heads inputs (map (λ r. R.remaining r) readers.old) cursors.old copies
        → AreReadOn end next (length cursors.new) next heads inputs
        (map (λ r. R.remaining r) readers.new) cursors.new copies) }
    ensures err { IfErr result (λ fault. (heads : List ArchiveHeader)
        (inputs : List (Option (List ℕ))) (copies : List CopyView)
        → AreRead end next 0 heads inputs (map (λ r. R.remaining r) readers.old) cursors.old copies
        → AreRefused end heads inputs (map (λ r. R.remaining r) readers.new) fault) }
    ensures heads { heads_of cursors.new ≡ heads_of cursors.old }
{
    for i in 0..cursors.len() {
        cursors[i].read_due(&mut readers[i], next, end)?;
    }
    Ok(())
}

/// The first pages are read before the first page is given.
fn read_first<R: Read>(
    cursors: &mut [ArchiveCursor],
    readers: &mut [R],
    given: u32,
    end: Lsn,
) -> Result<(), ChainReadFault>
    requires { length cursors.old ≡ length readers.old }
    ensures ok { OnOk result ((heads : List ArchiveHeader) (inputs : List (Option (List ℕ)))
        (copies : List CopyView)
        → AreRead end (moment_of given) 0 heads inputs (map (λ r. R.remaining r) readers.old)
        cursors.old copies
        → AreReadOn end (given + 1) 0 given heads inputs (map (λ r. R.remaining r) readers.new)
        cursors.new copies) }
    ensures err { IfErr result (λ fault. (heads : List ArchiveHeader)
        (inputs : List (Option (List ℕ))) (copies : List CopyView)
        → AreRead end (moment_of given) 0 heads inputs (map (λ r. R.remaining r) readers.old)
        cursors.old copies
        → AreRefused end heads inputs (map (λ r. R.remaining r) readers.new) fault) }
    ensures heads { heads_of cursors.new ≡ heads_of cursors.old }
{
    if given > 0 {
        return Ok(());
    }
    read_due(cursors, readers, 0, end)
}

/// Gives the page that follows so many given ones, and reads on in each archive that had it.
pub fn give_page<R: Read>(
    cursors: &mut [ArchiveCursor],
    readers: &mut [R],
    given: u32,
    end: Lsn,
) -> Result<Page, ChainReadFault>
    requires { given + 1 < 2 ^ 32 }
    ensures ok { IfOk result (λ page. (heads : List ArchiveHeader)
        (inputs : List (Option (List ℕ))) (copies : List CopyView)
        → AreRead end (moment_of given) 0 heads inputs (map (λ r. R.remaining r) readers.old)
        cursors.old copies
        → IsGiven end given heads inputs (map (λ r. R.remaining r) readers.new) cursors.new copies
        page) }
    ensures err { IfErr result (λ fault. (heads : List ArchiveHeader)
        (inputs : List (Option (List ℕ))) (copies : List CopyView)
        → AreRead end (moment_of given) 0 heads inputs (map (λ r. R.remaining r) readers.old)
        cursors.old copies
        → AreRefused end heads inputs (map (λ r. R.remaining r) readers.new) fault) }
{
    if cursors.len() != readers.len() {
        return Err(ChainReadFault::ReadFault);
    }
    read_first(cursors, readers, given, end)?;
    let page = page_at_hand(cursors, given);
    read_due(cursors, readers, given + 1, end)?;
    Ok(page)
}

/// Gives, of the page that follows so many given ones, that of each archive that has it, and reads
/// on in these.
pub fn give_each<R: Read>(
    cursors: &mut [ArchiveCursor],
    readers: &mut [R],
    given: u32,
    end: Lsn,
    row: &mut [Option<Page>],
) -> Result<(), ChainReadFault>
    requires few { given + 1 < 2 ^ 32 }
    requires places { length row.old ≡ length readers.old }
    ensures ok { OnOk result ((heads : List ArchiveHeader) (inputs : List (Option (List ℕ)))
        (copies : List CopyView)
        → AreRead end (moment_of given) 0 heads inputs (map (λ r. R.remaining r) readers.old)
        cursors.old copies
        → IsRowGiven end given heads inputs (map (λ r. R.remaining r) readers.new) cursors.new
        copies (map place_list row.new)) }
    ensures err { IfErr result (λ fault. (heads : List ArchiveHeader)
        (inputs : List (Option (List ℕ))) (copies : List CopyView)
        → AreRead end (moment_of given) 0 heads inputs (map (λ r. R.remaining r) readers.old)
        cursors.old copies
        → AreRefused end heads inputs (map (λ r. R.remaining r) readers.new) fault) }
    ensures heads { heads_of cursors.new ≡ heads_of cursors.old }
{
    if cursors.len() != readers.len() {
        return Err(ChainReadFault::ReadFault);
    }
    read_first(cursors, readers, given, end)?;
    put_row(cursors, given, row);
    read_due(cursors, readers, given + 1, end)
}
