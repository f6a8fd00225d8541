//! Reads all pages of a chain from its archives.

ghost use Rattle.std.specs.Prelude.{◌≡◌, ◌+◌, ◌≤◌, ◌<◌, ◌++◌, ◌∷◌, [], length, map, take};
ghost use Rattle.std.specs.Prelude.{IfOk, IfErr, OnOk};
ghost use Rattle.copy_vault.specs.ChainReading.{AreNoChain, HaveGivenAll, IsChainRead};

use crate::chain_read_fault::ChainReadFault;
use crate::chain_reader::ChainReader;
use page_core::{Lsn, Page, PageCounts};
use std::alloc::{AllocError, Global};
use std::io::Read;

/// Reads the archives of a chain side by side, for a volume of these page counts and a log that
/// ends there, and answers the pages of the chain, as many as the volume has in the end, in order
/// of their numbers, and the redo point of its last copy.
///
/// Beside these pages, just one page of each archive is kept. The refusals are those of
/// `ChainReader`, and `OutOfMemory` where room for the pages is refused.
pub fn read_chain_pages<R: Read>(
    alloc: Global,
    readers: &mut [R],
    counts: &PageCounts,
    end: Lsn,
) -> Result<(Vec<Page>, Lsn), ChainReadFault>
    ensures ok { IfOk result (λ it.
        IsChainRead counts.now end (map (λ r. R.remaining r) readers.old) it.0.items it.1) }
    ensures end { OnOk result (HaveGivenAll (map (λ r. R.remaining r) readers.old)
        (map (λ r. R.remaining r) readers.new)) }
    ensures err { IfErr result (AreNoChain counts.now end
        (map (λ r. R.remaining r) readers.old)
        (map (λ r. R.remaining r) readers.new)) }
{
    read_chain_pages_into(alloc, readers, counts, end, Vec::new(alloc))
}

/// Reads the archives of a chain as `read_chain_pages` does, and writes its pages over the ones
/// that are given, whatever these are and however many. So it takes memory for pages just where
/// the chain has more than there is room for.
pub fn read_chain_pages_into<R: Read>(
    alloc: Global,
    readers: &mut [R],
    counts: &PageCounts,
    end: Lsn,
    mut pages: Vec<Page>,
) -> Result<(Vec<Page>, Lsn), ChainReadFault>
    ensures ok { IfOk result (λ it.
        IsChainRead counts.now end (map (λ r. R.remaining r) readers.old) it.0.items it.1) }
    ensures end { OnOk result (HaveGivenAll (map (λ r. R.remaining r) readers.old)
        (map (λ r. R.remaining r) readers.new)) }
    ensures err { IfErr result (AreNoChain counts.now end
        (map (λ r. R.remaining r) readers.old)
        (map (λ r. R.remaining r) readers.new)) }
{
    let mut chain = ChainReader::new(alloc, readers, counts, end)?;
    pages.reserve_exact((counts.last() as usize).saturating_sub(pages.len()))?;
    let mut given = 0;
    'pages: loop {
        match chain.next(readers)? {
            Some(page) => put_at(&mut pages, given, page)?,
            None => {
                pages.truncate(given);
                return Ok((pages, chain.redo()));
            }
        }
        given += 1;
    }
}

/// Writes a page over the one that stands at a place, or behind the last one.
fn put_at(pages: &mut Vec<Page>, at: usize, page: Page) -> Result<(), AllocError>
    requires { at ≤ length pages.old.items }
    ensures put { OnOk result (take (at + 1) pages.new.items ≡ take at pages.old.items ++ page ∷ []) }
    ensures there { OnOk result (at < length pages.new.items) }
{
    if at < pages.len() {
        pages[at] = page;
        return Ok(());
    }
    pages.push(page)?;
    Ok(())
}
