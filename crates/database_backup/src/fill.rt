//! A new database gets the numbers of an old one.

ghost use Rattle.std.specs.Prelude.{◌≡◌, ◌≤◌, length};

use aries_core::{Engine, Refusal};
use log_store::LogDevice;
use page_core::{Page, SlotNo, TxnNo};
use page_store::PageStore;

/// How many pages one transaction fills.
const PIECE_PAGES: usize = 64;

/// Records of a transaction beside those of its changes: its Begin and its Commit.
const FRAME_RECORDS: u64 = 2;

/// Sets each slot that is not 0 in these pages to its number, in transactions of 64 pages that are
/// committed one after another. All pages that are filled have to fit into memory.
pub(crate) fn fill<S: PageStore, D: LogDevice>(
    engine: &mut Engine<S, D>,
    pages: &[Page],
) -> Result<(), Refusal> {
    for piece in pages.chunks(PIECE_PAGES) {
        if numbers_in(piece) > 0 {
            fill_piece(engine, piece)?;
        }
    }
    Ok(())
}

fn fill_piece<S: PageStore, D: LogDevice>(
    engine: &mut Engine<S, D>,
    pages: &[Page],
) -> Result<(), Refusal> {
    let (txn, _) = engine.begin()?;
    for page in pages {
        fill_page(engine, txn, page)?;
    }
    engine.commit(txn)?;
    Ok(())
}

fn fill_page<S: PageStore, D: LogDevice>(
    engine: &mut Engine<S, D>,
    txn: TxnNo,
    page: &Page,
) -> Result<(), Refusal> {
    for (slot, number) in page.slots.iter().enumerate() {
        if *number != 0 {
            engine.set(txn, page.number, SlotNo(slot as u16), *number)?;
        }
    }
    Ok(())
}

/// How many slots of these pages are not 0.
pub(crate) fn numbers_in(pages: &[Page]) -> u64 {
    let mut count = 0u64;
    for page in pages {
        for number in &page.slots {
            if *number != 0 {
                count = count.saturating_add(1);
            }
        }
    }
    count
}

/// How many records `fill` appends for these pages.
pub(crate) fn records_for(pages: &[Page]) -> u64 {
    let mut count = 0u64;
    for piece in pages.chunks(PIECE_PAGES) {
        let numbers = numbers_in(piece);
        if numbers > 0 {
            count = count.saturating_add(numbers).saturating_add(FRAME_RECORDS);
        }
    }
    count
}
