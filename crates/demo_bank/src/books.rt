//! What was restored, in lines.

use crate::accounts::{ACCOUNT_PAGES, balances_of, sum_of};
use crate::case::Case;
use crate::day::{Behind, Settled};
use crate::draws::Draws;
use crate::fault::Fault;
use imgcopy_engine::{
    CopyId, CopyKind, Loaded, LogImage, Page, Redone, Retired, Vault, formatted_pages, load,
    redo_page, undo_all,
};
use std::alloc::{AllocError, Global};
use std::thread::Threads;

/// The copies that are made, in the order of their chain.
const COPIES: [CopyId; 2] = [CopyId(1), CopyId(2)];

/// The row from which it is drawn how much the crash takes: no teller has it.
const CRASH_ROW: u32 = u32::MAX;

/// How many records the crash takes: some of those behind the last transfer that was ended.
fn lost_records(case: &Case) -> u64 {
    // A transfer that is left open has a Begin and a change, and every second one another change.
    let open = 2 * case.tellers as u64 + case.tellers.div_ceil(2) as u64;
    Draws::new(case.seed, CRASH_ROW).below(open + 1)
}

/// The lines of a settled day: what each copy has, how many pages were changed behind it, if that
/// is to be told, what the accounts have together after redo of each copy with the whole log, and
/// what they have after redo and after undo of the last one with the log that the crash left; then
/// each balance.
pub fn lines_of(
    rt: &(impl Threads + Sync),
    alloc: Global,
    case: &Case,
    settled: Settled,
    tells_behind: bool,
) -> Result<String, Fault> {
    let Settled { retired, behind } = settled;
    let behind = tells_behind.then_some(behind);
    let mut text = String::new(alloc);
    match put_lines(rt, &mut text, alloc, case, retired, behind) {
        Ok(()) => Ok(text),
        Err(fault) => Err(fault),
    }
}

/// These lines.
fn put_lines(
    rt: &(impl Threads + Sync),
    text: &mut String,
    alloc: Global,
    case: &Case,
    retired: Retired,
    behind: Option<Behind>,
) -> Result<(), Fault> {
    match put_copies(text, alloc, &retired, behind) {
        Ok(()) => put_crash(rt, text, alloc, case, retired),
        Err(fault) => Err(fault),
    }
}

/// The lines of the copies, and what is told of changes behind them.
fn put_copies(
    text: &mut String,
    alloc: Global,
    retired: &Retired,
    behind: Option<Behind>,
) -> Result<(), Fault> {
    put_kinds(text, retired.vault())?;
    if let Some(behind) = behind {
        put_behind(text, COPIES[0], behind.full)?;
        put_behind(text, COPIES[1], behind.incremental)?;
    }
    put_sums(text, alloc, retired)
}

/// A line of each copy.
fn put_kinds(text: &mut String, vault: &Vault) -> Result<(), AllocError> {
    for id in COPIES {
        put_copy(text, vault, id)?;
    }
    Ok(())
}

/// A line of each copy: what the accounts have together after redo of the whole log on it.
fn put_sums(text: &mut String, alloc: Global, retired: &Retired) -> Result<(), Fault> {
    match put_sum(text, alloc, retired, COPIES[0]) {
        Ok(()) => put_sum(text, alloc, retired, COPIES[1]),
        Err(fault) => Err(fault),
    }
}

/// The line of one of them.
fn put_sum(text: &mut String, alloc: Global, retired: &Retired, id: CopyId) -> Result<(), Fault> {
    match redone_sum(alloc, retired, id) {
        Ok(sum) => put_total(text, id, sum).map_err(Fault::Memory),
        Err(fault) => Err(fault),
    }
}

fn put_total(text: &mut String, id: CopyId, sum: u64) -> Result<(), AllocError> {
    write!(text, "copy {} and the whole log: {sum}\n", id.0)
}

/// A line of how many pages were changed behind a copy.
fn put_behind(text: &mut String, id: CopyId, pages: u32) -> Result<(), AllocError> {
    let noun = if pages == 1 { "page" } else { "pages" };
    write!(text, "changed behind copy {}: {pages} {noun}\n", id.0)
}

/// The lines of the crash, and of the restore of what it left.
fn put_crash(
    rt: &(impl Threads + Sync),
    text: &mut String,
    alloc: Global,
    case: &Case,
    retired: Retired,
) -> Result<(), Fault> {
    let lost = lost_records(case);
    let kept = (retired.log().records().len() as u64).saturating_sub(lost);
    match put_lost(text, lost) {
        Ok(()) => put_restore(rt, text, alloc, retired, kept as usize),
        Err(error) => Err(Fault::Memory(error)),
    }
}

/// The line of how many records the crash takes.
fn put_lost(text: &mut String, lost: u64) -> Result<(), AllocError> {
    let records = if lost == 1 { "record" } else { "records" };
    write!(text, "the crash takes {lost} {records}\n")
}

/// A line of what a copy is on, and how many pages it has.
fn put_copy(text: &mut String, vault: &Vault, id: CopyId) -> Result<(), AllocError> {
    let Some(copy) = vault.complete(id) else {
        return Ok(());
    };
    let (taken, pages) = (copy.taken(), copy.pages());
    match copy.kind() {
        CopyKind::Full => write!(text, "copy {}, full: {taken} of {pages} pages\n", id.0),
        CopyKind::Inc(parent) => {
            write!(
                text,
                "copy {}, on copy {}: {taken} of {pages} pages\n",
                id.0, parent.0
            )
        }
    }
}

/// The pages that plain redo of a log makes of formatted ones: each record is redone on its page.
fn plain_pages(alloc: Global, log: &LogImage) -> Result<Vec<Page>, AllocError> {
    let mut pages = formatted_pages(alloc, log.page_count())?;
    for record in log.records() {
        for page in pages.iter_mut() {
            record.redo_on(page);
        }
    }
    Ok(pages)
}

/// Redoes the whole log on each page of a copy's chain, and gives the sum of all accounts.
fn redone_sum(alloc: Global, retired: &Retired, id: CopyId) -> Result<u64, Fault> {
    let log = retired.log();
    let chain = retired.vault().chain(alloc, id)?;
    let mut pages = chain.contents(alloc, log.page_count())?;
    for page in pages.iter_mut() {
        redo_page(page, log.records());
    }
    if pages != plain_pages(alloc, log)? {
        return Err(Fault::Differs(id.0));
    }
    Ok(sum_of(&pages))
}

/// Restores the last copy with so many records of the log: the sums after redo and after undo, and
/// each balance.
fn put_restore(
    rt: &(impl Threads + Sync),
    text: &mut String,
    alloc: Global,
    retired: Retired,
    kept: usize,
) -> Result<(), Fault> {
    match load(alloc, retired, COPIES[1], kept) {
        Ok(loaded) => put_redone(rt, text, alloc, loaded),
        Err((_, fault)) => Err(Fault::Load(fault)),
    }
}

/// Restores what was loaded: the sums after redo and after undo, and each balance.
fn put_redone(
    rt: &(impl Threads + Sync),
    text: &mut String,
    alloc: Global,
    loaded: Loaded,
) -> Result<(), Fault> {
    let plain = match plain_pages(alloc, loaded.log()) {
        Ok(plain) => plain,
        Err(error) => return Err(Fault::Memory(error)),
    };
    match loaded.redo(rt, alloc) {
        Ok(redone) => put_undone(text, &plain, redone),
        Err((_, fault)) => Err(Fault::Redo(fault)),
    }
}

/// The sums and balances once it is redone, which makes the pages that plain redo makes.
fn put_undone(text: &mut String, plain: &[Page], redone: Redone) -> Result<(), Fault> {
    if redone.pages() != plain {
        let id = COPIES[1];
        return Err(Fault::Differs(id.0));
    }
    let sum = sum_of(redone.pages());
    match undo_all(redone) {
        Ok(undone) => put_balances(text, sum, undone.pages()).map_err(Fault::Memory),
        Err((_, fault)) => Err(Fault::Undo(fault)),
    }
}

/// The sums of all accounts after redo and after undo, and a line for each page of them.
fn put_balances(text: &mut String, redone: u64, pages: &[Page]) -> Result<(), AllocError> {
    write!(text, "after redo: {redone}\n")?;
    write!(text, "after undo: {}\n", sum_of(pages))?;
    for page in pages.iter().take(ACCOUNT_PAGES as usize) {
        write!(text, "page {}:", page.number.0)?;
        for balance in balances_of(page) {
            write!(text, " {balance}")?;
        }
        text.push_str("\n")?;
    }
    Ok(())
}
