//! Dirty pages that are written, one after another.

ghost use Rattle.std.specs.Prelude.{◌≡◌, ◌<◌, ◌≤◌, IfErr, IfOk, IsSomeAnd, OnOk};
ghost use Rattle.std.specs.List.{slice_get};
ghost use Rattle.log_records.specs.Coverage.{entries_of};
ghost use Rattle.engine_rules.specs.EngineState.{volume_pages};
ghost use Rattle.database_session.specs.Calls.{IsOfClosing};
ghost use Rattle.database_session.specs.PageWrites.{BeginsWrite, CleansPage, EndsWrite};
ghost use Rattle.database_session.specs.PageWrites.{HasNoDirtyPage};
ghost use Rattle.database_session.specs.CommandCalls.{AreRefused, Runs, WritesPages};

use aries_core::{Engine, Refusal};
use log_records::DirtyPages;
use log_store::LogDevice;
use page_core::{MAX_PAGES, PageNo};
use page_store::PageStore;

/// Writes each dirty page, and answers how many writes have ended. No page is dirty then.
pub(crate) fn write_pages<S: PageStore, D: LogDevice>(
    engine: &mut Engine<S, D>,
) -> Result<u32, Refusal>
    ensures written { IfOk result (λ count.
        Runs (WritesPages count) engine.old.state engine.new.state) }
    ensures clean { OnOk result (HasNoDirtyPage engine.new.state) }
    ensures refused { IfErr result (λ why.
        Runs (AreRefused IsOfClosing why) engine.old.state engine.new.state) }
{
    // An engine is fit, which one of its calls tells: it has no more pages than there are turns.
    let _end = engine.log_end();
    let mut cursor = PageNo(0);
    let mut count = 0;
    for number in 0..MAX_PAGES {
        // Of each page at most two writes end.
        let _pages = number;
        let Some(pages) = engine.dirty_from(cursor) else {
            return Ok(count);
        };
        let page = first_of(&pages);
        count += write_page(engine, page)?;
        cursor = PageNo(page.0.saturating_add(1));
    }
    Ok(count)
}

/// Ends the write of a page that is in progress, and writes what is newer.
fn write_page<S: PageStore, D: LogDevice>(
    engine: &mut Engine<S, D>,
    page: PageNo,
) -> Result<u32, Refusal>
    ensures few { IfOk result (λ count. count ≤ 2) }
    ensures written { IfOk result (λ count.
        Runs (WritesPages count) engine.old.state engine.new.state) }
    ensures cleaned { OnOk result (CleansPage page engine.old.state engine.new.state) }
    ensures refused { IfErr result (λ why.
        Runs (AreRefused IsOfClosing why) engine.old.state engine.new.state) }
{
    // A page that is stored as a fit engine has it is not dirty.
    let _end = engine.log_end();
    let older = end_write(engine, page)?;
    begin_write(engine, page)?;
    let newer = end_write(engine, page)?;
    Ok(older + newer)
}

/// Ends the write of a page, if one is in progress.
fn end_write<S: PageStore, D: LogDevice>(
    engine: &mut Engine<S, D>,
    page: PageNo,
) -> Result<u32, Refusal>
    ensures few { IfOk result (λ count. count ≤ 1) }
    ensures written { IfOk result (λ count.
        Runs (WritesPages count) engine.old.state engine.new.state) }
    ensures ended { OnOk result (EndsWrite page engine.old.state engine.new.state) }
    ensures within { OnOk result (page < volume_pages engine.old.state) }
    ensures refused { IfErr result (λ why.
        Runs (AreRefused IsOfClosing why) engine.old.state engine.new.state) }
{
    match engine.write_end(page) {
        Ok(_) => Ok(1),
        Err(Refusal::NoWrite) => Ok(0),
        Err(why) => Err(why),
    }
}

/// Begins to write a page, if it is dirty.
fn begin_write<S: PageStore, D: LogDevice>(
    engine: &mut Engine<S, D>,
    page: PageNo,
) -> Result<(), Refusal>
    ensures written { OnOk result (Runs (WritesPages 0) engine.old.state engine.new.state) }
    ensures begun { OnOk result (BeginsWrite page engine.old.state engine.new.state) }
    ensures refused { IfErr result (λ why.
        Runs (AreRefused IsOfClosing why) engine.old.state engine.new.state) }
{
    match engine.write_begin(page) {
        Ok(_) => Ok(()),
        Err(Refusal::NotDirty) => Ok(()),
        Err(why) => Err(why),
    }
}

/// The first of some dirty pages.
fn first_of(pages: &DirtyPages) -> PageNo
    ensures { IsSomeAnd (slice_get (entries_of pages.now) 0) (λ first. result ≡ first.page) }
{
    match pages {
        DirtyPages::One(first) | DirtyPages::Two(first, _) | DirtyPages::Three(first, _, _) => {
            PageNo(first.page)
        }
    }
}
