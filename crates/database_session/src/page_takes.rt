//! The pages that an image copy takes by one command.

ghost use Rattle.std.specs.Prelude.{IfErr, IfOk, OnOk};
ghost use Rattle.database_session.specs.CommandCopies.{DropsCopy, RefusesPage, RefusesPages};
ghost use Rattle.database_session.specs.CommandCopies.{TakesPage, TakesPages};
ghost use Rattle.database_session.specs.CommandCalls.{Runs};

use crate::whole_copy::newest;
use aries_core::{Engine, Event, Refusal};
use copy_vault::CopyId;
use database_files::{Diagnostics, Place};
use log_store::LogDevice;
use page_core::PageNo;
use page_store::PageStore;

/// Has a copy take each of its pages, and answers how many these are. Where one is refused, the
/// copy is dropped.
pub(crate) fn take_or_drop<S: PageStore, D: LogDevice>(
    engine: &mut Engine<S, D>,
    diagnostics: &Diagnostics<'_>,
    id: u32,
) -> Result<u32, Refusal>
    ensures taken { IfOk result (λ pages.
        Runs (TakesPages id pages) engine.old.state engine.new.state) }
    ensures dropped { IfErr result (λ why.
        Runs (DropsCopy id why) engine.old.state engine.new.state) }
{
    let pages = match engine.copies().reading(CopyId(id)) {
        Some(copy) => copy.pages(),
        None => 0,
    };
    match take_pages(engine, diagnostics, id, pages) {
        Ok(()) => Ok(pages),
        Err(why) => {
            let _ = engine.apply(Event::DropCopy(CopyId(id)));
            Err(why)
        }
    }
}

/// Has a copy take so many pages, one after another.
fn take_pages<S: PageStore, D: LogDevice>(
    engine: &mut Engine<S, D>,
    diagnostics: &Diagnostics<'_>,
    id: u32,
    pages: u32,
) -> Result<(), Refusal>
    ensures taken { OnOk result (Runs (TakesPages id pages) engine.old.state engine.new.state) }
    ensures refused { IfErr result (λ why.
        Runs (RefusesPages id why) engine.old.state engine.new.state) }
{
    for page in 0..pages {
        match take_page(engine, diagnostics, id, page) {
            Ok(()) => {}
            Err(why) => return Err(why),
        }
    }
    Ok(())
}

/// Has a copy take a page. One that cannot be read is repaired first, from the newest complete
/// copy.
fn take_page<S: PageStore, D: LogDevice>(
    engine: &mut Engine<S, D>,
    diagnostics: &Diagnostics<'_>,
    id: u32,
    page: u32,
) -> Result<(), Refusal>
    ensures taken { OnOk result (Runs (TakesPage id page) engine.old.state engine.new.state) }
    ensures refused { IfErr result (λ why.
        Runs (RefusesPage id page why) engine.old.state engine.new.state) }
{
    let (copy, page) = (CopyId(id), PageNo(page));
    match engine.apply(Event::Take { copy, page }) {
        Ok(_) => return Ok(()),
        Err(Refusal::StoreFault) => {}
        Err(why) => return Err(why),
    }
    let Some(from) = newest(engine.copies()) else {
        return Err(Refusal::StoreFault);
    };
    match engine.apply(Event::Repair { copy: from, page }) {
        Ok(_) => {}
        Err(why) => return Err(why),
    }
    let (number, of) = (page.0, from.0);
    diagnostics.tell(
        Place::Volume,
        &format_args!("page {number} could not be read, and was repaired from `copy-{of}`"),
    );
    match engine.apply(Event::Take { copy, page }) {
        Ok(_) => Ok(()),
        Err(why) => Err(why),
    }
}
