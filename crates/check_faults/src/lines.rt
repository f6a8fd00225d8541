//! The lines that tell what came of a case.

ghost use Rattle.buffer_pool.specs.Pool.{IsFrameCount};
ghost use Rattle.log_records.specs.Log.{IsPageCount};

use crate::case::Case;
use aries_core::Event;
use copy_coverage::Retired;
use copy_vault::{CopyId, MAX_COPIES};
use event_script::ReplyLine;
use loser_undo::undo_all;
use media_restore::{Loaded, load};
use page_core::Page;
use std::alloc::{AllocError, Global};
use std::thread::Threads;

/// Plays the events, and puts a line for each reply; then for each complete copy and for each part
/// of the log that a crash may leave a line, the lines of the pages after redo, and those of the
/// pages after undo. A restore that is refused has the line of its fault.
pub fn lines_of(
    rt: &(impl Threads + Sync),
    alloc: Global,
    case: &Case,
    events: &[Event],
) -> Result<String, AllocError>
    requires pages { IsPageCount case.now.setup.pages }
    requires frames { IsFrameCount case.now.setup.frames }
{
    let mut text = String::new(alloc);
    let (replies, retired) = match case.play(alloc, events) {
        Ok(played) => played,
        Err(fault) => {
            write!(text, "{fault}\n")?;
            return Ok(text);
        }
    };
    for reply in &replies {
        let line = ReplyLine(*reply);
        write!(text, "{line}\n")?;
    }
    let forced = retired.forced_end().0 / 64 - 1;
    for id in 1..=MAX_COPIES {
        if retired.vault().complete(CopyId(id)).is_some() {
            for cut in forced as usize..=retired.log().records().len() {
                write!(text, "restore {id} {cut}\n")?;
                if let Ok((_, again)) = case.play(alloc, events) {
                    put_restore(rt, &mut text, alloc, again, CopyId(id), cut)?;
                }
            }
        }
    }
    drop(retired);
    Ok(text)
}

/// Restores a copy with so many records, and puts the pages after redo and after undo.
fn put_restore(
    rt: &(impl Threads + Sync),
    text: &mut String,
    alloc: Global,
    retired: Retired,
    copy: CopyId,
    cut: usize,
) -> Result<(), AllocError> {
    match load(alloc, retired, copy, cut) {
        Ok(loaded) => put_loaded(rt, text, alloc, loaded),
        Err((_, fault)) => write!(text, "{fault}\n"),
    }
}

fn put_loaded(
    rt: &(impl Threads + Sync),
    text: &mut String,
    alloc: Global,
    loaded: Loaded,
) -> Result<(), AllocError> {
    let redone = match loaded.redo(rt, alloc) {
        Ok(redone) => redone,
        Err((_, fault)) => return write!(text, "{fault}\n"),
    };
    put_pages(text, "redone", redone.pages())?;
    match undo_all(redone) {
        Ok(undone) => put_pages(text, "undone", undone.pages()),
        Err((_, fault)) => write!(text, "{fault}\n"),
    }
}

/// Puts a line for each page: its number, its LSN, and its slots that are not 0.
fn put_pages(text: &mut String, state: &str, pages: &[Page]) -> Result<(), AllocError> {
    for page in pages {
        let (number, lsn) = (page.number.0, page.lsn.0);
        write!(text, "{state} page {number} lsn {lsn}")?;
        for (slot, value) in page.slots.iter().enumerate() {
            if *value != 0 {
                write!(text, " {slot}={value}")?;
            }
        }
        text.push_str("\n")?;
    }
    Ok(())
}
