//! What `status` tells of a database.

ghost use Rattle.std.specs.Prelude.{ℕ, ◌≡◌, IfErr, IfOk, List, OnOk, string_bytes};
ghost use Rattle.std.specs.Io.KnownBytes.{Appends};
ghost use Rattle.session_lines.specs.Said.{LeavesLine};
ghost use Rattle.database_session.specs.CommandCalls.{IsStatus};

use crate::session::{OpenDatabase, TellsWhy};
use aries_core::Engine;
use copy_vault::{CompleteCopy, CopyId, CopyKind, MAX_COPIES};
use log_records::{DirtyPages, MAX_RECORDS};
use log_store::LogDevice;
use loser_undo::open_by_tail;
use page_core::{MAX_PAGES, PageNo};
use page_store::PageStore;
use saved_files::Folder;
use session_lines::{ServeFault, write_text};
use std::alloc::{AllocError, Global};
use std::io::Write;

impl<F: Folder, S: PageStore, D: LogDevice + TellsWhy> OpenDatabase<'_, F, S, D> {
    /// Tells what the database has.
    pub(crate) fn tell_status<W: Write>(
        &mut self,
        number: u64,
        writer: &mut W,
    ) -> Result<(), ServeFault>
        ensures ok { OnOk result ((text : List ℕ) × IsStatus text
            × Appends (W.contents writer.old) (W.contents writer.new) text) }
        ensures err { IfErr result (λ fault. (text : List ℕ) × IsStatus text
            × LeavesLine (W.contents writer.old) (W.contents writer.new) text fault) }
        ensures engine { self.new.engine ≡ self.old.engine }
        ensures folder { self.new.folder ≡ self.old.folder }
    {
        self.tally.note(number, false);
        match status_of(self.alloc, &self.engine) {
            Ok(text) => write_text(text.as_bytes(), writer),
            Err(_) => Err(ServeFault::OutOfMemory),
        }
    }
}

/// Lines of the pages and the records, of what is open and dirty, and of the last checkpoint and
/// the complete copies.
fn status_of<S: PageStore, D: LogDevice>(
    alloc: Global,
    engine: &Engine<S, D>,
) -> Result<String, AllocError>
    ensures { IfOk result (λ text. IsStatus (string_bytes text)) }
{
    let log = engine.log();
    let (pages, records) = (log.pages(), log.records().len());
    let left = MAX_RECORDS.saturating_sub(records);
    let dirty = dirty_count(engine);
    let mut text = format!(in alloc;
        "status pages {pages}\nstatus records {records} left {left}\nstatus dirty {dirty}\n"
    )?;
    for open in open_by_tail(alloc, log.records())? {
        let txn = open.txn.0;
        text.push_str(format!(in alloc; "status open {txn}\n")?.as_str())?;
    }
    if let Some(point) = engine.master() {
        let (begin, end, redo) = (point.begin.0, point.end.0, point.redo.0);
        text.push_str(format!(in alloc; "status point {begin} {end} {redo}\n")?.as_str())?;
    }
    for id in 1..=MAX_COPIES {
        if let Some(copy) = engine.copies().complete(CopyId(id)) {
            text.push_str(copy_line(alloc, id, copy)?.as_str())?;
        }
    }
    text.push_str("status end\n")?;
    Ok(text)
}

/// The line of a complete copy.
fn copy_line(alloc: Global, id: u32, copy: &CompleteCopy) -> Result<String, AllocError> {
    let (pages, taken) = (copy.pages(), copy.taken());
    match copy.kind() {
        CopyKind::Full => format!(in alloc; "status copy {id} full pages {pages} taken {taken}\n"),
        CopyKind::Inc(parent) => {
            let parent = parent.0;
            format!(in alloc; "status copy {id} on {parent} pages {pages} taken {taken}\n")
        }
    }
}

/// How many pages are dirty.
fn dirty_count<S: PageStore, D: LogDevice>(engine: &Engine<S, D>) -> u32 {
    let mut cursor = PageNo(0);
    let mut count = 0u32;
    for _ in 0..=MAX_PAGES {
        let Some(pages) = engine.dirty_from(cursor) else {
            return count;
        };
        let (more, last) = match pages {
            DirtyPages::One(last) => (1, last.page),
            DirtyPages::Two(_, last) => (2, last.page),
            DirtyPages::Three(_, _, last) => (3, last.page),
        };
        count = count.saturating_add(more);
        cursor = PageNo(last.saturating_add(1));
    }
    count
}
