//! The clean end of an open database.

ghost use Rattle.std.specs.Prelude.{◌≡◌, false, OnOk, true};
ghost use Rattle.std.specs.Io.KnownBytes.{Appends};
ghost use Rattle.saved_files.specs.PutFault.{bytes_by};
ghost use Rattle.database_session.specs.Calls.{IsAnyReply, IsNoFault, IsOfClosing, RunsBy};
ghost use Rattle.database_session.specs.Closing.{ClosesWell, IsClosed, IsNoted};
ghost use Rattle.database_files.specs.Closed.{note_of};
ghost use Rattle.database_files.specs.DatabaseFolder.{HasFile};
ghost use Rattle.database_session.specs.PageWrites.{HasNoDirtyPage};

use crate::page_writes::write_pages;
use crate::session::{OpenDatabase, TellsWhy};
use aries_core::Refusal;
use database_files::{CLOSED, ClosedNote, DatabaseFolder, KeptManifest, Place};
use log_store::LogDevice;
use page_core::Lsn;
use page_store::PageStore;
use saved_files::{FileFault, PutFault, put_in_place};

impl<F: DatabaseFolder, S: PageStore, D: LogDevice + TellsWhy> OpenDatabase<'_, F, S, D> {
    /// Forces the log, writes each dirty page, names all of the log in the manifest, and notes
    /// where it ends. What fails is told, and then nothing is noted.
    pub fn close(&mut self, kept: &mut KeptManifest)
        requires { F.is_claimed self.old.folder }
        ensures ran { RunsBy IsOfClosing IsAnyReply self.old.engine.state self.new.engine.state }
        // The folder is left alone, but where no file failed, and all of the log is forced.
        ensures noted { IsClosed self.old.engine.state self.new.engine.state
            (self.new.folder ≡ self.old.folder) }
        // Where nothing failed, it was closed well, and the note of that lasts.
        ensures well { self.new.has_failed ≡ false
            → ClosesWell self.old.engine.state self.new.engine.state }
        ensures note { self.new.has_failed ≡ false
            → IsNoted self.new.engine.state (F.entries self.new.folder) }
        ensures stored { self.new.has_failed ≡ false → F.is_stored self.new.folder }
        // What failed before is not forgotten.
        ensures stays { self.new.has_failed ≡ false → self.old.has_failed ≡ false }
    {
        if let Err(why) = self.force_and_write_pages() {
            self.tell_unclosed(why);
            return;
        }
        let end = self.engine.log_end();
        if self.engine.log().forced_end() != end {
            self.tell_unclosed(Refusal::LogFault);
            return;
        }
        self.keep_last(kept);
        if let Err(fault) = self.note_end(end) {
            self.has_failed = true;
            self.diagnostics
                .tell_unkept(Place::Closed, fault, self.notes);
        }
    }

    /// Forces the log, and writes each dirty page.
    fn force_and_write_pages(&mut self) -> Result<(), Refusal>
        ensures ran { RunsBy IsOfClosing IsAnyReply self.old.engine.state self.new.engine.state }
        ensures well { OnOk result
            (RunsBy IsOfClosing IsNoFault self.old.engine.state self.new.engine.state) }
        ensures clean { OnOk result (HasNoDirtyPage self.new.engine.state) }
        ensures folder { self.new.folder ≡ self.old.folder }
        ensures failed { self.new.has_failed ≡ self.old.has_failed }
    {
        self.engine.force()?;
        match write_pages(&mut self.engine) {
            Ok(_) => Ok(()),
            Err(why) => Err(why),
        }
    }

    fn tell_unclosed(&mut self, why: Refusal)
        ensures engine { self.new.engine ≡ self.old.engine }
        ensures folder { self.new.folder ≡ self.old.folder }
        ensures failed { self.new.has_failed ≡ true }
    {
        let said = session_lines::Said::Reply(Err(why));
        self.has_failed = true;
        self.tell_fault(&said);
    }

    /// Notes where the log ends, which is all forced.
    fn note_end(&mut self, end: Lsn) -> Result<(), FileFault>
        requires claimed { F.is_claimed self.old.folder }
        requires forced { end ≡ self.old.engine.state.forced_end }
        ensures put { OnOk result (HasFile CLOSED.now
            (bytes_by (λ old new. Appends old new (note_of end))) (F.entries self.new.folder)) }
        ensures stored { OnOk result (F.is_stored self.new.folder) }
        ensures engine { self.new.engine ≡ self.old.engine }
        ensures failed { self.new.has_failed ≡ self.old.has_failed }
    {
        let mut note = ClosedNote { end };
        match put_in_place(&mut self.folder, self.alloc, CLOSED, &mut note) {
            Ok(()) => {}
            Err(PutFault::Unmade(why) | PutFault::Unwritten(why) | PutFault::Unplaced(why)) => {
                return Err(why);
            }
        }
        match self.folder.sync_names() {
            Ok(()) => Ok(()),
            Err(_) => Err(FileFault::WriteFault(0)),
        }
    }
}
