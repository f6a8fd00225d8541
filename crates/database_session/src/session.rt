//! The lines of an open database: each is a call of its engine, and is answered at once.

ghost use Rattle.std.specs.Prelude.{◌≡◌, IfErr, OnOk, true};
ghost use Rattle.database_session.specs.Calls.{Makes};
ghost use Rattle.database_session.specs.MadeFiles.{IsBegunAtOnce, IsGiven, IsInPlace, IsStoredFor};
ghost use Rattle.database_session.specs.MadeFiles.{StandsOnPlaced, WaitsFor};
ghost use Rattle.session_lines.specs.Lines.{bytes_left};
ghost use Rattle.session_lines.specs.Said.{IsFault};
ghost use Rattle.database_session.specs.Session.{Answers, LeavesAnswer, LeavesBad, LeavesServed};
ghost use Rattle.database_session.specs.Session.{LeavesTaken, ServesAll, Takes, WritesBad};

use crate::call_kind::CallKind;
use crate::placed::Placed;
use crate::unplaced_copies::UnplacedCopies;
use crate::unplaced_point::UnplacedPoint;
use aries_core::{Engine, Event, Refusal};
use database_files::{DatabaseFolder, Diagnostics, KeptManifest, Place};
use file_devices::FileLog;
use log_store::LogDevice;
use page_core::write_out;
use page_store::PageStore;
use saved_files::Folder;
use session_lines::{
    BadCall, LineReader, LineTrouble, NextLine, Order, Said, ServeFault, Tally, said_in,
    said_unended, write_said,
};
use sqlite_disk::Disk;
use std::alloc::Global;
use std::io;
use std::io::{Read, Write};
use system_files::Notes;

/// A device that tells why its last call failed.
pub trait TellsWhy {
    /// Why the last call failed, as the system tells it, if it did.
    fn why(&self) -> Option<io::Error>;
}

impl<D: Disk + Drop> TellsWhy for FileLog<D> {
    fn why(&self) -> Option<io::Error> {
        self.error()
    }
}

/// An open database.
#[derive(Drop)]
pub struct OpenDatabase<'a, F: Folder, S: PageStore, D: LogDevice> {
    pub alloc: Global,
    pub engine: Engine<S, D>,
    pub folder: F,
    pub diagnostics: Diagnostics<'a>,
    /// Why calls of the folder failed.
    pub notes: &'a Notes,
    /// Why calls of the store failed.
    pub store_notes: &'a Notes,
    /// The copies whose files are not in place.
    pub unplaced: UnplacedCopies,
    /// The checkpoint whose master record is not in place.
    pub point: Option<UnplacedPoint>,
    /// The files that were put in place, and are to be named in the manifest.
    pub placed: Placed,
    /// What stands as the master record names no checkpoint of the log.
    pub is_master_wrong: bool,
    /// The ids that are not given, since their files could not be read.
    pub unread: Vec<u32>,
    /// How the lines were answered.
    pub tally: Tally,
    /// Some file failed.
    pub has_failed: bool,
}

/// Writes that a line is no call, and why.
fn write_bad<W: Write>(
    alloc: Global,
    number: u64,
    bad: &BadCall<'_>,
    writer: &mut W,
) -> Result<(), ServeFault>
    ensures written { OnOk result
        (WritesBad number bad.now.why
        (W.contents writer.old) (W.contents writer.new)) }
    ensures left { IfErr result
        (LeavesBad number bad.now.why
        (W.contents writer.old) (W.contents writer.new)) }
{
    let Ok(why) = format!(in alloc; "{bad}") else {
        return Err(ServeFault::OutOfMemory);
    };
    let Ok(text) = format!(in alloc; "bad line {number}: {why}\n") else {
        return Err(ServeFault::OutOfMemory);
    };
    match write_out(writer, text.as_bytes()) {
        Ok(()) => Ok(()),
        Err(done) => Err(ServeFault::WriteFault(done)),
    }
}

impl<F: DatabaseFolder, S: PageStore, D: LogDevice + TellsWhy> OpenDatabase<'_, F, S, D> {
    /// Takes the lines of the input one after another, to its end, or to a `quit`. Each is answered
    /// by one line or more, but for those that say nothing. The manifest names a file that a line
    /// put in place once that line is answered. After 2^64 - 2 lines it gives up.
    pub fn serve<R: Read + Drop, W: Write>(
        &mut self,
        lines: &mut LineReader<R>,
        writer: &mut W,
        kept: &mut KeptManifest,
    ) -> Result<(), ServeFault>
        requires { F.is_claimed self.old.folder }
        ensures served { OnOk result (ServesAll (bytes_left R.remaining lines.old)
            self.old.engine.state self.new.engine.state
            (W.contents writer.old) (W.contents writer.new)) }
        ensures left { IfErr result (LeavesServed (bytes_left R.remaining lines.old)
            self.old.engine.state self.new.engine.state
            (W.contents writer.old) (W.contents writer.new)) }
        ensures claimed { F.is_claimed self.new.folder }
    {
        for number in 1..u64::MAX {
            match lines.next_until_quit() {
                NextLine::Line(len) => {
                    let line = lines.line(len);
                    self.take_line(number, line, said_in(self.alloc, line)?, writer)?;
                }
                NextLine::Unended(len) => {
                    let line = lines.line(len);
                    self.take_line(number, line, said_unended(self.alloc, line)?, writer)?;
                }
                NextLine::TooLong => {
                    self.take_line(number, &[], Err(LineTrouble::TooLong), writer)?;
                }
                NextLine::End => return Ok(()),
                NextLine::Failed => return Err(ServeFault::ReadFault),
            }
            self.keep_placed(kept);
        }
        Err(ServeFault::ReadFault)
    }

    /// Takes the line of this number, which says this.
    fn take_line<W: Write>(
        &mut self,
        number: u64,
        line: &[u8],
        said: Result<Option<Order>, LineTrouble>,
        writer: &mut W,
    ) -> Result<(), ServeFault>
        requires { F.is_claimed self.old.folder }
        ensures taken { OnOk result (Takes number said self.old.engine.state
            self.new.engine.state (F.entries self.new.folder) (F.is_stored self.new.folder)
            (W.contents writer.old) (W.contents writer.new)) }
        ensures left { IfErr result (LeavesTaken number said self.old.engine.state
            self.new.engine.state (F.entries self.new.folder) (F.is_stored self.new.folder)
            (W.contents writer.old) (W.contents writer.new)) }
        ensures claimed { F.is_claimed self.new.folder }
    {
        match said {
            Ok(Some(Order::Call(event))) => self.answer(number, event, writer),
            Ok(Some(Order::Command(command))) => self.take_command(number, command, writer),
            Ok(None) => Ok(()),
            Err(why) => self.refuse_line(number, &BadCall { line, why }, writer),
        }
    }

    /// Tells that a line is no call, to a person and to the writer.
    fn refuse_line<W: Write>(
        &mut self,
        number: u64,
        bad: &BadCall<'_>,
        writer: &mut W,
    ) -> Result<(), ServeFault>
        ensures written { OnOk result
            (WritesBad number bad.now.why
            (W.contents writer.old) (W.contents writer.new)) }
        ensures left { IfErr result
            (LeavesBad number bad.now.why
            (W.contents writer.old) (W.contents writer.new)) }
        ensures engine { self.new.engine ≡ self.old.engine }
        ensures folder { self.new.folder ≡ self.old.folder }
    {
        self.tally.note(number, true);
        self.diagnostics
            .line(&format_args!("imgcopy: line {number}: {bad}"));
        write_bad(self.alloc, number, bad, writer)
    }

    /// Makes a call, puts in place what it made, and then writes its reply.
    fn answer<W: Write>(
        &mut self,
        number: u64,
        event: Event,
        writer: &mut W,
    ) -> Result<(), ServeFault>
        requires { F.is_claimed self.old.folder }
        ensures answered { OnOk result (Answers event self.old.engine.state
            self.new.engine.state (F.entries self.new.folder) (F.is_stored self.new.folder)
            (W.contents writer.old) (W.contents writer.new)) }
        ensures left { IfErr result (LeavesAnswer event self.old.engine.state
            self.new.engine.state (F.entries self.new.folder) (F.is_stored self.new.folder)
            (W.contents writer.old) (W.contents writer.new)) }
        ensures claimed { F.is_claimed self.new.folder }
    {
        let said = self.apply_and_place(event);
        self.note(number, &said);
        write_said(self.alloc, &said, writer)
    }

    /// Makes a call, and puts in place what it made.
    pub(crate) fn apply_and_place(&mut self, event: Event) -> Said
        requires { F.is_claimed self.old.folder }
        ensures made { Makes event self.old.engine.state result self.new.engine.state }
        // Where what is said tells of a file, it is in place.
        ensures in_place { IsInPlace event result self.new.engine.state
            (F.entries self.new.folder) }
        ensures stored { IsStoredFor event result (F.is_stored self.new.folder) }
        // Where it is not, its copy waits for it, and no copy stands on that one.
        ensures waits { WaitsFor event result self.new.unplaced }
        ensures stands { StandsOnPlaced event result self.old.unplaced }
        ensures given { IsGiven event result self.old.unread.items }
        ensures once { IsBegunAtOnce event self.old.unread.items self.old.unplaced
            self.old.engine.state result self.new.engine.state }
        ensures claimed { F.is_claimed self.new.folder }
    {
        match CallKind::of(&event) {
            CallKind::Seals(id) => self.seal(id),
            CallKind::EndsCheckpoint => self.end_checkpoint(),
            CallKind::BeginsCopy(None) => self.begin_copy(None),
            CallKind::BeginsCopy(Some(parent)) => self.begin_increment(parent),
            CallKind::Plain => Said::Reply(self.engine.apply(event)),
        }
    }

    /// Takes note of an answer, and tells a person why a file failed.
    pub(crate) fn note(&mut self, number: u64, said: &Said)
        ensures failed { IsFault said.now → self.new.has_failed ≡ true }
        ensures engine { self.new.engine ≡ self.old.engine }
        ensures folder { self.new.folder ≡ self.old.folder }
    {
        self.tally.note(number, said.is_refused());
        if said.is_fault() {
            self.has_failed = true;
        }
        self.tell_fault(said);
    }

    /// Tells which of the database's files failed, and why.
    pub fn tell_fault(&self, said: &Said) {
        match said {
            Said::Reply(Err(Refusal::StoreFault)) => self.diagnostics.tell_failed(
                Place::Volume,
                self.store_notes.error(),
                "it has something else than was written",
            ),
            Said::Reply(Err(Refusal::LogFault | Refusal::CommitUnsure(_))) => {
                self.diagnostics.tell_failed(
                    Place::Log,
                    self.engine.log().device().why(),
                    "it took less than was written",
                );
            }
            Said::Reply(_) | Said::Unplaced(_) => {}
        }
    }
}
