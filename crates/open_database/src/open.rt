//! Opens a database in a folder, and answers the lines of standard input.

ghost use Rattle.std.specs.Prelude.{ℕ, ◌≡◌, ◌≢◌, ◌⊎◌, false, IfErr, IfSome, List, None};
ghost use Rattle.std.specs.Prelude.{OnErr, OnOk, Option, Some, true};
ghost use Rattle.buffer_pool.specs.Pool.{IsFrameCount};
ghost use Rattle.log_records.specs.Log.{IsPageCount};
ghost use Rattle.std.specs.Io.KnownBytes.{Appends};
ghost use Rattle.database_session.specs.Calls.{Lives};
ghost use Rattle.database_session.specs.Closing.{IsNoted};
ghost use Rattle.database_opening.specs.FirstLine.{first_line};
ghost use Rattle.database_files.specs.DatabaseFolder.{HasFile};
ghost use Rattle.database_session.specs.MadeFiles.{is_master};
ghost use Rattle.session_lines.specs.Said.{LeavesLine};
ghost use Rattle.database_session.specs.Session.{LivesByAllLines, LivesByLines};
ghost use Rattle.database_session.specs.Session.{ServesAllLines, ServesLines};
ghost use Rattle.open_database.specs.WholeLives.{LivedByAllLines, LivedByLines};
ghost use Rattle.open_database.specs.declared.open.OpenEnd.TheVariants.{Failed};

use crate::opened_session::{OpenedSession, session_in};
use crate::prompt::Prompted;
use database_files::{DatabaseFolder, Diagnostics, KeptManifest, MASTER, Place};
use database_opening::{FirstLine, OpenCall, begin};
use database_session::{OpenDatabase, StreamNotes, Streams, TellsWhy, tell_ended};
use fuzzy_ckpt::Point;
use log_records::MAX_RECORDS;
use log_store::LogDevice;
use page_core::write_out;
use page_store::PageStore;
use saved_files::Folder;
use session_lines::{LineReader, ServeFault};
use sqlite_disk::Start;
use std::alloc::Global;
use std::fs::File;
use std::io::{IsTerminal, Read, Write};
use std::{fs, io};
use system_database::{SystemDatabase, output};
use system_files::{Noted, Notes, RetryWouldBlock};

/// How a database was open.
#[derive(Clone, Copy, Debug, PartialEq, Eq)]
pub enum OpenEnd {
    /// All went well.
    Well,
    /// All went well, but some line was refused, and the call is strict.
    Refused,
    /// It was not opened, or a file of it failed, or a standard stream. Why was told on standard
    /// error.
    Failed,
}

/// Opens the database in a folder, or makes a new one there, and answers the lines of standard
/// input to its end. The folder and the log are this call's alone until then. Then each dirty page
/// is written, and where the log ends is noted. What the log's file had is supposed by `start`.
pub fn open_folder<S: Start>(rt: &HostRuntime, call: &OpenCall<'_>, start: S) -> OpenEnd
    requires pages { IfSome call.now.pages IsPageCount }
    requires frames { IsFrameCount call.now.frames }
    // Of the system's folder, input and output nothing is known.
    ensures { result ≢ Failed → (written : Option (List ℕ))
        × LivedByAllLines None None call.now.salvage call.now.pages call.now.frames None written }
{
    // Where a standard stream is closed, a file of the database must not get its number.
    let _reserved = reserve_standard_streams(rt);
    let (notes, store_notes) = (Notes::new(), Notes::new());
    let (input_notes, output_notes) = (Notes::new(), Notes::new());
    let diagnostics = Diagnostics::new(rt, call.folder);
    let folder = SystemDatabase::new(rt, call.folder, (&notes, &store_notes), Some(start));
    let input = Prompted {
        stream: RetryWouldBlock {
            stream: Noted {
                file: rt.stdin(),
                notes: &input_notes,
            },
            rt,
        },
        rt,
        is_terminal: rt.stdin().is_terminal(),
    };
    let streams = Streams {
        input,
        output: output(rt, &output_notes),
        notes: StreamNotes {
            input: &input_notes,
            output: &output_notes,
        },
    };
    open_and_serve_streams(&diagnostics, folder, (&notes, &store_notes), call, streams)
}

/// Opens the database in any folder, or makes a new one there, answers all lines of this input, and
/// closes it. Nothing is told on standard error.
pub fn open_in<F: DatabaseFolder + Drop, R: Read, W: Write>(
    alloc: Global,
    folder: F,
    call: &OpenCall<'_>,
    input: &mut R,
    output: &mut W,
) -> OpenEnd
    requires pages { IfSome call.now.pages IsPageCount }
    requires frames { IsFrameCount call.now.frames }
    ensures lived { result ≢ Failed → LivedByAllLines (F.entries folder) (R.remaining input.old)
        call.now.salvage call.now.pages call.now.frames
        (W.contents output.old) (W.contents output.new) }
    // Where it failed, too, nothing else was written.
    ensures told { (W.contents output.new ≡ W.contents output.old)
        ⊎ LivedByLines (F.entries folder) (R.remaining input.old)
        call.now.salvage call.now.pages call.now.frames
        (W.contents output.old) (W.contents output.new) }
{
    let notes = Notes::new();
    let streams = StreamNotes {
        input: &notes,
        output: &notes,
    };
    open_and_serve(
        &Diagnostics::silent(alloc),
        folder,
        (&notes, &notes),
        call,
        input,
        output,
        streams,
    )
}

/// Opens the database in a folder, answers all lines of these streams, and closes it. The streams
/// are dropped then.
fn open_and_serve_streams<'a, F: DatabaseFolder + Drop, R: Read + Drop, W: Write + Drop>(
    diagnostics: &Diagnostics<'a>,
    folder: F,
    notes: (&'a Notes, &'a Notes),
    call: &OpenCall<'_>,
    streams: Streams<'_, R, W>,
) -> OpenEnd
    requires pages { IfSome call.now.pages IsPageCount }
    requires frames { IsFrameCount call.now.frames }
    ensures { result ≢ Failed → (written : Option (List ℕ))
        × LivedByAllLines (F.entries folder) (R.remaining streams.entry.input) call.now.salvage
        call.now.pages call.now.frames (W.contents streams.entry.output) written }
{
    let Streams {
        mut input,
        mut output,
        notes: stream_notes,
    } = streams;
    open_and_serve(
        diagnostics,
        folder,
        notes,
        call,
        &mut input,
        &mut output,
        stream_notes,
    )
}

/// Opens the database in a folder, answers all lines of the input, and closes it.
fn open_and_serve<'a, F: DatabaseFolder + Drop, R: Read, W: Write>(
    diagnostics: &Diagnostics<'a>,
    folder: F,
    notes: (&'a Notes, &'a Notes),
    call: &OpenCall<'_>,
    input: &mut R,
    output: &mut W,
    streams: StreamNotes<'_>,
) -> OpenEnd
    requires pages { IfSome call.now.pages IsPageCount }
    requires frames { IsFrameCount call.now.frames }
    ensures lived { result ≢ Failed → LivedByAllLines (F.entries folder) (R.remaining input.old)
        call.now.salvage call.now.pages call.now.frames
        (W.contents output.old) (W.contents output.new) }
    ensures told { (W.contents output.new ≡ W.contents output.old)
        ⊎ LivedByLines (F.entries folder) (R.remaining input.old)
        call.now.salvage call.now.pages call.now.frames
        (W.contents output.old) (W.contents output.new) }
{
    match session_in(diagnostics, folder, notes, call) {
        Ok(
            OpenedSession {
                mut session,
                mut kept,
                first,
                point,
            },
        ) => {
            serve_and_close(
                &mut session,
                &mut kept,
                (first, point),
                input,
                output,
                streams,
            );
            outcome(&session, call)
        }
        Err(fault) => {
            diagnostics.tell_fault(&fault, notes.0);
            OpenEnd::Failed
        }
    }
}

/// Opens a file for each standard stream: where one is closed, this has its number, and no file of
/// a database gets it.
pub fn reserve_standard_streams(rt: &HostRuntime) -> [io::Result<File>; 3] {
    [
        fs::open(rt, "/dev/null"),
        fs::open(rt, "/dev/null"),
        fs::open(rt, "/dev/null"),
    ]
}

/// Puts the master record in place, answers all lines, and closes the database.
fn serve_and_close<F: DatabaseFolder, S: PageStore, D: LogDevice + TellsWhy, R: Read, W: Write>(
    session: &mut OpenDatabase<'_, F, S, D>,
    kept: &mut KeptManifest,
    begun: (FirstLine, Option<Point>),
    input: &mut R,
    output: &mut W,
    streams: StreamNotes<'_>,
)
    requires { F.is_claimed session.old.folder }
    ensures lives { Lives session.old.engine.state session.new.engine.state }
    // The calls are those of the lines of the input, and those of a closing; what was written is
    // the first line, and then what is said of the calls of the lines.
    ensures lines { LivesByLines (first_line begun.0) (R.remaining input.old)
        session.old.engine.state session.new.engine.state
        (W.contents output.old) (W.contents output.new) }
    // Where nothing failed, they are those of all lines, and the note of the closing stands there.
    ensures all { session.new.has_failed ≡ false → LivesByAllLines (first_line begun.0)
        (R.remaining input.old) session.old.engine.state session.new.engine.state
        (W.contents output.old) (W.contents output.new) }
    ensures noted { session.new.has_failed ≡ false
        → IsNoted session.new.engine.state (F.entries session.new.folder) }
{
    let (first, point) = begun;
    warn_of_room(session);
    put_point(session, point);
    session.keep_placed(kept);
    let served = serve_all(session, kept, first, input, output);
    note_served(session, served, streams.input, streams.output);
    session.close(kept);
}

/// Tells a person that nine tenths of a log are used, if they are.
fn warn_of_room<F: Folder, S: PageStore, D: LogDevice>(session: &OpenDatabase<'_, F, S, D>) {
    let records = session.engine.log().records().len();
    if records.saturating_mul(10) >= MAX_RECORDS.saturating_mul(9) {
        let left = MAX_RECORDS.saturating_sub(records);
        session.diagnostics.tell(
            Place::Log,
            &format_args!("nine tenths of it are used: it takes {left} more records"),
        );
    }
}

/// Puts the master record of the log's last checkpoint in place, if it is not there.
pub fn put_point<F: DatabaseFolder, S: PageStore, D: LogDevice + TellsWhy>(
    session: &mut OpenDatabase<'_, F, S, D>,
    point: Option<Point>,
)
    requires { F.is_claimed session.old.folder }
    // Where it is not there then, a file failed.
    ensures put { session.new.has_failed ≡ false → IfSome point (λ it.
        HasFile MASTER.now (is_master it.begin it.end) (F.entries session.new.folder)) }
    ensures stays { session.new.has_failed ≡ false → session.old.has_failed ≡ false }
    ensures engine { session.new.engine ≡ session.old.engine }
    ensures claimed { F.is_claimed session.new.folder }
{
    let Some(point) = point else {
        return;
    };
    if session.place_ended(point).is_fault() {
        session.has_failed = true;
    }
}

/// Writes the first line, and answers the lines of the input.
fn serve_all<F: DatabaseFolder, S: PageStore, D: LogDevice + TellsWhy, R: Read, W: Write>(
    session: &mut OpenDatabase<'_, F, S, D>,
    kept: &mut KeptManifest,
    first: FirstLine,
    input: &mut R,
    output: &mut W,
) -> Result<(), ServeFault>
    requires { F.is_claimed session.old.folder }
    ensures served { ServesLines (first_line first) (R.remaining input.old)
        session.old.engine.state session.new.engine.state
        (W.contents output.old) (W.contents output.new) }
    ensures all { OnOk result (ServesAllLines (first_line first) (R.remaining input.old)
        session.old.engine.state session.new.engine.state
        (W.contents output.old) (W.contents output.new)) }
    ensures claimed { F.is_claimed session.new.folder }
{
    let Ok(mut lines) = LineReader::new(session.alloc, input) else {
        return Err(ServeFault::OutOfMemory);
    };
    match write_first(session.alloc, first, output) {
        Ok(()) => session.serve(&mut lines, output, kept),
        Err(fault) => Err(fault),
    }
}

/// Takes note of lines that came to an end before the input did, and tells why.
fn note_served<F: Folder, S: PageStore, D: LogDevice>(
    session: &mut OpenDatabase<'_, F, S, D>,
    served: Result<(), ServeFault>,
    input: &Notes,
    output: &Notes,
)
    ensures failed { OnErr served (session.new.has_failed ≡ true) }
    ensures engine { session.new.engine ≡ session.old.engine }
    ensures folder { session.new.folder ≡ session.old.folder }
{
    if let Err(fault) = served {
        session.has_failed = true;
        tell_ended(&session.diagnostics, &fault, input, output);
    }
}

/// Writes what is told first, as a line.
fn write_first<W: Write>(alloc: Global, first: FirstLine, writer: &mut W) -> Result<(), ServeFault>
    ensures written { OnOk result
        (Appends (W.contents writer.old) (W.contents writer.new) (first_line first)) }
    ensures left { IfErr result
        (LeavesLine (W.contents writer.old) (W.contents writer.new) (first_line first)) }
{
    let Ok(text) = format!(in alloc; "{first}\n") else {
        return Err(ServeFault::OutOfMemory);
    };
    match write_out(writer, text.as_bytes()) {
        Ok(()) => Ok(()),
        Err(done) => Err(ServeFault::WriteFault(done)),
    }
}

/// How it went: what the status of the program is.
fn outcome<F: Folder, S: PageStore, D: LogDevice>(
    session: &OpenDatabase<'_, F, S, D>,
    call: &OpenCall<'_>,
) -> OpenEnd
    ensures well { result ≢ Failed → session.now.has_failed ≡ false }
    ensures failed { result ≡ Failed → session.now.has_failed ≡ true }
{
    let is_strict = call.strict && session.tally.has_refused();
    if is_strict {
        let tally = &session.tally;
        session.diagnostics.line(&format_args!("imgcopy: {tally}"));
    }
    if session.has_failed {
        OpenEnd::Failed
    } else if is_strict {
        OpenEnd::Refused
    } else {
        OpenEnd::Well
    }
}
