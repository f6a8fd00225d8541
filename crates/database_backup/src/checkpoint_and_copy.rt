//! A checkpoint and a copy that a command has an open database make.

ghost use Rattle.std.specs.Prelude.{◌≡◌, IfSome, IsTrue};
ghost use Rattle.std.specs.Io.KnownBytes.{Appends};
ghost use Rattle.database_session.specs.CopyBehindPoint.{CopiesBehindPoint, TellsCopy};
ghost use Rattle.database_backup.specs.Backups.{IsCopyPut};
ghost use Rattle.session_lines.specs.Commands.{IsToldWell};
ghost use Rattle.session_lines.specs.Commands.{one_line, text_of};

use database_files::DatabaseFolder;
use database_session::{OpenDatabase, TellsWhy, tell_ended};
use log_store::LogDevice;
use page_store::PageStore;
use session_lines::{CommandSaid, write_command};
use std::io::Write;
use system_files::Notes;

/// Makes a checkpoint and then a copy, on this one or a full one, and writes what is said of each.
/// Answers the id of the copy, if both were made and written; what went wrong was told.
pub(crate) fn checkpoint_and_copy<
    F: DatabaseFolder,
    S: PageStore,
    D: LogDevice + TellsWhy,
    W: Write,
>(
    session: &mut OpenDatabase<'_, F, S, D>,
    on: Option<u32>,
    output: &mut W,
    notes: &Notes,
) -> Option<u32>
    requires { F.is_claimed session.old.folder }
    ensures made { IfSome result (λ id.
        CopiesBehindPoint on id session.old.engine.state session.new.engine.state) }
    ensures in_place { IfSome result (λ id.
        IsCopyPut id session.new.engine.state (F.entries session.new.folder)) }
    ensures stored { IfSome result (λ _. F.is_stored session.new.folder) }
    ensures told { IfSome result (λ id.
        TellsCopy id (W.contents output.old) (W.contents output.new)) }
    ensures claimed { F.is_claimed session.new.folder }
{
    let point = session.checkpoint();
    if !is_told(session, &CommandSaid::Call(point), output, notes) {
        return None;
    }
    let copied = session.copy(on);
    if !is_told(session, &copied, output, notes) {
        return None;
    }
    copied.copied()
}

/// Tells a person what went wrong, and writes what is said. Says whether that is no refusal, and
/// was written.
fn is_told<F: DatabaseFolder, S: PageStore, D: LogDevice + TellsWhy, W: Write>(
    session: &mut OpenDatabase<'_, F, S, D>,
    said: &CommandSaid,
    output: &mut W,
    notes: &Notes,
) -> bool
    ensures well { IsTrue result → IsToldWell said.now }
    ensures written { IsTrue result → Appends (W.contents output.old) (W.contents output.new)
        (text_of (one_line said.now)) }
    ensures engine { session.new.engine ≡ session.old.engine }
    ensures folder { session.new.folder ≡ session.old.folder }
{
    let is_well = is_well(session, said);
    is_written(session, said, output, notes) && is_well
}

/// Whether nothing was refused. What was is told.
fn is_well<F: DatabaseFolder, S: PageStore, D: LogDevice + TellsWhy>(
    session: &mut OpenDatabase<'_, F, S, D>,
    said: &CommandSaid,
) -> bool
    ensures well { IsTrue result → IsToldWell said.now }
    ensures engine { session.new.engine ≡ session.old.engine }
    ensures folder { session.new.folder ≡ session.old.folder }
{
    match said.refused() {
        Some(refused) => {
            if refused.is_fault() {
                session.has_failed = true;
            }
            session.tell_fault(&refused);
            false
        }
        None => true,
    }
}

/// Writes what is said, and says whether it was written.
fn is_written<F: DatabaseFolder, S: PageStore, D: LogDevice + TellsWhy, W: Write>(
    session: &mut OpenDatabase<'_, F, S, D>,
    said: &CommandSaid,
    output: &mut W,
    notes: &Notes,
) -> bool
    ensures written { IsTrue result → Appends (W.contents output.old) (W.contents output.new)
        (text_of (one_line said.now)) }
    ensures engine { session.new.engine ≡ session.old.engine }
    ensures folder { session.new.folder ≡ session.old.folder }
{
    match write_command(session.alloc, said, output) {
        Ok(()) => true,
        Err(fault) => {
            session.has_failed = true;
            tell_ended(&session.diagnostics, &fault, &Notes::new(), notes);
            false
        }
    }
}
