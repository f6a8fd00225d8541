//! A folder that is made ready for a new life of its database.

ghost use Rattle.std.specs.Prelude.{◌≡◌, ◌≢◌, ◌⊎◌, [], false, IsTrue};
ghost use Rattle.std.specs.Prelude.{None, OnOk};
ghost use Rattle.engine_restart.specs.LogFile.{LastsOnFile};
ghost use Rattle.file_devices.specs.FileLog.{bytes_of};
ghost use Rattle.log_prefix.specs.Front.{end_of};
ghost use Rattle.log_records.specs.Log.{log_bytes};
ghost use Rattle.database_files.specs.Closed.{IsVouched, IsWithoutNote, KeepsNote};
ghost use Rattle.database_files.specs.DatabaseFolder.{Tells};
ghost use Rattle.saved_files.specs.Folder.{Changes, IsSame, KeepsOthers};
ghost use Rattle.database_files.specs.LeftOut.{IsKept, IsWorthKeeping, WasKept};
ghost use Rattle.database_files.specs.LeftOut.{behind};
ghost use Rattle.database_files.specs.MovedAside.{AreSetAside, IsSetAsideAt, KeepsOrPutsAside};
ghost use Rattle.database_files.specs.MovedAside.{file_name_of};
ghost use Rattle.database_files.specs.Standing.{KeepsFiles};
ghost use Rattle.database_opening.specs.Ready.{IsCalledOnceReady};

use crate::left_out::put_aside;
use crate::new_database::code_of;
use crate::restarted::Remains;
use database_files::{
    CLOSED, ChangeFault, ClosedNote, DatabaseFolder, Diagnostics, ForcedEndEvidence, Inventory,
    Place, Witness, move_copy_aside, move_manifest_aside, move_master_aside, remove_note,
};
use engine_restart::FoundLog;
use file_devices::FileLog;
use page_core::Lsn;
use sqlite_disk::Disk;
use std::io;

/// Gives other names to the files that know of more than the log has, so that the next opening is
/// not refused for what this one went on without.
pub(crate) fn set_aside_claimants<F: DatabaseFolder>(
    diagnostics: &Diagnostics<'_>,
    folder: &mut F,
    evidence: &ForcedEndEvidence,
) -> Result<(), ChangeFault>
    requires { F.is_claimed folder.old }
    ensures set_aside { OnOk result
        (AreSetAside (F.entries folder.old) evidence.now.claims.items (F.entries folder.new)) }
    ensures none { evidence.now.claims.items ≡ []
        → Changes IsSame (F.entries folder.old) (F.entries folder.new) }
    // However that ends, each file stands there still, and there is no other note of a closing.
    ensures stays { Changes KeepsOrPutsAside (F.entries folder.old) (F.entries folder.new) }
    ensures note { KeepsNote (F.entries folder.old) (F.entries folder.new) }
    ensures claimed { F.is_claimed folder.new }
{
    if evidence.is_none() {
        return Ok(());
    }
    let claims = evidence.claims.as_slice();
    for claim in claims {
        match move_witness_aside(diagnostics, folder, claim.witness) {
            Ok(()) => {}
            Err(error) => return Err(ChangeFault::of_folder(error)),
        }
    }
    Ok(())
}

/// Gives another name to the file that a witness is, if it is one that an opening would weigh
/// again.
fn move_witness_aside<F: DatabaseFolder>(
    diagnostics: &Diagnostics<'_>,
    folder: &mut F,
    witness: Witness,
) -> io::Result<()>
    requires { F.is_claimed folder.old }
    ensures set_aside { OnOk result
        (IsSetAsideAt (file_name_of witness) (F.entries folder.old) (F.entries folder.new)) }
    ensures stays { Changes KeepsOrPutsAside (F.entries folder.old) (F.entries folder.new) }
    ensures note { KeepsNote (F.entries folder.old) (F.entries folder.new) }
    ensures claimed { F.is_claimed folder.new }
{
    match witness {
        Witness::Manifest | Witness::Changed => move_manifest_aside(diagnostics, folder),
        Witness::Master => move_master_aside(diagnostics, folder),
        Witness::Begin(id) | Witness::Page(id, _) => match move_copy_aside(
            diagnostics,
            folder,
            id,
        ) {
            Ok(_) => Ok(()),
            Err(error) => Err(error),
        },
        Witness::Closed | Witness::Record => Ok(()),
    }
}

/// Makes the log ready for a new life: what stands behind it is put aside and then cut off, and the
/// note of the last closing goes before anything is stored.
pub(crate) fn make_log_ready<F: DatabaseFolder>(
    diagnostics: &Diagnostics<'_>,
    folder: &mut F,
    there: &Inventory,
    remains: &mut Remains<F::LogDisk>,
) -> Result<(), ChangeFault>
    requires lasting { LastsOnFile remains.old.log.front.log remains.old.log.device }
    requires claimed { F.is_claimed folder.old }
    ensures log { remains.new.log.front.log ≡ remains.old.log.front.log }
    ensures others { remains.new.others ≡ remains.old.others }
    ensures files { Changes KeepsFiles (F.entries folder.old) (F.entries folder.new) }
    ensures lasting { OnOk result (LastsOnFile remains.new.log.front.log remains.new.log.device) }
    // What stood behind the log has a file of its own,
    ensures kept { OnOk result (remains.old.log.front.cut ≢ None
        → IsWorthKeeping (behind remains.old.log)
        → WasKept (behind remains.old.log) (F.entries folder.new)) }
    // and is gone from the log's for certain, before any record is stored there.
    ensures alone { OnOk result (remains.old.log.front.cut ≢ None
        → bytes_of remains.new.log.device ≡ log_bytes remains.new.log.front.log) }
    // No note of a closing stands there from now on.
    ensures gone { OnOk result (Tells (F.entries folder.old) CLOSED.now there.now.has_closed
        → IsWithoutNote (F.entries folder.new)) }
    // However it ends, nothing is asked of the log's file before both are so.
    ensures ready { Tells (F.entries folder.old) CLOSED.now there.now.has_closed
        → IsCalledOnceReady remains.old.log remains.new.log.device (F.entries folder.new) }
    // What the log's file gave is taken at its word only where the last closing vouches for it.
    ensures vouched { OnOk result ((remains.new.log.device.is_read ≡ false)
        ⊎ IsVouched remains.old.others.note (end_of remains.old.log.front.log)) }
    ensures claimed { F.is_claimed folder.new }
{
    keep_behind(diagnostics, folder, &remains.log)?;
    forget_closing(folder, there)?;
    let found = &mut remains.log;
    let (front, note) = (&found.front, remains.others.note);
    if front.cut().is_some() || !is_vouched(note, front.log().end()) {
        keep_front(found)?;
    }
    Ok(())
}

/// Keeps what stands behind the log in a file of its own.
fn keep_behind<F: DatabaseFolder>(
    diagnostics: &Diagnostics<'_>,
    folder: &mut F,
    found: &FoundLog<FileLog<F::LogDisk>>,
) -> Result<(), ChangeFault>
    requires { F.is_claimed folder.old }
    ensures kept { OnOk result (found.now.front.cut ≢ None → IsWorthKeeping (behind found.now)
        → IsKept (F.entries folder.old) (behind found.now) (F.entries folder.new)) }
    ensures files { Changes KeepsFiles (F.entries folder.old) (F.entries folder.new) }
    ensures note { OnOk result (KeepsNote (F.entries folder.old) (F.entries folder.new)) }
    ensures claimed { F.is_claimed folder.new }
{
    match found.front.cut() {
        Some(cut) => {
            diagnostics.tell_cut(&cut, found.behind().len());
            put_aside(diagnostics, folder, found.behind())
        }
        None => Ok(()),
    }
}

/// Removes the note of the last closing, if there is one.
fn forget_closing<F: DatabaseFolder>(folder: &mut F, there: &Inventory) -> Result<(), ChangeFault>
    requires { F.is_claimed folder.old }
    // Where it is known whether one stood there, none does now; and it is gone for certain.
    ensures gone { OnOk result (Tells (F.entries folder.old) CLOSED.now there.now.has_closed
        → IsWithoutNote (F.entries folder.new)) }
    ensures stored { OnOk result (IsTrue there.now.has_closed → F.is_stored folder.new) }
    ensures others { Changes (KeepsOthers CLOSED.now)
        (F.entries folder.old) (F.entries folder.new) }
    ensures claimed { F.is_claimed folder.new }
{
    if there.has_closed {
        remove_note(folder)
    } else {
        Ok(())
    }
}

/// Stores the log again, and has it alone last on its file.
fn keep_front<D: Disk + Drop>(found: &mut FoundLog<FileLog<D>>) -> Result<(), ChangeFault>
    ensures front { found.new.front ≡ found.old.front }
    ensures lasting { OnOk result (LastsOnFile found.new.front.log found.new.device) }
    ensures alone { OnOk result
        (bytes_of found.new.device ≡ log_bytes found.new.front.log) }
    ensures written { OnOk result (found.new.device.is_read ≡ false) }
{
    match found.keep_front() {
        Ok(()) => Ok(()),
        Err(_) => Err(ChangeFault::System(Place::Log, code_of(found.device.error()))),
    }
}

/// Whether the note of a clean closing says that the log lasts to its end.
pub fn is_vouched(note: Option<ClosedNote>, end: Lsn) -> bool
    ensures { IsTrue result → IsVouched note end }
{
    match note {
        Some(note) => note.end == end,
        None => false,
    }
}
