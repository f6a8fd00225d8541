//! The commands `backup` and `renew`.

ghost use Rattle.std.specs.Prelude.{◌≡◌, IsSome, IsTrue};
ghost use Rattle.std.specs.Process.{exit_status};
ghost use Rattle.database_backup.specs.Backups.{WasBackedUp};
ghost use Rattle.database_backup.specs.ClosedVolume.{WasRenewed};
ghost use Rattle.imgcopy.specs.Ends.{status_of_closed};

use database_backup::{BackupCall, RenewCall, backup_folder, renew_folder};
use file_inputs::parts_of;
use file_outputs::{UNFINISHED_NAME, is_unfinished, tell};
use open_database::OpenEnd;
use script_run::FAULT_STATUS;
use sqlite_disk::Start;
use std::process::ExitCode;

/// What is told where a copy is to stand on another one, and on none.
const ON_AND_FULL: &str = "\
error: the argument '--on <N>' cannot be used with '--full'

For more information, try '--help'.";

/// Makes a checkpoint and an image copy of the closed database in this folder: on the copy of this
/// number, or on the newest one, or a full copy.
pub(crate) fn backup<S: Start>(rt: &HostRuntime, call: &BackupCall<'_>, start: S) -> ExitCode
    ensures done { exit_status result ≡ 0 → WasBackedUp call.now.full call.now.on }
    ensures both { IsTrue call.now.full → IsSome call.now.on → exit_status result ≡ 2 }
{
    if call.full && call.on.is_some() {
        let _ = eprintln!(rt; "{ON_AND_FULL}");
        return ExitCode::from(FAULT_STATUS);
    }
    status_of(backup_folder(rt, call, start))
}

/// Makes a database in the new folder of the numbers of the closed one in the old folder.
pub(crate) fn renew<S: Start>(rt: &HostRuntime, old: &str, new: &str, start: S) -> ExitCode
    ensures { exit_status result ≡ 0 → WasRenewed }
{
    let path = new.trim_end_matches('/');
    let Some((folder, name)) = parts_of(path) else {
        tell(rt, new, &"this names no folder");
        return ExitCode::from(FAULT_STATUS);
    };
    if is_unfinished(name) {
        tell(rt, new, &UNFINISHED_NAME);
        return ExitCode::from(FAULT_STATUS);
    }
    status_of(renew_folder(rt, &RenewCall { old, folder, name }, start))
}

fn status_of(end: OpenEnd) -> ExitCode
    ensures { exit_status result ≡ status_of_closed end }
{
    match end {
        OpenEnd::Well => ExitCode::SUCCESS,
        OpenEnd::Refused | OpenEnd::Failed => ExitCode::from(FAULT_STATUS),
    }
}
