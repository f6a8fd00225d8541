//! Audits a chain of copies from named files.

ghost use Rattle.std.specs.Prelude.{◌≡◌, map, IfErr, OnOk};
ghost use Rattle.copy_audit.specs.Audited.{AreAudited, AreRefused};

use crate::named_files::NamedFiles;
use crate::restore::{LOG, told_late, told_readers};
use copy_audit::{Sound, Unsound, audit};
use std::alloc::Global;

/// Audits the files of these names: the archives of a chain of copies, in order, against a log. The
/// faults are those of `audit`; a file that cannot be opened is one whose first read fails. Each
/// file is opened when it is first read, and closed at its end, and the archives are read in pieces
/// as `restore_volume` reads them.
pub fn audit_files<N: NamedFiles>(
    files: &N,
    alloc: Global,
    log: &str,
    archives: &[&str],
) -> Result<Sound, Unsound>
    ensures sound { OnOk result (AreAudited (N.bytes files.now log.now)
        (map (λ name. N.bytes files.now name.now) archives.now)) }
    ensures err { IfErr result (AreRefused (N.bytes files.now log.now)
        (map (λ name. N.bytes files.now name.now) archives.now)) }
{
    let mut readers = told_readers(alloc, files, archives)?;
    let mut log = told_late(files, LOG, log);
    audit(alloc, &mut log, &mut readers)
}
