//! The unsound pages of a chain of copies from named files.

ghost use Rattle.std.specs.Prelude.{map, IfErr, IfOk};
ghost use Rattle.copy_audit.specs.AuditFault.{NamesNoPage};
ghost use Rattle.copy_audit.specs.Audited.{AreRefused};
ghost use Rattle.copy_audit.specs.Told.{AreToldOf};

use crate::named_files::NamedFiles;
use crate::restore::{LOG, told_late, told_readers};
use copy_audit::{Unsound, UnsoundPages, unsound_pages as unsound_in};
use std::alloc::Global;

/// The unsound pages of a chain of copies, as `copy_audit::unsound_pages` finds them, from the
/// files of these names.
pub fn unsound_pages<N: NamedFiles>(
    files: &N,
    alloc: Global,
    log: &str,
    archives: &[&str],
) -> Result<UnsoundPages, Unsound>
    ensures told { IfOk result (AreToldOf (N.bytes files.now log.now)
        (map (λ name. N.bytes files.now name.now) archives.now)) }
    ensures err { IfErr result (AreRefused (N.bytes files.now log.now)
        (map (λ name. N.bytes files.now name.now) archives.now)) }
    ensures no_page { IfErr result NamesNoPage }
{
    let mut readers = told_readers(alloc, files, archives)?;
    let mut log = told_late(files, LOG, log);
    unsound_in(alloc, &mut log, &mut readers)
}
