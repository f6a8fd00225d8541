//! The files that `run --save` leaves in a folder, and their manifest.

ghost use Rattle.std.specs.Prelude.{◌≡◌, IfSome, IsSome, IsTrue};
ghost use Rattle.file_outputs.specs.Saves.{IsManifestOf, found_in};

use crate::leftovers::tell_left;
use crate::manifest_output::{drawn_manifest, put_manifest};
use crate::output_lines::tell;
use crate::save_folder::{has_manifest, may_save};
use crate::save_lines::{tell_stale, tell_unsaved};
use copy_coverage::Retired;
use manifest::Manifest;
use page_core::FaultName;
use saved_files::save_files;
use std::alloc::AllocError;
use system_files::{ClaimFault, Notes, SystemFolder};

/// The folder of a save, and whether a manifest is asked for there. With force the folder may be a
/// database's.
#[derive(Clone, Copy)]
pub struct Saving<'a> {
    pub folder: &'a str,
    pub manifest: bool,
    pub force: bool,
}

impl Saving<'_> {
    /// Whether the save may be begun: no other one has the folder or the log there, and without
    /// force it is no database's. Else this is told, before a long script is played in vain. A
    /// folder that cannot be opened is told of by the save.
    pub fn may_begin(&self, rt: &HostRuntime) -> bool {
        let notes = Notes::new();
        let mut there = SystemFolder::new(rt, rt.alloc(), self.folder, &notes);
        match there.claim_soon() {
            Ok(()) => self.may_save(rt),
            Err(ClaimFault::Unopened(_)) => true,
            Err(fault) => {
                tell(rt, self.folder, &fault);
                false
            }
        }
    }

    /// Saves what a script left, and says whether all went well. Why it did not is told. Behind the
    /// files a manifest is put in place, if one is asked for, or if an older one stands there,
    /// which names none of them.
    pub fn save(&self, rt: &HostRuntime, retired: &Retired) -> bool {
        let (folder, notes) = (self.folder, Notes::new());
        // What another one has open is not replaced.
        let mut there = SystemFolder::new(rt, rt.alloc(), folder, &notes).guarded(true);
        if !self.claims(rt, &mut there) || !self.may_save(rt) {
            return false;
        }
        let manifest = match self.manifest_of(rt, retired) {
            Some(manifest) => manifest,
            None => return false,
        };
        if let Err(fault) = save_files(&mut there, rt.alloc(), retired) {
            let _ = rt.eprintln(&fault);
            tell_unsaved(rt, folder, &fault, retired, &notes);
            return false;
        }
        if let Some(manifest) = &manifest {
            if !put_manifest(rt, &mut there, folder, &notes, retired, manifest) {
                return false;
            }
        }
        tell_stale(rt, rt.alloc(), folder, retired);
        tell_left(rt, folder);
        true
    }

    /// Claims the folder, or tells why it cannot be.
    fn claims(&self, rt: &HostRuntime, there: &mut SystemFolder<'_>) -> bool {
        match there.claim_soon() {
            Ok(()) => true,
            Err(_) if self.folder.is_empty() => {
                let _ = eprintln!(rt; "{} 0", FaultName::WriteFault);
                let _ = eprintln!(rt; "imgcopy: --save names no folder");
                false
            }
            Err(fault) => {
                tell(rt, self.folder, &fault);
                false
            }
        }
    }

    /// Whether the files may be saved there. Why they may not is told.
    fn may_save(&self, rt: &HostRuntime) -> bool {
        heard(rt, may_save(rt, self.folder, self.force)) == Some(true)
    }

    /// The manifest that is to stand beside the files, if one is. It is made before a file is
    /// replaced. None where it cannot be made, which is told.
    fn manifest_of(&self, rt: &HostRuntime, retired: &Retired) -> Option<Option<Manifest>>
        ensures asked { IfSome result (λ made. IsTrue self.now.manifest → IsSome made) }
        ensures right { IfSome result (λ made. IfSome made (IsManifestOf retired.now)) }
    {
        if self.manifest || heard(rt, has_manifest(rt, self.folder))? {
            Some(Some(drawn_manifest(rt, retired)?))
        } else {
            Some(None)
        }
    }
}

/// What was found, or none for want of memory, which is told.
fn heard(rt: &impl Eprint, found: Result<bool, AllocError>) -> Option<bool>
    ensures { result ≡ found_in found }
{
    match found {
        Ok(found) => Some(found),
        Err(_) => {
            let _ = eprintln!(rt; "{}", FaultName::OutOfMemory);
            None
        }
    }
}
