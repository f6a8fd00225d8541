//! The commands `list` and `verify`.

ghost use Rattle.std.specs.Prelude.{◌≡◌, IsOkAnd, IsTrue};
ghost use Rattle.std.specs.Process.{exit_status};
ghost use Rattle.folder_reports.specs.Sound.{HasAllNoted, IsVerified};

use crate::folder_copies::notes_of;
use checked_files::ManifestUse;
use file_inputs::{noted, patient, tell_unwritten, tell_view};
use file_view::{Form, ViewFault};
use folder_reports::{
    DatabaseFiles, FolderReport, SystemReader, Trouble, TroubleLine, Unread, list_folder,
    verify_folder,
};
use page_core::write_out;
use saved_files::NamedFiles;
use script_run::FAULT_STATUS;
use std::alloc::AllocError;
use std::io;
use std::process::ExitCode;
use std::thread::Threads;
use system_files::{Notes, SystemFiles};

/// Lists the copies of a folder, and what restores of them would do. Where something is wrong, or is
/// not what the manifest names, this is told, and the status is that of a fault.
pub fn list_named(
    rt: &HostRuntime,
    folder: &str,
    form: Form,
    manifest: ManifestUse<'_>,
) -> ExitCode {
    let notes = Notes::new();
    let others = SystemFiles {
        files: rt,
        notes: &notes,
    };
    let screen = Screen {
        rt,
        folder,
        manifest,
    };
    listed(&SystemReader { rt, folder }, &others, form, screen)
}

/// Sums each file that the manifest of a folder names, and audits each copy there against the log, or
/// reads the log where there is no copy. A line for each goes to standard output, and nothing is
/// changed. The status is 0 where all are sound.
pub fn verify_named(
    rt: &HostRuntime,
    threads: &(impl Threads + Sync),
    folder: &str,
    manifest: ManifestUse<'_>,
) -> ExitCode {
    let notes = Notes::new();
    let others = SystemFiles {
        files: rt,
        notes: &notes,
    };
    let screen = Screen {
        rt,
        folder,
        manifest,
    };
    verified(threads, &SystemReader { rt, folder }, &others, screen)
}

/// Lists the copies of any folder.
fn listed<F: DatabaseFiles, N: NamedFiles>(
    folder: &F,
    others: &N,
    form: Form,
    screen: Screen<'_>,
) -> ExitCode
    ensures { exit_status result ≡ 0 → HasAllNoted (F.entries folder.now) }
{
    let alloc = screen.rt.alloc();
    let mut report = FolderReport::new(alloc);
    let done = list_folder(alloc, folder, others, form, screen.manifest, &mut report);
    screen.tell(&report.troubles);
    let is_right = screen.is_right(&done);
    let is_written = done.is_err() || screen.write(report.lines.as_str());
    screen.tell(&report.behind);
    if is_right && is_written {
        ExitCode::SUCCESS
    } else {
        ExitCode::from(FAULT_STATUS)
    }
}

/// Verifies any folder.
fn verified<T: Threads + Sync, F: DatabaseFiles + Sync, N: NamedFiles>(
    threads: &T,
    folder: &F,
    others: &N,
    screen: Screen<'_>,
) -> ExitCode
    ensures { exit_status result ≡ 0
        → IsVerified (N.bytes others.now) (F.entries folder.now) screen.entry.manifest }
{
    let alloc = screen.rt.alloc();
    let mut report = FolderReport::new(alloc);
    let choice = screen.manifest;
    let done = verify_folder(alloc, threads, folder, others, choice, &mut report);
    screen.tell(&report.troubles);
    let is_right = screen.is_right(&done);
    let is_written = screen.write(report.lines.as_str());
    if is_right && is_written {
        ExitCode::SUCCESS
    } else {
        ExitCode::from(FAULT_STATUS)
    }
}

/// Where a report on a folder is told.
#[derive(Clone, Copy)]
struct Screen<'a> {
    rt: &'a HostRuntime,
    folder: &'a str,
    manifest: ManifestUse<'a>,
}

impl Screen<'_> {
    /// Whether a report says that all is right. That memory ran out is told.
    fn is_right(&self, done: &Result<bool, AllocError>) -> bool
        ensures { IsTrue result → IsOkAnd done.now IsTrue }
    {
        match done {
            Ok(is_right) => *is_right,
            Err(_) => {
                let _ = self.rt.eprintln(&ViewFault::OutOfMemory);
                false
            }
        }
    }

    /// Writes the lines, and says whether all went out.
    fn write(&self, text: &str) -> bool {
        let output = Notes::new();
        match write_out(
            &mut noted(patient(self.rt, io::writer(self.rt)), &output),
            text.as_bytes(),
        ) {
            Ok(()) => true,
            Err(done) => {
                let _ = self.rt.eprintln(&ViewFault::WriteFault(done));
                tell_unwritten(self.rt, &output);
                false
            }
        }
    }

    /// Tells what is wrong with the folder. A file that is wrong is read once more, to say why.
    fn tell(&self, troubles: &[Trouble]) {
        for trouble in troubles {
            let line = TroubleLine {
                folder: self.folder,
                manifest: self.manifest,
                trouble,
            };
            let _ = self.rt.eprintln(&line);
            if let Trouble::File(place, Unread::Fault(fault, code)) = trouble {
                let folder = self.folder;
                if let Ok(name) = format!(in self.rt.alloc(); "{folder}{place}") {
                    tell_view(self.rt, name.as_str(), fault, &notes_of(*code));
                }
            }
        }
    }
}
