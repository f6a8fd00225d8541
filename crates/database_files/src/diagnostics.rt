//! Lines for a person on standard error.

use crate::change_fault::ChangeFault;
use crate::database_folder::RANDOM;
use crate::evidence::ForcedEndEvidence;
use crate::fault::OpenFault;
use crate::place::Place;
use engine_restart::{FoundFault, RestartFault};
use event_script::ReplyLine;
use log_prefix::{Cut, CutReason};
use log_records::MAX_LOG_BYTES;
use log_store::LogReadFault;
use manifest::ManifestFault;
use page_core::FaultName;
use saved_files::FileFault;
use std::alloc::Global;
use std::fmt::Display;
use std::io;
use system_files::{Escaped, Notes};

// What is told of faults that an opening may meet when it looks, and when it changes a folder.
const NOT_A_FILE: &str = "this is no regular file";

const LINK_TO_NOTHING: &str = "this is a link that leads nowhere";

const LOG_OPEN: &str = "another one has this log open";

const NO_MEMORY: &str = "there is not enough memory to open it";

/// Tells on standard error what befalls a folder.
#[derive(Clone, Copy)]
pub struct Diagnostics<'a> {
    /// Whose standard error it is. Without it nothing is told.
    rt: Option<&'a HostRuntime>,
    pub alloc: Global,
    folder: &'a str,
}

/// Why the bytes behind a log are left out.
fn reason_of(cut: &Cut) -> &'static str {
    match cut.why {
        CutReason::Torn => "they are less than a record",
        CutReason::BadRecord => "no record begins there",
        CutReason::BadChain => "the record there may not follow those before it",
        CutReason::TooLong => "a log has no more records",
    }
}

impl<'a> Diagnostics<'a> {
    /// Tells of this folder.
    pub fn new(rt: &'a HostRuntime, folder: &'a str) -> Diagnostics<'a> {
        Diagnostics {
            rt: Some(rt),
            alloc: rt.alloc(),
            folder,
        }
    }

    /// Tells nothing.
    pub fn silent(alloc: Global) -> Diagnostics<'a> {
        Diagnostics {
            rt: None,
            alloc,
            folder: "",
        }
    }

    /// Writes this line.
    pub fn line(&self, text: &impl Display) {
        if let Some(rt) = self.rt {
            let _ = rt.eprintln(text);
        }
    }

    /// Tells this of a place in the folder.
    pub fn tell(&self, place: Place, why: &impl Display) {
        let folder = Escaped(self.folder);
        self.line(&format_args!("imgcopy: {folder}{place}: {why}"));
    }

    /// Tells that the bytes behind a log are left out, which are so many.
    pub fn tell_cut(&self, cut: &Cut, count: usize) {
        let at = cut.at.0;
        let bytes = if count == 1 { "byte" } else { "bytes" };
        let were = if count == 1 { "was" } else { "were" };
        let why = reason_of(cut);
        self.tell(
            Place::Log,
            &format_args!("{count} {bytes} behind {at} {were} left out: {why}"),
        );
    }

    /// Tells what a log lacks, and what knows of it.
    pub fn tell_evidence(&self, evidence: &ForcedEndEvidence) {
        let end = evidence.end.0;
        match &evidence.cut {
            Some(cut) => {
                let why = reason_of(cut);
                self.tell(Place::Log, &format_args!("the log ends at {end}: {why}"));
            }
            None => self.tell(Place::Log, &format_args!("the log ends at {end}")),
        }
        for claim in evidence.claims.as_slice() {
            let (witness, at) = (claim.witness, claim.at.0);
            self.tell(Place::Folder, &format_args!("{witness} {at}"));
        }
    }

    /// Tells that a file was not written.
    pub fn tell_unkept(&self, place: Place, fault: FileFault, notes: &Notes) {
        match (fault, notes.error()) {
            (FileFault::WriteFault(_), Some(error)) => {
                self.tell(place, &format_args!("not written: {error}"));
            }
            (fault, _) => self.tell(place, &format_args!("not written: {fault}")),
        }
    }

    /// Tells why a call of a file failed, as the system says it, or this where the system says
    /// nothing.
    pub fn tell_failed(&self, place: Place, error: Option<io::Error>, otherwise: &str) {
        match error {
            Some(error) => self.tell(place, &error),
            None => self.tell(place, &otherwise),
        }
    }

    /// Tells why the folder was not opened: the name of the fault, if it has one, and a line that
    /// says where and why. The notes are those of the folder.
    pub fn tell_fault(&self, fault: &OpenFault, notes: &Notes) {
        if let Some(name) = fault.name() {
            match name {
                FaultName::WriteFault => self.line(&format_args!("{name} 0")),
                _ => self.line(&name),
            }
        }
        match fault {
            OpenFault::Unclaimed(why) => self.tell(Place::Folder, why),
            OpenFault::System(place, code) => self.tell_system(*place, *code),
            OpenFault::Lost(evidence) => self.tell_lost(evidence),
            OpenFault::Unput(place, why) => self.tell_unkept(*place, *why, notes),
            OpenFault::BadManifest(why) => self.tell_bad_manifest(why),
            OpenFault::NoName(code) => self.tell_unnamed(*code),
            OpenFault::LogLost(place) => self.tell(*place, &"this is there, but no log"),
            OpenFault::Restart(RestartFault::LogFault) => self.tell_system(Place::Log, None),
            OpenFault::Change(why) => self.tell_change(why, notes),
            fault => self.tell_refused(fault),
        }
    }

    /// Tells which change of the folder failed, and why.
    fn tell_change(&self, fault: &ChangeFault, notes: &Notes) {
        match fault {
            ChangeFault::System(place, code) => self.tell_system(*place, *code),
            ChangeFault::NotAFile(place) => self.tell(*place, &NOT_A_FILE),
            ChangeFault::LinkToNothing => self.tell(Place::Log, &LINK_TO_NOTHING),
            ChangeFault::LogOpen => self.tell(Place::Log, &LOG_OPEN),
            ChangeFault::NotAside(why) => match notes.error() {
                Some(error) => self.tell_not_aside(&error),
                None => self.tell_not_aside(why),
            },
            ChangeFault::Restart(RestartFault::LogFault, code) | ChangeFault::NoHeader(code) => {
                self.tell_system(Place::Log, *code);
            }
            ChangeFault::OutOfMemory | ChangeFault::Restart(RestartFault::OutOfMemory, _) => {
                self.tell(Place::Folder, &NO_MEMORY);
            }
            ChangeFault::Restart(RestartFault::LogFull, _) => {}
        }
    }

    fn tell_not_aside(&self, why: &impl Display) {
        self.tell(
            Place::Log,
            &format_args!("what stands behind it was not put aside: {why}"),
        );
    }

    /// Tells which of what stands in a folder is refused, and why.
    fn tell_refused(&self, fault: &OpenFault) {
        match fault {
            OpenFault::NotAFile(place) => self.tell(*place, &NOT_A_FILE),
            OpenFault::LinkToNothing => self.tell(Place::Log, &LINK_TO_NOTHING),
            OpenFault::LogOpen => self.tell(Place::Log, &LOG_OPEN),
            OpenFault::TooLong(count) => {
                self.tell(
                    Place::Log,
                    &format_args!("it has {count} bytes, and a log {MAX_LOG_BYTES} at most"),
                );
            }
            OpenFault::Found(FoundFault::BadHeader | FoundFault::OldFormat) => {
                self.tell(Place::Log, &"it has no header of a log of format 2");
            }
            OpenFault::NoVolume => self.tell(
                Place::Volume,
                &"this is no volume, and would be replaced: move it away",
            ),
            OpenFault::NoCount => self.tell(
                Place::Folder,
                &"there is no log: name the page count of a new database by --pages",
            ),
            OpenFault::OtherCount { there, told } => self.tell_count(*there, *told),
            OpenFault::Stranger(name) => self.tell_stranger(name.as_str()),
            OpenFault::SmallFiles(most) => {
                self.tell(
                    Place::Folder,
                    &format_args!(
                        "files may have {most} bytes here, and a log {MAX_LOG_BYTES}: raise the limit"
                    ),
                );
            }
            OpenFault::NoLog => self.tell(Place::Log, &"there is no log"),
            OpenFault::NotClosed => self.tell(
                Place::Folder,
                &"it was not closed: open it once, and end its input",
            ),
            OpenFault::TooFull { needed, most } => self.tell_full(*needed, *most),
            OpenFault::Taken(name) => self.tell_taken(name.as_str()),
            OpenFault::OtherDatabase(place) => self.tell(
                *place,
                &"this is of another database, or newer: name another folder",
            ),
            OpenFault::OtherNumbers => {
                self.tell(Place::Folder, &"it has other numbers than the old one");
            }
            OpenFault::Unfilled(why) => {
                let line = ReplyLine(Err(*why));
                self.tell(Place::Folder, &format_args!("it was not filled: {line}"));
            }
            OpenFault::OutOfMemory
            | OpenFault::Found(FoundFault::OutOfMemory)
            | OpenFault::Restart(RestartFault::OutOfMemory) => {
                self.tell(Place::Folder, &NO_MEMORY);
            }
            _ => {}
        }
    }

    /// Tells that a log lacks what was forced, so that it is not opened.
    fn tell_lost(&self, evidence: &ForcedEndEvidence) {
        let fault = match &evidence.cut {
            Some(cut) => cut.fault(),
            None => LogReadFault::BadChain(evidence.end),
        };
        self.line(&fault);
        self.tell_evidence(evidence);
        self.tell(
            Place::Folder,
            &"records that were forced are missing, and nothing was changed: keep a copy of the folder; --salvage opens what is left",
        );
    }

    fn tell_bad_manifest(&self, why: &ManifestFault) {
        self.tell(
            Place::Manifest,
            &format_args!("{why}: move it away, and open again; the database gets a new name then"),
        );
    }

    /// Tells that no name of a database was drawn.
    fn tell_unnamed(&self, code: Option<i32>) {
        match code {
            Some(code) => {
                let error = io::Error::from_raw_os_error(code);
                self.line(&format_args!("imgcopy: {RANDOM}: {error}"));
            }
            None => self.line(&format_args!("imgcopy: {RANDOM}: it gives too few bytes")),
        }
    }

    fn tell_count(&self, there: u32, told: u32) {
        let pages = if there == 1 { "page" } else { "pages" };
        self.tell(
            Place::Log,
            &format_args!("its volume has {there} {pages}, and --pages says {told}"),
        );
    }

    fn tell_stranger(&self, name: &str) {
        let name = Escaped(name);
        self.tell(
            Place::Folder,
            &format_args!(
                "there is no log, but `{name}`: name an empty folder, or one with a database"
            ),
        );
    }

    fn tell_full(&self, needed: u64, most: u64) {
        self.tell(
            Place::Volume,
            &format_args!("its numbers need {needed} records, and {most} is half of a log"),
        );
    }

    fn tell_taken(&self, name: &str) {
        let name = Escaped(name);
        self.tell(
            Place::Folder,
            &format_args!("`{name}` is there: name a folder that is not, or move this one away"),
        );
    }

    fn tell_system(&self, place: Place, code: Option<i32>) {
        match code {
            Some(code) => self.tell(place, &io::Error::from_raw_os_error(code)),
            None => self.tell(place, &"this cannot be done"),
        }
    }
}
