//! What is wrong with a folder, and how it is told.

use crate::other_file::OtherFile;
use crate::unread::Unread;
use checked_files::ManifestUse;
use database_files::Place;
use file_view::{CopyFlaw, CopyRow, ViewFault};
use manifest::ManifestFault;
use std::{fmt, io};
use system_files::Escaped;

/// What to do where a manifest is none.
const MANIFEST_WAY_ON: &str = "put the files' manifest there, or go on by --no-manifest";

/// What is wrong with a folder, or is to be known of it.
#[derive(Drop)]
pub enum Trouble {
    /// The folder cannot be listed. The system has this number for why.
    Unlisted(Option<i32>),
    /// A file is wrong, or cannot be read.
    File(Place, Unread),
    /// There is no manifest.
    NoManifest,
    /// What has the manifest's name is no regular file.
    ManifestNotAFile,
    /// The manifest cannot be read. The system has this number for why.
    ManifestUnread(ViewFault, Option<i32>),
    /// What has the manifest's name is none.
    BadManifest(ManifestFault),
    /// What has the name of the note of a closing is none.
    NoNote,
    /// The log has so many bytes, and the note of the last closing tells of so many.
    Ends {
        bytes: u64,
        noted: u64,
    },
    /// A file that the manifest names cannot be read. The system has this number for why.
    Unsummed(String, Option<i32>),
    /// A copy is wrong, beside a log whose volume had so many pages before the copy's checkpoint,
    /// and which ends there.
    Flawed {
        row: CopyRow,
        pages: u32,
        end: u64,
    },
    /// The manifest does not name this file.
    Unnamed(Place),
    /// This file is not the one that the manifest names, of which so many bytes are named; and it
    /// has so many.
    Other {
        place: Place,
        named: u64,
        count: u64,
    },
}

/// What is wrong with a folder, in a line for a person, or in two where one of them is that of a
/// fault. Of a file that has a fault it says the fault alone: what is wrong there is told by who reads
/// it once more.
#[derive(Clone, Copy)]
pub struct TroubleLine<'a> {
    pub folder: &'a str,
    /// Which manifest counts.
    pub manifest: ManifestUse<'a>,
    pub trouble: &'a Trouble,
}

impl fmt::Display for TroubleLine<'_> {
    fn fmt<W: fmt::Write>(&self, f: &mut fmt::Formatter<W>) -> fmt::Result {
        let folder = Escaped(self.folder);
        let fault = ViewFault::ReadFault;
        match self.trouble {
            Trouble::Unlisted(Some(code)) => {
                let error = io::Error::from_raw_os_error(*code);
                write!(f, "imgcopy: {folder}: {error}\n{fault}")
            }
            Trouble::Unlisted(None) => write!(f, "{fault}"),
            Trouble::File(place, why) => write_file(f, folder, *place, why),
            Trouble::NoManifest => write!(
                f,
                "imgcopy: {folder}: there is no manifest: the files are not compared"
            ),
            Trouble::ManifestNotAFile | Trouble::ManifestUnread(_, _) | Trouble::BadManifest(_) =>
                self.write_manifest(f),
            Trouble::NoNote => write!(f, "imgcopy: {folder}/closed: this is no note of a closing"),
            Trouble::Ends { bytes, noted } => write!(
                f,
                "imgcopy: {folder}/log: ends at {bytes}: `closed` says that it ended at {noted}"
            ),
            Trouble::Unsummed(name, code) => {
                let name = Escaped(name.as_str());
                match code {
                    Some(code) => {
                        let error = io::Error::from_raw_os_error(*code);
                        write!(f, "imgcopy: {folder}/{name}: {error}")
                    }
                    None => write!(f, "imgcopy: {folder}/{name}: not read"),
                }
            }
            Trouble::Flawed { row, pages, end } => write_flaw(f, folder, row, *pages, *end),
            Trouble::Unnamed(place) => {
                write!(f, "imgcopy: {folder}{place}: the manifest does not name it")
            }
            Trouble::Other {
                place,
                named,
                count,
            } => {
                let file = OtherFile {
                    folder: self.folder,
                    place: *place,
                    named: *named,
                    count: *count,
                };
                file.fmt(f)
            }
        }
    }
}

impl TroubleLine<'_> {
    /// Writes what is wrong with the manifest, and what to do.
    fn write_manifest<W: fmt::Write>(&self, f: &mut fmt::Formatter<W>) -> fmt::Result {
        let fault = ViewFault::ReadFault;
        match self.trouble {
            Trouble::ManifestNotAFile => {
                write!(f, "{fault}\n")?;
                self.write_manifest_place(f)?;
                write!(f, "this is no regular file: {MANIFEST_WAY_ON}")
            }
            Trouble::ManifestUnread(fault, Some(code)) => {
                let error = io::Error::from_raw_os_error(*code);
                write!(f, "{fault}\n")?;
                self.write_manifest_place(f)?;
                write!(f, "{error}")
            }
            Trouble::ManifestUnread(fault, None) => write!(f, "{fault}"),
            Trouble::BadManifest(ManifestFault::OutOfMemory) => {
                let fault = ViewFault::OutOfMemory;
                write!(f, "{fault}")
            }
            Trouble::BadManifest(why) => {
                write!(f, "{fault}\n")?;
                self.write_manifest_place(f)?;
                write!(f, "{why}: {MANIFEST_WAY_ON}")
            }
            _ => Ok(()),
        }
    }

    /// Writes where the manifest stands that counts.
    fn write_manifest_place<W: fmt::Write>(&self, f: &mut fmt::Formatter<W>) -> fmt::Result {
        match self.manifest {
            ManifestUse::Told(place) => {
                let place = Escaped(place);
                write!(f, "imgcopy: {place}: ")
            }
            ManifestUse::Beside | ManifestUse::Aside => {
                let (folder, place) = (Escaped(self.folder), Place::Manifest);
                write!(f, "imgcopy: {folder}{place}: ")
            }
        }
    }
}

/// Writes what is wrong with a file.
fn write_file<W: fmt::Write>(
    f: &mut fmt::Formatter<W>,
    folder: Escaped<'_>,
    place: Place,
    why: &Unread,
) -> fmt::Result {
    match why {
        Unread::NotAFile => {
            let fault = ViewFault::ReadFault;
            write!(
                f,
                "{fault}\nimgcopy: {folder}{place}: this is no regular file"
            )
        }
        Unread::IsCopy(id) => write!(f, "imgcopy: {folder}{place}: is copy {id}"),
        Unread::Fault(fault, _) => write!(f, "{fault}"),
    }
}

/// Writes what is wrong with a copy, beside its log.
fn write_flaw<W: fmt::Write>(
    f: &mut fmt::Formatter<W>,
    folder: Escaped<'_>,
    row: &CopyRow,
    pages: u32,
    end: u64,
) -> fmt::Result {
    let header = row.header;
    let (id, begin, redo) = (header.id, header.begin.0, header.redo.0);
    match row.flaw {
        None => Ok(()),
        Some(CopyFlaw::Length) => {
            let (bytes, wanted) = (row.bytes, header.bytes());
            write!(
                f,
                "imgcopy: {folder}/copy-{id}: has {bytes} bytes, and not {wanted}"
            )
        }
        Some(CopyFlaw::Pages) => {
            let there = header.pages;
            write!(
                f,
                "imgcopy: {folder}/copy-{id}: has {there} pages, but the log has {pages} before its checkpoint"
            )
        }
        Some(CopyFlaw::Redo) => write!(
            f,
            "imgcopy: {folder}/copy-{id}: redo point {redo} is not below the log's end {end}"
        ),
        Some(CopyFlaw::Begin) => write!(
            f,
            "imgcopy: {folder}/copy-{id}: it begins at {begin}, not below the log's end {end}"
        ),
    }
}
