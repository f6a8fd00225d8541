//! What is wrong with a file, in words for a person.

use crate::chain_reason::ChainReason;
use std::fmt;

/// What is wrong with a file. Its text follows the file's name.
#[derive(Clone, Copy)]
pub enum Reason {
    IsLog,
    IsMaster,
    IsArchive,
    /// It has fewer than 64 bytes, and how many.
    IsShort(u64),
    /// It has more bytes than a master record, and how many.
    IsLong(u64),
    /// It begins like nothing that is known here.
    IsOther,
    /// A header of the right kind with a number or a byte that none has.
    BadHeader,
    /// The record at the offset has a kind that is none.
    Kind(u8),
    /// It has another offset as its own LSN.
    OwnLsn(u64),
    Misspelt,
    /// So many bytes of the last record are there.
    Torn(u64),
    Chain(ChainReason),
    /// The master record names this checkpoint, and the log has no such complete one.
    NoCheckpoint(u64, u64),
    /// The copy is full, and stands behind others.
    FullBehind,
    /// The copy is incremental, and stands first.
    IncFirst(u32),
    /// The parent of the copy, and the copy before it.
    Parent(u32, u32),
    /// The pages of the copy, and those that the log has before the copy's checkpoint.
    Pages(u32, u32),
    /// As many pages follow as its length allows, and as many as its header says.
    Count(u64, u32),
    /// So many bytes follow the last of the pages that its header says.
    Behind(u64, u32),
    /// The redo point of the copy, and the log's end.
    RedoPoint(u64, u64),
    /// A page whose LSN is not below the log's end.
    PageLsn(u32, u64),
    /// A page that is not as the log made it, or lacks a change below the redo point.
    Unsound(u32, u64),
    /// Other bytes stand in the place of this page of a volume.
    NoPage(u64),
    /// No record of the log begins where it was to end. Its last one is here, or it has none.
    NoRecord(u64),
    /// No checkpoint is complete where the log was to end.
    NoPoint,
}

impl fmt::Display for Reason {
    fn fmt<W: fmt::Write>(&self, f: &mut fmt::Formatter<W>) -> fmt::Result {
        match self {
            Reason::IsLog => f.write_str("is a log"),
            Reason::IsMaster => f.write_str("is a master record"),
            Reason::IsArchive => f.write_str("is an image copy"),
            Reason::IsShort(count) => write!(f, "has {count} bytes, and a header has 64"),
            Reason::IsLong(count) => write!(f, "has {count} bytes, and a master record has 64"),
            Reason::IsOther => f.write_str("begins like no file of imgcopy"),
            Reason::BadHeader => f.write_str("its header has a number that none may have"),
            Reason::Kind(kind) => write!(f, "kind {kind} is that of no record"),
            Reason::OwnLsn(lsn) => write!(f, "the record there has LSN {lsn} in itself"),
            Reason::Misspelt => f.write_str("the bytes there spell no record of this volume"),
            Reason::Torn(count) => write!(f, "{count} of the 64 bytes there are left"),
            Reason::Chain(why) => why.fmt(f),
            Reason::NoCheckpoint(begin, end) => {
                write!(
                    f,
                    "the log has no complete checkpoint from {begin} to {end}"
                )
            }
            Reason::FullBehind => f.write_str("is a full copy, but others stand before it"),
            Reason::IncFirst(parent) => {
                write!(f, "is an increment of copy {parent}, but stands first")
            }
            Reason::Parent(parent, before) => {
                write!(
                    f,
                    "parent is copy {parent}, but copy {before} stands before it"
                )
            }
            Reason::Pages(copy, log) => {
                write!(
                    f,
                    "has {copy} pages, but the log has {log} before its checkpoint"
                )
            }
            Reason::Count(there, said) => {
                write!(
                    f,
                    "its header says {said} pages, and there is room for {there}"
                )
            }
            Reason::Behind(count, said) => {
                write!(f, "bytes follow the last of its {said} pages: {count}")
            }
            Reason::RedoPoint(redo, end) => {
                write!(f, "its redo point {redo} is not below the log's end {end}")
            }
            Reason::PageLsn(page, end) => {
                write!(f, "the LSN of page {page} is not below the log's end {end}")
            }
            Reason::Unsound(page, redo) => write!(
                f,
                "page {page} is not what the log made of it, or lacks a change below LSN {redo}"
            ),
            Reason::NoPage(page) => write!(f, "the bytes there are not page {page}"),
            Reason::NoRecord(0) => f.write_str("has no record"),
            Reason::NoRecord(last) => write!(
                f,
                "no record begins there: one does at each 64th byte, from 64 to {last}"
            ),
            Reason::NoPoint => f.write_str("no checkpoint is complete by then"),
        }
    }
}
