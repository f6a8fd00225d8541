//! What is wrong with a file that was refused, for a person: the file is read once more.

ghost use Rattle.std.specs.Prelude.{◌≡◌, ◌↔◌, IsTrue};
ghost use Rattle.file_inputs.specs.Reasons.{IsNoKind, IsReasonOfRecord, broken_reason};
ghost use Rattle.file_inputs.specs.Reasons.{count_reason};
ghost use Rattle.file_inputs.specs.Reasons.{header_reason};

use crate::chain_reason::ChainReason;
use crate::headers::{FileKind, kind_of, last_kind};
use crate::input_names::{FIRST_ARCHIVE, InputNames, STANDARD_INPUT, end_behind};
use crate::reason::Reason;
use crate::standing::{end_of, is_regular};
use copy_audit::Unsound;
use copy_vault::{ArchiveFault, CopyId};
use file_view::{CopyHeader, ViewFault, read_copy_header};
use log_records::{HEADER_BYTES, RECORD_BYTES, log_header};
use log_store::{
    LogReadFault, MASTER_BYTES, Reached, broken_rule_at, decode_master, scan_to_fault,
};
use media_restore::{RestoreFault, UntilFault};
use page_core::field::u64_at;
use page_core::{Format, Lsn, PAGE_BYTES, PageNo};
use page_redo::StreamFault;
use std::fs;
use std::io::{Read, Seek, SeekFrom};
use system_files::{Escaped, Notes};

/// What is wrong with the log on standard input, where that is a file that can be read again.
pub fn tell_redo(rt: &HostRuntime, fault: &StreamFault) {
    if !is_regular(rt, STANDARD_INPUT) {
        return;
    }
    let reason = match fault {
        StreamFault::BadHeader => reason_of_header(rt, STANDARD_INPUT, 0),
        StreamFault::BadRecord(at) => reason_of_record(rt, STANDARD_INPUT, *at),
        StreamFault::Torn(at) => reason_of_torn(rt, STANDARD_INPUT, *at),
        StreamFault::BadChain(at) => reason_of_chain(rt, STANDARD_INPUT, *at),
        _ => None,
    };
    if let Some(reason) = reason {
        let _ = eprintln!(rt; "imgcopy: standard input: {reason}");
    }
}

/// What is wrong with the file at this place, where a restore met this fault.
pub fn reason_of_restore(
    rt: &HostRuntime,
    names: &InputNames<'_>,
    place: usize,
    fault: &RestoreFault,
) -> Option<Reason> {
    let name = names.at(place)?;
    if !is_regular(rt, name) {
        return None;
    }
    match fault {
        RestoreFault::BadHeader => reason_of_header(rt, name, place),
        RestoreFault::BadRecord(at) => reason_of_record(rt, name, *at),
        RestoreFault::Torn(at) => reason_of_torn(rt, name, *at),
        RestoreFault::BadChain(at) if place == 0 => reason_of_chain(rt, name, *at),
        RestoreFault::BadChain(_) => reason_of_master(rt, name),
        RestoreFault::BadArchive(0) => reason_of_header(rt, name, place),
        RestoreFault::ChainBroken(_) => reason_of_broken(rt, names, place),
        RestoreFault::CountDiffers => reason_of_count(rt, name),
        RestoreFault::PageBeyondLog(page) => Some(Reason::PageLsn(page.0, names.log_end(rt)?)),
        _ => None,
    }
}

/// What is wrong with the file at this place, where an audit met this fault.
pub fn reason_of_audit(
    rt: &HostRuntime,
    names: &InputNames<'_>,
    place: usize,
    fault: &Unsound,
) -> Option<Reason> {
    let name = names.at(place)?;
    if !is_regular(rt, name) {
        return None;
    }
    match fault {
        Unsound::BadHeader | Unsound::BadArchive(0) => reason_of_header(rt, name, place),
        Unsound::BadRecord(at) => reason_of_record(rt, name, *at),
        Unsound::Torn(at) => reason_of_torn(rt, name, *at),
        Unsound::BadChain(at) => reason_of_chain(rt, name, *at),
        Unsound::ChainBroken(_) => reason_of_broken(rt, names, place),
        Unsound::CountDiffers => reason_of_count(rt, name),
        Unsound::PageBeyondLog(page) => Some(Reason::PageLsn(page.0, names.log_end(rt)?)),
        _ => None,
    }
}

/// Names a file that is shown or listed, says what it was read as, and why the system failed there
/// or what is wrong with it.
pub fn tell_view(rt: &HostRuntime, name: &str, fault: &ViewFault, notes: &Notes) {
    let what = match what_begins(rt, name) {
        Some(FileKind::Log) => " (log)",
        Some(FileKind::Master) => " (master record)",
        Some(FileKind::Archive) => " (image copy)",
        None => "",
    };
    let failed = match fault {
        ViewFault::OutOfMemory | ViewFault::WriteFault(_) => return,
        ViewFault::ReadFault => notes.error(),
        _ => None,
    };
    let reason = reason_of_view(rt, name, fault);
    let name = Escaped(name);
    let _ = match (failed, reason) {
        (Some(error), _) => eprintln!(rt; "imgcopy: {name}: {error}"),
        (None, Some(reason)) => eprintln!(rt; "imgcopy: {name}{what}: {reason}"),
        (None, None) => eprintln!(rt; "imgcopy: {name}{what}"),
    };
}

/// What is wrong with a file that is shown or listed.
fn reason_of_view(rt: &HostRuntime, name: &str, fault: &ViewFault) -> Option<Reason> {
    if !is_regular(rt, name) {
        return None;
    }
    match fault {
        ViewFault::BadHeader | ViewFault::Archive(ArchiveFault::BadArchive(0)) => {
            reason_of_first_bytes(rt, name)
        }
        ViewFault::Log(fault) => reason_of_log(rt, name, fault),
        ViewFault::Archive(ArchiveFault::CountDiffers) => reason_of_count(rt, name),
        ViewFault::BadPage(at) => Some(Reason::NoPage(*at / PAGE_BYTES as u64)),
        _ => None,
    }
}

/// What is wrong with a log that was to count up to one of its records.
pub fn reason_of_until(rt: &HostRuntime, name: &str, fault: &UntilFault) -> Option<Reason> {
    if !is_regular(rt, name) {
        return None;
    }
    match fault {
        UntilFault::NoRecord(_) => {
            let count = (end_of(rt, name)? / RECORD_BYTES as u64).saturating_sub(1);
            Some(Reason::NoRecord(count.saturating_mul(RECORD_BYTES as u64)))
        }
        UntilFault::NoCheckpoint => Some(Reason::NoPoint),
        UntilFault::OfLog(LogReadFault::BadHeader) => reason_of_header(rt, name, 0),
        UntilFault::OfLog(fault) => reason_of_log(rt, name, fault),
        UntilFault::WriteFault(_) => None,
    }
}

fn reason_of_log(rt: &HostRuntime, name: &str, fault: &LogReadFault) -> Option<Reason> {
    match fault {
        LogReadFault::BadRecord(at) => reason_of_record(rt, name, *at),
        LogReadFault::Torn(at) => reason_of_torn(rt, name, *at),
        LogReadFault::BadChain(at) => reason_of_chain(rt, name, *at),
        _ => None,
    }
}

/// What the first bytes of a file say, if they are those of a file of imgcopy.
fn what_begins(rt: &HostRuntime, name: &str) -> Option<FileKind> {
    if !is_regular(rt, name) {
        return None;
    }
    kind_of(&bytes_at(rt, name, 0)?)
}

/// What is wrong with the header of a file that may be of any kind.
fn reason_of_first_bytes(rt: &HostRuntime, name: &str) -> Option<Reason> {
    match what_begins(rt, name) {
        Some(FileKind::Log) => reason_of_header(rt, name, 0),
        Some(FileKind::Master) => reason_of_header(rt, name, 1),
        Some(FileKind::Archive) | None => reason_of_header(rt, name, FIRST_ARCHIVE),
    }
}

/// Names the copy whose redo point is not below the log's end.
pub fn tell_beyond(rt: &HostRuntime, names: &InputNames<'_>) {
    let Some(end) = names.log_end(rt) else {
        return;
    };
    for name in names.archives {
        if let Some(header) = archive_at(rt, name) {
            if header.redo.0 >= end {
                let (id, reason) = (header.id, Reason::RedoPoint(header.redo.0, end));
                let name = Escaped(name);
                let _ = eprintln!(rt; "imgcopy: {name} (image copy {id}): {reason}");
                return;
            }
        }
    }
}

/// Names the copy up to which the chain has an unsound page.
pub fn tell_unsound(rt: &HostRuntime, names: &InputNames<'_>, copy: CopyId, page: PageNo) {
    for name in names.archives {
        if let Some(header) = archive_at(rt, name) {
            if header.id == copy.0 {
                let (id, reason) = (header.id, Reason::Unsound(page.0, header.redo.0));
                let name = Escaped(name);
                let _ = eprintln!(rt; "imgcopy: {name} (image copy {id}): {reason}");
                return;
            }
        }
    }
}

/// What the header of a file of another kind says, or of one that is misspelt.
fn reason_of_header(rt: &HostRuntime, name: &str, place: usize) -> Option<Reason> {
    let Some(bytes) = bytes_at(rt, name, 0) else {
        return Some(Reason::IsShort(end_of(rt, name)?));
    };
    let Some(kind) = kind_of(&bytes) else {
        return Some(Reason::IsOther);
    };
    Some(header_reason(kind, place, end_of(rt, name)?))
}

/// What is wrong with the header of a file of this kind and length, where a file of the place was to
/// be read.
fn header_reason(kind: FileKind, place: usize, length: u64) -> Reason
    ensures { result ≡ header_reason kind place length }
{
    match kind {
        FileKind::Log if place != 0 => Reason::IsLog,
        FileKind::Master if place != 1 => Reason::IsMaster,
        FileKind::Archive if place < FIRST_ARCHIVE => Reason::IsArchive,
        FileKind::Master if length > MASTER_BYTES as u64 => Reason::IsLong(length),
        FileKind::Log | FileKind::Master | FileKind::Archive => Reason::BadHeader,
    }
}

fn reason_of_record(rt: &HostRuntime, name: &str, at: Lsn) -> Option<Reason> {
    let header = log_header(&bytes_at(rt, name, 0)?)?;
    Some(record_reason(&bytes_at(rt, name, at.0)?, header.format, at))
}

/// Why these bytes are no record of such a log at this LSN. The kind is the first byte of a record,
/// and its own LSN stands in the last eight.
fn record_reason(bytes: &[u8; RECORD_BYTES], format: Format, at: Lsn) -> Reason
    ensures { IsReasonOfRecord bytes.now format at result }
{
    let (kind, own) = (bytes[0], u64_at(bytes, RECORD_BYTES - 8));
    if is_no_kind(format, kind) {
        Reason::Kind(kind)
    } else if own == at.0 {
        Reason::Misspelt
    } else {
        Reason::OwnLsn(own)
    }
}

/// Whether no record of such a log has this kind.
fn is_no_kind(format: Format, kind: u8) -> bool
    ensures { IsTrue result ↔ IsNoKind format kind }
{
    kind == 0 || kind > last_kind(format)
}

fn reason_of_torn(rt: &HostRuntime, name: &str, at: Lsn) -> Option<Reason> {
    Some(Reason::Torn(end_of(rt, name)?.saturating_sub(at.0)))
}

fn reason_of_chain(rt: &HostRuntime, name: &str, at: Lsn) -> Option<Reason> {
    let bytes = bytes_at(rt, name, at.0)?;
    let mut file = fs::open(rt, name).ok()?;
    let rule = broken_rule_at(rt.alloc(), &mut file, at, &bytes).ok()?;
    Some(Reason::Chain(ChainReason(rule?)))
}

fn reason_of_master(rt: &HostRuntime, name: &str) -> Option<Reason> {
    let master = decode_master(&bytes_at(rt, name, 0)?)?;
    Some(Reason::NoCheckpoint(master.begin.0, master.end.0))
}

/// Why an archive does not follow the one before it, or is none of this log.
fn reason_of_broken(rt: &HostRuntime, names: &InputNames<'_>, place: usize) -> Option<Reason> {
    let index = place.checked_sub(FIRST_ARCHIVE)?;
    let header = archive_at(rt, names.archives.get(index)?)?;
    let before = match index.checked_sub(1) {
        Some(index) => Some(archive_at(rt, names.archives.get(index)?)?.id),
        None => None,
    };
    match broken_reason(header.parent, before) {
        Some(reason) => Some(reason),
        None => Some(Reason::Pages(header.pages, pages_before(rt, names, header.begin)?)),
    }
}

/// Why a copy of this parent, which is 0 for a full one, may not follow the copy before it.
fn broken_reason(parent: u32, before: Option<u32>) -> Option<Reason>
    ensures { result ≡ broken_reason parent before }
{
    match before {
        None if parent != 0 => Some(Reason::IncFirst(parent)),
        Some(_) if parent == 0 => Some(Reason::FullBehind),
        Some(id) if parent != id => Some(Reason::Parent(parent, id)),
        _ => None,
    }
}

/// How many pages the volume of a log has before the record at this LSN, as far as the log counts.
fn pages_before(rt: &HostRuntime, names: &InputNames<'_>, lsn: Lsn) -> Option<u32> {
    if !is_regular(rt, names.log) {
        return None;
    }
    let mut file = fs::open(rt, names.log).ok()?;
    let reached: Reached<()> = scan_to_fault(rt.alloc(), &mut file).ok()?;
    let found = reached.scan.history.into_analysis();
    let end = names.until.map_or(lsn, end_behind);
    Some(found.counts.below(lsn.min(end)))
}

fn reason_of_count(rt: &HostRuntime, name: &str) -> Option<Reason> {
    let header = archive_at(rt, name)?;
    Some(count_reason(end_of(rt, name)?, header.taken))
}

/// What does not go together of an archive's length and the pages that its header says.
fn count_reason(length: u64, said: u32) -> Reason
    ensures { result ≡ count_reason length said }
{
    let bytes = length.saturating_sub(HEADER_BYTES as u64);
    let there = bytes / PAGE_BYTES as u64;
    if there == said as u64 {
        Reason::Behind(bytes % PAGE_BYTES as u64, said)
    } else {
        Reason::Count(there, said)
    }
}

/// The header of an archive, which is refused for something else.
fn archive_at(rt: &HostRuntime, name: &str) -> Option<CopyHeader> {
    if !is_regular(rt, name) {
        return None;
    }
    read_copy_header(rt.alloc(), &bytes_at(rt, name, 0)?).ok()
}

/// The 64 bytes of a file at an offset.
fn bytes_at(rt: &HostRuntime, name: &str, at: u64) -> Option<[u8; RECORD_BYTES]> {
    let mut file = fs::open(rt, name).ok()?;
    file.seek(SeekFrom::Start(at)).ok()?;
    let mut bytes = [0; RECORD_BYTES];
    file.read_exact(&mut bytes).ok()?;
    Some(bytes)
}
