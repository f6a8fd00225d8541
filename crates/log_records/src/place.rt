//! The place of a record in a log: its LSN is its byte offset, and the pages that it names belong
//! to the volume.

ghost use Rattle.std.specs.Prelude.{ℕ, ◌≡◌, ◌↔◌, length, IfSome, Some, IsTrue};
ghost use Rattle.page_core.specs.declared.format.Format.{Format};
ghost use Rattle.log_records.specs.declared.record.Record.{Record};
ghost use Rattle.log_records.specs.Kinds.{IsStep, IsUpdate};
ghost use Rattle.log_records.specs.Record.{IsRecord, own_lsn, record_bytes};
ghost use Rattle.log_records.specs.Log.{IsOfFormat, IsWithin, StandsAt};

use crate::codec::{decode, decode_step, decode_update};
use crate::limits::RECORD_BYTES;
use crate::record::Record;
use page_core::field::{u16_at, u32_at};
use page_core::{Format, Lsn, PageNo, SlotNo};

/// The record that these bytes are at this LSN of a log of this format, where the volume has so many
/// pages, if they are one.
#[inline(always)]
pub fn record_at(bytes: &[u8], at: Lsn, format: Format, pages: u32) -> Option<Record>
    requires { length bytes.now ≡ RECORD_BYTES }
    ensures found { IfSome result (λ r. StandsAt pages at r × IsOfFormat format r
        × (bytes.now ≡ record_bytes r)) }
    ensures only { (r : Record) → StandsAt pages at r → IsOfFormat format r
        → bytes.now ≡ record_bytes r → result ≡ Some r }
{
    let record = decode(bytes.as_array().unwrap(), at)?;
    if is_within(pages, &record) && is_of_format(format, &record) {
        Some(record)
    } else {
        None
    }
}

/// The Update that these bytes are at this LSN of a log whose volume has so many pages, if they are
/// one. Most of a log is Updates: a reader that asks for them by themselves tests the kind once.
#[inline(always)]
pub fn update_at(bytes: &[u8], at: Lsn, pages: u32) -> Option<Record>
    requires { length bytes.now ≡ RECORD_BYTES }
    ensures found { IfSome result (λ r. StandsAt pages at r
        × ((format : Format) → IsOfFormat format r) × (bytes.now ≡ record_bytes r)) }
    ensures only { (r : Record) → IsUpdate r → StandsAt pages at r → bytes.now ≡ record_bytes r
        → result ≡ Some r }
{
    let record = decode_update(bytes.as_array().unwrap(), at)?;
    if is_within(pages, &record) {
        Some(record)
    } else {
        None
    }
}

/// The Begin, Commit, Abort or End that these bytes are at this LSN, if they are one. It names no
/// page.
#[inline(always)]
pub fn step_at(bytes: &[u8], at: Lsn) -> Option<Record>
    requires { length bytes.now ≡ RECORD_BYTES }
    ensures found { IfSome result (λ r. ((pages : ℕ) → StandsAt pages at r)
        × ((format : Format) → IsOfFormat format r) × (bytes.now ≡ record_bytes r)) }
    ensures only { (r : Record) → IsStep r → own_lsn r ≡ at → IsRecord r
        → bytes.now ≡ record_bytes r → result ≡ Some r }
{
    decode_step(bytes.as_array().unwrap(), at)
}

/// The page and the slot that these bytes name, if they are a record that changes one. It looks at
/// nothing else, so they may be no record.
pub fn named_slot(bytes: &[u8]) -> (PageNo, SlotNo)
    requires { length bytes.now ≡ RECORD_BYTES }
{
    (PageNo(u32_at(bytes, 24)), SlotNo(u16_at(bytes, 28)))
}

fn is_within(pages: u32, entry: &Record) -> bool
    ensures { IsTrue result ↔ IsWithin pages entry.now }
{
    match *entry {
        Record::Update { page, .. } | Record::Comp { page, .. } => page.0 < pages,
        Record::ChkptPages { pages: entries, .. } => entries.are_within(pages),
        Record::Begin { .. }
        | Record::Commit { .. }
        | Record::Abort { .. }
        | Record::End { .. }
        | Record::BeginChkpt { .. }
        | Record::ChkptTxns { .. }
        | Record::EndChkpt { .. }
        | Record::Extend { .. } => true,
    }
}

/// Whether a log of this format may have the record.
fn is_of_format(format: Format, record: &Record) -> bool
    ensures { IsTrue result ↔ IsOfFormat format «record».now }
{
    match format {
        Format::Second => true,
        Format::First => !matches!(*record, Record::Extend { .. }),
    }
}
