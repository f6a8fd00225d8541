//! The numbers that the bytes of a transaction record spell.

ghost use Rattle.std.specs.Prelude.{◌≡◌};

use crate::limits::RECORD_BYTES;
use crate::put::{put_u16, put_u32, put_u64};
use crate::record::Record;
use page_core::field::{u16_at, u32_at, u64_at};
use page_core::{Change, Lsn, TxnNo};

/// The numbers of a transaction's record in the order of its bytes, or of an Extend. A field that a kind does not
/// have is 0. Where a byte is followed by bytes that are always 0, the byte and these are one
/// number.
#[derive(Clone, Copy, PartialEq, Eq)]
pub struct Fields {
    pub kind: u32,
    pub txn: u32,
    pub prev: u64,
    pub undo_next: u64,
    pub page: u32,
    pub slot: u16,
    pub change: u16,
    pub before: u64,
    pub after: u64,
    pub spare: u64,
    pub lsn: u64,
}

/// The kind of a Begin, as the record's first byte has it.
pub const BEGIN: u32 = 1;

/// The kind of an Update.
pub const UPDATE: u32 = 2;

/// The kind of a Comp.
pub const COMP: u32 = 3;

/// The kind of a Commit.
pub const COMMIT: u32 = 4;

/// The kind of an Abort.
pub const ABORT: u32 = 5;

/// The kind of an End.
pub const END: u32 = 6;

/// The kind of a BeginChkpt.
pub const BEGIN_CHKPT: u32 = 7;

/// The kind of a ChkptPages.
pub const CHKPT_PAGES: u32 = 8;

/// The kind of a ChkptTxns.
pub const CHKPT_TXNS: u32 = 9;

/// The kind of an EndChkpt.
pub const END_CHKPT: u32 = 10;

/// The kind of an Extend.
pub const EXTEND: u32 = 11;

/// The kind of a change that is a Set.
pub const SET: u16 = 1;

/// The kind of a change that is an Add.
pub const ADD: u16 = 2;

const NO_FIELDS: Fields = Fields {
    kind: 0,
    txn: 0,
    prev: 0,
    undo_next: 0,
    page: 0,
    slot: 0,
    change: 0,
    before: 0,
    after: 0,
    spare: 0,
    lsn: 0,
};

impl Fields {
    ghost use Rattle.log_records.specs.Fields.{AreInRange, fields_bytes, fields_of};
    ghost use Rattle.log_records.specs.Fields.{fields_of_change, fields_of_step};
    ghost use Rattle.log_records.specs.declared.fields.Fields.{Fields};

    /// The numbers that these bytes spell.
    pub fn read(bytes: &[u8; RECORD_BYTES]) -> Fields
        ensures found { bytes.now ≡ fields_bytes result }
        ensures only { (fields : Fields) → AreInRange fields → bytes.now ≡ fields_bytes fields
            → result ≡ fields }
    {
        Fields {
            kind: u32_at(bytes, 0),
            txn: u32_at(bytes, 4),
            prev: u64_at(bytes, 8),
            undo_next: u64_at(bytes, 16),
            page: u32_at(bytes, 24),
            slot: u16_at(bytes, 28),
            change: u16_at(bytes, 30),
            before: u64_at(bytes, 32),
            after: u64_at(bytes, 40),
            spare: u64_at(bytes, 48),
            lsn: u64_at(bytes, 56),
        }
    }

    /// The bytes that spell these numbers.
    pub fn write(&self) -> [u8; RECORD_BYTES]
        ensures { result ≡ fields_bytes self.now }
    {
        let mut bytes = [0; RECORD_BYTES];
        put_u32(&mut bytes, 0, self.kind);
        put_u32(&mut bytes, 4, self.txn);
        put_u64(&mut bytes, 8, self.prev);
        put_u64(&mut bytes, 16, self.undo_next);
        put_u32(&mut bytes, 24, self.page);
        put_u16(&mut bytes, 28, self.slot);
        put_u16(&mut bytes, 30, self.change);
        put_u64(&mut bytes, 32, self.before);
        put_u64(&mut bytes, 40, self.after);
        put_u64(&mut bytes, 48, self.spare);
        put_u64(&mut bytes, 56, self.lsn);
        bytes
    }

    /// The numbers of a transaction's record, or of an Extend, whose page count stands where the
    /// others name a page; a checkpoint's record has none of them.
    pub fn of(record: &Record) -> Fields
        ensures { result ≡ fields_of «record».now }
    {
        let lsn = record.lsn().0;
        match *record {
            Record::Begin { txn, .. } => Fields::of_step(BEGIN, txn, Lsn(0), lsn),
            Record::Update {
                txn,
                prev,
                page,
                slot,
                change,
                ..
            } => Fields {
                kind: UPDATE,
                txn: txn.0,
                prev: prev.0,
                page: page.0,
                slot: slot.0,
                lsn,
                ..Fields::of_change(&change)
            },
            Record::Comp {
                txn,
                prev,
                undo_next,
                page,
                slot,
                change,
                ..
            } => Fields {
                kind: COMP,
                txn: txn.0,
                prev: prev.0,
                undo_next: undo_next.0,
                page: page.0,
                slot: slot.0,
                lsn,
                ..Fields::of_change(&change)
            },
            Record::Commit { txn, prev, .. } => Fields::of_step(COMMIT, txn, prev, lsn),
            Record::Abort { txn, prev, .. } => Fields::of_step(ABORT, txn, prev, lsn),
            Record::End { txn, prev, .. } => Fields::of_step(END, txn, prev, lsn),
            Record::BeginChkpt { .. }
            | Record::ChkptPages { .. }
            | Record::ChkptTxns { .. }
            | Record::EndChkpt { .. } => NO_FIELDS,
            Record::Extend { pages, .. } => Fields {
                kind: EXTEND,
                page: pages,
                lsn,
                ..NO_FIELDS
            },
        }
    }

    /// The numbers of a record that only says what its transaction does next.
    fn of_step(kind: u32, txn: TxnNo, prev: Lsn, lsn: u64) -> Fields
        ensures { result ≡ fields_of_step kind txn prev lsn }
    {
        Fields {
            kind,
            txn: txn.0,
            prev: prev.0,
            lsn,
            ..NO_FIELDS
        }
    }

    /// The numbers of a change alone.
    fn of_change(change: &Change) -> Fields
        ensures { result ≡ fields_of_change change.now }
    {
        match *change {
            Change::Set { before, after } => Fields {
                change: SET,
                before,
                after,
                ..NO_FIELDS
            },
            Change::Add { amount } => Fields {
                change: ADD,
                after: amount,
                ..NO_FIELDS
            },
        }
    }
}
