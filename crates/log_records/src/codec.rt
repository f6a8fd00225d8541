//! Encodes a record as bytes, and decodes it.

ghost use Rattle.std.specs.Prelude.{◌≡◌, ◌↔◌, IfSome, Some, IsTrue};
ghost use Rattle.log_records.specs.declared.record.Record.{Record};
ghost use Rattle.page_core.specs.declared.change.Change.TheVariants.{Add, Set};
ghost use Rattle.log_records.specs.Changing.{comp_in, update_in};
ghost use Rattle.log_records.specs.Kinds.{IsStep, IsUpdate};
ghost use Rattle.log_records.specs.Fields.{HasFields, fields_of};
ghost use Rattle.log_records.specs.Record.{HasNoBefore, IsBefore, IsLsn, IsPageChange, IsRecord};
ghost use Rattle.log_records.specs.Record.{AreDirtyPages, IsDirtyPage, IsOfCheckpoint};
ghost use Rattle.log_records.specs.Record.{IsPageCount, IsTxn};
ghost use Rattle.log_records.specs.Record.{SpellsRecord, own_lsn, record_bytes};

use crate::ckpt_codec::{begin_bytes, code, end_bytes, pages_bytes, pages_in, phase_of, txn_bytes};
use crate::dirty_page::{DirtyPage, DirtyPages};
use crate::fields::{
    ABORT, ADD, BEGIN, BEGIN_CHKPT, CHKPT_PAGES, CHKPT_TXNS, COMMIT, COMP, END, END_CHKPT, EXTEND,
    Fields, SET, UPDATE,
};
use crate::limits::{HEADER_BYTES, RECORD_BYTES};
use crate::page_change::PageChange;
use crate::record::Record;
use page_core::field::{u32_at, u64_at};
use page_core::{Change, LSN_STEP, Lsn, MAX_PAGES, PageNo, SLOTS, SlotNo, TxnNo};

/// The bytes of a record.
pub fn encode(record: &Record) -> [u8; RECORD_BYTES]
    ensures { result ≡ record_bytes «record».now }
{
    match *record {
        Record::BeginChkpt { lsn } => begin_bytes(lsn.0),
        Record::ChkptPages { lsn, begin, pages } => pages_bytes(begin.0, &pages, lsn.0),
        Record::ChkptTxns {
            lsn,
            begin,
            txn,
            state,
            last,
            undo_next,
        } => txn_bytes(begin.0, txn.0, code(state), last.0, undo_next.0, lsn.0),
        Record::EndChkpt { lsn, begin, redo } => end_bytes(begin.0, redo.0, lsn.0),
        Record::Begin { .. }
        | Record::Update { .. }
        | Record::Comp { .. }
        | Record::Commit { .. }
        | Record::Abort { .. }
        | Record::End { .. }
        | Record::Extend { .. } => Fields::of(record).write(),
    }
}

/// The record that these bytes spell at this LSN, if they do.
#[inline(always)]
pub fn decode(bytes: &[u8; RECORD_BYTES], at: Lsn) -> Option<Record>
    ensures found { IfSome result (λ r. (own_lsn r ≡ at) × SpellsRecord r bytes.now) }
    ensures only { (r : Record) → own_lsn r ≡ at → SpellsRecord r bytes.now → result ≡ Some r }
{
    let fields = Fields::read(bytes);
    if fields.lsn != at.0 {
        return None;
    }
    match record_of(&fields) {
        Some(record) => Some(record),
        None => checkpoint_record_of(bytes, at),
    }
}

/// The Update that these bytes spell at this LSN, if they do.
#[inline(always)]
pub(crate) fn decode_update(bytes: &[u8; RECORD_BYTES], at: Lsn) -> Option<Record>
    ensures found { IfSome result (λ r. IsUpdate r × (own_lsn r ≡ at) × SpellsRecord r bytes.now) }
    ensures only { (r : Record) → IsUpdate r → own_lsn r ≡ at → SpellsRecord r bytes.now
        → result ≡ Some r }
{
    let fields = Fields::read(bytes);
    if fields.lsn == at.0 {
        update_of(&fields)
    } else {
        None
    }
}

/// The record that these bytes spell at this LSN, if it only says what its transaction does next.
#[inline(always)]
pub(crate) fn decode_step(bytes: &[u8; RECORD_BYTES], at: Lsn) -> Option<Record>
    ensures found { IfSome result (λ r. IsStep r × (own_lsn r ≡ at) × SpellsRecord r bytes.now) }
    ensures only { (r : Record) → IsStep r → own_lsn r ≡ at → SpellsRecord r bytes.now
        → result ≡ Some r }
{
    let fields = Fields::read(bytes);
    if fields.lsn == at.0 {
        step_of(&fields)
    } else {
        None
    }
}

/// The record of a checkpoint that these bytes spell at this LSN, if they do.
#[inline(always)]
fn checkpoint_record_of(bytes: &[u8; RECORD_BYTES], at: Lsn) -> Option<Record>
    ensures found { IfSome result (λ r. (own_lsn r ≡ at) × SpellsRecord r bytes.now) }
    ensures only { (r : Record) → IsOfCheckpoint r → own_lsn r ≡ at → SpellsRecord r bytes.now
        → result ≡ Some r }
{
    let begin = Lsn(u64_at(bytes, 8));
    match u32_at(bytes, 0) {
        BEGIN_CHKPT => if_written(
            is_lsn(at),
            Record::BeginChkpt { lsn: at },
            &begin_bytes(at.0),
            bytes,
        ),
        CHKPT_PAGES => {
            let pages = pages_in(bytes);
            if_written(
                are_named_by(at, begin, &pages),
                Record::ChkptPages {
                    lsn: at,
                    begin,
                    pages,
                },
                &pages_bytes(begin.0, &pages, at.0),
                bytes,
            )
        }
        CHKPT_TXNS => {
            let txn = TxnNo(u32_at(bytes, 20));
            let state = phase_of(u32_at(bytes, 24));
            let last = Lsn(u64_at(bytes, 28));
            let undo_next = Lsn(u64_at(bytes, 36));
            if_written(
                is_noted_by(at, begin, txn, last, undo_next),
                Record::ChkptTxns {
                    lsn: at,
                    begin,
                    txn,
                    state,
                    last,
                    undo_next,
                },
                &txn_bytes(begin.0, txn.0, code(state), last.0, undo_next.0, at.0),
                bytes,
            )
        }
        END_CHKPT => {
            let redo = Lsn(u64_at(bytes, 24));
            if_written(
                is_closed_by(at, begin, redo),
                Record::EndChkpt {
                    lsn: at,
                    begin,
                    redo,
                },
                &end_bytes(begin.0, redo.0, at.0),
                bytes,
            )
        }
        _ => None,
    }
}

/// The record, where it is known whether a log may have it, and how it is written: if it may, and
/// these are its bytes. It is asked of each kind of record by itself, so that no kind is looked up.
#[inline(always)]
fn if_written(
    valid: bool,
    record: Record,
    written: &[u8; RECORD_BYTES],
    bytes: &[u8; RECORD_BYTES],
) -> Option<Record>
    requires valid { IsTrue valid ↔ IsRecord «record» }
    requires written { written.now ≡ record_bytes «record» }
    ensures found { IfSome result (λ r. (own_lsn r ≡ own_lsn «record») × SpellsRecord r bytes.now) }
    ensures only { SpellsRecord «record» bytes.now → result ≡ Some «record» }
{
    if valid && is_same(written, bytes) {
        Some(record)
    } else {
        None
    }
}

/// It is a call of its own, so that a compiler has both in memory, and compares many bytes at once.
#[inline(never)]
fn is_same(a: &[u8; RECORD_BYTES], b: &[u8; RECORD_BYTES]) -> bool
    ensures { IsTrue result ↔ (a.now ≡ b.now) }
{
    a == b
}

/// The record of a transaction, or the Extend, that has these numbers, if one does.
#[inline(always)]
fn record_of(fields: &Fields) -> Option<Record>
    ensures found { IfSome result (λ r. HasFields r × IsRecord r × (fields_of r ≡ fields.now)) }
    ensures only { (r : Record) → HasFields r → IsRecord r → fields_of r ≡ fields.now
        → result ≡ Some r }
{
    match (fields.kind, fields.change) {
        (UPDATE, _) => update_of(fields),
        (BEGIN, _) | (COMMIT, _) | (ABORT, _) | (END, _) => step_of(fields),
        (COMP, SET) => if_comp(set(fields), fields),
        (COMP, ADD) => if_comp(add(fields), fields),
        (EXTEND, _) => {
            let (lsn, pages) = (Lsn(fields.lsn), fields.page);
            if_spelled(
                is_lsn(lsn) && is_page_count(pages),
                Record::Extend { lsn, pages },
                fields,
            )
        }
        _ => None,
    }
}

/// The Update that has these numbers, if one does.
#[inline(always)]
fn update_of(fields: &Fields) -> Option<Record>
    ensures found { IfSome result (λ r. IsUpdate r × IsRecord r × (fields_of r ≡ fields.now)) }
    ensures only { (r : Record) → IsUpdate r → IsRecord r → fields_of r ≡ fields.now
        → result ≡ Some r }
{
    match (fields.kind, fields.change) {
        (UPDATE, SET) => if_update(set(fields), fields),
        (UPDATE, ADD) => if_update(add(fields), fields),
        _ => None,
    }
}

/// The record that only says what its transaction does next, and has these numbers, if one does.
#[inline(always)]
fn step_of(fields: &Fields) -> Option<Record>
    ensures found { IfSome result (λ r. IsStep r × IsRecord r × (fields_of r ≡ fields.now)) }
    ensures only { (r : Record) → IsStep r → IsRecord r → fields_of r ≡ fields.now
        → result ≡ Some r }
{
    let lsn = Lsn(fields.lsn);
    let txn = TxnNo(fields.txn);
    let prev = Lsn(fields.prev);
    match fields.kind {
        BEGIN => if_spelled(
            is_lsn(lsn) && is_txn(txn),
            Record::Begin { lsn, txn },
            fields,
        ),
        COMMIT => if_spelled(
            is_step(lsn, txn, prev),
            Record::Commit { lsn, txn, prev },
            fields,
        ),
        ABORT => if_spelled(
            is_step(lsn, txn, prev),
            Record::Abort { lsn, txn, prev },
            fields,
        ),
        END => if_spelled(
            is_step(lsn, txn, prev),
            Record::End { lsn, txn, prev },
            fields,
        ),
        _ => None,
    }
}

/// The Update with this change, if it has just these numbers, and a log may have it.
#[inline(always)]
fn if_update(change: Change, fields: &Fields) -> Option<Record>
    ensures found { IfSome result (λ r. (r ≡ update_in fields.now change) × IsRecord r
        × (fields_of r ≡ fields.now)) }
    ensures only { IsRecord (update_in fields.now change)
        → fields_of (update_in fields.now change) ≡ fields.now
        → result ≡ Some (update_in fields.now change) }
{
    let step = is_step(Lsn(fields.lsn), TxnNo(fields.txn), Lsn(fields.prev));
    let valid = step && is_change_in(fields, change);
    if_spelled(valid, update(fields, change), fields)
}

/// The Comp with this change, if it has just these numbers, and a log may have it.
#[inline(always)]
fn if_comp(change: Change, fields: &Fields) -> Option<Record>
    ensures found { IfSome result (λ r. (r ≡ comp_in fields.now change) × IsRecord r
        × (fields_of r ≡ fields.now)) }
    ensures only { IsRecord (comp_in fields.now change)
        → fields_of (comp_in fields.now change) ≡ fields.now
        → result ≡ Some (comp_in fields.now change) }
{
    let step = is_step(Lsn(fields.lsn), TxnNo(fields.txn), Lsn(fields.prev));
    let undone = is_before(Lsn(fields.lsn), Lsn(fields.undo_next)) && has_no_before(&change);
    let valid = step && is_change_in(fields, change) && undone;
    if_spelled(valid, comp(fields, change), fields)
}

/// A Set with these numbers.
fn set(fields: &Fields) -> Change
    ensures { result ≡ Set fields.now.before fields.now.after }
{
    Change::Set {
        before: fields.before,
        after: fields.after,
    }
}

/// An Add with these numbers.
fn add(fields: &Fields) -> Change
    ensures { result ≡ Add fields.now.after }
{
    Change::Add {
        amount: fields.after,
    }
}

/// An Update with this change and these numbers.
fn update(fields: &Fields, change: Change) -> Record
    ensures { result ≡ update_in fields.now change }
{
    Record::Update {
        lsn: Lsn(fields.lsn),
        txn: TxnNo(fields.txn),
        prev: Lsn(fields.prev),
        page: PageNo(fields.page),
        slot: SlotNo(fields.slot),
        change,
    }
}

/// A Comp with this change and these numbers.
fn comp(fields: &Fields, change: Change) -> Record
    ensures { result ≡ comp_in fields.now change }
{
    Record::Comp {
        lsn: Lsn(fields.lsn),
        txn: TxnNo(fields.txn),
        prev: Lsn(fields.prev),
        undo_next: Lsn(fields.undo_next),
        page: PageNo(fields.page),
        slot: SlotNo(fields.slot),
        change,
    }
}

/// The record, where it is known whether a log may have it: if it may, and it has just these
/// numbers. It is asked of each kind of record and of change by itself: then the compiler knows
/// most of the numbers, and leaves out their comparison.
#[inline(always)]
fn if_spelled(valid: bool, record: Record, fields: &Fields) -> Option<Record>
    requires { IsTrue valid ↔ IsRecord «record» }
    ensures found { IfSome result (λ r. (r ≡ «record») × IsRecord r × (fields_of r ≡ fields.now)) }
    ensures only { IsRecord «record» → fields_of «record» ≡ fields.now → result ≡ Some «record» }
{
    if valid && Fields::of(&record) == *fields {
        Some(record)
    } else {
        None
    }
}

/// A log may have a record of a transaction with these numbers.
#[inline(always)]
fn is_step(lsn: Lsn, txn: TxnNo, prev: Lsn) -> bool
    ensures { IsTrue result ↔ IsLsn lsn × IsTxn txn × IsBefore lsn prev }
{
    is_lsn(lsn) && is_txn(txn) && is_before(lsn, prev)
}

/// A record of a checkpoint may name these dirty pages.
#[inline(always)]
fn are_named_by(at: Lsn, begin: Lsn, pages: &DirtyPages) -> bool
    ensures { IsTrue result ↔ IsLsn at × IsBefore at begin × AreDirtyPages at pages.now }
{
    is_lsn(at) && is_before(at, begin) && are_dirty_pages(at, pages)
}

/// A record of a checkpoint may note a transaction with these numbers.
#[inline(always)]
fn is_noted_by(at: Lsn, begin: Lsn, txn: TxnNo, last: Lsn, undo_next: Lsn) -> bool
    ensures { IsTrue result ↔ IsLsn at × IsBefore at begin × IsTxn txn × IsBefore at last
        × IsBefore at undo_next }
{
    is_lsn(at)
        && is_before(at, begin)
        && is_txn(txn)
        && is_before(at, last)
        && is_before(at, undo_next)
}

/// A record may end a checkpoint with these numbers.
#[inline(always)]
fn is_closed_by(at: Lsn, begin: Lsn, redo: Lsn) -> bool
    ensures { IsTrue result ↔ IsLsn at × IsBefore at begin × IsBefore at redo }
{
    is_lsn(at) && is_before(at, begin) && is_before(at, redo)
}

/// A volume may have the slot that these numbers name, and this change of it.
#[inline(always)]
fn is_change_in(fields: &Fields, change: Change) -> bool
    ensures { IsTrue result ↔ IsPageChange (record {
      page = fields.now.page;
      slot = fields.now.slot;
      change = change;
    }) }
{
    is_page_change(&PageChange {
        page: PageNo(fields.page),
        slot: SlotNo(fields.slot),
        change,
    })
}

fn are_dirty_pages(at: Lsn, pages: &DirtyPages) -> bool
    ensures { IsTrue result ↔ AreDirtyPages at pages.now }
{
    match *pages {
        DirtyPages::One(a) => is_dirty_page(at, a),
        DirtyPages::Two(a, b) => { is_dirty_page(at, a) && is_dirty_page(at, b) && a.page < b.page }
        DirtyPages::Three(a, b, c) => {
            is_dirty_page(at, a)
                && is_dirty_page(at, b)
                && is_dirty_page(at, c)
                && a.page < b.page
                && b.page < c.page
        }
    }
}

fn is_dirty_page(at: Lsn, entry: DirtyPage) -> bool
    ensures { IsTrue result ↔ IsDirtyPage at entry }
{
    is_before(at, Lsn(entry.rec_lsn))
}

fn has_no_before(change: &Change) -> bool
    ensures { IsTrue result ↔ HasNoBefore change.now }
{
    match *change {
        Change::Set { before, .. } => before == 0,
        Change::Add { .. } => true,
    }
}

fn is_lsn(lsn: Lsn) -> bool
    ensures { IsTrue result ↔ IsLsn lsn }
{
    lsn.0 >= HEADER_BYTES as u64 && lsn.0 % LSN_STEP == 0
}

/// Whether a volume may have so many pages.
pub(crate) fn is_page_count(pages: u32) -> bool
    ensures { IsTrue result ↔ IsPageCount pages }
{
    1 <= pages && pages <= MAX_PAGES
}

fn is_before(at: Lsn, lsn: Lsn) -> bool
    ensures { IsTrue result ↔ IsBefore at lsn }
{
    is_lsn(lsn) && lsn < at
}

fn is_txn(txn: TxnNo) -> bool
    ensures { IsTrue result ↔ IsTxn txn }
{
    txn.0 >= 1
}

fn is_page_change(change: &PageChange) -> bool
    ensures { IsTrue result ↔ IsPageChange change.now }
{
    let is_there = change.page.0 < MAX_PAGES && (change.slot.0 as usize) < SLOTS;
    // The arms bind the change's numbers, and a bound number is known to fit its type.
    match change.change {
        Change::Set {
            before: _before,
            after: _after,
        } => is_there,
        Change::Add { amount: _amount } => is_there,
    }
}
