//! The line of a record, in words and as an object of JSON: one walk over its fields, each of which
//! a form spells.

ghost use Rattle.std.specs.Prelude.{◌≡◌, ◌++◌, OnOk};
ghost use Rattle.std.specs.String.{string_bytes};
ghost use Rattle.file_view.specs.RecordText.{change_text, chkpt_pages_text, deed_text, dirty_list_text};
ghost use Rattle.file_view.specs.RecordText.{dirty_pages_text, dirty_text, either, fields, kind_text};
ghost use Rattle.file_view.specs.RecordText.{line_of, number_text, phase_text, step_text, text_of};
ghost use Rattle.file_view.specs.RecordText.{undo_text, value_text, word_text};

use crate::lines::Form;
use log_records::{DirtyPage, DirtyPages, Record, TxnPhase};
use page_core::{Change, Lsn, TxnNo};
use std::alloc::AllocError;

/// Puts the line of a record behind a text.
pub fn put_record(text: &mut String, form: Form, entry: &Record) -> Result<(), AllocError>
    ensures { OnOk result
        (string_bytes text.new ≡ string_bytes text.old ++ line_of form entry.now) }
{
    let lsn = entry.lsn().0;
    put_either(text, form, "lsn ", "{\"lsn\":")?;
    write!(text, "{lsn}")?;
    put_fields(text, form, entry)?;
    put_either(text, form, "\n", "}\n")
}

/// Puts the kind of a record behind a text, and its fields.
#[tactic(auto, unfolding(crate::specs::RecordText::fields))]
fn put_fields(text: &mut String, form: Form, entry: &Record) -> Result<(), AllocError>
    ensures { OnOk result
        (string_bytes text.new ≡ string_bytes text.old ++ text_of (fields form entry.now)) }
{
    match *entry {
        Record::Begin { txn, .. } => { put_kind(text, form, "begin", "txn", u64::from(txn.0)) }
        Record::Update {
            txn,
            prev,
            page,
            slot,
            change,
            ..
        } => {
            put_step(text, form, "update", txn, prev)?;
            put_number(text, form, "page", u64::from(page.0))?;
            put_number(text, form, "slot", u64::from(slot.0))?;
            put_change(text, form, change)
        }
        Record::Comp {
            txn,
            prev,
            undo_next,
            page,
            slot,
            change,
            ..
        } => {
            put_step(text, form, "comp", txn, prev)?;
            put_number(text, form, "undo_next", undo_next.0)?;
            put_number(text, form, "page", u64::from(page.0))?;
            put_number(text, form, "slot", u64::from(slot.0))?;
            put_undo(text, form, change)
        }
        Record::Commit { txn, prev, .. } => put_step(text, form, "commit", txn, prev),
        Record::Abort { txn, prev, .. } => put_step(text, form, "abort", txn, prev),
        Record::End { txn, prev, .. } => put_step(text, form, "end", txn, prev),
        Record::BeginChkpt { .. } => put_word(text, form, "kind", "begin_chkpt"),
        Record::ChkptPages { begin, pages, .. } => { put_chkpt_pages(text, form, begin, pages) }
        Record::ChkptTxns {
            begin,
            txn,
            state,
            last,
            undo_next,
            ..
        } => {
            put_kind(text, form, "chkpt_txns", "begin", begin.0)?;
            put_number(text, form, "txn", u64::from(txn.0))?;
            put_phase(text, form, state)?;
            put_number(text, form, "last", last.0)?;
            put_number(text, form, "undo_next", undo_next.0)
        }
        Record::EndChkpt { begin, redo, .. } => {
            put_kind(text, form, "end_chkpt", "begin", begin.0)?;
            put_number(text, form, "redo", redo.0)
        }
        Record::Extend { pages, .. } => {
            put_kind(text, form, "extend", "pages", u64::from(pages))
        }
    }
}

// ---- parts of a record

/// The kind of a record of a transaction, the transaction, and its record before.
#[tactic(auto, unfolding(crate::specs::RecordText::step_text))]
fn put_step(
    text: &mut String,
    form: Form,
    kind: &str,
    txn: TxnNo,
    prev: Lsn,
) -> Result<(), AllocError>
    ensures { OnOk result
        (string_bytes text.new ≡ string_bytes text.old ++ text_of (step_text form kind.now txn prev)) }
{
    put_kind(text, form, kind, "txn", u64::from(txn.0))?;
    put_number(text, form, "prev", prev.0)
}

/// The kind of a record, and its first number.
#[tactic(auto, unfolding(crate::specs::RecordText::kind_text))]
fn put_kind(
    text: &mut String,
    form: Form,
    kind: &str,
    name: &str,
    number: u64,
) -> Result<(), AllocError>
    ensures { OnOk result
        (string_bytes text.new
        ≡ string_bytes text.old ++ text_of (kind_text form kind.now name.now number)) }
{
    put_word(text, form, "kind", kind)?;
    put_number(text, form, name, number)
}

/// The change of an Update: the number that a Set replaces is told last in words.
#[tactic(auto, unfolding(crate::specs::RecordText::change_text, crate::specs::RecordText::set_text))]
fn put_change(text: &mut String, form: Form, change: Change) -> Result<(), AllocError>
    ensures { OnOk result
        (string_bytes text.new ≡ string_bytes text.old ++ text_of (change_text form change)) }
{
    match (change, form) {
        (Change::Set { before, after }, Form::Words) => {
            put_deed(text, form, "set", "after", after)?;
            put_number(text, form, "before", before)
        }
        (Change::Set { before, after }, Form::Json) => {
            put_deed(text, form, "set", "before", before)?;
            put_number(text, form, "after", after)
        }
        (Change::Add { .. }, _) => put_undo(text, form, change),
    }
}

/// The change of a compensation record, whose Set does not say what it replaces.
#[tactic(auto, unfolding(crate::specs::RecordText::undo_text))]
fn put_undo(text: &mut String, form: Form, change: Change) -> Result<(), AllocError>
    ensures { OnOk result
        (string_bytes text.new ≡ string_bytes text.old ++ text_of (undo_text form change)) }
{
    match change {
        Change::Set { after, .. } => put_deed(text, form, "set", "after", after),
        Change::Add { amount } => put_deed(text, form, "add", "amount", amount),
    }
}

/// What is done to a slot, and the number that it is done with.
#[tactic(auto, unfolding(crate::specs::RecordText::deed_text))]
fn put_deed(
    text: &mut String,
    form: Form,
    verb: &str,
    name: &str,
    number: u64,
) -> Result<(), AllocError>
    ensures { OnOk result
        (string_bytes text.new
        ≡ string_bytes text.old ++ text_of (deed_text form verb.now name.now number)) }
{
    put_word(text, form, "change", verb)?;
    put_value(text, form, name, number)
}

#[tactic(auto, unfolding(crate::specs::RecordText::phase_text))]
fn put_phase(text: &mut String, form: Form, state: TxnPhase) -> Result<(), AllocError>
    ensures { OnOk result
        (string_bytes text.new ≡ string_bytes text.old ++ text_of (phase_text form state)) }
{
    match state {
        TxnPhase::Active => put_word(text, form, "state", "active"),
        TxnPhase::Rolling => put_word(text, form, "state", "rolling"),
    }
}

/// The kind of a record of dirty pages, the record with which its checkpoint begins, and the pages.
#[tactic(auto, unfolding(crate::specs::RecordText::chkpt_pages_text))]
fn put_chkpt_pages(
    text: &mut String,
    form: Form,
    begin: Lsn,
    pages: DirtyPages,
) -> Result<(), AllocError>
    ensures { OnOk result
        (string_bytes text.new
        ≡ string_bytes text.old ++ text_of (chkpt_pages_text form begin pages)) }
{
    put_kind(text, form, "chkpt_pages", "begin", begin.0)?;
    put_dirty_list(text, form, pages)
}

#[tactic(auto, unfolding(crate::specs::RecordText::dirty_list_text))]
fn put_dirty_list(text: &mut String, form: Form, pages: DirtyPages) -> Result<(), AllocError>
    ensures { OnOk result
        (string_bytes text.new ≡ string_bytes text.old ++ text_of (dirty_list_text form pages)) }
{
    put_either(text, form, "", ",\"dirty\":[")?;
    put_dirty_pages(text, form, pages)?;
    put_either(text, form, "", "]")
}

#[tactic(auto, unfolding(crate::specs::RecordText::dirty_pages_text))]
fn put_dirty_pages(text: &mut String, form: Form, pages: DirtyPages) -> Result<(), AllocError>
    ensures { OnOk result
        (string_bytes text.new ≡ string_bytes text.old ++ text_of (dirty_pages_text form pages)) }
{
    match pages {
        DirtyPages::One(a) => put_dirty(text, form, a),
        DirtyPages::Two(a, b) => {
            put_dirty(text, form, a)?;
            put_either(text, form, "", ",")?;
            put_dirty(text, form, b)
        }
        DirtyPages::Three(a, b, c) => {
            put_dirty(text, form, a)?;
            put_either(text, form, "", ",")?;
            put_dirty(text, form, b)?;
            put_either(text, form, "", ",")?;
            put_dirty(text, form, c)
        }
    }
}

#[tactic(auto, unfolding(crate::specs::RecordText::dirty_text))]
fn put_dirty(text: &mut String, form: Form, page: DirtyPage) -> Result<(), AllocError>
    ensures { OnOk result
        (string_bytes text.new ≡ string_bytes text.old ++ text_of (dirty_text form page)) }
{
    let (number, rec_lsn) = (page.page, page.rec_lsn);
    put_either(text, form, " page ", "{\"page\":")?;
    write!(text, "{number}")?;
    put_number(text, form, "rec_lsn", rec_lsn)?;
    put_either(text, form, "", "}")
}

// ---- the alphabet of a form

/// A number behind its name.
#[tactic(auto, unfolding(crate::specs::RecordText::number_text))]
fn put_number(text: &mut String, form: Form, name: &str, number: u64) -> Result<(), AllocError>
    ensures { OnOk result
        (string_bytes text.new ≡ string_bytes text.old ++ text_of (number_text form name.now number)) }
{
    match form {
        Form::Words => write!(text, " {name} {number}"),
        Form::Json => write!(text, ",\"{name}\":{number}"),
    }
}

/// A number that is behind its name in JSON alone.
#[tactic(auto, unfolding(crate::specs::RecordText::value_text))]
fn put_value(text: &mut String, form: Form, name: &str, number: u64) -> Result<(), AllocError>
    ensures { OnOk result
        (string_bytes text.new ≡ string_bytes text.old ++ text_of (value_text form name.now number)) }
{
    match form {
        Form::Words => write!(text, " {number}"),
        Form::Json => write!(text, ",\"{name}\":{number}"),
    }
}

/// A word that is behind its name in JSON alone.
#[tactic(auto, unfolding(crate::specs::RecordText::word_text))]
fn put_word(text: &mut String, form: Form, name: &str, word: &str) -> Result<(), AllocError>
    ensures { OnOk result
        (string_bytes text.new ≡ string_bytes text.old ++ text_of (word_text form name.now word.now)) }
{
    match form {
        Form::Words => write!(text, " {word}"),
        Form::Json => write!(text, ",\"{name}\":\"{word}\""),
    }
}

/// The one text in words, and the other one in JSON.
fn put_either(text: &mut String, form: Form, words: &str, json: &str) -> Result<(), AllocError>
    ensures { OnOk result
        (string_bytes text.new ≡ string_bytes text.old ++ either form words.now json.now) }
{
    match form {
        Form::Words => text.push_str(words),
        Form::Json => text.push_str(json),
    }
}
