//! The call that a line names.

ghost use Rattle.std.specs.Prelude.{◌≡◌, IfSome, Some};
ghost use Rattle.event_script.specs.Script.{args_of, call_of, call_of_copied_page, call_of_none};
ghost use Rattle.event_script.specs.Script.{call_of_one, call_of_two, called, change_of};
ghost use Rattle.event_script.specs.Script.{checkpoint_calls, copy_calls, entry_of, page_calls};
ghost use Rattle.event_script.specs.Script.{plain_calls, read_of, txn_calls, undo_to_of};
ghost use Rattle.event_script.specs.Script.{volume_calls};
ghost use Rattle.event_script.specs.Words.{words_of};

use crate::number::number_of;
use crate::short_word::short_word;
use crate::words::next_word;
use copy_vault::CopyId;
use engine_calls::Event;
use page_core::{Lsn, PageNo, SlotNo, TxnNo};

/// The numbers behind a call's name.
#[derive(Clone, Copy)]
pub(crate) enum Args {
    Nothing,
    One(u64),
    Two(u64, u64),
    Four(u64, u64, u64, u64),
}

/// The numbers in these bytes, where all are short, and no space stands behind the last one.
fn short_args(bytes: &[u8]) -> Option<Args>
    ensures { IfSome result (λ args. args_of (words_of bytes.now) ≡ Some args) }
{
    let (a, rest) = short_word(bytes)?;
    if rest.is_empty() {
        return Some(Args::One(a));
    }
    let (b, rest) = short_word(rest)?;
    if rest.is_empty() {
        return Some(Args::Two(a, b));
    }
    let (c, rest) = short_word(rest)?;
    let (d, rest) = short_word(rest)?;
    if rest.is_empty() {
        return Some(Args::Four(a, b, c, d));
    }
    None
}

/// The numbers in these bytes. No call has three, or more than four.
pub(crate) fn args_of(bytes: &[u8]) -> Option<Args>
    ensures { result ≡ args_of (words_of bytes.now) }
{
    if let Some(args) = short_args(bytes) {
        return Some(args);
    }
    let Some((a, rest)) = next_word(bytes) else {
        return Some(Args::Nothing);
    };
    let Some((b, rest)) = next_word(rest) else {
        return Some(Args::One(number_of(a)?));
    };
    let Some((c, rest)) = next_word(rest) else {
        return Some(Args::Two(number_of(a)?, number_of(b)?));
    };
    let (d, rest) = next_word(rest)?;
    if next_word(rest).is_some() {
        return None;
    }
    Some(Args::Four(number_of(a)?, number_of(b)?, number_of(c)?, number_of(d)?))
}

fn plain_call(name: &[u8]) -> Option<Event>
    ensures { result ≡ entry_of plain_calls name.now }
{
    match name {
        b"begin" => Some(Event::Begin),
        b"force" => Some(Event::Force),
        b"full" => Some(Event::CopyFull),
        _ => None,
    }
}

fn checkpoint_call(name: &[u8]) -> Option<Event>
    ensures { result ≡ entry_of checkpoint_calls name.now }
{
    match name {
        b"ckpt" => Some(Event::CkptBegin),
        _ if name == b"gather".as_slice() => Some(Event::CkptGather),
        _ if name == b"endckpt".as_slice() => Some(Event::CkptEnd),
        _ => None,
    }
}

fn call_of_none(name: &[u8]) -> Option<Event>
    ensures { result ≡ call_of_none name.now }
{
    match plain_call(name) {
        Some(event) => Some(event),
        None => checkpoint_call(name),
    }
}

fn call_of_txn(name: &[u8], number: u32) -> Option<Event>
    ensures { result ≡ called (entry_of txn_calls name.now) number }
{
    let txn = TxnNo(number);
    match name {
        b"abort" => Some(Event::Abort(txn)),
        b"undo" => Some(Event::UndoStep(txn)),
        b"save" => Some(Event::Savepoint(txn)),
        _ if name == b"commit".as_slice() => Some(Event::Commit(txn)),
        _ => None,
    }
}

fn call_of_page(name: &[u8], number: u32) -> Option<Event>
    ensures { result ≡ called (entry_of page_calls name.now) number }
{
    let page = PageNo(number);
    match name {
        b"wend" => Some(Event::WriteEnd(page)),
        _ if name == b"wbegin".as_slice() => Some(Event::WriteBegin(page)),
        _ => None,
    }
}

fn call_of_copy(name: &[u8], number: u32) -> Option<Event>
    ensures { result ≡ called (entry_of copy_calls name.now) number }
{
    let copy = CopyId(number);
    match name {
        b"inc" => Some(Event::CopyInc(copy)),
        b"seal" => Some(Event::Seal(copy)),
        b"drop" => Some(Event::DropCopy(copy)),
        _ => None,
    }
}

fn call_of_volume(name: &[u8], number: u32) -> Option<Event>
    ensures { result ≡ called (entry_of volume_calls name.now) number }
{
    if name == b"extend".as_slice() {
        Some(Event::Extend(number))
    } else {
        None
    }
}

fn call_of_one(name: &[u8], number: u64) -> Option<Event>
    ensures { result ≡ call_of_one name.now number }
{
    let number = u32::try_from(number).ok()?;
    if let Some(event) = call_of_txn(name, number) {
        return Some(event);
    }
    if let Some(event) = call_of_page(name, number) {
        return Some(event);
    }
    match call_of_copy(name, number) {
        Some(event) => Some(event),
        None => call_of_volume(name, number),
    }
}

fn call_of_copied_page(name: &[u8], copy: u64, page: u64) -> Option<Event>
    ensures { result ≡ call_of_copied_page name.now copy page }
{
    let copy = CopyId(u32::try_from(copy).ok()?);
    let page = PageNo(u32::try_from(page).ok()?);
    match name {
        b"take" => Some(Event::Take { copy, page }),
        _ if name == b"repair".as_slice() => Some(Event::Repair { copy, page }),
        _ => None,
    }
}

fn read_of(page: u64, slot: u64) -> Option<Event>
    ensures { result ≡ read_of page slot }
{
    Some(Event::Read {
        page: PageNo(u32::try_from(page).ok()?),
        slot: SlotNo(u16::try_from(slot).ok()?),
    })
}

fn undo_to_of(txn: u64, savepoint: u64) -> Option<Event>
    ensures { result ≡ undo_to_of txn savepoint }
{
    Some(Event::UndoTo {
        txn: TxnNo(u32::try_from(txn).ok()?),
        savepoint: Lsn(savepoint),
    })
}

fn call_of_two(name: &[u8], first: u64, second: u64) -> Option<Event>
    ensures { result ≡ call_of_two name.now first second }
{
    match name {
        b"read" => read_of(first, second),
        _ if name == b"undoto".as_slice() => undo_to_of(first, second),
        _ => call_of_copied_page(name, first, second),
    }
}

fn change_of(name: &[u8], txn: u64, page: u64, slot: u64, number: u64) -> Option<Event>
    ensures { result ≡ change_of name.now txn page slot number }
{
    let txn = TxnNo(u32::try_from(txn).ok()?);
    let page = PageNo(u32::try_from(page).ok()?);
    let slot = SlotNo(u16::try_from(slot).ok()?);
    match name {
        b"set" => Some(Event::Set {
            txn,
            page,
            slot,
            number,
        }),
        b"add" => Some(Event::Add {
            txn,
            page,
            slot,
            amount: number,
        }),
        _ => None,
    }
}

/// The call of this name with these numbers, if there is one, and each number fits.
pub(crate) fn call_of(name: &[u8], args: Args) -> Option<Event>
    ensures { result ≡ call_of name.now args }
{
    match args {
        Args::Nothing => call_of_none(name),
        Args::One(number) => call_of_one(name, number),
        Args::Two(first, second) => call_of_two(name, first, second),
        Args::Four(txn, page, slot, number) => change_of(name, txn, page, slot, number),
    }
}
