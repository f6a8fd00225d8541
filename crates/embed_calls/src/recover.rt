//! Recovers a database from its log alone, as a restart does.

ghost use Rattle.std.specs.Prelude.{ℕ, ◌≡◌, ◌≢◌, ◌*◌, ◌<◌, ◌≤◌, ◌⊎◌, List, IfErr, IfOk, length};
ghost use Rattle.std.specs.List.{flat_map};
ghost use Rattle.page_core.specs.Page.{volume_bytes};
ghost use Rattle.page_core.specs.declared.page.TheConstants.{MAX_PAGES};
ghost use Rattle.log_records.specs.Log.{Log};
ghost use Rattle.log_records.specs.Record.{record_bytes};
ghost use Rattle.log_records.specs.declared.limits.TheConstants.{MAX_RECORDS, RECORD_BYTES};
ghost use Rattle.embed_calls.specs.Recovered.{IsNotRecovered, IsRecovered, IsUndoneLog, MayUndo};
ghost use Rattle.embed_calls.specs.Recovered.{NeedsRoom, IsPut};
ghost use Rattle.embed_calls.specs.Outcome.{answers, numbered, numbered_twice};

use crate::outcome::{Outcome, TOO_SHORT};
use crate::redo::put_pages;
use log_records::{MAX_RECORDS, RECORD_BYTES, Record, encode};
use log_store::LogImage;
use loser_undo::{ReadLog, read_changes_and, undo_into};
use page_core::{PAGE_BYTES, Page};
use std::alloc::{AllocError, Global};
use txn_table::Losers;

/// What a log makes, and what undo begins with.
#[derive(Drop)]
struct Redone {
    log: LogImage,
    losers: Losers,
    pages: Vec<Page>,
}

/// A log after undo, of which the records from `count` on are those of undo; and its pages.
#[derive(Drop)]
struct Undone {
    records: Vec<Record>,
    count: usize,
    pages: Vec<Page>,
}

/// Recovers a database from its whole log, as a restart after a crash does, once the log is cut
/// where `log_prefix` says: redoes the log over formatted pages, and undoes the transactions that
/// are open at its end. Puts the bytes of the volume at the front of `volume`, and at the front of
/// `tail` those of the records that undo appends to the log, 64 bytes each. With code 0 `first` is
/// how many bytes of the volume these are, and `second` how many of the tail. In the log with this
/// tail no transaction is open, and each slot of the volume has what was committed.
///
/// `TOO_SHORT` comes where one of the two is too short, with the bytes that the volume needs as
/// `first`, and those that the tail needs as `second`. 8 comes where the log has no room for the
/// records of undo: no engine leaves such a log. The other faults are those of `check_log`. After
/// each of them both are as they were.
pub fn recover_log(alloc: Global, log: &[u8], volume: &mut [u8], tail: &mut [u8]) -> Outcome
    ensures recovered { result.code ≡ 0
        → IsRecovered log.now volume.old volume.new tail.old tail.new result }
    ensures short { result.code ≡ TOO_SHORT
        → NeedsRoom log.now (length volume.old) (length tail.old) result }
    ensures refused { result.code ≢ 0 → result.code ≢ TOO_SHORT → IsNotRecovered log.now result }
    ensures volume_kept { result.code ≢ 0 → volume.new ≡ volume.old }
    ensures tail_kept { result.code ≢ 0 → tail.new ≡ tail.old }
{
    match undo_log(alloc, log) {
        Ok(it) => {
            let (_, of_undo) = it.records.split_at(it.count);
            put_undone(&it.pages, of_undo, volume, tail)
        }
        Err(why) => why,
    }
}

/// Redoes a log, and undoes what is open at its end.
fn undo_log(alloc: Global, log: &[u8]) -> Result<Undone, Outcome>
    ensures ok { IfOk result (λ it. (whole : Log)
        × IsUndoneLog log.now whole it.records.items it.count it.pages.items) }
    ensures err { IfErr result (λ why. why.code ≢ 0 × why.code ≢ TOO_SHORT
        × IsNotRecovered log.now why) }
{
    let redone = redo_kept(alloc, log)?;
    match undo(redone) {
        Ok(it) => Ok(it),
        Err(_) => Err(Outcome::numbered(1, 0)),
    }
}

/// Reads a log, and sees that it has room for the records of undo.
fn redo_kept(alloc: Global, log: &[u8]) -> Result<Redone, Outcome>
    ensures ok { IfOk result (λ it. MayUndo log.now it.log it.losers it.pages.items) }
    ensures err { IfErr result (λ why. why.code ≢ 0 × why.code ≢ TOO_SHORT
        × IsNotRecovered log.now why) }
{
    let mut reader = log;
    match read_changes_and::<&[u8], LogImage>(alloc, &mut reader) {
        Ok(
            ReadLog {
                kept,
                losers,
                pages,
                ..
            },
        ) => {
            if kept.records().len() as u64 + losers.owed() > MAX_RECORDS as u64 {
                return Err(Outcome::numbered(8, 0));
            }
            Ok(Redone {
                log: kept,
                losers,
                pages,
            })
        }
        Err(why) => Err(Outcome::from(why)),
    }
}

/// Undoes the transactions that are open at the end of the log, on the pages and behind the
/// records.
fn undo(redone: Redone) -> Result<Undone, AllocError>
    requires { (bytes : List ℕ) × MayUndo bytes redone.log redone.losers redone.pages.items }
    ensures { IfOk result (λ it. (bytes : List ℕ)
        → MayUndo bytes redone.log redone.losers redone.pages.items
        → IsUndoneLog bytes redone.log it.records.items it.count it.pages.items) }
{
    let Redone { log, losers, pages } = redone;
    let count = log.records().len();
    let (_, mut records) = log.into_parts();
    records.reserve(losers.owed() as usize)?;
    let mut sink = (records, pages);
    undo_into(losers, count, &mut sink);
    Ok(Undone {
        records: sink.0,
        count,
        pages: sink.1,
    })
}

/// Puts the bytes of the pages and of the records at the fronts of these two, if they fit there.
fn put_undone(pages: &[Page], made: &[Record], volume: &mut [u8], tail: &mut [u8]) -> Outcome
    requires pages { length pages.now ≤ MAX_PAGES }
    requires records { length made.now ≤ MAX_RECORDS }
    ensures put { result.code ≡ 0 → IsPut pages.now made.now volume.old volume.new tail.old tail.new }
    ensures code { result.code ≡ 0
        → result ≡ answers (PAGE_BYTES * length pages.now) (RECORD_BYTES * length made.now) 0 }
    ensures short { result.code ≢ 0 → result ≡ numbered_twice TOO_SHORT
        (PAGE_BYTES * length pages.now) (RECORD_BYTES * length made.now) }
    ensures no_room { result.code ≢ 0 → length volume.old < PAGE_BYTES * length pages.now
        ⊎ length tail.old < RECORD_BYTES * length made.now }
    ensures volume_kept { result.code ≢ 0 → volume.new ≡ volume.old }
    ensures tail_kept { result.code ≢ 0 → tail.new ≡ tail.old }
{
    let (of_volume, of_tail) = (PAGE_BYTES * pages.len(), RECORD_BYTES * made.len());
    if of_volume > volume.len() || of_tail > tail.len() {
        return Outcome::numbered_twice(TOO_SHORT, of_volume as u64, of_tail as u64);
    }
    put_pages(pages, &mut volume[..of_volume]);
    put_records(made, &mut tail[..of_tail]);
    Outcome::answers(of_volume as u64, of_tail as u64, 0)
}

/// Puts the bytes of the records into a room that is as long as they are.
fn put_records(records: &[Record], room: &mut [u8])
    requires { length room.old ≡ RECORD_BYTES * length records.now }
    ensures { room.new ≡ flat_map record_bytes records.now }
{
    for (i, next) in records.iter().enumerate() {
        let at = RECORD_BYTES * i;
        put_record(next, &mut room[at..at + RECORD_BYTES]);
    }
}

/// Puts the bytes of a record in the place of these.
fn put_record(next: &Record, bytes: &mut [u8])
    requires { length bytes.old ≡ RECORD_BYTES }
    ensures { bytes.new ≡ record_bytes next.now }
{
    bytes.copy_from_slice(&encode(next));
}
