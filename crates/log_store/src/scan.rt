//! Reads a log piece by piece.

ghost use Rattle.std.specs.Prelude.{ℕ, ◌≡◌, ◌+◌, ◌*◌, ◌/◌, ◌<◌, ◌≤◌, ◌++◌, ◌-◌, [], List};
ghost use Rattle.std.specs.Prelude.{◌↔◌, length, take, drop, IfOk, IfErr, IfSome, IsTrue, OnOk};
ghost use Rattle.std.specs.Io.KnownBytes.{Consumes, IsAtEnd};
ghost use Rattle.page_core.specs.Input.{StaysKnown};
ghost use Rattle.log_rules.specs.History.{IsMadeOf};
ghost use Rattle.log_rules.specs.Linked.{IsLinked};
ghost use Rattle.log_records.specs.Log.{IsLog, IsOfFormat, Log, SpellsLog, StandsAt};
ghost use Rattle.log_records.specs.Record.{record_bytes};
ghost use Rattle.log_store.specs.Fault.{Refuses, GaveNoFault, IsBehindLog, IsNoReadFault, offset_of};
ghost use Rattle.log_store.specs.Scan.{HasAll, HasGivenTo, HasStopped, HasTaken, HasTakenBefore};
ghost use Rattle.log_store.specs.Scan.{IsReadTo};

use crate::fault::LogReadFault;
use crate::history::History;
use crate::sink::RecordSink;
use log_records::{
    HEADER_BYTES, MAX_RECORDS, RECORD_BYTES, Record, log_header, named_slot, record_at, step_at,
    update_at,
};
use page_core::{Format, LSN_STEP, Lsn, MAX_TURNS, Turn, keep_from, read_more, zeros};
use std::alloc::Global;
use std::io::Read;

/// The result of reading a log: its sink, and the state to which its records lead.
#[derive(Drop)]
pub struct Scan<S> {
    pub sink: S,
    pub history: History,
}

/// The result of reading a log as far as it is right: what its records lead to, and its first fault,
/// if it has one.
#[derive(Drop)]
pub struct Reached<S> {
    pub scan: Scan<S>,
    pub fault: Option<LogReadFault>,
}

/// How many bytes it is asked for at once, at most.
const BUFFER_BYTES: usize = 262_144;

/// How many records are looked at ahead.
const AHEAD: usize = 32;

/// Looks at the slots that these records name, right or wrong, so that all of them come from memory
/// at the same time.
fn look_ahead(history: &History, bytes: &[u8]) -> u64 {
    let mut seen = 0;
    for i in 0..bytes.len() / RECORD_BYTES {
        let (page, slot) = named_slot(&bytes[RECORD_BYTES * i..RECORD_BYTES * i + RECORD_BYTES]);
        seen ^= history.look(page, slot);
    }
    seen
}

/// Takes a record, which stands behind the first `count`, if it may follow them. It is asked of the
/// most frequent kinds by themselves: then the compiler knows the kind, and looks at it once.
#[inline(always)]
fn take_found<S: RecordSink>(
    sink: &mut S,
    history: &mut History,
    count: usize,
    found: &Record,
) -> Result<(), LogReadFault>
    requires room { count < MAX_RECORDS }
    requires stands { StandsAt (length history.old.pages) (LSN_STEP * (count + 1)) found.now }
    requires so_far { (format : Format) × (given : List ℕ)
        × HasTaken S.holds format sink.old history.old count given }
    ensures ok { OnOk result ((format : Format) (given : List ℕ) → IsOfFormat format found.now
        → HasTaken S.holds format sink.old history.old count given
        → HasTaken S.holds format sink.new history.new (count + 1)
        (given ++ record_bytes found.now)) }
    ensures first { IfErr result (λ fault. (format : Format) (given rest : List ℕ)
        → IsOfFormat format found.now
        → HasTaken S.holds format sink.old history.old count given
        → Refuses (given ++ (record_bytes found.now ++ rest)) fault) }
    ensures stopped { IfErr result (λ fault. IsBehindLog fault → (sink.new ≡ sink.old)
        × (history.new ≡ history.old) × (offset_of fault ≡ LSN_STEP * (count + 1))) }
    ensures of_bytes { IfErr result IsNoReadFault }
{
    if !history.follow(found)? {
        return Err(LogReadFault::BadChain(Lsn(LSN_STEP * (count as u64 + 1))));
    }
    Ok(sink.take(&[*found])?)
}

/// Takes the next record, which stands behind the first `count`, if it may follow them.
#[inline(always)]
fn take_record<S: RecordSink>(
    format: Format,
    sink: &mut S,
    history: &mut History,
    count: usize,
    bytes: &[u8],
) -> Result<(), LogReadFault>
    requires whole { length bytes.now ≡ RECORD_BYTES }
    requires so_far { (given : List ℕ) × HasTaken S.holds format sink.old history.old count given }
    ensures ok { OnOk result ((given : List ℕ)
        → HasTaken S.holds format sink.old history.old count given
        → HasTaken S.holds format sink.new history.new (count + 1) (given ++ bytes.now)) }
    ensures first { IfErr result (λ fault. (given rest : List ℕ)
        → HasTaken S.holds format sink.old history.old count given
        → Refuses (given ++ (bytes.now ++ rest)) fault) }
    ensures stopped { IfErr result (λ fault. IsBehindLog fault → (sink.new ≡ sink.old)
        × (history.new ≡ history.old) × (offset_of fault ≡ LSN_STEP * (count + 1))) }
    ensures of_bytes { IfErr result IsNoReadFault }
{
    if count >= MAX_RECORDS {
        return Err(LogReadFault::TooLong);
    }
    let at = Lsn(LSN_STEP * (count as u64 + 1));
    let pages = history.pages().len() as u32;
    if let Some(update) = update_at(bytes, at, pages) {
        return take_found(sink, history, count, &update);
    }
    if let Some(step) = step_at(bytes, at) {
        return take_found(sink, history, count, &step);
    }
    let Some(other) = record_at(bytes, at, format, pages) else {
        return Err(LogReadFault::BadRecord(at));
    };
    take_found(sink, history, count, &other)
}

/// Takes the whole records among these bytes, which stand behind the first `count` records. What it
/// answers says nothing, but a compiler must keep the looks ahead for it.
fn take_records<S: RecordSink>(
    format: Format,
    sink: &mut S,
    history: &mut History,
    count: usize,
    bytes: &[u8],
) -> Result<u64, LogReadFault>
    requires { (given : List ℕ) × HasTaken S.holds format sink.old history.old count given }
    ensures ok { OnOk result ((given : List ℕ)
        → HasTaken S.holds format sink.old history.old count given
        → HasTaken S.holds format sink.new history.new (count + length bytes.now / RECORD_BYTES)
        (given ++ take (RECORD_BYTES * (length bytes.now / RECORD_BYTES)) bytes.now)) }
    ensures first { IfErr result (λ fault. (given rest : List ℕ)
        → HasTaken S.holds format sink.old history.old count given
        → Refuses (given ++ (bytes.now ++ rest)) fault) }
    ensures stopped { IfErr result (λ fault. (given : List ℕ)
        → HasTaken S.holds format sink.old history.old count given → IsBehindLog fault
        → HasTakenBefore S.holds format sink.new history.new count given bytes.now fault) }
    ensures of_bytes { IfErr result IsNoReadFault }
{
    let whole = bytes.len() / RECORD_BYTES;
    let mut seen = 0;
    for i in 0..whole {
        if i % AHEAD == 0 {
            let end = whole.min(i + AHEAD);
            seen ^= look_ahead(history, &bytes[RECORD_BYTES * i..RECORD_BYTES * end]);
        }
        let record = &bytes[RECORD_BYTES * i..RECORD_BYTES * i + RECORD_BYTES];
        take_record(format, sink, history, count + i, record)?;
    }
    Ok(seen)
}

/// Reads the header, and answers how many turns that took.
fn read_header<R: Read>(reader: &mut R, header: &mut [u8]) -> Result<u32, LogReadFault>
    requires { length header.old ≡ HEADER_BYTES }
    ensures known { StaysKnown (R.remaining reader.old) (R.remaining reader.new) }
    ensures ok { OnOk result (Consumes (R.remaining reader.old)
        (R.remaining reader.new) header.new) }
    ensures turns { IfOk result (λ turns. turns ≤ MAX_TURNS) }
    ensures err { IfErr result (λ fault. ¬ IsBehindLog fault) }
    ensures first { IfErr result (λ fault. IfSome (R.remaining reader.old)
        (λ input. Refuses input fault)) }
    ensures unread { IfErr result (GaveNoFault [] (R.remaining reader.old)
        (R.remaining reader.new)) }
{
    let mut filled = 0;
    for turn in 0..MAX_TURNS {
        match read_more(reader, header, filled) {
            Turn::More(count) => filled += count,
            Turn::End => return Err(LogReadFault::BadHeader),
            Turn::Failed => return Err(LogReadFault::ReadFault),
        }
        if filled >= HEADER_BYTES {
            return Ok(turn + 1);
        }
    }
    Err(LogReadFault::ReadFault)
}

/// Reads the records behind the header, to the input's end.
fn read_records<R: Read, S: RecordSink>(
    reader: &mut R,
    format: Format,
    scan: &mut Scan<S>,
    turns: u32,
    buffer: &mut [u8],
) -> Result<(), LogReadFault>
    requires room { 128 ≤ length buffer.old }
    requires taken { (given : List ℕ)
        × HasTaken S.holds format scan.old.sink scan.old.history 0 given }
    ensures known { StaysKnown (R.remaining reader.old) (R.remaining reader.new) }
    ensures end { OnOk result (IsAtEnd (R.remaining reader.new)) }
    ensures found { OnOk result ((given : List ℕ)
        → HasTaken S.holds format scan.old.sink scan.old.history 0 given
        → (read : List ℕ) × (Consumes (R.remaining reader.old) (R.remaining reader.new) read
        × HasAll S.holds scan.new.sink scan.new.history (given ++ read))) }
    ensures first { IfErr result (λ fault. (given : List ℕ)
        → HasTaken S.holds format scan.old.sink scan.old.history 0 given
        → IfSome (R.remaining reader.old) (λ rest. Refuses (given ++ rest) fault)) }
    ensures unread { IfErr result (λ fault. (given : List ℕ)
        → HasTaken S.holds format scan.old.sink scan.old.history 0 given
        → GaveNoFault given (R.remaining reader.old) (R.remaining reader.new) fault) }
    ensures stopped { IfErr result (λ fault. (given : List ℕ)
        → HasTaken S.holds format scan.old.sink scan.old.history 0 given → IsBehindLog fault
        → HasStopped S.holds scan.new.sink scan.new.history given (R.remaining reader.old)
        (R.remaining reader.new) fault) }
{
    let mut filled = 0;
    let mut count = 0;
    for _ in 0..turns {
        match read_more(reader, buffer, filled) {
            Turn::More(more) => filled += more,
            Turn::End => return at_end(count, filled),
            Turn::Failed => return Err(LogReadFault::ReadFault),
        }
        let bytes = &buffer[..filled];
        let seen = take_records(format, &mut scan.sink, &mut scan.history, count, bytes)?;
        count += filled / RECORD_BYTES;
        filled = keep_rest(buffer, filled);
        buffer[filled] = (seen % 256) as u8;
        if count >= MAX_RECORDS && filled > 0 {
            return Err(LogReadFault::TooLong);
        }
    }
    Err(LogReadFault::ReadFault)
}

/// Whether a log may end here, where so many bytes follow its first `count` records.
fn at_end(count: usize, filled: usize) -> Result<(), LogReadFault>
    requires { count ≤ MAX_RECORDS }
    ensures ok { OnOk result (filled ≡ 0) }
    ensures err { IfErr result (λ fault.
        (0 < filled) × (fault ≡ LogReadFault.Torn (LSN_STEP * (count + 1)))) }
{
    if filled == 0 {
        Ok(())
    } else {
        Err(LogReadFault::Torn(Lsn(LSN_STEP * (count as u64 + 1))))
    }
}

/// Moves the bytes behind the whole records to the front, and answers how many there are.
fn keep_rest(buffer: &mut [u8], filled: usize) -> usize
    requires { filled ≤ length buffer.old }
    ensures short { result < RECORD_BYTES }
    ensures rest { take result buffer.new
        ≡ drop (RECORD_BYTES * (filled / RECORD_BYTES)) (take filled buffer.old) }
    ensures count { result ≡ filled - RECORD_BYTES * (filled / RECORD_BYTES) }
{
    keep_from(buffer, RECORD_BYTES * (filled / RECORD_BYTES), filled)
}

/// Reads a log to its first fault, or to the input's end, and hands its records to a sink as they
/// come. A record is handed on only once all of the bytes up to its end are found right, and it may
/// follow the records before it. So what the sink holds at a fault is of the records before it.
///
/// It stops at the first fault, since nothing behind it can come before it. The bytes before the
/// fault were read then, and some behind it. An interrupted read is made again. `BadHeader` comes
/// where no log begins so. `ReadFault` comes where the reader fails otherwise, and where it was
/// asked 134,217,728 times without coming to its end. `OutOfMemory` comes where room for the sink or
/// for what is read is refused.
pub fn scan_to_fault<R: Read, S: RecordSink + Drop>(
    alloc: Global,
    reader: &mut R,
) -> Result<Reached<S>, LogReadFault>
    ensures known { StaysKnown (R.remaining reader.old) (R.remaining reader.new) }
    ensures found { IfOk result (λ it. IsReadTo S.holds it.scan.sink it.scan.history it.fault
        (R.remaining reader.old)) }
    ensures given { IfOk result (λ it. HasGivenTo (R.remaining reader.old) (R.remaining reader.new)
        it.fault) }
    // A fault behind a log is one of what was reached, and no `Err`.
    ensures err { IfErr result (λ fault. ¬ IsBehindLog fault) }
    ensures first { IfErr result (λ fault. IfSome (R.remaining reader.old)
        (λ input. Refuses input fault)) }
    // Where the reader failed, what it gave until then holds no fault.
    ensures unread { IfErr result (GaveNoFault [] (R.remaining reader.old)
        (R.remaining reader.new)) }
{
    let mut header = [0; HEADER_BYTES];
    let turns = read_header(reader, &mut header)?;
    let Some(found) = log_header(&header) else {
        return Err(LogReadFault::BadHeader);
    };
    let mut buffer = zeros(alloc, BUFFER_BYTES)?;
    let mut scan = Scan {
        sink: S::start(alloc, found.pages)?,
        history: History::start(alloc, found.pages)?,
    };
    let left = MAX_TURNS - turns;
    match read_records(reader, found.format, &mut scan, left, &mut buffer) {
        Ok(()) => Ok(Reached { scan, fault: None }),
        Err(fault) => {
            if !is_behind_log(fault) {
                return Err(fault);
            }
            Ok(Reached {
                scan,
                fault: Some(fault),
            })
        }
    }
}

/// Whether a fault lies behind a log.
fn is_behind_log(fault: LogReadFault) -> bool
    ensures { IsTrue result ↔ IsBehindLog fault }
{
    match fault {
        LogReadFault::BadRecord(_)
        | LogReadFault::BadChain(_)
        | LogReadFault::Torn(_)
        | LogReadFault::TooLong => true,
        LogReadFault::OutOfMemory | LogReadFault::BadHeader | LogReadFault::ReadFault => false,
    }
}

/// Reads a log to the input's end, and hands its records to a sink as they come, as `scan_to_fault`
/// does. The first fault is an `Err`, whichever it is. Where the reader stands then is not said.
pub fn scan_log<R: Read, S: RecordSink + Drop>(
    alloc: Global,
    reader: &mut R,
) -> Result<Scan<S>, LogReadFault>
    ensures known { StaysKnown (R.remaining reader.old) (R.remaining reader.new) }
    // The input spells a linked log, and these are what the sink and the history make of it.
    ensures found { IfOk result (λ scan. (log : Log)
        × (S.holds scan.sink log × (IsMadeOf log scan.history × (IsLinked log.records
        × (IsLog log × IfSome (R.remaining reader.old) (SpellsLog log)))))) }
    ensures end { OnOk result (IsAtEnd (R.remaining reader.new)) }
    // The fault is the first one.
    ensures first { IfErr result (λ fault. IfSome (R.remaining reader.old)
        (λ input. Refuses input fault)) }
    // Where the reader failed, what it gave until then holds none.
    ensures unread { IfErr result (GaveNoFault [] (R.remaining reader.old)
        (R.remaining reader.new)) }
{
    let Reached { scan, fault } = scan_to_fault(alloc, reader)?;
    match fault {
        None => Ok(scan),
        Some(fault) => Err(fault),
    }
}
