//! Writes the bytes of a log.

ghost use Rattle.std.specs.Prelude.{ℕ, ◌≡◌, ◌*◌, ◌<◌, ◌≤◌, length, List, take, IfErr, OnOk};
ghost use Rattle.std.specs.List.{flat_map};
ghost use Rattle.std.specs.Io.KnownBytes.{Appends};
ghost use Rattle.log_records.specs.Log.{IsLog, Log, SpellsLog, log_bytes};
ghost use Rattle.log_records.specs.Record.{record_bytes};

use log_records::{HEADER_BYTES, MAX_RECORDS, RECORD_BYTES, Record, encode, encode_header};
use page_core::write_out;
use std::io::Write;

/// Writes the bytes of a log: its header, which gives this page count, and then its records, the
/// oldest first, as many at once as the buffer has room for. At `Err` so many of them went out: the
/// writer failed, took nothing, or was interrupted 17 times in a row. The writer is not flushed.
pub fn write_log<W: Write>(
    writer: &mut W,
    pages: u32,
    records: &[Record],
    buffer: &mut [u8],
) -> Result<(), u64>
    requires log { IsLog (record { pages = pages; records = records.now }) }
    requires room { RECORD_BYTES ≤ length buffer.old }
    ensures ok { OnOk result (Appends (W.contents writer.old) (W.contents writer.new)
        (log_bytes (record { pages = pages; records = records.now }))) }
    ensures within { IfErr result (λ done.
        done < length (log_bytes (record { pages = pages; records = records.now }))) }
    ensures err { IfErr result (λ done.
        Appends (W.contents writer.old) (W.contents writer.new)
        (take done (log_bytes (record { pages = pages; records = records.now })))) }
{
    if let Err(done) = write_out(writer, &encode_header(pages)) {
        return Err(done);
    }
    match write_records(writer, records, buffer) {
        Ok(()) => Ok(()),
        Err(done) => Err(HEADER_BYTES as u64 + done),
    }
}

/// Whatever is read of the bytes of a written log is that log: they spell it, and no other one.
pub fn written_logs_are_read_again()
    ensures spelled { (log : Log) → IsLog log → SpellsLog log (log_bytes log) }
    ensures again { (log read : Log) (bytes : List ℕ) → bytes ≡ log_bytes log → IsLog log
        → SpellsLog read bytes → read ≡ log }
{}

/// Writes the bytes of the records, a buffer at a time. At `Err` so many of them went out.
fn write_records<W: Write>(writer: &mut W, records: &[Record], buffer: &mut [u8]) -> Result<(), u64>
    requires room { RECORD_BYTES ≤ length buffer.old }
    requires few { length records.now ≤ MAX_RECORDS }
    ensures ok { OnOk result (Appends (W.contents writer.old) (W.contents writer.new)
        (flat_map record_bytes records.now)) }
    ensures within { IfErr result (λ done. done < length (flat_map record_bytes records.now)) }
    ensures small { IfErr result (λ done. done ≤ 64 * MAX_RECORDS) }
    ensures err { IfErr result (λ done.
        Appends (W.contents writer.old) (W.contents writer.new)
        (take done (flat_map record_bytes records.now))) }
{
    let group = buffer.len() / RECORD_BYTES;
    let mut first = 0;
    let mut done = 0;
    while first < records.len() {
        let count = group.min(records.len() - first);
        let filled = put_records(buffer, &records[first..first + count]);
        if let Err(part) = write_out(writer, &buffer[..filled]) {
            return Err(done + part);
        }
        done += filled as u64;
        first += count;
    }
    Ok(())
}

/// Puts the bytes of the records at the front of the buffer, and answers how many they are.
fn put_records(buffer: &mut [u8], records: &[Record]) -> usize
    requires { RECORD_BYTES * length records.now ≤ length buffer.old }
    ensures count { result ≡ length (flat_map record_bytes records.now) }
    ensures records { result ≡ RECORD_BYTES * length records.now }
    ensures bytes { take result buffer.new ≡ flat_map record_bytes records.now }
{
    for (i, record) in records.iter().enumerate() {
        let at = RECORD_BYTES * i;
        put_record(&mut buffer[at..at + RECORD_BYTES], record);
    }
    RECORD_BYTES * records.len()
}

/// Puts the bytes of a record in the place of these.
fn put_record(bytes: &mut [u8], next: &Record)
    requires { length bytes.old ≡ RECORD_BYTES }
    ensures { bytes.new ≡ record_bytes next.now }
{
    bytes.copy_from_slice(&encode(next));
}
