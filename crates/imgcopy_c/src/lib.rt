//! The calls of imgcopy for C, and for any language that calls C: they check a log, redo it, find
//! where a crash has left it, recover a database from it, and audit image copies against it.
//!
//! A caller passes bytes that it has in memory: the bytes of a file, as `imgcopy run --save` or
//! `imgcopy open` wrote it. No call opens a file, prints, starts a thread, takes a lock, ends the
//! process or keeps a pointer, and there is nothing to free. Calls may run at the same time in
//! several threads.
//!
//! Each call returns an `imgcopy_outcome`. Its code is 0, or says why not: a fault of the files has
//! the number that `imgcopy` prints, as 31 for `E31 BadRecord 128`, and its numbers follow it in
//! `first` and `second`. An LSN is the offset of a record in its log, in bytes.
//!
//! What each call says is proved, of all bytes that a caller may pass, and holds under what C has to
//! see to: that a pointer is that of as many bytes as its length says, or NULL with the length 0;
//! that what a call writes overlaps nothing that it reads; that no other thread writes there
//! meanwhile; and that `malloc`, `realloc` and `free` are those of a C library.
#![tactic(auto)]

ghost use Rattle.std.specs.Prelude.{◌≡◌, ◌≢◌, Some, length, sum};
ghost use Rattle.copy_audit.specs.Audited.{AreAudited};
ghost use Rattle.embed_calls.specs.Archives.{inputs_of};
ghost use Rattle.embed_calls.specs.Calls.{AreNotSound, HasNoPrefix, IsChecked, IsNoLog, IsPrefix};
ghost use Rattle.embed_calls.specs.Calls.{IsRedone, IsTooShort};
ghost use Rattle.embed_calls.specs.Outcome.{numbered};
ghost use Rattle.embed_calls.specs.Recovered.{IsNotRecovered, IsRecovered, NeedsRoom};

use embed_calls::{ABI, LENGTHS_DIFFER, Outcome, TOO_SHORT};
use std::alloc::Global;

/// Returns the version of these calls, which is `IMGCOPY_ABI` in the header of the same version.
#[unsafe(no_mangle)]
pub extern "C" fn imgcopy_abi() -> u32
    ensures { result ≡ ABI }
{
    ABI
}

/// Checks whether the bytes are a whole log, as `imgcopy redo` does before it writes.
///
/// With code 0 `first` is how many pages the log's volume has, `second` how many records the log
/// has, and `third` the LSN behind the last one, which is the log's length.
///
/// Codes: 30, 31, 32, 34 and 35 for the first fault of the bytes, with the record's offset at 31, 32
/// and 35; 1 if memory is refused. The call takes 512 bytes of memory for each page of the volume,
/// some 300 KB, and what the transactions take that are open at the same time.
#[unsafe(no_mangle)]
pub extern "C" fn imgcopy_check_log(alloc: Global, log: &[u8]) -> Outcome
    ensures right { result.code ≡ 0 → IsChecked log.now result }
    ensures wrong { result.code ≢ 0 → IsNoLog log.now result }
{
    embed_calls::check_log(alloc, log)
}

/// Redoes a whole log, as `imgcopy redo` does, and puts its volume at the front of the caller's
/// room: 512 bytes for each page, in the order of their numbers.
///
/// With code 0 `first` is how many bytes were put there. Those behind them are as they were.
///
/// Codes: `IMGCOPY_TOO_SHORT` if the room is too short; then `first` is how many bytes are needed,
/// 33,554,432 at most. Else those of `imgcopy_check_log`. With any code but 0 the room is as it was.
#[unsafe(no_mangle)]
pub extern "C" fn imgcopy_redo(alloc: Global, log: &[u8], volume: &mut [u8]) -> Outcome
    ensures made { result.code ≡ 0 → IsRedone log.now volume.old volume.new result }
    ensures short { result.code ≡ TOO_SHORT → IsTooShort log.now (length volume.old) result.first }
    ensures refused { result.code ≢ 0 → result.code ≢ TOO_SHORT → IsNoLog log.now result }
    ensures kept { result.code ≢ 0 → volume.new ≡ volume.old }
{
    embed_calls::redo_log(alloc, log, volume)
}

/// Finds where the bytes of a log are to be cut that a crash has left: the longest front of them
/// that is a log.
///
/// With code 0 `first` is the offset at which this front ends. `second` is 0 if that is all of the
/// bytes; else it is the code that `imgcopy_check_log` returns for them, 31, 32, 34 or 35. `third`
/// is the LSN of the first record behind the front that was forced, or 0. If it is not 0, records
/// are lost that no crash takes: do not cut such a log, but restore it from elsewhere.
///
/// Codes: 30 if no log begins so; 1 if memory is refused.
#[unsafe(no_mangle)]
pub extern "C" fn imgcopy_log_prefix(alloc: Global, log: &[u8]) -> Outcome
    ensures found { result.code ≡ 0 → IsPrefix log.now result }
    ensures none { result.code ≢ 0 → HasNoPrefix log.now result }
{
    embed_calls::log_prefix(alloc, log)
}

/// Recovers a database from its whole log, as a restart after a crash does: redoes the log over
/// formatted pages, and undoes the transactions that are open at its end. First cut the log where
/// `imgcopy_log_prefix` says.
///
/// Puts the volume at the front of `volume`, as `imgcopy_redo` does, and at the front of `tail` the
/// records that undo appends to the log, 64 bytes each. Behind the log these make a log in which no
/// transaction is open, and each slot of the volume has what was committed. So store the tail behind
/// the log before you go on with the volume.
///
/// With code 0 `first` is how many bytes of the volume were put there, and `second` how many of the
/// tail. Those behind them are as they were.
///
/// Codes: `IMGCOPY_TOO_SHORT` if one of the two is too short; then the volume needs `first` bytes,
/// and the tail `second`. 8 if the log has no room for the records of undo: no engine leaves such a
/// log. Else those of `imgcopy_check_log`. With any code but 0 both are as they were. The call keeps
/// the log's records in memory, some 80 bytes each.
#[unsafe(no_mangle)]
pub extern "C" fn imgcopy_recover(
    alloc: Global,
    log: &[u8],
    volume: &mut [u8],
    tail: &mut [u8],
) -> Outcome
    ensures recovered { result.code ≡ 0
        → IsRecovered log.now volume.old volume.new tail.old tail.new result }
    ensures short { result.code ≡ TOO_SHORT
        → NeedsRoom log.now (length volume.old) (length tail.old) result }
    ensures refused { result.code ≢ 0 → result.code ≢ TOO_SHORT → IsNotRecovered log.now result }
    ensures volume_kept { result.code ≢ 0 → volume.new ≡ volume.old }
    ensures tail_kept { result.code ≢ 0 → tail.new ≡ tail.old }
{
    embed_calls::recover_log(alloc, log, volume, tail)
}

/// Audits a chain of image copies against a log, as `imgcopy audit` does. With code 0 a restore of
/// the chain, and of the chain up to each of its copies, gives what the log says, whoever wrote the
/// copies.
///
/// `archives` has the bytes of the copies' archives one behind another, the full copy first, and
/// `lengths` how many bytes each of them has.
///
/// Codes: `IMGCOPY_LENGTHS_DIFFER` if the lengths do not add up to the bytes. Else those of
/// `imgcopy_check_log`; 36 with an offset in an archive, 37 with the id of a copy, 38, 39, 40 with
/// the number of a page; and 41 with the id of a copy in `first` and the number of a page of it in
/// `second`, which is not what the log made of it.
#[unsafe(no_mangle)]
pub extern "C" fn imgcopy_audit(
    alloc: Global,
    log: &[u8],
    archives: &[u8],
    lengths: &[usize],
) -> Outcome
    ensures sound { result.code ≡ 0
        → AreAudited (Some log.now) (inputs_of archives.now lengths.now) }
    ensures lengths { result.code ≡ 0 → sum lengths.now ≡ length archives.now }
    ensures differ { result.code ≡ LENGTHS_DIFFER → (result ≡ numbered LENGTHS_DIFFER 0)
        × (sum lengths.now ≢ length archives.now) }
    ensures refused { result.code ≢ 0 → result.code ≢ LENGTHS_DIFFER
        → AreNotSound log.now archives.now lengths.now result }
{
    embed_calls::audit_archives(alloc, log, archives, lengths)
}
