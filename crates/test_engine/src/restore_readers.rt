//! Restores from files through readers that are slow, are interrupted, or fail, and to writers that
//! fail.

use crate::bytes::name_format;
use crate::four_pages::{
    Inputs, OF_FULL, OF_LOG, OF_MASTER, OF_SECOND, OF_THIRD, files, only, restored, slices, volume,
};
use crate::narrow::Narrow;
use crate::readers::Trouble;
use media_restore::RestoreFault;
use std::process::Abort;
use std::test::Fail;
use std::thread::Threads;

/// Asserts that the whole volume is written.
fn assert_whole(
    rt: &(impl Abort + AllocGlobal + Threads + Sync),
    inputs: &Inputs,
    step: usize,
    troubles: &[Trouble; 5],
    whole: &[u8],
) {
    let mut written = Vec::new(rt.alloc());
    let fault = restored(rt, inputs, step, troubles, &mut written);
    assert_eq!(rt; fault, None, "{step} bytes at a call");
    assert_eq!(rt; written.as_slice(), whole, "{step} bytes at a call");
}

/// How many bytes come at a call, at most.
const STEPS: [usize; 8] = [1, 7, 63, 64, 65, 511, 513, usize::MAX];

#[test]
fn bytes_come_in_steps(rt: HostRuntime) -> Result<(), Fail> {
    let made = files(rt.alloc())?;
    let whole = volume(rt.alloc())?;
    let inputs = slices(&made);
    for step in &STEPS {
        let troubles = [Trouble::Nothing; 5];
        assert_whole(&rt, &inputs, *step, &troubles, whole.as_slice());
    }
    Ok(())
}

/// The log and the archives say that they are of the first format, and the master record has but
/// one.
#[test]
fn files_of_the_first_format_restore_the_same(rt: HostRuntime) -> Result<(), Fail> {
    let mut made = files(rt.alloc())?;
    for file in [OF_LOG, OF_FULL, OF_SECOND, OF_THIRD] {
        name_format(&mut made[file], b'1');
    }
    let whole = volume(rt.alloc())?;
    let troubles = [Trouble::Nothing; 5];
    assert_whole(&rt, &slices(&made), 64, &troubles, whole.as_slice());
    Ok(())
}

#[test]
fn each_read_is_interrupted_and_goes_on(rt: HostRuntime) -> Result<(), Fail> {
    let made = files(rt.alloc())?;
    let whole = volume(rt.alloc())?;
    let inputs = slices(&made);
    for each in [2, 5] {
        for step in &STEPS {
            let troubles = [Trouble::GoesOnAtEach(each); 5];
            assert_whole(&rt, &inputs, *step, &troubles, whole.as_slice());
        }
    }
    Ok(())
}

/// Whether a restore fails where this befalls the reader of one file, and writes nothing. Else the
/// whole volume has to be written.
fn is_unread(
    rt: &(impl Abort + AllocGlobal + Threads + Sync),
    inputs: &Inputs,
    step: usize,
    (file, trouble): (usize, Trouble),
    whole: &[u8],
) -> bool {
    let mut written = Vec::new(rt.alloc());
    let fault = restored(rt, inputs, step, &only(file, trouble), &mut written);
    if fault.is_none() {
        assert_eq!(rt; written.as_slice(), whole);
        return false;
    }
    assert_eq!(rt; fault, Some(RestoreFault::ReadFault));
    assert_eq!(rt; written.len(), 0);
    true
}

/// Lets each read of this file fail in turn, until none is left, and answers how many failed.
fn failed_reads(
    rt: &(impl Abort + AllocGlobal + Threads + Sync),
    inputs: &Inputs,
    step: usize,
    file: usize,
    whole: &[u8],
) -> usize {
    let mut failed: usize = 0;
    for k in 1..100 {
        if !is_unread(rt, inputs, step, (file, Trouble::FailsAt(k)), whole) {
            return failed;
        }
        failed = failed.saturating_add(1);
    }
    failed
}

#[test]
fn each_read_fails_in_turn(rt: HostRuntime) -> Result<(), Fail> {
    let made = files(rt.alloc())?;
    let whole = volume(rt.alloc())?;
    let inputs = slices(&made);
    for (file, bytes) in inputs.iter().enumerate() {
        // A read for each 64 bytes, and one that finds the end.
        let failed = failed_reads(&rt, &inputs, 64, file, whole.as_slice());
        assert_eq!(rt; failed, (bytes.len() / 64).saturating_add(1), "file {file}");
    }
    Ok(())
}

/// Asserts that at least one read that gives bytes of each file fails in turn, and the one that
/// finds its end.
fn assert_each_fails(
    rt: &(impl Abort + AllocGlobal + Threads + Sync),
    step: usize,
) -> Result<(), Fail> {
    let made = files(rt.alloc())?;
    let whole = volume(rt.alloc())?;
    let inputs = slices(&made);
    for file in 0..5 {
        let failed = failed_reads(rt, &inputs, step, file, whole.as_slice());
        assert!(rt; failed >= 2 && failed < 99, "file {file}");
    }
    Ok(())
}

#[test]
fn each_whole_read_fails_in_turn(rt: HostRuntime) -> Result<(), Fail> {
    assert_each_fails(&rt, usize::MAX)
}

#[test]
fn each_read_within_a_record_or_a_page_fails_in_turn(rt: HostRuntime) -> Result<(), Fail> {
    assert_each_fails(&rt, 37)
}

/// Lets a file be interrupted without end from each of its reads on, until it is read whole before.
fn assert_interrupted(
    rt: &(impl Abort + AllocGlobal + Threads + Sync),
    file: usize,
) -> Result<(), Fail> {
    let made = files(rt.alloc())?;
    let whole = volume(rt.alloc())?;
    let inputs = slices(&made);
    let mut unread: usize = 0;
    for k in 1..10 {
        let trouble = (file, Trouble::InterruptedFrom(k));
        if !is_unread(rt, &inputs, usize::MAX, trouble, whole.as_slice()) {
            break;
        }
        unread = unread.saturating_add(1);
    }
    assert!(rt; unread >= 2 && unread < 9, "file {file}");
    Ok(())
}

#[test]
fn a_log_is_interrupted_without_end(rt: HostRuntime) -> Result<(), Fail> {
    assert_interrupted(&rt, OF_LOG)
}

#[test]
fn a_master_record_is_interrupted_without_end(rt: HostRuntime) -> Result<(), Fail> {
    assert_interrupted(&rt, OF_MASTER)
}

#[test]
fn a_full_archive_is_interrupted_without_end(rt: HostRuntime) -> Result<(), Fail> {
    assert_interrupted(&rt, OF_FULL)
}

#[test]
fn a_second_archive_is_interrupted_without_end(rt: HostRuntime) -> Result<(), Fail> {
    assert_interrupted(&rt, OF_SECOND)
}

#[test]
fn a_third_archive_is_interrupted_without_end(rt: HostRuntime) -> Result<(), Fail> {
    assert_interrupted(&rt, OF_THIRD)
}

/// Asserts what a writer with so much room has of the volume, and what is answered.
fn assert_narrow(
    rt: &(impl Abort + AllocGlobal + Threads + Sync),
    inputs: &Inputs,
    (step, room, fails): (usize, usize, bool),
    whole: &[u8],
) {
    let mut writer = Narrow {
        held: Vec::new(rt.alloc()),
        step,
        room,
        fails,
    };
    let fault = restored(rt, inputs, usize::MAX, &[Trouble::Nothing; 5], &mut writer);
    let wanted = if room < whole.len() {
        Some(RestoreFault::WriteFault(room as u64))
    } else {
        None
    };
    assert_eq!(rt; fault, wanted, "room for {room}");
    let taken = whole.get(..room).unwrap_or(whole);
    assert_eq!(rt; writer.held.as_slice(), taken, "room for {room}");
}

/// How many bytes of the volume's 2,048 a writer has room for.
const ROOMS: [usize; 12] = [
    0, 1, 299, 300, 301, 511, 512, 513, 1_536, 2_047, 2_048, 2_049,
];

#[test]
fn a_writer_has_no_more_room(rt: HostRuntime) -> Result<(), Fail> {
    let made = files(rt.alloc())?;
    let whole = volume(rt.alloc())?;
    let inputs = slices(&made);
    for room in &ROOMS {
        assert_narrow(&rt, &inputs, (300, *room, true), whole.as_slice());
        assert_narrow(&rt, &inputs, (usize::MAX, *room, false), whole.as_slice());
    }
    Ok(())
}
