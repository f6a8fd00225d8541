//! Restores from files that write the log after undo, too.

use crate::bytes::name_format;
use crate::four_pages::{Inputs, OF_LOG, files, log_after_undo, slices, volume};
use crate::narrow::Narrow;
use crate::readers::{Failing, Trouble};
use media_restore::{RestoreFault, WithLogFault, restore_with_log};
use std::io::Write;
use std::process::Abort;
use std::test::Fail;
use std::thread::Threads;

fn restored_with_log<W: Write, K: Write>(
    rt: &(impl AllocGlobal + Threads + Sync),
    inputs: &Inputs,
    writer: &mut W,
    log_writer: &mut K,
) -> Option<WithLogFault> {
    let [log, master, full, second, third] = *inputs;
    let mut archives = [
        Failing::new(full, usize::MAX, Trouble::Nothing),
        Failing::new(second, usize::MAX, Trouble::Nothing),
        Failing::new(third, usize::MAX, Trouble::Nothing),
    ];
    restore_with_log(
        rt,
        rt.alloc(),
        &mut Failing::new(log, 64, Trouble::Nothing),
        &mut Failing::new(master, usize::MAX, Trouble::Nothing),
        &mut archives,
        writer,
        log_writer,
    )
    .err()
}

/// Asserts that the volume is written, and the log after undo.
fn assert_both(
    rt: &(impl Abort + AllocGlobal + Threads + Sync),
    inputs: &Inputs,
) -> Result<(), Fail> {
    let (mut written, mut log) = (Vec::new(rt.alloc()), Vec::new(rt.alloc()));
    let fault = restored_with_log(rt, inputs, &mut written, &mut log);
    assert_eq!(rt; fault, None);
    assert_eq!(rt; written.as_slice(), volume(rt.alloc())?.as_slice());
    assert_eq!(rt; log.as_slice(), log_after_undo(rt.alloc())?.as_slice());
    Ok(())
}

#[test]
fn a_log_goes_on_with_what_undo_appends(rt: HostRuntime) -> Result<(), Fail> {
    let made = files(rt.alloc())?;
    assert_both(&rt, &slices(&made))
}

/// Nothing is open at the end of the log that was written, so nothing is appended to it.
#[test]
fn a_written_log_is_restored_as_it_is(rt: HostRuntime) -> Result<(), Fail> {
    let mut made = files(rt.alloc())?;
    made[OF_LOG] = log_after_undo(rt.alloc())?;
    assert_both(&rt, &slices(&made))
}

#[test]
fn a_log_of_the_first_format_is_written_in_the_second(rt: HostRuntime) -> Result<(), Fail> {
    let mut made = files(rt.alloc())?;
    name_format(&mut made[OF_LOG], b'1');
    assert_both(&rt, &slices(&made))
}

fn narrow(rt: &impl AllocGlobal, step: usize, room: usize, fails: bool) -> Narrow {
    Narrow {
        held: Vec::new(rt.alloc()),
        step,
        room,
        fails,
    }
}

/// Asserts what two writers with so much room have, and what is answered: the log goes out first.
fn assert_narrow(
    rt: &(impl Abort + AllocGlobal + Threads + Sync),
    inputs: &Inputs,
    (room, log_room): (usize, usize),
    fails: bool,
) -> Result<(), Fail> {
    let (whole, log) = (volume(rt.alloc())?, log_after_undo(rt.alloc())?);
    let mut writer = narrow(rt, 300, room, fails);
    let mut log_writer = narrow(rt, 300, log_room, fails);
    let fault = restored_with_log(rt, inputs, &mut writer, &mut log_writer);
    let (wanted, volume_sent) = if log_room < log.len() {
        (Some(WithLogFault::OfLog(log_room as u64)), 0)
    } else if room < whole.len() {
        let written = RestoreFault::WriteFault(room as u64);
        (Some(WithLogFault::OfVolume(written)), room)
    } else {
        (None, whole.len())
    };
    assert_eq!(rt; fault, wanted, "room for {room} and {log_room}");
    let sent = whole.get(..volume_sent).unwrap_or(&[]);
    assert_eq!(rt;
        writer.held.as_slice(),
        sent,
        "room for {room} and {log_room}"
    );
    let log_sent = log.get(..log_room).unwrap_or(log.as_slice());
    assert_eq!(rt;
        log_writer.held.as_slice(),
        log_sent,
        "room for {room} and {log_room}"
    );
    Ok(())
}

/// How many bytes of the log's 1,728 and of the volume's 2,048 a writer has room for.
const ROOMS: [usize; 11] = [0, 1, 63, 64, 65, 1_536, 1_727, 1_728, 2_047, 2_048, 2_049];

#[test]
fn writers_have_no_more_room(rt: HostRuntime) -> Result<(), Fail> {
    let made = files(rt.alloc())?;
    let inputs = slices(&made);
    for room in &ROOMS {
        for log_room in &ROOMS {
            assert_narrow(&rt, &inputs, (*room, *log_room), true)?;
            assert_narrow(&rt, &inputs, (*room, *log_room), false)?;
        }
    }
    Ok(())
}

/// The log ends within its last record: nothing is written of either.
#[test]
fn a_refusal_writes_nothing(rt: HostRuntime) -> Result<(), Fail> {
    let mut made = files(rt.alloc())?;
    made[OF_LOG].truncate(1_500);
    let (mut written, mut log) = (Vec::new(rt.alloc()), Vec::new(rt.alloc()));
    let fault = restored_with_log(&rt, &slices(&made), &mut written, &mut log);
    let torn = RestoreFault::Torn(page_core::Lsn(1_472));
    assert_eq!(rt; fault, Some(WithLogFault::OfVolume(torn)));
    assert_eq!(rt; (written.len(), log.len()), (0, 0));
    Ok(())
}
