//! What no clause says: that each call succeeds, and what `read_log` reads from a device.

ghost use Rattle.std.specs.Prelude.{◌≡◌, [], List, None};
ghost use Rattle.log_records.specs.declared.record.Record.{Record};
ghost use Rattle.log_records.specs.Coverage.{IsPast};
ghost use Rattle.log_records.specs.Log.{StandsAt};
ghost use Rattle.log_records.specs.PageCount.{given_count};

use crate::asserts::{same, same_at};
use log_records::{Record, encode_header};
use log_store::{DeviceFault, FaultyDevice, Log, LogDevice, MemDevice, read_log};
use page_core::{Change, Lsn, Page, PageNo, SlotNo, TxnNo};
use std::alloc::{AllocError, Global};
use std::process::Abort;
use std::test::Fail;

/// Transaction 1 begins.
fn begin() -> Record
    ensures stands { StandsAt 1 64 result }
    ensures none { given_count result ≡ None }
{
    Record::Begin {
        lsn: Lsn(64),
        txn: TxnNo(1),
    }
}

/// It sets slot 3 of page 0.
fn update() -> Record
    ensures stands { StandsAt 1 128 result }
    ensures none { given_count result ≡ None }
{
    Record::Update {
        lsn: Lsn(128),
        txn: TxnNo(1),
        prev: Lsn(64),
        page: PageNo(0),
        slot: SlotNo(3),
        change: Change::Set {
            before: 0,
            after: 7,
        },
    }
}

/// It commits.
fn commit() -> Record
    ensures stands { StandsAt 1 192 result }
    ensures none { given_count result ≡ None }
{
    Record::Commit {
        lsn: Lsn(192),
        txn: TxnNo(1),
        prev: Lsn(128),
    }
}

fn records() -> [Record; 3] {
    [begin(), update(), commit()]
}

/// Puts these records into a log of one page that has none.
#[tactic(auto, using(crate::proofs::NextLogs::of_plain_records))]
fn append_records<D: LogDevice>(log: &mut Log<D>) -> Result<(), AllocError>
    requires { log.old.log ≡ record { pages = 1; records = [] } }
{
    log.make_room()?;
    log.append(begin());
    log.make_room()?;
    log.append(update());
    log.make_room()?;
    log.append(commit());
    Ok(())
}

/// A log of one page on a device, with these records in memory.
fn log_on<D: LogDevice + Drop>(alloc: Global, device: D) -> Result<Log<D>, Fail> {
    let mut log = Log::new(alloc, 1, device).map_err(|refused| refused.0)?;
    append_records(&mut log)?;
    Ok(log)
}

/// Whether a device spells the first of the records up to an LSN.
fn has_records(alloc: Global, bytes: &[u8], end: Lsn, count: usize) -> bool {
    let end = end.0 as usize;
    if end > bytes.len() || count > 3 {
        return false;
    }
    let mut forced = &bytes[..end];
    match read_log(alloc, &mut forced) {
        Ok(read) => read.pages() == 1 && read.records() == &records()[..count],
        Err(_) => false,
    }
}

#[test]
fn forced_records_are_read(rt: HostRuntime) -> Result<(), Fail> {
    let alloc = rt.alloc();
    let mut log = log_on(alloc, MemDevice::new(alloc, 3)?)?;
    let done = log.force_to(Lsn(128));
    same(&rt, &(done, log.forced_end()), &(Ok(()), Lsn(192)));
    let bytes = log.device().bytes();
    same(&rt, &bytes.len(), &192);
    same(&rt, &has_records(alloc, bytes, Lsn(192), 2), &true);
    let done = log.force();
    same(&rt, &(done, log.forced_end()), &(Ok(()), Lsn(256)));
    let (kept, device) = log.into_parts();
    same(&rt, &kept.records(), &records().as_slice());
    same(&rt, &has_records(alloc, device.bytes(), Lsn(256), 3), &true);
    drop((kept, device));
    Ok(())
}

/// The only page, as it is before all records.
fn first_image() -> Page
    ensures past { (rs : List Record) → IsPast rs 0 result }
    ensures number { result.number ≡ 0 }
{
    Page::formatted(PageNo(0))
}

/// Asserts that the page is rolled forward to the set of slot 3.
fn assert_rolled<D: LogDevice>(rt: &impl Abort, log: &mut Log<D>) -> Result<(), AllocError> {
    let mut page = first_image();
    log.roll_forward(&mut page)?;
    same(rt, &(page.lsn, page.slots[3]), &(Lsn(128), 7));
    Ok(())
}

/// The second call finds the page as the first one made it.
#[test]
fn a_page_is_rolled_forward(rt: HostRuntime) -> Result<(), Fail> {
    let alloc = rt.alloc();
    let mut log = log_on(alloc, MemDevice::new(alloc, 3)?)?;
    assert_rolled(&rt, &mut log)?;
    assert_rolled(&rt, &mut log)?;
    Ok(())
}

/// Asserts that a log is forced, and that its device has all of it then.
fn assert_forced(rt: &impl Abort, alloc: Global, log: &mut Log<FaultyDevice>) {
    same(rt, &log.force(), &Ok(()));
    same(
        rt,
        &has_records(alloc, log.device().bytes(), Lsn(256), 3),
        &true,
    );
}

/// The header is stored by the first call, and each record by one of the next three.
#[test]
fn a_call_fails(rt: HostRuntime) -> Result<(), Fail> {
    let alloc = rt.alloc();
    for k in 2..5 {
        let device = FaultyDevice::new(MemDevice::new(alloc, 3)?, k);
        let mut log = log_on(alloc, device)?;
        let end = Lsn(64 * (k - 1));
        let done = log.force();
        same_at(
            &rt,
            &(done, log.forced_end()),
            &(Err(DeviceFault), end),
            &format_args!("call {k} fails"),
        );
        let has_all = has_records(alloc, log.device().bytes(), end, k as usize - 2);
        same(&rt, &has_all, &true);
        assert_forced(&rt, alloc, &mut log);
        drop(log);
    }
    Ok(())
}

/// A record that is stored by a call that fails is not counted as forced, and is stored again.
#[test]
fn a_call_fails_late(rt: HostRuntime) -> Result<(), Fail> {
    let alloc = rt.alloc();
    for k in 2..5 {
        let device = FaultyDevice::late(MemDevice::new(alloc, 3)?, k);
        let mut log = log_on(alloc, device)?;
        let end = Lsn(64 * (k - 1));
        let done = log.force();
        same_at(
            &rt,
            &(done, log.forced_end(), log.device().bytes().len()),
            &(Err(DeviceFault), end, 64 * k as usize),
            &format_args!("call {k} fails"),
        );
        assert_forced(&rt, alloc, &mut log);
        drop(log);
    }
    Ok(())
}

/// Where there is no room, a device that fails late stores nothing either.
#[test]
fn a_call_without_room_stores_nothing(rt: HostRuntime) -> Result<(), Fail> {
    let mut device = FaultyDevice::late(MemDevice::new(rt.alloc(), 0)?, 1);
    same(&rt, &device.store(0, &[7; 65]), &Err(DeviceFault));
    same(&rt, &device.bytes().len(), &0);
    same(&rt, &device.store(0, &[7; 64]), &Ok(()));
    same(&rt, &device.bytes(), &[7; 64].as_slice());
    Ok(())
}

#[test]
fn the_header_is_stored_again(rt: HostRuntime) -> Result<(), Fail> {
    let alloc = rt.alloc();
    let device = FaultyDevice::new(MemDevice::new(alloc, 3)?, 1);
    let (fault, device) = Log::new(alloc, 1, device).err().ok_or("call 1 fails")?;
    same(&rt, &(fault, device.bytes().len()), &(DeviceFault, 0));
    let mut log = log_on(alloc, device)?;
    same(
        &rt,
        &has_records(alloc, log.device().bytes(), Lsn(64), 0),
        &true,
    );
    assert_forced(&rt, alloc, &mut log);
    drop(log);
    Ok(())
}

/// Whether a log has the three records, and nothing between them.
fn finds_records(log: &Log<MemDevice>) -> bool {
    let [first, second, third] = records();
    log.get(Lsn(64)) == Some(first)
        && log.get(Lsn(128)) == Some(second)
        && log.get(Lsn(192)) == Some(third)
        && [0, 1, 65, 256, u64::MAX]
            .iter()
            .all(|lsn| log.get(Lsn(*lsn)).is_none())
}

#[test]
fn records_are_found(rt: HostRuntime) -> Result<(), Fail> {
    let alloc = rt.alloc();
    let log = log_on(alloc, MemDevice::new(alloc, 0)?)?;
    same(&rt, &finds_records(&log), &true);
    same(
        &rt,
        &(log.forced_end(), log.end(), log.pages()),
        &(Lsn(64), Lsn(256), 1),
    );
    same(&rt, &log.records(), &records().as_slice());
    drop(log);
    Ok(())
}

#[test]
fn a_device_is_full(rt: HostRuntime) -> Result<(), Fail> {
    let alloc = rt.alloc();
    let mut device = MemDevice::new(alloc, 0)?;
    device.store(0, &encode_header(1))?;
    same(&rt, &device.store(64, &[0]), &Err(DeviceFault));
    same(&rt, &device.bytes(), &encode_header(1).as_slice());
    device.store(0, &[5, 6, 7])?;
    device.store(1, &[8])?;
    same(&rt, &device.bytes(), &[5, 8].as_slice());
    Ok(())
}

#[test]
fn a_fault_has_a_text(rt: HostRuntime) -> Result<(), Fail> {
    let fault = DeviceFault;
    let printed = format!(in rt.alloc(); "{fault}")?;
    same(&rt, &printed.as_str(), &"the log's device failed");
    Ok(())
}
