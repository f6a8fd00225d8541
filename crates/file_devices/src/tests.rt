//! Tests on real files, of which no clause can speak.

ghost use Rattle.std.specs.Prelude.{◌≡◌, ◌≤◌, ◌<◌, [], length};
ghost use Rattle.file_devices.specs.FileLog.{bytes_of};

use crate::{FileLog, FileStore};
use log_store::{DeviceFault, LogDevice};
use page_core::{Change, Lsn, Page, PageNo, SlotNo};
use page_store::{MemStore, PageStore, StoreFault};
use sqlite_disk::{Crash, Disk, Fuse, Memory, Wary};
use std::fs::File;
use std::io::ErrorKind;
use std::os::unix::fs::FileExt;
use std::path::PathBuf;
use std::test::Fail;
use std::{env, fs, process};

/// Where a test has a file of its own.
fn own_place(rt: &HostRuntime, name: &str) -> Result<PathBuf, Fail> {
    let name = format!(in rt.alloc(); "file_devices-{}-{name}", process::id(rt.process()))?;
    Ok(env::temp_dir(rt)?.join(rt.alloc(), name.as_str())?)
}

/// A file with these bytes, open for reading and writing.
fn file_of(rt: &HostRuntime, place: &PathBuf, bytes: &[u8]) -> Result<File, Fail> {
    fs::write(rt, place.as_path(), bytes)?;
    let file = File::options()
        .read(true)
        .write(true)
        .open(rt, place.as_path())?;
    Ok(file)
}

/// Stores three times, and then a shorter text in the place of the last two.
fn store_again<D: LogDevice>(log: &mut D) -> Result<(), DeviceFault>
    requires { D.bytes log.old ≡ [] }
{
    log.store(0, b"first ")?;
    log.store(6, b"second ")?;
    log.store(13, b"third")?;
    log.sync()?;
    log.store(6, b"last")?;
    log.sync()
}

#[test]
fn a_log_is_cut_before_it_is_stored(rt: HostRuntime) -> Result<(), Fail> {
    let place = own_place(&rt, "log")?;
    let mut log = FileLog::new(rt.alloc(), file_of(&rt, &place, &[255; 100])?, Wary)?;
    assert_eq!(rt; fs::read(&rt, place.as_path())?.len(), 0);
    store_again(&mut log)?;
    let stored = fs::read(&rt, place.as_path())?;
    assert!(rt; stored.as_slice() == b"first last".as_slice());
    fs::remove_file(&rt, place.as_path())?;
    Ok(())
}

#[test]
fn a_log_goes_on_in_its_file(rt: HostRuntime) -> Result<(), Fail> {
    let place = own_place(&rt, "resumed")?;
    let file = file_of(&rt, &place, b"first last, and what a crash has torn")?;
    let mut front = [0; 10];
    let mut log = FileLog::resume(rt.alloc(), file, Wary, &mut front)?;
    assert!(rt; front == *b"first last");
    log.store(10, b" of all")?;
    log.sync()?;
    let stored = fs::read(&rt, place.as_path())?;
    assert!(rt; stored.as_slice() == b"first last of all".as_slice());
    fs::remove_file(&rt, place.as_path())?;
    Ok(())
}

#[test]
fn a_file_that_is_shorter_than_its_log_is_refused(rt: HostRuntime) -> Result<(), Fail> {
    let place = own_place(&rt, "short")?;
    let mut front = [0; 10];
    let refused = FileLog::resume(
        rt.alloc(),
        file_of(&rt, &place, b"first")?,
        Wary,
        &mut front,
    );
    assert!(rt; refused.is_err());
    fs::remove_file(&rt, place.as_path())?;
    Ok(())
}

#[test]
fn no_sync_of_a_file_without_a_name_is_done(rt: HostRuntime) -> Result<(), Fail> {
    let place = own_place(&rt, "nameless")?;
    let mut log = FileLog::new(rt.alloc(), file_of(&rt, &place, b"")?, Wary)?;
    log.store(0, b"first")?;
    log.sync()?;
    fs::remove_file(&rt, place.as_path())?;
    log.store(5, b" second")?;
    assert!(rt; log.sync() == Err(DeviceFault));
    Ok(())
}

#[test]
fn a_file_that_cannot_be_written_is_refused(rt: HostRuntime) -> Result<(), Fail> {
    let place = own_place(&rt, "locked")?;
    let _ = file_of(&rt, &place, b"bytes")?;
    let refused = FileLog::new(rt.alloc(), fs::open(&rt, place.as_path())?, Wary);
    let why = refused.err().ok_or("the file was emptied")?;
    assert_eq!(rt; why.error.kind(), ErrorKind::InvalidInput);
    assert!(rt; format!(in rt.alloc(); "{why}")? == format!(in rt.alloc(); "{}", why.error)?);
    let pages = MemStore::new(rt.alloc(), 1)?;
    assert!(rt; FileStore::new(fs::open(&rt, place.as_path())?, pages).is_err());
    assert!(rt; fs::read(&rt, place.as_path())?.as_slice() == b"bytes".as_slice());
    fs::remove_file(&rt, place.as_path())?;
    Ok(())
}

/// What a log has for certain on a disk that may fail at any call: what its last sync brought there.
fn forced_on<D: Disk + Drop>(log: &mut FileLog<D>) -> &'static [u8]
    requires { bytes_of log.old ≡ [] }
{
    if log.store(0, b"first").is_err() || log.sync().is_err() {
        return b"";
    }
    if log.store(5, b" second").is_err() || log.store(12, b" third").is_err() {
        return b"first";
    }
    if log.sync().is_err() {
        return b"first";
    }
    b"first second third"
}

#[test]
fn what_was_synced_outlasts_a_crash_at_each_call(rt: HostRuntime) -> Result<(), Fail> {
    let mut longest = 0;
    for calls in 1..7 {
        let disk = Fuse::new(Memory::new(rt.alloc()), calls);
        let mut log = FileLog::emptied(rt.alloc(), disk)?;
        let forced = forced_on(&mut log);
        let mut disk = log.into_disk();
        disk.crash();
        assert!(rt; disk.inner().bytes().starts_with(forced));
        longest = forced.len();
    }
    assert_eq!(rt; longest, 18);
    Ok(())
}

#[test]
fn a_store_waits_for_the_sync(rt: HostRuntime) -> Result<(), Fail> {
    let place = own_place(&rt, "waits")?;
    let mut log = FileLog::new(rt.alloc(), file_of(&rt, &place, b"old")?, Wary)?;
    log.store(0, b"first")?;
    log.store(5, b" second")?;
    assert_eq!(rt; fs::read(&rt, place.as_path())?.len(), 0);
    log.sync()?;
    let stored = fs::read(&rt, place.as_path())?;
    assert!(rt; stored.as_slice() == b"first second".as_slice());
    fs::remove_file(&rt, place.as_path())?;
    Ok(())
}

#[test]
fn nothing_follows_a_sync_that_failed(rt: HostRuntime) -> Result<(), Fail> {
    let disk = Fuse::new(Memory::new(rt.alloc()), 2);
    let mut log = FileLog::emptied(rt.alloc(), disk)?;
    log.store(0, b"first")?;
    assert!(rt; log.sync() == Err(DeviceFault));
    assert!(rt; log.store(0, b"again") == Err(DeviceFault));
    assert!(rt; log.sync() == Err(DeviceFault));
    Ok(())
}

/// Page 1 with a number in slot 3.
#[tactic(auto, unfolding(page_core::specs::Page::formatted))]
fn changed_page() -> Page
    ensures { result.number ≡ 1 }
{
    let mut page = Page::formatted(PageNo(1));
    let change = Change::Set {
        before: 0,
        after: 7,
    };
    page.apply(Lsn(64), SlotNo(3), &change);
    page
}

#[test]
fn a_flipped_byte_is_a_fault_until_a_write(rt: HostRuntime) -> Result<(), Fail> {
    let place = own_place(&rt, "pages")?;
    let file = file_of(&rt, &place, &[255; 100])?;
    let mut store = FileStore::new(file, MemStore::new(rt.alloc(), 3)?)?;
    assert!(rt; store.pages() > 1);
    let page = changed_page();
    store.write(PageNo(1), &page)?;
    store.sync()?;
    assert!(rt; store.read(PageNo(1)) == Ok(page.copy()));

    let damage = fs::read(&rt, place.as_path())?;
    assert_eq!(rt; damage.len(), 1536);
    let file = File::options().write(true).open(&rt, place.as_path())?;
    file.write_all_at(&[damage[700] ^ 1], 700)?;
    assert!(rt; store.read(PageNo(1)) == Err(StoreFault));
    store.write(PageNo(1), &page)?;
    assert!(rt; store.read(PageNo(1)) == Ok(page.copy()));
    assert!(rt; fs::read(&rt, place.as_path())?.as_slice() == damage.as_slice());
    fs::remove_file(&rt, place.as_path())?;
    Ok(())
}

#[test]
fn a_volume_grows_and_a_lost_page_is_a_fault(rt: HostRuntime) -> Result<(), Fail> {
    let place = own_place(&rt, "growth")?;
    let file = file_of(&rt, &place, &[])?;
    let mut store = FileStore::new(file, MemStore::new(rt.alloc(), 1)?)?;
    store.grow(3)?;
    assert!(rt; store.pages() == 3);
    assert!(rt; store.read(PageNo(2)) == Ok(Page::formatted(PageNo(2))));
    let file = File::options().write(true).open(&rt, place.as_path())?;
    file.set_len(1535)?;
    assert!(rt; store.read(PageNo(2)) == Err(StoreFault));
    assert!(rt; store.read(PageNo(1)) == Ok(Page::formatted(PageNo(1))));
    fs::remove_file(&rt, place.as_path())?;
    Ok(())
}
