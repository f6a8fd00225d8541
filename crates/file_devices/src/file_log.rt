//! A log's device on a disk.

ghost use Rattle.std.specs.Prelude.{◌≡◌, ◌+◌, ◌<◌, ◌≤◌, ◌^◌, ◌&&◌, [], ◌∷◌, ◌++◌, length, min, nat_le, take};
ghost use Rattle.std.specs.Prelude.{true, false};
ghost use Rattle.std.specs.Prelude.{IfOk, IfErr, IsTrue, OnErr, OnOk};
ghost use Rattle.file_devices.specs.Calls.{done, failed};
ghost use Rattle.file_devices.specs.FileLog.{IsTrusted, KeepFails, LogOnDisk, ResumeFails, Stores, Syncs};
ghost use Rattle.file_devices.specs.FileLog.{bytes_of, cuts_of, known_of, synced_of};
ghost use Rattle.file_devices.specs.TrackedDisk.{Begins, BeginsEach};
ghost use Rattle.log_store.specs.Device.{KeepsFirst};
ghost use Rattle.file_devices.specs.declared.calls.Request.TheVariants.{Read, SetLen, Sync, Write};

use crate::failed_file::FailedFile;
use crate::file_disk::{FileDisk, disk_of};
use crate::tracked_disk::TrackedDisk;
use log_store::{DeviceFault, LogDevice};
use page_core::Failures;
use sqlite_disk::{Disk, Start, Wary};
use std::alloc::Global;
use std::fs::File;
use std::io;
use std::marker::Model;

/// A log's device on a disk, which is a file of the system if no other one is named. What is stored
/// waits in memory, and a sync brings it to the disk by one write.
#[derive(Drop)]
pub struct FileLog<D: Disk = FileDisk<Wary>> {
    disk: TrackedDisk<D>,
    /// So many of its first bytes were synced.
    end: usize,
    /// What was stored behind them since.
    waiting: Vec<u8>,
    has_stored: bool,
    /// Nothing stands on the disk behind the synced bytes.
    is_clear: bool,
    /// The synced bytes were read from the disk, and not written to it.
    is_read: bool,
    failures: Failures,
}

impl<D: Disk> Model for FileLog<D> {
    ghost use Rattle.page_core.specs.Failures.{failure_count};
    ghost use Rattle.file_devices.specs.FileLog.{IsKept, LogOnDisk};

    ghost Value = { LogOnDisk D };

    ghost view = { λ it. record {
      calls = it.disk.calls;
      disk = it.disk.disk;
      is_usable = D.is_usable it.disk.disk;
      end = it.end;
      waiting = it.waiting.items;
      has_stored = it.has_stored;
      is_clear = it.is_clear;
      is_read = it.is_read;
      failures = failure_count it.failures;
    } };

    ghost invariant = { λ it. IsKept D.seen D.may_leave D.is_clean (record {
      calls = it.disk.calls;
      disk = it.disk.disk;
      is_usable = D.is_usable it.disk.disk;
      end = it.end;
      waiting = it.waiting.items;
      has_stored = it.has_stored;
      is_clear = it.is_clear;
      is_read = it.is_read;
      failures = failure_count it.failures;
    }) };
}

impl<S: Start> FileLog<FileDisk<S>> {
    /// A device on a file, which is emptied. The file is open for writing, and not for appending.
    /// `S` supposes what the file had.
    ///
    /// An `Err` comes where it cannot be emptied.
    pub fn new(alloc: Global, file: File, start: S) -> Result<FileLog<FileDisk<S>>, FailedFile>
        ensures emptied { IfOk result (λ log. log.calls ≡ done (SetLen 0) ∷ []) }
        ensures bytes { IfOk result (λ log. bytes_of log ≡ []) }
        ensures not_emptied { IfErr result (λ why. why ≡ failed (SetLen 0) ∷ []) }
    {
        FileLog::emptied(alloc, disk_of(file, start))
    }

    /// A device on a file that has a log already. It fills the buffer with the first bytes of the
    /// file, of which nothing more is known, and waits until they last. The first sync of what was
    /// stored behind a part of them cuts off the others. The file is open for reading and writing,
    /// and not for appending.
    ///
    /// An `Err` comes where the file has fewer bytes than the buffer, or cannot be read or synced.
    pub fn resume(
        alloc: Global,
        file: File,
        start: S,
        buffer: &mut [u8],
    ) -> Result<FileLog<FileDisk<S>>, FailedFile>
        ensures calls { IfOk result (λ log.
            log.calls ≡ done (Read 0 buffer.new) ∷ done Sync ∷ []) }
        ensures bytes { IfOk result (λ log. bytes_of log ≡ buffer.new) }
        ensures lasts { IfOk result (λ log. log.end ≡ length buffer.new) }
        ensures failed { IfErr result (ResumeFails buffer.new) }
        ensures length { length buffer.new ≡ length buffer.old }
    {
        FileLog::found(alloc, disk_of(file, start), buffer)
    }
}

impl<D: Disk + Drop> FileLog<D> {
    /// A device on a disk, which is emptied.
    ///
    /// An `Err` comes where it cannot be emptied.
    pub fn emptied(alloc: Global, disk: D) -> Result<FileLog<D>, FailedFile>
        requires { IsTrue (D.is_usable disk) }
        ensures emptied { IfOk result (λ log. log.calls ≡ done (SetLen 0) ∷ []) }
        ensures bytes { IfOk result (λ log. bytes_of log ≡ []) }
        ensures not_emptied { IfErr result (λ why. why ≡ failed (SetLen 0) ∷ []) }
    {
        let mut disk = TrackedDisk::new(disk);
        if let Err(error) = disk.set_len(0) {
            return Err(FailedFile::new(error, disk.into_calls()));
        }
        Ok(FileLog {
            disk,
            end: 0,
            waiting: Vec::new(alloc),
            has_stored: false,
            is_clear: true,
            is_read: false,
            failures: Failures::None,
        })
    }

    /// A device on a disk that has a log already. It fills the buffer with the first bytes of the
    /// disk, of which nothing more is known, and waits until they last.
    ///
    /// An `Err` comes where the disk has fewer bytes than the buffer, or cannot be read or synced.
    pub fn found(alloc: Global, disk: D, buffer: &mut [u8]) -> Result<FileLog<D>, FailedFile>
        requires { IsTrue (D.is_usable disk) }
        ensures calls { IfOk result (λ log.
            log.calls ≡ done (Read 0 buffer.new) ∷ done Sync ∷ []) }
        ensures bytes { IfOk result (λ log. bytes_of log ≡ buffer.new) }
        ensures lasts { IfOk result (λ log. log.end ≡ length buffer.new) }
        ensures failed { IfErr result (ResumeFails buffer.new) }
        ensures length { length buffer.new ≡ length buffer.old }
    {
        let mut disk = TrackedDisk::new(disk);
        if let Err(error) = disk.read_first(buffer) {
            return Err(FailedFile::new(error, disk.into_calls()));
        }
        if let Err(error) = disk.sync() {
            return Err(FailedFile::new(error, disk.into_calls()));
        }
        Ok(FileLog {
            disk,
            end: buffer.len(),
            waiting: Vec::new(alloc),
            has_stored: false,
            is_clear: false,
            is_read: true,
            failures: Failures::None,
        })
    }

    /// Stores these bytes again as the first ones of the disk, cuts off what stands behind them, and
    /// waits until that lasts. So bytes that were read from the system's memory, since a sync of an
    /// older life failed, are stored now, and what is cut off never comes back.
    ///
    /// An `Err` comes where a call of the disk fails, and no call follows that one; and where a sync
    /// failed before. It takes no memory.
    pub fn keep(&mut self, front: &[u8]) -> Result<(), DeviceFault>
        ensures bytes { OnOk result (bytes_of self.new ≡ front.now) }
        ensures lasts { OnOk result (self.new.end ≡ length front.now) }
        ensures calls { OnOk result (self.new.calls ≡ self.old.calls
            ++ done (Write 0 front.now) ∷ done (SetLen (length front.now)) ∷ done Sync ∷ []) }
        ensures written { OnOk result (self.new.is_read ≡ false) }
        ensures failed { OnErr result (KeepFails self.old front.now self.new) }
    {
        if !self.disk.is_usable() {
            return Err(self.fail());
        }
        self.give_up(0);
        self.is_read = false;
        if self.disk.write_at(0, front).is_err() || self.disk.set_len(front.len()).is_err() {
            return Err(self.fail());
        }
        if self.disk.sync().is_err() {
            return Err(self.fail());
        }
        self.end = front.len();
        self.is_clear = true;
        Ok(())
    }

    /// Why the last call of the disk failed, if it did and the system told why.
    pub fn error(&self) -> Option<io::Error> {
        self.disk.error()
    }

    /// The disk.
    pub fn into_disk(self) -> D
        ensures { result ≡ self.disk }
    {
        let FileLog { disk, .. } = self;
        disk.into_disk()
    }

    /// A law: each content that a crash may leave at this moment begins with the bytes that last, and
    /// these are as many as the device counts.
    pub fn lasting_bytes_are_left(&self)
        ensures counted { length (synced_of self.now) ≡ self.now.end }
        ensures left { IsTrusted D.is_clean self.now
            → BeginsEach (synced_of self.now) (D.may_leave self.now.disk) }
    {
        let _end = self.end;
    }

    /// A call that fails.
    fn fail(&mut self) -> DeviceFault
        ensures { self.new ≡ record self.old { failures = self.old.failures + 1 } }
    {
        self.failures.add_one();
        DeviceFault
    }

    /// A call that fails, and forgets what waits.
    fn lose(&mut self) -> DeviceFault
        ensures left { self.new ≡ record self.old {
          waiting = [];
          has_stored = false;
          is_clear = false;
          failures = self.old.failures + 1;
        } }
        ensures all { length (bytes_of self.new) ≡ self.old.end }
    {
        self.give_up(self.end);
        self.fail()
    }

    /// Forgets what waits, and all but so many of the bytes that last.
    fn give_up(&mut self, end: usize)
        requires { end ≤ self.old.end }
        ensures left { self.new ≡ record self.old {
          end = end;
          waiting = [];
          has_stored = false;
          is_clear = false;
        } }
        ensures all { length (bytes_of self.new) ≡ end }
    {
        self.end = end;
        self.waiting.clear();
        self.has_stored = false;
        self.is_clear = false;
    }

    /// Forgets all bytes from an offset on.
    fn forget_from(&mut self, from: usize)
        requires { from ≤ length (bytes_of self.old) }
        ensures bytes { bytes_of self.new ≡ take from (bytes_of self.old) }
        ensures same { self.new ≡ record self.old {
          end = min from self.old.end;
          waiting = self.new.waiting;
          has_stored = self.new.has_stored;
          is_clear = self.old.is_clear && nat_le self.old.end from;
        } }
    {
        if from < self.end {
            self.give_up(from);
            return;
        }
        self.waiting.truncate(from - self.end);
    }
}

impl<D: Disk + Drop> FileLog<D> {
    /// Cuts off what stands behind the bytes that last, unless nothing does.
    fn cut(&mut self) -> Result<(), DeviceFault>
        requires { IsTrue self.old.is_usable }
        ensures ok { OnOk result (self.new ≡ record self.old {
          calls = self.old.calls ++ cuts_of self.old;
          disk = self.new.disk;
          is_clear = true;
        }) }
        ensures clear { OnErr result (self.old.is_clear ≡ false) }
        ensures err { OnErr result (self.new ≡ record self.old {
          calls = self.old.calls ++ failed (SetLen self.old.end) ∷ [];
          disk = self.new.disk;
          waiting = [];
          has_stored = false;
          is_clear = false;
          failures = self.old.failures + 1;
        }) }
        ensures all { OnErr result (length (bytes_of self.new) ≡ self.old.end) }
        ensures trusted { D.is_clean self.new.disk ≡ D.is_clean self.old.disk }
        ensures same { synced_of self.new ≡ synced_of self.old }
    {
        if self.is_clear {
            return Ok(());
        }
        if self.disk.set_len(self.end).is_err() {
            return Err(self.lose());
        }
        self.is_clear = true;
        Ok(())
    }

    /// Writes what waits behind the bytes that last.
    fn write(&mut self) -> Result<(), DeviceFault>
        requires usable { IsTrue self.old.is_usable }
        requires clear { IsTrue self.old.is_clear }
        ensures ok { OnOk result (self.new ≡ record self.old {
          calls = self.old.calls ++ done (Write self.old.end self.old.waiting) ∷ [];
          disk = self.new.disk;
          is_clear = false;
        }) }
        ensures known { OnOk result ((known_of self.new.calls).bytes ≡ bytes_of self.old) }
        ensures written { OnOk result (IsTrusted D.is_clean self.old
            → Begins (bytes_of self.old) (D.seen self.new.disk)) }
        ensures alone { OnOk result
            (length (D.seen self.new.disk) ≤ length (bytes_of self.old)) }
        ensures err { OnErr result (self.new ≡ record self.old {
          calls = self.old.calls ++ failed (Write self.old.end self.old.waiting) ∷ [];
          disk = self.new.disk;
          waiting = [];
          has_stored = false;
          is_clear = false;
          failures = self.old.failures + 1;
        }) }
        ensures all { OnErr result (length (bytes_of self.new) ≡ self.old.end) }
        ensures trusted { D.is_clean self.new.disk ≡ D.is_clean self.old.disk }
        ensures same { synced_of self.new ≡ synced_of self.old }
    {
        let written = self.disk.write_at(self.end, &self.waiting);
        self.is_clear = false;
        if written.is_err() {
            return Err(self.lose());
        }
        Ok(())
    }

    /// Waits until all bytes last. It is told whether the disk has no others then.
    fn sync_disk(&mut self, is_clear: bool) -> Result<(), DeviceFault>
        requires usable { IsTrue self.old.is_usable }
        requires seen { IsTrusted D.is_clean self.old
            → Begins (bytes_of self.old) (D.seen self.old.disk) }
        requires known { Begins (bytes_of self.old) (known_of self.old.calls).bytes }
        requires alone { IsTrue is_clear
            → (length (D.seen self.old.disk) ≤ length (bytes_of self.old))
            × (length (known_of self.old.calls).bytes ≤ length (bytes_of self.old)) }
        ensures calls { OnOk result (self.new.calls ≡ self.old.calls ++ done Sync ∷ []) }
        ensures end { OnOk result (self.new.end ≡ length (bytes_of self.old)) }
        ensures bytes { OnOk result (bytes_of self.new ≡ bytes_of self.old) }
        ensures no_failure { OnOk result (self.new.failures ≡ self.old.failures) }
        ensures failed { OnErr result (self.new.calls ≡ self.old.calls ++ failed Sync ∷ []) }
        ensures unusable { OnErr result (self.new.is_usable ≡ false) }
        ensures kept { OnErr result (bytes_of self.new ≡ synced_of self.old) }
        ensures all { OnErr result (length (bytes_of self.new) ≡ self.old.end) }
        ensures same_end { OnErr result (self.new.end ≡ self.old.end) }
        ensures failure { OnErr result (self.new.failures ≡ self.old.failures + 1) }
    {
        let synced = self.disk.sync();
        if synced.is_err() {
            return Err(self.lose());
        }
        self.end += self.waiting.len();
        self.waiting.clear();
        self.has_stored = false;
        self.is_clear = is_clear;
        Ok(())
    }
}

impl<D: Disk + Drop> LogDevice for FileLog<D> {
    ghost bytes = { λ log. bytes_of log };

    ghost called = { λ old from next result new. Stores old from next result new };

    ghost synced = { λ old result new. Syncs old result new };

    ghost lasting = { λ log. log.end };

    ghost failures = { λ log. log.failures };

    ghost fails_from = { λ _. 0 };

    /// It asks the disk for nothing, and takes memory for these bytes. An `Err` comes where that is
    /// refused, and where a sync failed before.
    fn store(&mut self, from: u64, next: &[u8]) -> Result<(), DeviceFault>
        requires { from ≤ length (bytes_of self.old) }
        ensures exact { Stores self.old from next.now result self.new }
        ensures stored { OnOk result
            (bytes_of self.new ≡ take from (bytes_of self.old) ++ next.now) }
        ensures kept { OnErr result (KeepsFirst from (bytes_of self.old) (bytes_of self.new)) }
        ensures lasting { min from self.old.end ≤ self.new.end }
        ensures no_failure { OnOk result (self.new.failures ≡ self.old.failures) }
        ensures failure { OnErr result (self.new.failures ≡ self.old.failures + 1) }
    {
        let from = from as usize;
        if !self.disk.is_usable() || from.checked_add(next.len()).is_none() {
            return Err(self.fail());
        }
        self.forget_from(from);
        if self.waiting.extend_from_slice(next).is_err() {
            return Err(self.fail());
        }
        self.has_stored = true;
        Ok(())
    }

    /// What stands behind the bytes that last may be records of an older log, whose LSNs are right.
    /// So the disk is cut first, and then gets what was stored. An `Err` comes where one of these
    /// calls fails, and no call follows that one; and where a sync failed before. It takes no memory.
    fn sync(&mut self) -> Result<(), DeviceFault>
        ensures exact { Syncs self.old result self.new }
        ensures same { OnOk result (bytes_of self.new ≡ bytes_of self.old) }
        ensures all { OnOk result (self.new.end ≡ length (bytes_of self.new)) }
        ensures kept { OnErr result ((bytes_of self.new ≡ synced_of self.old)
            × (length (bytes_of self.new) ≡ self.old.end)) }
        ensures no_failure { OnOk result (self.new.failures ≡ self.old.failures) }
        ensures failure { OnErr result (self.new.failures ≡ self.old.failures + 1) }
    {
        if !self.disk.is_usable() {
            return Err(self.lose());
        }
        if !self.has_stored {
            let is_clear = self.is_clear;
            return self.sync_disk(is_clear);
        }
        self.cut()?;
        self.write()?;
        self.sync_disk(true)
    }
}
