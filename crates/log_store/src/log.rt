//! A log on a device, which callers append to and force.

ghost use Rattle.std.specs.Prelude.{ℕ, ◌≡◌, ◌<◌, ◌≤◌, [], ◌∷◌, length, max, Some};
ghost use Rattle.std.specs.Prelude.{IfOk, IfErr, IfSome, OnOk, OnErr};
ghost use Rattle.log_records.specs.declared.record.Record.{Record};
ghost use Rattle.log_records.specs.Coverage.{IsPast};
ghost use Rattle.log_records.specs.Image.{image};
ghost use Rattle.log_store.specs.Device.{KeepsFirst};
ghost use Rattle.log_records.specs.Log.{IsLog, StandsAt, header_bytes, lsn_of};
ghost use Rattle.log_records.specs.PageCount.{GivesMore};
ghost use Rattle.log_records.specs.Record.{IsPageCount};
ghost use Rattle.log_records.specs.Log.{page_count, with_next};
ghost use Rattle.log_store.specs.Stores.{ForceFails, Forced, HeaderFails, StoresHeader};
ghost use Rattle.log_store.specs.WrittenLog.{EndsAtRecord, HasRecordAt, HoldsLog, IsWritten};
ghost use Rattle.log_store.specs.WrittenLog.{end_up_to};

use crate::device::{DeviceFault, LogDevice};
use crate::log_image::LogImage;
use crate::page_index::PageIndex;
use crate::stored_log::StoredLog;
use log_records::{MAX_RECORDS, Record};
use page_core::{Lsn, Page};
use std::alloc::{AllocError, Global};
use std::marker::Model;

/// A log that callers append to and force to a device. It has all of its records in memory, and the
/// first of them on its device too. These are forced: they last there, and outlast every later call
/// and every later fault.
#[derive(Drop)]
pub struct Log<D: LogDevice> {
    /// All that is stored is synced.
    stored: StoredLog<D>,
    /// The records by the pages that they change, as far as a page was rolled forward.
    index: PageIndex,
}

impl<D: LogDevice> Model for Log<D> {
    ghost use Rattle.std.specs.Prelude.{◌≤◌};
    ghost use Rattle.log_store.specs.PageHistory.{AreHistories};
    ghost use Rattle.log_store.specs.WrittenLog.{WrittenLog};

    ghost Value = { WrittenLog D };

    ghost view = { λ it. it.stored };

    ghost invariant = { λ it. (it.stored.forced_end ≤ D.lasting it.stored.device)
        × AreHistories it.stored.log.records it.index };
}

impl<D: LogDevice> Log<D> {
    /// A log without records, of a volume of so many pages. Its header is stored by one call of
    /// the device, and synced by one.
    ///
    /// An `Err` comes where one of these calls fails. It hands the device back.
    pub fn new(alloc: Global, pages: u32, device: D) -> Result<Log<D>, (DeviceFault, D)>
        requires { IsPageCount pages }

        ensures empty { IfOk result (λ it. it.log ≡ record { pages = pages; records = [] }) }
        ensures forced_end { IfOk result (λ it. it.forced_end ≡ 64) }
        ensures header { IfOk result (λ it. D.bytes it.device ≡ header_bytes pages) }

        ensures called { IfOk result (λ it.
            StoresHeader D.called D.synced pages device it.device) }
        ensures no_failure { IfOk result (λ it. D.failures it.device ≡ D.failures device) }
        ensures last_call { IfErr result (λ e. HeaderFails D.called D.synced pages device e.1) }
        ensures failure { IfErr result (λ e. D.failures device < D.failures e.1) }

        ensures same_bound { IfOk result (λ it. D.fails_from it.device ≡ D.fails_from device) }
        ensures past_bound { OnErr result (D.fails_from device ≤ 64) }
    {
        Ok(Log {
            stored: StoredLog::new(alloc, pages, device)?,
            index: PageIndex::new(alloc),
        })
    }

    /// A log that goes on where an older one ended: its device has all of it, behind which there may
    /// be anything, and all of it is forced. The device is not called. The first force cuts off
    /// what stands behind.
    pub fn resume(image: LogImage, device: D) -> Log<D>
        requires holds { HoldsLog D.bytes image device }
        requires lasts { lsn_of (length image.records) ≤ D.lasting device }

        ensures log { result.log ≡ image }
        ensures forced_end { result.forced_end ≡ lsn_of (length image.records) }
        ensures device { result.device ≡ device }
    {
        let stored = StoredLog::resume(image, device);
        let index = PageIndex::new(stored.allocator());
        Log { stored, index }
    }

    /// Makes room for one record more. An `Err` comes where there is none and it is refused. The log
    /// stays as it is.
    pub fn make_room(&mut self) -> Result<(), AllocError>
        ensures room { OnOk result (0 < self.new.room) }
        ensures needed { OnErr result (self.old.room ≡ 0) }
        ensures same { self.new.log ≡ self.old.log }
        ensures forced_end { self.new.forced_end ≡ self.old.forced_end }
        ensures device { self.new.device ≡ self.old.device }
    {
        self.stored.make_room()
    }

    /// Appends a record in memory; `force_to` and `force` bring it to the device. It takes no
    /// memory, since `make_room` has made its room.
    pub fn append(&mut self, next: Record)
        requires stands { StandsAt (page_count self.old.log)
            (lsn_of (length self.old.log.records)) next }
        requires more { GivesMore (page_count self.old.log) next }
        requires few { length self.old.log.records < MAX_RECORDS }
        requires room { 0 < self.old.room }

        ensures next { self.new.log ≡ with_next self.old.log (next ∷ []) }
        ensures forced_end { self.new.forced_end ≡ self.old.forced_end }
        ensures device { self.new.device ≡ self.old.device }
    {
        self.stored.append(next);
    }

    /// Forces the log up to an LSN: stores each record that is not forced yet and stands at this
    /// LSN or before it, in order, by one call of the device for each, and then syncs them all by
    /// one. It takes no memory.
    ///
    /// An `Err` comes where one of these calls fails. Where a store fails, none is made after it;
    /// the records before it are synced, if there are any, and are forced then. Where the sync
    /// fails, no record more is forced. What was forced before this call stands.
    pub fn force_to(&mut self, lsn: Lsn) -> Result<(), DeviceFault>
        ensures same { self.new.log ≡ self.old.log }
        ensures rising { self.old.forced_end ≤ self.new.forced_end }
        ensures at_record { EndsAtRecord self.new }
        ensures stands { KeepsFirst self.old.forced_end
            (D.bytes self.old.device) (D.bytes self.new.device) }

        ensures forced { OnOk result (self.new.forced_end
            ≡ max self.old.forced_end (end_up_to self.old.log lsn)) }
        ensures nothing_more { OnOk result (self.old.forced_end < self.new.forced_end
            → length (D.bytes self.new.device) ≡ self.new.forced_end) }
        ensures idle { OnOk result (self.new.forced_end ≡ self.old.forced_end
            → self.new.device ≡ self.old.device) }
        ensures called { OnOk result (Forced D.called D.synced self.old self.new) }
        ensures no_failure { OnOk result (D.failures self.new.device ≡ D.failures self.old.device) }

        ensures short { OnErr result (self.new.forced_end < end_up_to self.old.log lsn) }
        ensures last_call { OnErr result (ForceFails D.called D.synced self.old self.new) }
        ensures failure { OnErr result (D.failures self.old.device < D.failures self.new.device) }

        ensures same_bound { D.fails_from self.new.device ≡ D.fails_from self.old.device }
        ensures past_bound { OnErr result (D.fails_from self.old.device
            ≤ end_up_to self.old.log lsn) }
    {
        let forced = self.stored.count();
        let done = self.stored.store_to(lsn);
        if self.stored.count() > forced {
            self.stored.sync(forced)?;
        }
        done
    }

    /// Forces the whole log. Its calls of the device and its `Err` are those of `force_to`.
    pub fn force(&mut self) -> Result<(), DeviceFault>
        ensures same { self.new.log ≡ self.old.log }
        ensures rising { self.old.forced_end ≤ self.new.forced_end }
        ensures at_record { EndsAtRecord self.new }
        ensures stands { KeepsFirst self.old.forced_end
            (D.bytes self.old.device) (D.bytes self.new.device) }

        ensures forced { OnOk result (self.new.forced_end ≡ lsn_of (length self.old.log.records)) }
        ensures nothing_more { OnOk result (self.old.forced_end < self.new.forced_end
            → length (D.bytes self.new.device) ≡ self.new.forced_end) }
        ensures idle { OnOk result (self.new.forced_end ≡ self.old.forced_end
            → self.new.device ≡ self.old.device) }
        ensures called { OnOk result (Forced D.called D.synced self.old self.new) }
        ensures no_failure { OnOk result (D.failures self.new.device ≡ D.failures self.old.device) }

        ensures short { OnErr result (self.new.forced_end < lsn_of (length self.old.log.records)) }
        ensures last_call { OnErr result (ForceFails D.called D.synced self.old self.new) }
        ensures failure { OnErr result (D.failures self.old.device < D.failures self.new.device) }

        ensures same_bound { D.fails_from self.new.device ≡ D.fails_from self.old.device }
        ensures past_bound { OnErr result (D.fails_from self.old.device
            ≤ lsn_of (length self.old.log.records)) }
    {
        let end = self.end();
        let done = self.force_to(end);
        // What the log keeps holds of it now, and is seen where it is read.
        let all = self.forced_end() <= end;
        prove!(all);
        done
    }

    /// Rolls a page forward: makes of an older image of it, as an image copy has it, the page as
    /// the whole log makes it (ARIES, section 8). It redoes the page's changes above its LSN, or,
    /// where the page was rolled forward before, goes on from there. The device is not called.
    ///
    /// All calls together look at each record once, and redo each change once for each page that
    /// they begin with. The log keeps 4 bytes a change for this, and each page that was rolled
    /// forward. An `Err` comes where memory for these is refused.
    pub fn roll_forward(&mut self, page: &mut Page) -> Result<(), AllocError>
        requires past { IsPast self.old.log.records page.old.number page.old }
        ensures image { OnOk result
            (page.new ≡ image self.old.log.records page.old.number) }
        ensures same { self.new ≡ self.old }
    {
        self.index.roll_forward(self.stored.records(), page)
    }

    /// The record that stands at an LSN. None stands at 0, within a record, or at the log's end or
    /// past it.
    pub fn get(&self, lsn: Lsn) -> Option<Record>
        ensures found { IfSome result (HasRecordAt self.now.log lsn) }
        ensures only { (r : Record) → HasRecordAt self.now.log lsn r → result ≡ Some r }
    {
        self.stored.get(lsn)
    }

    /// The LSN after the last record: where the next record will stand.
    pub fn end(&self) -> Lsn
        ensures { result ≡ lsn_of (length self.now.log.records) }
    {
        self.stored.end()
    }

    /// The LSN after the last forced record. Each record below it lasts on the device.
    pub fn forced_end(&self) -> Lsn
        ensures end { result ≡ self.now.forced_end }
        ensures within { result ≤ lsn_of (length self.now.log.records) }
        ensures lasts { result ≤ D.lasting self.now.device }
    {
        self.stored.stored_end()
    }

    /// The records, the oldest first. The record at index i has LSN 64 * (i + 1).
    pub fn records(&self) -> &[Record]
        ensures records { result.now ≡ self.now.log.records }
        ensures valid { IsLog self.now.log }
    {
        self.stored.records()
    }

    /// How many pages the volume has behind all records.
    pub fn pages(&self) -> u32
        ensures { result ≡ page_count self.now.log }
    {
        self.stored.pages()
    }

    /// The page count that the log's header gives: how many pages the volume had before the first
    /// record.
    pub fn header_pages(&self) -> u32
        ensures { result ≡ self.now.log.pages }
    {
        self.stored.header_pages()
    }

    /// The log's device.
    pub fn device(&self) -> &D
        ensures device { result.now ≡ self.now.device }
        // It begins with the header and the forced records.
        ensures kept { IsWritten D.bytes self.now }
        ensures lasts { self.now.forced_end ≤ D.lasting self.now.device }
    {
        self.stored.device()
    }

    /// The log as a value, with all of its records, and the device. It is not written any more.
    pub fn into_parts(self) -> (LogImage, D)
        ensures log { result.0 ≡ self.log }
        ensures device { result.1 ≡ self.device }
        ensures kept { IsWritten D.bytes self }
        ensures lasts { self.forced_end ≤ D.lasting self.device }
    {
        let Log { stored, index: _ } = self;
        stored.into_parts()
    }
}
