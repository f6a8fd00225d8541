//! A log whose records are stored on a device, one call of it for each.

ghost use Rattle.std.specs.Prelude.{ℕ, ◌≡◌, ◌+◌, ◌-◌, ◌*◌, ◌<◌, ◌≤◌, [], ◌∷◌, length, max, min};
ghost use Rattle.std.specs.Prelude.{Some};
ghost use Rattle.std.specs.Prelude.{IfOk, IfErr, IfSome, OnOk, OnErr};
ghost use Rattle.log_records.specs.declared.record.Record.{Record};
ghost use Rattle.log_store.specs.Device.{KeepsFirst};
ghost use Rattle.log_records.specs.Log.{IsLog, StandsAt, header_bytes, lsn_of};
ghost use Rattle.log_records.specs.PageCount.{GivesMore};
ghost use Rattle.log_records.specs.Record.{IsPageCount};
ghost use Rattle.log_records.specs.Log.{page_count, with_next};
ghost use Rattle.log_store.specs.Stores.{FailsAtNext, HeaderFails, IsNextCall, StoresForced};
ghost use Rattle.log_store.specs.Stores.{StoresHeader};
ghost use Rattle.log_store.specs.WrittenLog.{EndsAtRecord, HasRecordAt, HoldsLog, IsWritten};
ghost use Rattle.log_store.specs.WrittenLog.{end_up_to};

use crate::device::{DeviceFault, LogDevice};
use crate::log_image::LogImage;
use log_records::{MAX_RECORDS, RECORD_BYTES, Record, count_behind, encode, encode_header};
use page_core::{LSN_STEP, Lsn};
use std::alloc::{AllocError, Global};
use std::marker::Model;

/// A log that has all of its records in memory, and the first of them on its device too. Contracts
/// see the end of these as its forced end, but the device need not be synced.
#[derive(Drop)]
pub(crate) struct StoredLog<D: LogDevice> {
    /// The page count that the header gives.
    pages: u32,
    /// The page count behind all records.
    count: u32,
    records: Vec<Record>,
    /// How many records are stored.
    stored: usize,
    device: D,
}

impl<D: LogDevice> Model for StoredLog<D> {
    ghost use Rattle.std.specs.Prelude.{◌≡◌, ◌-◌, vec_len};
    ghost use Rattle.std.specs.Vec.{vec_capacity};
    ghost use Rattle.log_records.specs.PageCount.{count_behind};
    ghost use Rattle.log_store.specs.WrittenLog.{WrittenLog, IsWritten, written_log};

    ghost Value = { WrittenLog D };

    ghost view = { λ it. written_log it.pages it.records.items it.stored
        (vec_capacity it.records - vec_len it.records) it.device };

    ghost invariant = { λ it.
        IsWritten D.bytes (written_log it.pages it.records.items it.stored
        (vec_capacity it.records - vec_len it.records) it.device)
        × (it.count ≡ count_behind it.pages it.records.items) };
}

impl<D: LogDevice> StoredLog<D> {
    /// A log without records, of a volume of so many pages. Its header is stored by one call of
    /// the device, and synced by one.
    ///
    /// An `Err` comes where one of these calls fails. It hands the device back.
    pub fn new(alloc: Global, pages: u32, mut device: D) -> Result<StoredLog<D>, (DeviceFault, D)>
        requires { IsPageCount pages }

        ensures empty { IfOk result (λ it. it.log ≡ record { pages = pages; records = [] }) }
        ensures forced_end { IfOk result (λ it. it.forced_end ≡ 64) }
        ensures header { IfOk result (λ it. D.bytes it.device ≡ header_bytes pages) }
        ensures lasts { IfOk result (λ it. it.forced_end ≤ D.lasting it.device) }

        ensures called { IfOk result (λ it.
            StoresHeader D.called D.synced pages device it.device) }
        ensures no_failure { IfOk result (λ it. D.failures it.device ≡ D.failures device) }
        ensures last_call { IfErr result (λ e. HeaderFails D.called D.synced pages device e.1) }
        ensures failure { IfErr result (λ e. D.failures device < D.failures e.1) }

        ensures same_bound { IfOk result (λ it. D.fails_from it.device ≡ D.fails_from device) }
        ensures past_bound { OnErr result (D.fails_from device ≤ 64) }
    {
        if let Err(fault) = device.store(0, &encode_header(pages)) {
            return Err((fault, device));
        }
        if let Err(fault) = device.sync() {
            return Err((fault, device));
        }
        Ok(StoredLog {
            pages,
            count: pages,
            records: Vec::new(alloc),
            stored: 0,
            device,
        })
    }

    /// A log that its device has already, with all of its records. The device is not called.
    pub fn resume(image: LogImage, device: D) -> StoredLog<D>
        requires { HoldsLog D.bytes image device }
        ensures log { result.log ≡ image }
        ensures forced_end { result.forced_end ≡ lsn_of (length image.records) }
        ensures device { result.device ≡ device }
    {
        let count = image.page_count();
        let (pages, records) = image.into_parts();
        StoredLog {
            pages,
            count,
            stored: records.len(),
            records,
            device,
        }
    }

    /// Makes room for one record more. An `Err` comes where it is refused. The log stays as it is.
    pub fn make_room(&mut self) -> Result<(), AllocError>
        ensures room { OnOk result (0 < self.new.room) }
        ensures needed { OnErr result (self.old.room ≡ 0) }
        ensures same { self.new.log ≡ self.old.log }
        ensures forced_end { self.new.forced_end ≡ self.old.forced_end }
        ensures device { self.new.device ≡ self.old.device }
    {
        self.records.reserve(1)
    }

    /// Appends a record in memory. It takes no memory, since `make_room` has made its room.
    pub fn append(&mut self, next: Record)
        requires stands { StandsAt (page_count self.old.log)
            (lsn_of (length self.old.log.records)) next }
        requires more { GivesMore (page_count self.old.log) next }
        requires few { length self.old.log.records < MAX_RECORDS }
        requires room { 0 < self.old.room }

        ensures next { self.new.log ≡ with_next self.old.log (next ∷ []) }
        ensures forced_end { self.new.forced_end ≡ self.old.forced_end }
        ensures device { self.new.device ≡ self.old.device }
    {
        if self.records.push(next).is_err() {
            unreachable!();
        }
        self.count = next.count_after(self.count);
    }

    /// Stores each record up to an LSN that is not stored yet, in order, by one call of the device
    /// for each. It takes no memory.
    ///
    /// An `Err` comes where one of these calls fails, and ends them. What was stored before stands.
    pub fn store_to(&mut self, lsn: Lsn) -> Result<(), DeviceFault>
        ensures same { self.new.log ≡ self.old.log }
        ensures rising { self.old.forced_end ≤ self.new.forced_end }
        ensures at_record { EndsAtRecord self.new }
        ensures stands { KeepsFirst self.old.forced_end
            (D.bytes self.old.device) (D.bytes self.new.device) }
        ensures lasting { min self.old.forced_end (D.lasting self.old.device)
            ≤ D.lasting self.new.device }

        ensures forced { OnOk result (self.new.forced_end
            ≡ max self.old.forced_end (end_up_to self.old.log lsn)) }
        ensures nothing_more { OnOk result (self.old.forced_end < self.new.forced_end
            → length (D.bytes self.new.device) ≡ self.new.forced_end) }
        ensures idle { OnOk result (self.new.forced_end ≡ self.old.forced_end
            → self.new.device ≡ self.old.device) }
        ensures called { OnOk result (StoresForced D.called self.old self.new self.new.device) }
        ensures no_failure { OnOk result (D.failures self.new.device ≡ D.failures self.old.device) }

        ensures short { OnErr result (self.new.forced_end < end_up_to self.old.log lsn) }
        ensures last_call { OnErr result (FailsAtNext D.called self.old self.new) }
        ensures failure { OnErr result (D.failures self.old.device < D.failures self.new.device) }

        ensures same_bound { D.fails_from self.new.device ≡ D.fails_from self.old.device }
        ensures past_bound { OnErr result (D.fails_from self.old.device
            ≤ end_up_to self.old.log lsn) }
    {
        let count = self.records.len().min((lsn.0 / LSN_STEP) as usize);
        for _ in self.stored..count {
            self.store_next()?;
        }
        Ok(())
    }

    /// Waits until all that is stored lasts. An `Err` comes where the device fails: then only so
    /// many records count as stored, which lasted before.
    pub fn sync(&mut self, lasting: usize) -> Result<(), DeviceFault>
        requires lasts { lsn_of lasting ≤ D.lasting self.old.device }
        requires kept { IsWritten D.bytes (record self.old { forced_end = lsn_of lasting }) }

        ensures same { self.new.log ≡ self.old.log }
        ensures end { OnOk result (self.new.forced_end ≡ self.old.forced_end) }
        ensures bytes { OnOk result (D.bytes self.new.device ≡ D.bytes self.old.device) }
        ensures all { OnOk result (self.new.forced_end ≤ D.lasting self.new.device) }
        ensures back { OnErr result (self.new.forced_end ≡ lsn_of lasting) }
        ensures stands { OnErr result (KeepsFirst (lsn_of lasting)
            (D.bytes self.old.device) (D.bytes self.new.device)) }
        ensures still { OnErr result (lsn_of lasting ≤ D.lasting self.new.device) }

        ensures synced { D.synced self.old.device result self.new.device }
        ensures no_failure { OnOk result (D.failures self.new.device ≡ D.failures self.old.device) }
        ensures failure { OnErr result (D.failures self.old.device < D.failures self.new.device) }
        ensures same_bound { D.fails_from self.new.device ≡ D.fails_from self.old.device }
        ensures past_bound { OnErr result (D.fails_from self.old.device
            ≤ length (D.bytes self.old.device)) }
    {
        if let Err(fault) = self.device.sync() {
            self.stored = lasting;
            return Err(fault);
        }
        Ok(())
    }

    /// The record that stands at an LSN. None stands at 0, within a record, or at the log's end or
    /// past it.
    pub fn get(&self, lsn: Lsn) -> Option<Record>
        ensures found { IfSome result (HasRecordAt self.now.log lsn) }
        ensures only { (r : Record) → HasRecordAt self.now.log lsn r → result ≡ Some r }
    {
        let index = (lsn.0 / LSN_STEP).checked_sub(1)?;
        if lsn.0 % LSN_STEP != 0 {
            return None;
        }
        self.records.get(index as usize).copied()
    }

    /// The LSN after the last record: where the next record will stand.
    pub fn end(&self) -> Lsn
        ensures { result ≡ lsn_of (length self.now.log.records) }
    {
        Lsn(offset_of(self.records.len()))
    }

    /// How many records are stored.
    pub fn count(&self) -> usize
        ensures end { self.now.forced_end ≡ lsn_of result }
        ensures within { result ≤ length self.now.log.records }
        ensures kept { IsWritten D.bytes self.now }
    {
        self.stored
    }

    /// The LSN after the last record that is stored.
    pub fn stored_end(&self) -> Lsn
        ensures end { result ≡ self.now.forced_end }
        ensures within { result ≤ lsn_of (length self.now.log.records) }
    {
        Lsn(offset_of(self.stored))
    }

    /// What the records take memory of.
    pub fn allocator(&self) -> Global {
        *self.records.allocator()
    }

    /// The records, the oldest first. The record at index i has LSN 64 * (i + 1).
    pub fn records(&self) -> &[Record]
        ensures records { result.now ≡ self.now.log.records }
        ensures valid { IsLog self.now.log }
    {
        &self.records
    }

    /// How many pages the volume has behind all records.
    pub fn pages(&self) -> u32
        ensures { result ≡ page_count self.now.log }
    {
        self.count
    }

    /// The page count that the log's header gives: how many pages the volume had before the first
    /// record.
    pub fn header_pages(&self) -> u32
        ensures { result ≡ self.now.log.pages }
    {
        self.pages
    }

    /// The log's device.
    pub fn device(&self) -> &D
        ensures device { result.now ≡ self.now.device }
        // It begins with the header and the forced records.
        ensures kept { IsWritten D.bytes self.now }
    {
        &self.device
    }

    /// The log as a value, with all of its records, and the device. It is not written any more.
    pub fn into_parts(self) -> (LogImage, D)
        ensures log { result.0 ≡ self.log }
        ensures device { result.1 ≡ self.device }
        ensures kept { IsWritten D.bytes self }
    {
        let StoredLog {
            pages,
            count,
            records,
            stored: _,
            device,
        } = self;
        (LogImage::from_parts(pages, count, records), device)
    }

    /// Stores the first record that is not stored.
    fn store_next(&mut self) -> Result<(), DeviceFault>
        requires { self.old.forced_end < lsn_of (length self.old.log.records) }

        ensures same { self.new.log ≡ self.old.log }
        ensures stands { KeepsFirst self.old.forced_end
            (D.bytes self.old.device) (D.bytes self.new.device) }
        ensures lasting { min self.old.forced_end (D.lasting self.old.device)
            ≤ D.lasting self.new.device }
        ensures called { IsNextCall D.called self.old result self.new.device }
        ensures forced { OnOk result (self.new.forced_end ≡ self.old.forced_end + 64) }
        ensures nothing_more { OnOk result (length (D.bytes self.new.device)
            ≡ self.new.forced_end) }
        ensures no_failure { OnOk result (D.failures self.new.device ≡ D.failures self.old.device) }
        ensures not_forced { OnErr result (self.new.forced_end ≡ self.old.forced_end) }
        ensures failure { OnErr result (D.failures self.old.device < D.failures self.new.device) }
        ensures same_bound { D.fails_from self.new.device ≡ D.fails_from self.old.device }
        ensures past_bound { OnErr result (D.fails_from self.old.device
            ≤ self.old.forced_end + 64) }
    {
        let next = encode(&self.records[self.stored]);
        self.device.store(offset_of(self.stored), &next)?;
        self.stored += 1;
        Ok(())
    }
}

/// Where the record at an index stands, in bytes.
fn offset_of(index: usize) -> u64
    requires { index ≤ MAX_RECORDS }
    ensures { result ≡ lsn_of index }
{
    LSN_STEP * (index as u64 + 1)
}
