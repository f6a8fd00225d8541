//! A database that is opened again.

ghost use Rattle.std.specs.Prelude.{◌≡◌, ◌≢◌, ◌⊎◌, ◌↔◌, [], false, IfErr, IfOk, IfSome};
ghost use Rattle.std.specs.Prelude.{IsTrue, None, OnOk, length, map, not};
ghost use Rattle.std.specs.List.{All};
ghost use Rattle.std.specs.List.Sorted.{IsNonDecreasing};
ghost use Rattle.buffer_pool.specs.Pool.{IsFrameCount};
ghost use Rattle.engine_restart.specs.LogFile.{LastsOnFile};
ghost use Rattle.engine_restart.specs.Restart.{undone_log};
ghost use Rattle.file_devices.specs.FileLog.{bytes_of};
ghost use Rattle.log_prefix.specs.Front.{IsFrontOf, end_of};
ghost use Rattle.log_records.specs.Log.{IsLog, IsPageCount, log_bytes, page_count};
ghost use Rattle.log_rules.specs.Linked.{IsLinked};
ghost use Rattle.log_rules.specs.Transactions.{open_in};
ghost use Rattle.database_files.specs.Closed.{IsVouched, IsWithoutNote, SpellsNote};
ghost use Rattle.database_opening.specs.Copies.{TakesUp, ids_unread};
ghost use Rattle.database_files.specs.DatabaseFolder.{HasLogBytes, HasNoOtherVolume, IsLogIn};
ghost use Rattle.saved_files.specs.Folder.{Changes, IsSame, KeepsOthers};
ghost use Rattle.database_files.specs.Evidence.{LacksNothing};
ghost use Rattle.database_opening.specs.FirstLine.{told_of};
ghost use Rattle.database_files.specs.Found.{AreFoundIn, IsFoundIn, IsInventoryOf};
ghost use Rattle.database_files.specs.Found.{IsUnreadOnceTried, SpellsManifest};
ghost use Rattle.database_files.specs.Kept.{IsNameIn};
ghost use Rattle.database_files.specs.LeftOut.{IsWorthKeeping, WasKept};
ghost use Rattle.database_files.specs.LeftOut.{behind};
ghost use Rattle.database_files.specs.Master.{IsOfRecords, IsUnnamed, is_absent, spelled};
ghost use Rattle.database_files.specs.MovedAside.{KeepsOrPutsAside};
ghost use Rattle.database_opening.specs.Opened.{GoesOnFromFile, GoesOnWith, HandsOn};
ghost use Rattle.database_opening.specs.Ready.{IsCalledOnceReady};
ghost use Rattle.database_files.specs.Refused.{IsLost, IsRefusal};
ghost use Rattle.database_files.specs.Standing.{KeepsFiles};
ghost use Rattle.database_opening.specs.declared.first_line.FirstLine.TheVariants as line;

use crate::copies::take_up;
use crate::first_line::FirstLine;
use crate::made_ready::{make_log_ready, set_aside_claimants};
use crate::new_database::code_of;
use crate::open_call::OpenCall;
use crate::volume_file::{check_volume, volume_of};
use aries_core::Engine;
use database_files::{
    CLOSED, ChangeFault, ClosedNote, CopyFile, DatabaseFolder, Diagnostics, ForcedEndEvidence,
    FoundMaster, Inventory, LogFile, MANIFEST, OpenFault, Place, VOLUME, found_in, log_line,
    name_for, read_copies, read_manifest, read_master, read_note,
};
use engine_restart::{FoundLog, Restarted, restart, store_of};
use file_devices::FileLog;
use fuzzy_ckpt::{LogCheckpoints, Point};
use log_prefix::Front;
use manifest::{DatabaseName, Manifest, Sums};
use page_core::Lsn;
use page_store::PageStore;
use sqlite_disk::Disk;
use std::alloc::{AllocError, Global};

/// An engine that goes on with a database of an older life.
#[derive(Drop)]
pub struct ResumedDatabase<S: PageStore, D: Disk + Drop> {
    pub engine: Engine<S, FileLog<D>>,
    pub first: FirstLine,
    /// The last complete checkpoint of its log, where the master record does not name it.
    pub point: Option<Point>,
    /// What stands as the master record, if that names no checkpoint of the log.
    pub is_master_wrong: bool,
    /// The ids of copies that could not be read, and of those behind them. They are not given.
    pub unread: Vec<u32>,
    /// The name of the database, and the manifest that was found.
    pub database: DatabaseName,
    pub manifest: Option<Manifest>,
    /// The sum of the log's bytes that this names, if it names some.
    pub sums: Option<Sums>,
}

/// What was found in a folder, before anything is changed there.
#[derive(Drop)]
pub(crate) struct Remains<D: Disk> {
    pub log: FoundLog<FileLog<D>>,
    pub others: Others,
}

/// What was found beside the log.
#[derive(Drop)]
pub struct Others {
    pub note: Option<ClosedNote>,
    pub manifest: Option<Manifest>,
    pub master: FoundMaster,
    pub copies: Vec<CopyFile>,
}

/// Opens a database again from the file of its log, and from those of the copies there that are
/// sound. The volume is made anew. Where the log lacks what was forced, it is not opened, unless
/// the call says that what is left is to be opened.
pub(crate) fn reopen<F: DatabaseFolder>(
    diagnostics: &Diagnostics<'_>,
    folder: &mut F,
    call: &OpenCall<'_>,
    log: LogFile<F::Log>,
    there: &Inventory,
) -> Result<ResumedDatabase<F::Volume, F::LogDisk>, OpenFault>
    requires frames { IsFrameCount call.now.frames }
    requires claimed { F.is_claimed folder.old }
    requires there { IsLogIn (F.entries folder.old) F.held log }
    requires inventory { IsInventoryOf (F.entries folder.old) there.now }
    requires rise { IsNonDecreasing there.now.copies.items }
    ensures goes_on { IfOk result (λ it. GoesOnFromFile (F.entries folder.old) call.now.salvage
        log.len there.now.copies.items call.now.pages call.now.frames it.first
        it.engine.state) }
    ensures kept { call.now.salvage ≡ false
        → Changes KeepsFiles (F.entries folder.old) (F.entries folder.new) }
    ensures stays { Changes KeepsOrPutsAside (F.entries folder.old) (F.entries folder.new) }
    ensures gone { OnOk result (IsWithoutNote (F.entries folder.new)) }
    ensures handed { IfOk result (λ it. HandsOn (F.entries folder.old) call.now.salvage it.first
        it.engine.state it.unread.items it.point it.is_master_wrong) }
    // It has the name that its manifest says, and is handed that manifest.
    ensures named { IfOk result (λ it. IsNameIn it.manifest it.database.0) }
    ensures manifest { IfOk result (λ it.
        IsFoundIn SpellsManifest (F.entries folder.old) MANIFEST.now it.manifest) }
    ensures refused { IfErr result (λ fault. IsRefusal fault
        → Changes IsSame (F.entries folder.old) (F.entries folder.new)) }
    ensures claimed { F.is_claimed folder.new }
{
    let mut remains = find(diagnostics, folder, log, there)?;
    let database = name_for(folder, &remains.others.manifest)?;
    let sums = prepare(diagnostics, folder, call, there, &mut remains)?;
    let Remains { log, others } = remains;
    let mut opened = go_on(diagnostics, folder, call, log, (others, database))?;
    opened.sums = sums;
    Ok(opened)
}

/// Reads what stands in a folder. It writes nothing.
fn find<F: DatabaseFolder>(
    diagnostics: &Diagnostics<'_>,
    folder: &F,
    log: LogFile<F::Log>,
    there: &Inventory,
) -> Result<Remains<F::LogDisk>, OpenFault>
    requires there { IsLogIn (F.entries folder.now) F.held log }
    requires inventory { IsInventoryOf (F.entries folder.now) there.now }
    ensures there { IfOk result (λ it. HasLogBytes (F.entries folder.now) it.log.bytes.items) }
    ensures whole { IfOk result (λ it. length it.log.bytes.items ≡ log.len) }
    ensures front { IfOk result (λ it. IsFrontOf it.log.bytes.items it.log.front) }
    ensures linked { IfOk result (λ it. IsLinked it.log.front.log.records) }
    ensures lasting { IfOk result (λ it. LastsOnFile it.log.front.log it.log.device) }
    ensures copies { IfOk result (λ it.
        map (λ file. file.id) it.others.copies.items ≡ there.now.copies.items) }
    ensures others { IfOk result (λ it. AreFoundIn (F.entries folder.now) it.others.note
        it.others.manifest (spelled it.others.master) it.others.copies.items) }
    ensures absent { IfOk result (λ it. is_absent it.others.master ≡ not there.now.has_master) }
    ensures tried { IfOk result (λ it.
        All (IsUnreadOnceTried (F.was_asked folder.now)) it.others.copies.items) }
{
    let log = found_in::<F>(diagnostics.alloc, log)?;
    match find_others(diagnostics, folder, there) {
        Ok(others) => Ok(Remains { log, others }),
        Err(fault) => Err(fault),
    }
}

/// Reads what stands beside the log.
pub fn find_others<F: DatabaseFolder>(
    diagnostics: &Diagnostics<'_>,
    folder: &F,
    there: &Inventory,
) -> Result<Others, OpenFault>
    requires { IsInventoryOf (F.entries folder.now) there.now }
    ensures ids { IfOk result (λ it.
        map (λ file. file.id) it.copies.items ≡ there.now.copies.items) }
    // What is found is what stands there.
    ensures found { IfOk result (λ it. AreFoundIn (F.entries folder.now) it.note it.manifest
        (spelled it.master) it.copies.items) }
    // A master record that spells nothing is not passed over.
    ensures absent { IfOk result (λ it. is_absent it.master ≡ not there.now.has_master) }
    // A copy is told to be unread only once its file was asked for.
    ensures tried { IfOk result (λ it.
        All (IsUnreadOnceTried (F.was_asked folder.now)) it.copies.items) }
{
    let alloc = diagnostics.alloc;
    let note = note_there(diagnostics, folder, there)?;
    let manifest = read_manifest(alloc, folder, there.has_manifest)?;
    let master = read_master(folder, there.has_master)?;
    let copies = read_copies(alloc, folder, &there.copies)?;
    Ok(Others {
        note,
        manifest,
        master,
        copies,
    })
}

/// The note of the last closing. One that is none is told, and says nothing.
fn note_there<F: DatabaseFolder>(
    diagnostics: &Diagnostics<'_>,
    folder: &F,
    there: &Inventory,
) -> Result<Option<ClosedNote>, OpenFault>
    requires { IsInventoryOf (F.entries folder.now) there.now }
    ensures { IfOk result (IsFoundIn SpellsNote (F.entries folder.now) CLOSED.now) }
{
    if !there.has_closed {
        return Ok(None);
    }
    let note = read_note(folder)?;
    if note.is_none() {
        diagnostics.tell(Place::Closed, &"this is no note of a closing");
    }
    Ok(note)
}

/// Sees that what was found may be opened, and makes the folder ready for a new life. Until nothing
/// is found to be wrong, nothing is changed there. Answers the sum of the log's bytes that the
/// manifest names, if it names some.
fn prepare<F: DatabaseFolder>(
    diagnostics: &Diagnostics<'_>,
    folder: &mut F,
    call: &OpenCall<'_>,
    there: &Inventory,
    remains: &mut Remains<F::LogDisk>,
) -> Result<Option<Sums>, OpenFault>
    requires lasting { LastsOnFile remains.old.log.front.log remains.old.log.device }
    requires claimed { F.is_claimed folder.old }
    requires inventory { IsInventoryOf (F.entries folder.old) there.now }
    ensures count { OnOk result (IfSome call.now.pages (λ told.
        told ≡ page_count remains.old.log.front.log)) }
    ensures volume { OnOk result (HasNoOtherVolume (F.entries folder.old)) }
    ensures whole { OnOk result (call.now.salvage ≡ false
        → LacksNothing (end_of remains.old.log.front.log)
        remains.old.others.note remains.old.others.manifest (spelled remains.old.others.master)
        remains.old.others.copies.items remains.old.log.bytes.items) }
    ensures log { remains.new.log.front.log ≡ remains.old.log.front.log }
    ensures others { remains.new.others ≡ remains.old.others }
    ensures files { call.now.salvage ≡ false
        → Changes KeepsFiles (F.entries folder.old) (F.entries folder.new) }
    ensures stays { Changes KeepsOrPutsAside (F.entries folder.old) (F.entries folder.new) }
    // No note of a closing stands there from now on, so none does before any record is stored.
    ensures gone { OnOk result (IsWithoutNote (F.entries folder.new)) }
    ensures lasting { OnOk result (LastsOnFile remains.new.log.front.log remains.new.log.device) }
    // What stood behind the log has a file of its own,
    ensures kept { OnOk result (remains.old.log.front.cut ≢ None
        → IsWorthKeeping (behind remains.old.log)
        → WasKept (behind remains.old.log) (F.entries folder.new)) }
    // and is gone from the log's for certain, before any record is stored there.
    ensures alone { OnOk result (remains.old.log.front.cut ≢ None
        → bytes_of remains.new.log.device ≡ log_bytes remains.new.log.front.log) }
    // However it ends, nothing is asked of the log's file before what stood behind the log is kept,
    // and the note of the last closing is gone.
    ensures ready { IsCalledOnceReady remains.old.log remains.new.log.device
        (F.entries folder.new) }
    // What the log's file gave is taken at its word only where the last closing vouches for it.
    ensures vouched { OnOk result ((remains.new.log.device.is_read ≡ false)
        ⊎ IsVouched remains.old.others.note (end_of remains.old.log.front.log)) }
    ensures refused { IfErr result (λ fault. IsRefusal fault
        → Changes IsSame (F.entries folder.old) (F.entries folder.new)) }
    ensures claimed { F.is_claimed folder.new }
{
    let (evidence, sums) = checked(diagnostics, folder, call, remains)?;
    there.clear(folder)?;
    set_aside_claimants(diagnostics, folder, &evidence)?;
    make_log_ready(diagnostics, folder, there, remains)?;
    Ok(sums)
}

/// Sees that what was found may be opened: the volume has as many pages as were told, nothing else
/// has its name, and the log lacks nothing. It only looks.
fn checked<F: DatabaseFolder>(
    diagnostics: &Diagnostics<'_>,
    folder: &F,
    call: &OpenCall<'_>,
    remains: &Remains<F::LogDisk>,
) -> Result<(ForcedEndEvidence, Option<Sums>), OpenFault>
    ensures count { OnOk result (IfSome call.now.pages (λ told.
        told ≡ page_count remains.now.log.front.log)) }
    ensures volume { OnOk result (HasNoOtherVolume (F.entries folder.now)) }
    ensures none { IfOk result (λ it. call.now.salvage ≡ false → it.0.claims.items ≡ []) }
    ensures whole { OnOk result (call.now.salvage ≡ false
        → LacksNothing (end_of remains.now.log.front.log)
        remains.now.others.note remains.now.others.manifest (spelled remains.now.others.master)
        remains.now.others.copies.items remains.now.log.bytes.items) }
{
    check_count(call, remains.log.front.log().page_count())?;
    check_volume(folder)?;
    check_forced_end(diagnostics, call, remains)
}

/// Whether the volume has as many pages as were told, if a count was told.
fn check_count(call: &OpenCall<'_>, there: u32) -> Result<(), OpenFault>
    ensures { OnOk result (IfSome call.now.pages (λ told. told ≡ there)) }
{
    match call.pages {
        Some(told) if told != there => Err(OpenFault::OtherCount { there, told }),
        _ => Ok(()),
    }
}

/// Weighs all that knows how far the log was forced. Where it lacks something that is a fault, or
/// it is told and answered where what is left is to be opened.
fn check_forced_end<D: Disk>(
    diagnostics: &Diagnostics<'_>,
    call: &OpenCall<'_>,
    remains: &Remains<D>,
) -> Result<(ForcedEndEvidence, Option<Sums>), OpenFault>
    ensures none { IfOk result (λ it. call.now.salvage ≡ false → it.0.claims.items ≡ []) }
    ensures whole { OnOk result (call.now.salvage ≡ false
        → LacksNothing (end_of remains.now.log.front.log)
        remains.now.others.note remains.now.others.manifest (spelled remains.now.others.master)
        remains.now.others.copies.items remains.now.log.bytes.items) }
    // A log that lacks nothing is not refused as one that does.
    ensures refused { IfErr result (λ fault. IsLost fault
        → ¬ LacksNothing (end_of remains.now.log.front.log)
        remains.now.others.note remains.now.others.manifest (spelled remains.now.others.master)
        remains.now.others.copies.items remains.now.log.bytes.items) }
{
    let (found, others) = (&remains.log, &remains.others);
    let (evidence, sums) = match evidence_of(
        diagnostics.alloc,
        &found.front,
        &found.bytes,
        others,
    ) {
        Ok(weighed) => weighed,
        Err(_) => return Err(OpenFault::OutOfMemory),
    };
    if evidence.is_none() {
        return Ok((evidence, sums));
    }
    if call.salvage {
        diagnostics.tell_evidence(&evidence);
        return Ok((evidence, sums));
    }
    Err(OpenFault::Lost(evidence))
}

/// Weighs all that knows how far a log was forced whose front in these bytes this is. Answers the
/// sum of the bytes that the manifest names, too, if the log has them.
pub fn evidence_of(
    alloc: Global,
    front: &Front,
    bytes: &[u8],
    others: &Others,
) -> Result<(ForcedEndEvidence, Option<Sums>), AllocError>
    ensures { IfOk result (λ it. (it.0.claims.items ≡ [])
        ↔ LacksNothing (end_of front.now.log) others.now.note others.now.manifest
        (spelled others.now.master) others.now.copies.items bytes.now) }
{
    let mut evidence = ForcedEndEvidence::new(alloc, front.log().end(), front.cut());
    evidence.weigh_note(others.note)?;
    let sums = evidence.weigh_manifest(log_line(&others.manifest), bytes)?;
    evidence.weigh_master(others.master.spelled())?;
    evidence.weigh_copies(&others.copies)?;
    evidence.weigh_bytes_behind(bytes)?;
    Ok((evidence, sums))
}

/// Goes on from what was found.
fn go_on<F: DatabaseFolder>(
    diagnostics: &Diagnostics<'_>,
    folder: &mut F,
    call: &OpenCall<'_>,
    found: FoundLog<FileLog<F::LogDisk>>,
    beside: (Others, DatabaseName),
) -> Result<ResumedDatabase<F::Volume, F::LogDisk>, ChangeFault>
    requires frames { IsFrameCount call.now.frames }
    requires lasting { LastsOnFile found.front.log found.device }
    requires claimed { F.is_claimed folder.old }
    ensures goes_on { IfOk result (λ it.
        GoesOnWith found.front.log beside.0.copies.items it.engine.state) }
    ensures frames { IfOk result (λ it. it.engine.state.frames ≡ call.now.frames) }
    ensures told { IfOk result (λ it. it.first ≡ told_of found.front.log it.engine.state) }
    ensures unread { IfOk result (λ it. it.unread.items ≡ ids_unread beside.0.copies.items) }
    // Its master record is to be put.
    ensures point { IfOk result (λ it.
        IsUnnamed found.front.log (spelled beside.0.master) it.point) }
    // What stands there instead is to be moved aside.
    ensures wrong { IfOk result (λ it.
        IsTrue it.is_master_wrong ↔ (¬ IsOfRecords found.front.log.records beside.0.master)) }
    ensures named { IfOk result (λ it. it.database ≡ beside.1) }
    ensures manifest { IfOk result (λ it. it.manifest ≡ beside.0.manifest) }
    ensures others { Changes (KeepsOthers VOLUME.now)
        (F.entries folder.old) (F.entries folder.new) }
    ensures claimed { F.is_claimed folder.new }
{
    let (others, database) = beside;
    let facts = Facts::of(&found.front, &others.master);
    let end = found.front.log().end();
    let (mut restarted, device) = restart_on(diagnostics.alloc, found)?;
    let first = facts.first_line(&restarted);
    let copies = others.copies;
    let (store, unread) = add_copies_and_volume(diagnostics, folder, &mut restarted, end, copies)?;
    let engine = restarted.into_engine(diagnostics.alloc, call.frames, store, device)?;
    Ok(ResumedDatabase {
        engine,
        first,
        point: facts.unnamed,
        is_master_wrong: facts.is_master_wrong,
        unread,
        database,
        manifest: others.manifest,
        sums: None,
    })
}

/// What is told of a log that was found.
#[derive(Clone, Copy)]
struct Facts {
    end: Lsn,
    /// How many transactions are open there.
    taken_back: usize,
    /// Its last complete checkpoint, where the master record does not name it.
    unnamed: Option<Point>,
    /// What stands as the master record names no checkpoint of it.
    is_master_wrong: bool,
}

impl Facts {
    fn of(front: &Front, master: &FoundMaster) -> Facts
        ensures log { IsLog front.now.log }
        ensures cut { result.end ≡ end_of front.now.log }
        ensures open { result.taken_back ≡ length (open_in front.now.log.records) }
        ensures unnamed { IsUnnamed front.now.log (spelled master.now) result.unnamed }
        ensures wrong { IsTrue result.is_master_wrong
            ↔ (¬ IsOfRecords front.now.log.records master.now) }
    {
        let log = front.log();
        let last = LogCheckpoints::of(front.analysis()).last;
        Facts {
            end: log.end(),
            taken_back: front.analysis().txns.open_count(),
            unnamed: if master.names(last) { None } else { last },
            is_master_wrong: !master.is_of(log.records()),
        }
    }

    /// The first line, once what was open in the log is taken back.
    fn first_line(&self, restarted: &Restarted) -> FirstLine
        ensures { result ≡ line.Restarted self.now.end self.now.taken_back
            (length restarted.now.log.records) }
    {
        FirstLine::Restarted {
            cut: self.end,
            taken_back: self.taken_back,
            records: restarted.records().len(),
        }
    }
}

/// Takes back what was open in a log that was found.
fn restart_on<D: Disk + Drop>(
    alloc: Global,
    found: FoundLog<FileLog<D>>,
) -> Result<(Restarted, FileLog<D>), ChangeFault>
    requires lasting { LastsOnFile found.front.log found.device }
    ensures log { IfOk result (λ it. it.0.log ≡ undone_log found.front.log) }
    ensures copies { IfOk result (λ it. it.0.copies ≡ []) }
    ensures lasting { IfOk result (λ it. LastsOnFile it.0.log it.1) }
{
    let FoundLog {
        front,
        bytes,
        device,
        ..
    } = found;
    drop(bytes);
    match restart(alloc, front, device) {
        Ok(it) => Ok(it),
        Err((fault, device)) => Err(ChangeFault::Restart(fault, code_of(device.error()))),
    }
}

/// Takes up the copies that are sound and know of nothing past the end that the log had, and makes
/// the volume. Answers the ids of copies that could not be read, too.
fn add_copies_and_volume<F: DatabaseFolder>(
    diagnostics: &Diagnostics<'_>,
    folder: &mut F,
    restarted: &mut Restarted,
    end: Lsn,
    copies: Vec<CopyFile>,
) -> Result<(F::Volume, Vec<u32>), ChangeFault>
    requires counted { IsPageCount (page_count restarted.old.log) }
    requires claimed { F.is_claimed folder.old }
    ensures log { restarted.new.log ≡ restarted.old.log }
    ensures taken { OnOk result (TakesUp end restarted.old copies.items restarted.new) }
    ensures unread { IfOk result (λ it. it.1.items ≡ ids_unread copies.items) }
    ensures store { IfOk result (λ it. F.Volume.stored it.0 ≡ restarted.new.pages) }
    ensures others { Changes (KeepsOthers VOLUME.now)
        (F.entries folder.old) (F.entries folder.new) }
    ensures claimed { F.is_claimed folder.new }
{
    let unread = take_up(diagnostics, restarted, end, copies)?;
    let pages = store_of(diagnostics.alloc, restarted.pages())?;
    match volume_of(folder, pages) {
        Ok(store) => Ok((store, unread)),
        Err(fault) => Err(fault),
    }
}
