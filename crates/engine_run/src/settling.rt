//! The end of a run: what its sessions were answered is compared with what it left.

ghost use Rattle.std.specs.Prelude.{◌≡◌, ◌≤◌, false, length, replicate, vec_len};
ghost use Rattle.std.specs.Prelude.{IfErr, IfOk, OnOk};
ghost use Rattle.std.specs.Option.{option_map};
ghost use Rattle.engine_rules.specs.EngineState.{log_of, master_record};
ghost use Rattle.settlement.specs.Volume.{AreOfVolume};
ghost use Rattle.engine_run.specs.Left.{IsLeftBy};
ghost use Rattle.engine_run.specs.Life.{BeginsBy};
ghost use Rattle.engine_run.specs.Settled.{AddUp, IsFaultOf, IsRefusalOf, IsSettled, IsWrongAt};
ghost use Rattle.engine_run.specs.Settled.{evidence, evidence_in, evidence_of};

use crate::beginning::Beginning;
use crate::check_ages::check_ages;
use crate::check_sessions::{add_up, check_sessions};
use crate::check_works::check_works;
use crate::fault::SettleFault;
use crate::held::Held;
use crate::life::Life;
use crate::opened::Opened;
use crate::room::Room;
use crate::session::Session;
use crate::settled::Settled;
use crate::shared::Shared;
use crate::work::Work;
use copy_coverage::Retired;
use copy_vault::Vault;
use engine_rules::the_log_only_grows;
use log_store::LogDevice;
use page_core::Lsn;
use page_store::PageStore;
use settlement::CountedLog;
use std::alloc::Global;

/// What `settle` gives back where it is refused: all that it was given, and why. The shared engine
/// is out of its lock, where contracts see it. `Opened::into_shared` puts it behind one again.
#[derive(Drop)]
pub struct Unsettled<S: PageStore, D: LogDevice, G: Life> {
    pub sessions: Vec<Session<G>>,
    pub shared: Opened<S, D, G>,
    pub fault: SettleFault,
}

impl<S: PageStore, D: LogDevice, G: Life> Held<S, D, G> {
    /// Checks whether the run of these sessions, checkpoints and copies is settled, where `began`
    /// was there before: the shares add up to the records of transactions that the log has got
    /// since, each receipt stands, and so does each Point and copy, none of their records and no
    /// copy is older, and nothing was answered twice. The shares are compared first; all memory is
    /// taken then.
    pub fn check(
        &self,
        alloc: Global,
        began: Beginning,
        sessions: &[Session<G>],
        works: &[Work],
    ) -> Result<(), SettleFault>
        ensures ok { OnOk result
            (IsSettled began (evidence_of self.now.engine.state) sessions.now works.now) }
        ensures err { IfErr result
            (IsFaultOf began (evidence_of self.now.engine.state) sessions.now works.now) }
    {
        let log = self.engine.log();
        let records = log.records();
        if !add_up(began.records, sessions, records) {
            return Err(SettleFault::Unsettled(Lsn(0)));
        }
        let Ok(room) = Room::new(alloc, log.pages(), records.len()) else {
            return Err(SettleFault::OutOfMemory);
        };
        let Ok(counted) = CountedLog::new(alloc, log.header_pages(), records) else {
            return Err(SettleFault::OutOfMemory);
        };
        // A fit engine has no more copies than there are ids.
        let _end = self.engine.log_end();
        let copies = self.engine.copies();
        let forced_end = log.forced_end();
        match check_answers(room, began, &counted, forced_end, copies, sessions, works) {
            Ok(()) => Ok(()),
            Err(at) => Err(SettleFault::Unsettled(at)),
        }
    }
}

/// Checks what sessions, checkpoints and copies were answered against what a run left.
fn check_answers<G: Life>(
    room: Room,
    began: Beginning,
    log: &CountedLog<'_>,
    forced_end: Lsn,
    vault: &Vault,
    sessions: &[Session<G>],
    works: &[Work],
) -> Result<(), Lsn>
    requires log { AreOfVolume (length room.pages.items) log.now.records }
    requires marks { room.marks.items ≡ replicate (length log.now.records) false }
    requires ids { room.copies.items ≡ replicate 1025 false }
    requires few { length vault.now.copies ≤ 1024 }
    requires counted { AddUp began.records sessions.now log.now.records }
    ensures ok { let e = evidence log.now forced_end vault.now.copies in
        OnOk result (IsSettled began e sessions.now works.now) }
    ensures err { let e = evidence log.now forced_end vault.now.copies in
        IfErr result (IsWrongAt began e sessions.now works.now) }
{
    let Room {
        mut pages,
        mut marks,
        mut copies,
    } = room;
    if let Err(at) = check_ages(began, sessions, works) {
        return Err(at);
    }
    let marks = marks.as_mut_slice();
    let records = log.records();
    if let Err(at) = check_sessions(&mut pages, marks, records, forced_end, sessions) {
        return Err(at);
    }
    if let Err(at) = check_works(marks, &mut copies, log, forced_end, vault, works) {
        return Err(at);
    }
    Ok(())
}

impl<S: PageStore + Drop, D: LogDevice + Drop, G: Life> Held<S, D, G> {
    /// Ends the engine, as `Engine::retire` does, and its book.
    pub fn retire(self) -> Retired
        ensures log { result.log ≡ log_of self.engine.state }
        ensures forced_end { result.forced_end ≡ self.engine.state.forced_end }
        ensures master { result.master ≡ option_map master_record self.engine.state.master }
        ensures copies { result.copies ≡ self.engine.state.copies }
    {
        let (retired, _, _) = self.into_parts();
        retired
    }

    /// As `retire`, but the store and the device are handed back, as they are: neither is called.
    pub fn into_parts(self) -> (Retired, S, D)
        ensures log { result.0.log ≡ log_of self.engine.state }
        ensures forced_end { result.0.forced_end ≡ self.engine.state.forced_end }
        ensures master { result.0.master ≡ option_map master_record self.engine.state.master }
        ensures copies { result.0.copies ≡ self.engine.state.copies }
        ensures store { result.1 ≡ self.engine.store }
        ensures device { result.2 ≡ self.engine.device }
        ensures left { IsLeftBy S.PageStore D.LogDevice G.before result.0 result.1 result.2 }
        ensures begins { BeginsBy G.before result.0.log.records }
    {
        the_log_only_grows();
        let Held { engine, book: _ } = self;
        let _ = engine.log_end();
        let _ = engine.log();
        engine.into_parts()
    }
}

impl<S: PageStore, D: LogDevice, G: Life> Opened<S, D, G> {
    /// Checks whether all sessions that were made are given, and then, as `Held::check` does,
    /// whether the run is settled.
    fn check_whole(
        &self,
        alloc: Global,
        sessions: &[Session<G>],
        works: &[Work],
    ) -> Result<(), SettleFault>
        ensures all { OnOk result (length sessions.now ≡ self.now.sessions) }
        ensures ok { OnOk result (IsSettled self.now.began
            (evidence_of self.now.held.engine.state) sessions.now works.now) }
        ensures err { IfErr result (IsRefusalOf self.now.sessions self.now.began
            (evidence_of self.now.held.engine.state) sessions.now works.now) }
    {
        if sessions.len() != self.sessions() as usize {
            return Err(SettleFault::Unsettled(Lsn(0)));
        }
        self.held().check(alloc, self.began(), sessions, works)
    }
}

/// Ends the run of a shared engine, where it is settled: then its log has got each record of a
/// transaction that a session was answered, and no others, since it began. What was under the lock
/// is compared with the receipts of the sessions, and with what its checkpoints and copies
/// answered. A session that was made and is not given is not compared: if it has appended a
/// record, the shares do not add up. Where it is refused, all is given back, and the engine can go
/// on.
pub fn settle<S: PageStore + Drop, D: LogDevice + Drop, G: Life>(
    alloc: Global,
    sessions: Vec<Session<G>>,
    works: &[Work],
    shared: Shared<S, D, G>,
) -> Result<Retired, Unsettled<S, D, G>>
    ensures settled { IfOk result (λ left.
        IsSettled shared.began (evidence_in left) sessions.items works.now) }
    ensures begins { IfOk result (λ left. BeginsBy G.before left.log.records) }
    ensures sessions { IfErr result (λ back. back.sessions ≡ sessions) }
    ensures shared { IfErr result (λ back. back.shared.sessions ≡ shared.sessions) }
    ensures began { IfErr result (λ back. back.shared.began ≡ shared.began) }
    ensures fault { IfErr result (λ back. IsFaultOf shared.began
        (evidence_of back.shared.held.engine.state) back.sessions.items works.now back.fault) }
{
    let shared = Opened::new(shared);
    let began = shared.began();
    match shared
        .held()
        .check(alloc, began, sessions.as_slice(), works)
    {
        Ok(()) => {
            let (retired, _, _) = shared.into_parts();
            Ok(retired)
        }
        Err(fault) => Err(Unsettled {
            sessions,
            shared,
            fault,
        }),
    }
}

/// Ends a run as `settle` does, and hands the sessions with their receipts, the store and the
/// device back, too. All sessions that were made have to be given: where one is missing, it answers
/// `Unsettled` with 0.
pub fn settle_whole<S: PageStore + Drop, D: LogDevice + Drop, G: Life>(
    alloc: Global,
    sessions: Vec<Session<G>>,
    works: &[Work],
    shared: Shared<S, D, G>,
) -> Result<Settled<S, D, G>, Unsettled<S, D, G>>
    ensures settled { IfOk result (λ left.
        IsSettled shared.began (evidence_in left.retired) sessions.items works.now) }
    ensures receipts { IfOk result (λ left. left.sessions ≡ sessions) }
    ensures all { OnOk result (vec_len sessions ≡ shared.sessions) }
    ensures begins { IfOk result (λ left. BeginsBy G.before left.retired.log.records) }
    ensures devices { IfOk result (λ left.
        IsLeftBy S.PageStore D.LogDevice G.before left.retired left.store left.device) }
    ensures sessions { IfErr result (λ back. back.sessions ≡ sessions) }
    ensures shared { IfErr result (λ back. back.shared.sessions ≡ shared.sessions) }
    ensures began { IfErr result (λ back. back.shared.began ≡ shared.began) }
    ensures fault { IfErr result (λ back. IsRefusalOf shared.sessions shared.began
        (evidence_of back.shared.held.engine.state) back.sessions.items works.now back.fault) }
{
    let shared = Opened::new(shared);
    match shared.check_whole(alloc, sessions.as_slice(), works) {
        Ok(()) => {
            let (retired, store, device) = shared.into_parts();
            Ok(Settled {
                retired,
                sessions,
                store,
                device,
            })
        }
        Err(fault) => Err(Unsettled {
            sessions,
            shared,
            fault,
        }),
    }
}
