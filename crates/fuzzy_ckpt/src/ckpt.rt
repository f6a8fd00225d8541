//! The sessions of a fuzzy checkpoint.

ghost use Rattle.log_store.specs.Stores.{ForceFails, Forced};
ghost use Rattle.std.specs.Prelude.{ℕ, ◌≡◌, ◌+◌, ◌<◌, ◌≤◌, ◌↔◌, List, [], ◌∷◌, length, min, true};
ghost use Rattle.std.specs.Prelude.{IfOk, IfErr, IfSome, IsSome, IsSomeAnd, IsTrue, OnOk, OnErr};
ghost use Rattle.std.specs.List.{fold};
ghost use Rattle.page_core.specs.declared.page.Page.{Page};
ghost use Rattle.page_core.specs.declared.page.TheConstants.{MAX_PAGES};
ghost use Rattle.log_records.specs.declared.limits.TheConstants.{MAX_RECORDS};
ghost use Rattle.log_records.specs.declared.record.Record.{Record};
ghost use Rattle.log_records.specs.declared.record.Record.TheVariants.{BeginChkpt};
ghost use Rattle.log_records.specs.DirtyPage.{entries_of};
ghost use Rattle.log_records.specs.Log.{IsLog, Log as LogValue, StandsAt, page_count};
ghost use Rattle.log_records.specs.Log.{page_count_below, with_next};
ghost use Rattle.log_records.specs.Record.{IsOfCheckpoint};
ghost use Rattle.log_rules.specs.Checkpoint.{IsCompleteCheckpoint, open_checkpoint, redo_point};
ghost use Rattle.log_rules.specs.Linked.{MayFollow};
ghost use Rattle.log_rules.specs.Table.{entry_of};
ghost use Rattle.log_rules.specs.Transactions.{is_open};
ghost use Rattle.txn_table.specs.TxnState.{state_of};
ghost use Rattle.log_store.specs.WrittenLog.{EndsAtRecord};
ghost use Rattle.buffer_pool.specs.Pool.{IsPoolOf, written_of};
ghost use Rattle.txn_table.specs.TxnTable.{IsTableOf};
ghost use Rattle.fuzzy_ckpt.specs.Ckpt.{AllCover, AreCovered, IsCkptOf, gathered, gathered_ckpt};
ghost use Rattle.fuzzy_ckpt.specs.Ckpt.{pages_ckpt};
ghost use Rattle.fuzzy_ckpt.specs.Ckpt.{txns_ckpt};
ghost use Rattle.fuzzy_ckpt.specs.Steps.{HasRoomForStep, end_of, end_record, last_page, new_ckpt};
ghost use Rattle.fuzzy_ckpt.specs.Steps.{pages_step, txn_record, txns_step, with_step};
ghost use Rattle.fuzzy_ckpt.specs.Answers.{FailsAs, IsLogFault, after_pages, after_txns};

use crate::phase::{Gathered, Pages, Txns};
use crate::point::{FinishFault, Point};
use buffer_pool::Pool;
use log_records::{DirtyPages, Record};
use log_store::{Log, LogDevice};
use page_core::{Lsn, PageNo, TxnNo};
use page_store::PageStore;
use std::alloc::AllocError;
use std::marker::Model;
use txn_table::{TxnState, TxnTable};

/// A fuzzy checkpoint that is being taken (ARIES, section 5.4). It is `Ckpt<Pages>` while it
/// gathers dirty pages, `Ckpt<Txns>` while it gathers open transactions, and `Ckpt<Gathered>` once
/// it has passed all of both. Others change pages and end writes meanwhile.
#[derive(Drop)]
pub struct Ckpt<P> {
    begin: Lsn,
    /// The page count of the volume at `begin`.
    pages: u32,
    /// The least of `begin` and the RecLSNs gathered so far.
    redo: Lsn,
    phase: P,
}

impl<P> Model for Ckpt<P> {
    ghost use Rattle.fuzzy_ckpt.specs.Ckpt.{CkptView};

    ghost Value = { CkptView P };

    ghost view = { λ it. record {
      begin = it.begin;
      pages = it.pages;
      redo = it.redo;
      phase = it.phase;
    } };
}

/// What a step over pages leaves.
#[derive(Drop)]
pub enum PagesStep {
    /// Pages were gathered, and there may be more.
    More(Ckpt<Pages>),
    /// No page was left.
    Passed(Ckpt<Txns>),
}

/// What a step over transactions leaves.
#[derive(Drop)]
pub enum TxnsStep {
    /// A transaction was gathered, and there may be more.
    More(Ckpt<Txns>),
    /// None was left.
    Passed(Ckpt<Gathered>),
}

impl Ckpt<Pages> {
    /// Begins a checkpoint: appends its BeginChkpt. `AllocError` comes where memory is refused.
    pub fn begin<D: LogDevice>(log: &mut Log<D>) -> Result<Ckpt<Pages>, AllocError>
        requires closed { open_checkpoint log.old.log.records ≡ None }
        requires few { length log.old.log.records < MAX_RECORDS }

        ensures begun { IfOk result (λ c. pages_ckpt c ≡ new_ckpt log.old.log) }
        ensures logged { OnOk result (log.new.log
            ≡ with_next log.old.log (BeginChkpt (end_of log.old.log.records) ∷ [])) }
        ensures ckpt { IfOk result (λ c. IsCkptOf log.new.log (pages_ckpt c)) }
        ensures covered { IfOk result (λ c. (stored : List Page)
            → AreCovered log.new.log.records stored (pages_ckpt c)) }

        ensures refused { OnErr result (log.new.log ≡ log.old.log) }
        ensures valid { IsLog log.new.log }
        ensures forced_end { log.new.forced_end ≡ log.old.forced_end }
        ensures device { log.new.device ≡ log.old.device }
    {
        let begin = log.end();
        let pages = log.pages();
        append(log, Record::BeginChkpt { lsn: begin })?;
        Ok(Ckpt {
            begin,
            pages,
            redo: begin,
            phase: Pages { from: PageNo(0) },
        })
    }

    /// Gathers the next dirty pages, at most three, into one record. Where none is left, it appends
    /// nothing, and transactions come next. `Err` comes where memory is refused.
    pub fn pages<S: PageStore, D: LogDevice>(
        self,
        log: &mut Log<D>,
        pool: &Pool<S>,
    ) -> Result<PagesStep, Ckpt<Pages>>
        requires ckpt { IsCkptOf log.old.log (pages_ckpt self) }
        requires pool { IsPoolOf S.stored log.old.log pool.now }
        requires covered { AreCovered log.old.log.records (S.stored pool.now.store)
            (pages_ckpt self) }
        requires room { HasRoomForStep log.old.log.records (pages_step log.old.log.records
            (written_of pool.now.states) self.phase (pages_ckpt self)).next }

        ensures gathered { IfOk result (λ step. after_pages step ≡ (pages_step log.old.log.records
            (written_of pool.now.states) self.phase (pages_ckpt self)).ckpt) }
        ensures logged { OnOk result (log.new.log
            ≡ with_step log.old.log (pages_step log.old.log.records
            (written_of pool.now.states) self.phase (pages_ckpt self)).next) }
        ensures follows { IfSome (pages_step log.old.log.records
            (written_of pool.now.states) self.phase (pages_ckpt self)).next
            (MayFollow log.old.log.records) }
        ensures ckpt { IfOk result (λ step. IsCkptOf log.new.log (after_pages step)) }
        ensures covered { IfOk result (λ step.
            AreCovered log.new.log.records (S.stored pool.now.store) (after_pages step)) }

        ensures refused { IfErr result (λ c. c ≡ self) }
        // Memory is taken for a record alone.
        ensures appends { OnErr result (IsSome (pages_step log.old.log.records
            (written_of pool.now.states) self.phase (pages_ckpt self)).next) }
        ensures same { OnErr result (log.new.log ≡ log.old.log) }
        ensures valid { IsLog log.new.log }
        ensures forced_end { log.new.forced_end ≡ log.old.forced_end }
        ensures device { log.new.device ≡ log.old.device }
    {
        let Ckpt {
            begin,
            pages,
            redo,
            phase,
        } = self;
        let Some(dirty) = pool.dirty_from(phase.from) else {
            return Ok(PagesStep::Passed(Ckpt {
                begin,
                pages,
                redo,
                phase: Txns { from: TxnNo(0) },
            }));
        };
        let lsn = log.end();
        let next = Record::ChkptPages {
            lsn,
            begin,
            pages: dirty,
        };
        match append(log, next) {
            Ok(()) => Ok(PagesStep::More(Ckpt {
                begin,
                pages,
                redo: least_of(redo, dirty),
                phase: Pages {
                    from: behind(dirty),
                },
            })),
            Err(_) => Err(Ckpt {
                begin,
                pages,
                redo,
                phase,
            }),
        }
    }

    /// Whether `pages` would append a record: whether a dirty page is left.
    pub fn would_append<S: PageStore>(&self, pool: &Pool<S>) -> bool
        ensures { (log : LogValue) → IsPoolOf S.stored log pool.now → IsTrue result
            ↔ IsSome (pages_step log.records (written_of pool.now.states) self.now.phase
            (pages_ckpt self.now)).next }
    {
        pool.dirty_from(self.phase.from).is_some()
    }
}

impl Ckpt<Txns> {
    /// Whether `txns` would append a record: whether an open transaction is left.
    pub fn would_append(&self, table: &TxnTable) -> bool
        ensures { (rs : List Record) → IsTableOf rs table.now.table → IsTrue result
            ↔ IsSome (txns_step rs self.now.phase (txns_ckpt self.now)).next }
    {
        table.next_from(self.phase.from).is_some()
    }

    /// Gathers the open transaction with the least number that was not passed yet into one record.
    /// Where none is left, it appends nothing, and all is gathered. `Err` comes where memory is
    /// refused.
    pub fn txns<D: LogDevice>(
        self,
        log: &mut Log<D>,
        table: &TxnTable,
    ) -> Result<TxnsStep, Ckpt<Txns>>
        requires ckpt { IsCkptOf log.old.log (txns_ckpt self) }
        requires table { IsTableOf log.old.log.records table.now.table }
        requires room { HasRoomForStep log.old.log.records
            (txns_step log.old.log.records self.phase (txns_ckpt self)).next }

        ensures gathered { IfOk result (λ step. after_txns step
            ≡ (txns_step log.old.log.records self.phase (txns_ckpt self)).ckpt) }
        ensures logged { OnOk result (log.new.log ≡ with_step log.old.log
            (txns_step log.old.log.records self.phase (txns_ckpt self)).next) }
        ensures follows { IfSome (txns_step log.old.log.records self.phase (txns_ckpt self)).next
            (MayFollow log.old.log.records) }
        ensures ckpt { IfOk result (λ step. IsCkptOf log.new.log (after_txns step)) }
        ensures covered { IfOk result (λ step. (stored : List Page)
            → AreCovered log.old.log.records stored (txns_ckpt self)
            → AreCovered log.new.log.records stored (after_txns step)) }

        ensures refused { IfErr result (λ c. c ≡ self) }
        // Memory is taken for a record alone.
        ensures appends { OnErr result
            (IsSome (txns_step log.old.log.records self.phase (txns_ckpt self)).next) }
        ensures same { OnErr result (log.new.log ≡ log.old.log) }
        ensures valid { IsLog log.new.log }
        ensures forced_end { log.new.forced_end ≡ log.old.forced_end }
        ensures device { log.new.device ≡ log.old.device }
    {
        let Ckpt {
            begin,
            pages,
            redo,
            phase,
        } = self;
        let lsn = end_of(log);
        let Some(state) = table.next_from(phase.from) else {
            return Ok(TxnsStep::Passed(Ckpt {
                begin,
                pages,
                redo,
                phase: Gathered,
            }));
        };
        let next = txn_record(table, lsn, begin, &state);
        match append(log, next) {
            Ok(()) => Ok(TxnsStep::More(Ckpt {
                begin,
                pages,
                redo,
                phase: Txns {
                    from: next_number(state.txn),
                },
            })),
            Err(_) => Err(Ckpt {
                begin,
                pages,
                redo,
                phase,
            }),
        }
    }
}

impl Ckpt<Gathered> {
    /// One that a log has as far as this: its begin, the page count of the volume there, and its redo
    /// point so far.
    pub(crate) fn found(begin: Lsn, pages: u32, redo: Lsn) -> Ckpt<Gathered>
        ensures { gathered_ckpt result
            ≡ record { begin = begin; pages = pages; redo = redo; phase = gathered } }
    {
        Ckpt {
            begin,
            pages,
            redo,
            phase: Gathered,
        }
    }

    /// Ends the checkpoint: appends its EndChkpt with the redo point, and forces the log through
    /// it. The pool says which pages are stored; this call reads none. The master record is for the
    /// caller to set, once this has answered `Ok`.
    pub fn finish<S: PageStore, D: LogDevice>(
        self,
        log: &mut Log<D>,
        pool: &Pool<S>,
    ) -> Result<Point, FinishFault>
        requires ckpt { IsCkptOf log.old.log (gathered_ckpt self) }
        requires covered { AreCovered log.old.log.records (S.stored pool.now.store)
            (gathered_ckpt self) }
        requires few { length log.old.log.records < MAX_RECORDS }

        ensures point { IfOk result (λ point. point ≡ record {
          begin = self.begin;
          end = end_of log.old.log.records;
          redo = self.redo;
          pages = self.pages;
        }) }
        ensures pages { IfOk result (λ point.
            point.pages ≡ page_count_below log.new.log point.begin) }
        ensures least { IfOk result (λ point. IsSomeAnd (open_checkpoint log.old.log.records)
            (λ c. point.redo ≡ redo_point c)) }
        ensures stored { IfOk result (λ point.
            AllCover log.new.log.records (S.stored pool.now.store) point.redo) }
        ensures complete { IfOk result (λ point.
            IsCompleteCheckpoint log.new.log.records point.begin point.end) }
        ensures order { IfOk result (λ point. (point.redo ≤ point.begin)
            × (point.begin < point.end)) }
        ensures forced { OnOk result (log.new.forced_end ≡ end_of log.new.log.records) }
        ensures logged { OnOk result (log.new.log
            ≡ with_next log.old.log (end_record log.old.log.records self ∷ [])) }
        ensures follows { MayFollow log.old.log.records (end_record log.old.log.records self) }

        ensures called { OnOk result (Forced D.called D.synced log.old log.new) }

        ensures failed { IfErr result (FailsAs log.old log.new self) }
        ensures last_call { IfErr result (λ why. IsLogFault why
            → ForceFails D.called D.synced log.old log.new) }
        ensures no_failure { OnOk result (D.failures log.new.device ≡ D.failures log.old.device) }
        ensures cause { IfErr result (λ why. IsLogFault why
            → D.failures log.old.device < D.failures log.new.device) }
        ensures same_bound { D.fails_from log.new.device ≡ D.fails_from log.old.device }
        ensures past_bound { IfErr result (λ why. IsLogFault why
            → D.fails_from log.old.device ≤ end_of log.new.log.records) }
        ensures valid { IsLog log.new.log }
    {
        let lsn = end_of(log);
        let redo = self.redo;
        let next = Record::EndChkpt {
            lsn,
            begin: self.begin,
            redo,
        };
        if append(log, next).is_err() {
            return Err(FinishFault::OutOfMemory(self));
        }
        match log.force_to(lsn) {
            Ok(()) => Ok(Point {
                begin: self.begin,
                end: lsn,
                redo,
                pages: self.pages,
            }),
            Err(_) => Err(FinishFault::LogFault),
        }
    }
}

/// Appends a record of a checkpoint.
fn append<D: LogDevice>(log: &mut Log<D>, next: Record) -> Result<(), AllocError>
    requires stands { StandsAt (page_count log.old.log) (end_of log.old.log.records) next }
    requires kind { IsOfCheckpoint next }
    requires few { length log.old.log.records < MAX_RECORDS }

    ensures ok { OnOk result (log.new.log ≡ with_next log.old.log (next ∷ [])) }
    ensures err { OnErr result (log.new.log ≡ log.old.log) }
    ensures valid { IsLog log.new.log }
    ensures forced_end { log.new.forced_end ≡ log.old.forced_end }
    ensures device { log.new.device ≡ log.old.device }
{
    let _end = end_of(log);
    log.make_room()?;
    log.append(next);
    Ok(())
}

/// The least of an LSN and the RecLSNs of some dirty pages.
fn least_of(redo: Lsn, pages: DirtyPages) -> Lsn
    ensures { result ≡ fold (λ least e. min least e.rec_lsn) redo (entries_of pages) }
{
    match pages {
        DirtyPages::One(a) => Lsn(redo.0.min(a.rec_lsn)),
        DirtyPages::Two(a, b) => Lsn(redo.0.min(a.rec_lsn).min(b.rec_lsn)),
        DirtyPages::Three(a, b, c) => { Lsn(redo.0.min(a.rec_lsn).min(b.rec_lsn).min(c.rec_lsn)) }
    }
}

/// The page number behind the last of some dirty pages.
fn behind(pages: DirtyPages) -> PageNo
    requires { last_page pages < MAX_PAGES }
    ensures { result ≡ last_page pages + 1 }
{
    let (DirtyPages::One(last) | DirtyPages::Two(_, last) | DirtyPages::Three(_, _, last)) = pages;
    PageNo(last.page + 1)
}

/// The record of an open transaction.
fn txn_record(table: &TxnTable, lsn: Lsn, begin: Lsn, state: &TxnState) -> Record
    ensures { (rs : List Record) → IsTableOf rs table.now.table → lsn ≡ end_of rs
        → is_open rs state.now.txn ≡ true → state.now ≡ state_of (entry_of rs state.now.txn)
        → result ≡ txn_record rs begin state.now.txn }
{
    let undo_next = match table.last_pending(state.txn) {
        Some(last) => last.lsn,
        None => state.first,
    };
    Record::ChkptTxns {
        lsn,
        begin,
        txn: state.txn,
        state: state.phase(),
        last: state.last,
        undo_next,
    }
}

/// The number behind a transaction's.
fn next_number(txn: TxnNo) -> TxnNo
    requires { txn ≤ MAX_RECORDS }
    ensures { result ≡ txn + 1 }
{
    TxnNo(txn.0 + 1)
}

/// The LSN that the next record has.
fn end_of<D: LogDevice>(log: &Log<D>) -> Lsn
    ensures end { result ≡ end_of log.now.log.records }
    ensures valid { IsLog log.now.log }
{
    // That the log is valid is seen where its records are read.
    let _records = log.records();
    log.end()
}
