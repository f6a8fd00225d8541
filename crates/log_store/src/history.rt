//! Replays a log while it is read. The records so far have led to a state of transactions,
//! checkpoints and pages, and that state decides whether the next record may follow.

ghost use Rattle.std.specs.Prelude.{◌↔◌, length, IsTrue, MatchOption};
ghost use Rattle.log_records.specs.Log.{IsWithin};
ghost use Rattle.log_records.specs.PageCount.{GivesMore};
ghost use Rattle.log_records.specs.Record.{IsRecord};
ghost use Rattle.log_rules.specs.History.{NamesNumberOn};
ghost use Rattle.log_store.specs.BrokenRule.{IsBrokenOn};

use crate::analysis::Analysis;
use crate::broken_rule::{BrokenRule, rule_of_txns};
use crate::checkpoints::Checkpoints;
use log_records::{Record, redo_on_its_page};
use page_core::{
    Change, GivenCount, Page, PageCounts, PageNo, SlotNo, formatted_pages, grow_reserved,
};
use std::alloc::{AllocError, Global};
use std::marker::Model;
use txn_table::OpenTransactions;

/// The state to which the records of a log lead: its open transactions, its checkpoints, its page
/// counts, and its pages with the changes of all records (ARIES, sections 3, 5.4 and 6.2).
#[derive(Drop)]
pub struct History {
    txns: OpenTransactions,
    checkpoints: Checkpoints,
    counts: PageCounts,
    pages: Vec<Page>,
}

impl Model for History {
    ghost use Rattle.log_rules.specs.History.{Made};
    ghost use Rattle.log_records.specs.Image.{AreNumbered};

    ghost Value = { Made };

    ghost view = { λ history. record {
      table = history.txns.table;
      checkpoints = history.checkpoints;
      counts = history.counts;
      pages = history.pages.items;
    } };

    ghost invariant = { λ history. AreNumbered history.pages.items };
}

impl History {
    ghost use Rattle.std.specs.Prelude.{ℕ, ◌≡◌, ◌↔◌, [], length, IfOk, IfSome, IsTrue, None, OnErr};
    ghost use Rattle.log_records.specs.declared.record.Record.TheVariants.{Extend};
    ghost use Rattle.log_rules.specs.History.{IsMadeOf, MayComeNext, followed};
    ghost use Rattle.log_records.specs.Log.{IsWithin, Log};
    ghost use Rattle.log_store.specs.Analysis.{IsAnalysisOf};
    ghost use Rattle.log_store.specs.BrokenRule.{IsBroken};
    ghost use Rattle.log_records.specs.Record.{IsOfCheckpoint, IsOfTransaction, IsRecord};

    /// What the empty log of so many pages makes: no transaction, and formatted pages. An `Err`
    /// comes where memory for the pages is refused.
    pub fn start(alloc: Global, pages: u32) -> Result<History, AllocError>
        ensures { IfOk result (IsMadeOf (record { pages = pages; records = [] })) }
    {
        Ok(History {
            txns: OpenTransactions::new(alloc),
            checkpoints: Checkpoints::new(alloc),
            counts: PageCounts::new(alloc, pages),
            pages: formatted_pages(alloc, pages)?,
        })
    }

    /// The pages, in order of their numbers, with the changes of all records so far.
    pub fn pages(&self) -> &[Page]
        ensures { result.now ≡ self.now.pages }
    {
        &self.pages
    }

    /// What the records so far answer, in parts.
    pub fn into_analysis(self) -> Analysis
        ensures { (log : Log) → IsMadeOf log self → IsAnalysisOf log result }
    {
        let History {
            txns,
            checkpoints,
            counts,
            pages,
        } = self;
        Analysis {
            records: checkpoints.records(),
            txns,
            begun: checkpoints.begun(),
            complete: checkpoints.into_complete(),
            counts,
            pages,
        }
    }

    /// Prefetches what a change of a slot will look at. For a slot that is not there it does
    /// nothing. What it answers says nothing, but a compiler must keep the look for it.
    pub fn look(&self, page: PageNo, slot: SlotNo) -> u64 {
        let seen = match self.pages.get(page.0 as usize) {
            Some(page) => page.lsn.0 ^ *page.slots.get(slot.0 as usize).unwrap_or(&0),
            None => 0,
        };
        seen ^ self.txns.look(page, slot) as u64
    }

    /// Takes the next record if it may come next, and answers whether it may. Where it may not,
    /// nothing changes. An `Err` comes where room for the tables is refused, and changes nothing
    /// either.
    #[inline(always)]
    pub fn follow(&mut self, next: &Record) -> Result<bool, AllocError>
        requires valid { IsRecord next.now }
        requires within { IsWithin (length self.old.pages) next.now }
        ensures taken { IfOk result (λ may. IsTrue may
            → MayComeNext self.old next.now × (self.new ≡ followed self.old next.now)) }
        ensures refused { IfOk result (λ may. MayComeNext self.old next.now → IsTrue may) }
        ensures same { IfOk result (λ may. ¬ IsTrue may → self.new ≡ self.old) }
        ensures err { OnErr result (self.new ≡ self.old) }
    {
        match *next {
            Record::BeginChkpt { .. }
            | Record::ChkptPages { .. }
            | Record::ChkptTxns { .. }
            | Record::EndChkpt { .. } => self.follow_checkpoint(next),
            Record::Begin { .. }
            | Record::Update { .. }
            | Record::Comp { .. }
            | Record::Commit { .. }
            | Record::Abort { .. }
            | Record::End { .. } => self.follow_transaction(next),
            Record::Extend { pages, .. } => self.follow_extend(next, pages),
        }
    }

    /// The rule that a record breaks, so that it may not come next; None where it may.
    pub fn broken_rule(&self, next: &Record) -> Option<BrokenRule>
        requires valid { IsRecord next.now }
        requires within { IsWithin (length self.now.pages) next.now }
        ensures none { result ≡ None ↔ MayComeNext self.now next.now }
        ensures broken { IfSome result (IsBroken self.now next.now) }
    {
        if !self.checkpoints.may_note(&self.txns, next) {
            return Some(BrokenRule::Checkpoint);
        }
        match rule_of_txns(&self.txns, next) {
            Some(rule) => Some(rule),
            None => rule_of_pages(&self.pages, next),
        }
    }

    /// Follows an Extend, which gives the volume so many pages, if it may come next.
    fn follow_extend(&mut self, next: &Record, pages: u32) -> Result<bool, AllocError>
        requires kind { (lsn : ℕ) × (next.now ≡ Extend lsn pages) }
        ensures taken { IfOk result (λ may. IsTrue may
            → MayComeNext self.old next.now × (self.new ≡ followed self.old next.now)) }
        ensures refused { IfOk result (λ may. MayComeNext self.old next.now → IsTrue may) }
        ensures same { IfOk result (λ may. ¬ IsTrue may → self.new ≡ self.old) }
        ensures err { OnErr result (self.new ≡ self.old) }
    {
        let present = self.pages.len();
        if pages as usize <= present {
            return Ok(false);
        }
        self.pages.reserve(pages as usize - present)?;
        self.checkpoints.note(next)?;
        let lsn = next.lsn();
        if let Err(refused) = self.counts.note(GivenCount { lsn, pages }) {
            self.checkpoints.take_back();
            return Err(refused);
        }
        grow_reserved(&mut self.pages, pages);
        Ok(true)
    }

    /// Follows a checkpoint's record, which changes no page, if it may come next.
    #[inline(always)]
    fn follow_checkpoint(&mut self, next: &Record) -> Result<bool, AllocError>
        requires valid { IsRecord next.now }
        requires kind { IsOfCheckpoint next.now }
        ensures taken { IfOk result (λ may. IsTrue may
            → MayComeNext self.old next.now × (self.new ≡ followed self.old next.now)) }
        ensures refused { IfOk result (λ may. MayComeNext self.old next.now → IsTrue may) }
        ensures same { IfOk result (λ may. ¬ IsTrue may → self.new ≡ self.old) }
        ensures err { OnErr result (self.new ≡ self.old) }
    {
        if !self.txns.may_note(next) || !self.checkpoints.may_note(&self.txns, next) {
            return Ok(false);
        }
        self.checkpoints.note(next)?;
        Ok(true)
    }

    /// Follows a transaction's record, if it may come next.
    #[inline(always)]
    fn follow_transaction(&mut self, next: &Record) -> Result<bool, AllocError>
        requires valid { IsRecord next.now }
        requires within { IsWithin (length self.old.pages) next.now }
        requires kind { IsOfTransaction next.now }
        ensures taken { IfOk result (λ may. IsTrue may
            → MayComeNext self.old next.now × (self.new ≡ followed self.old next.now)) }
        ensures refused { IfOk result (λ may. MayComeNext self.old next.now → IsTrue may) }
        ensures same { IfOk result (λ may. ¬ IsTrue may → self.new ≡ self.old) }
        ensures err { OnErr result (self.new ≡ self.old) }
    {
        if !names_number_on(&self.pages, next) {
            return Ok(false);
        }
        self.checkpoints.note_page(next)?;
        match self.txns.note_if_may(next) {
            Ok(true) => {}
            refused => {
                self.checkpoints.take_back();
                return refused;
            }
        }
        redo_on_its_page(&mut self.pages, next);
        Ok(true)
    }
}

/// The rule of pages that a record breaks; None where they let it come next.
fn rule_of_pages(pages: &[Page], next: &Record) -> Option<BrokenRule>
    requires valid { IsRecord next.now }
    requires within { IsWithin (length pages.now) next.now }
    ensures { MatchOption result (NamesNumberOn pages.now next.now × GivesMore (length pages.now) next.now)
        (IsBrokenOn pages.now next.now) }
{
    match *next {
        Record::Update { page, slot, .. } if !names_number_on(pages, next) => {
            Some(BrokenRule::NotReplaced { page, slot })
        }
        Record::Extend { pages: given, .. } if given as usize <= pages.len() => {
            let present = pages.len();
            Some(BrokenRule::NotLarger { given, present })
        }
        _ => None,
    }
}

/// Whether a record that replaces a number names the one that is there.
fn names_number_on(pages: &[Page], next: &Record) -> bool
    requires valid { IsRecord next.now }
    requires within { IsWithin (length pages.now) next.now }
    ensures { IsTrue result ↔ NamesNumberOn pages.now next.now }
{
    match *next {
        Record::Update {
            page,
            slot,
            change: Change::Set { before, .. },
            ..
        } => pages[page.0 as usize].slots[slot.0 as usize] == before,
        _ => true,
    }
}
