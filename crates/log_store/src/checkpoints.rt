//! The checkpoints of a log that is being read: decides whether a checkpoint's record may follow, and
//! keeps the complete ones.

ghost use Rattle.std.specs.Prelude.{◌≡◌, ◌↔◌, ◌<◌, ◌/◌, ◌-◌, ◌++◌, ◌∷◌, [], min, slice_get};
ghost use Rattle.std.specs.Prelude.{Some, None};
ghost use Rattle.std.specs.Prelude.{IfSome, IsSomeAnd, IsTrue, OnErr, OnOk, length};
ghost use Rattle.std.specs.List.{AllByRecursion, fold};
ghost use Rattle.log_rules.specs.CheckpointTable.{AreChanges, NamesChange, last_page_of};
ghost use Rattle.log_rules.specs.CheckpointTable.{page_of};
ghost use Rattle.log_records.specs.DirtyPage.{entries_of};

use log_records::{DirtyPage, DirtyPages, Record};
use log_rules::{CkptPoint, NO_PAGE};
use page_core::{LSN_STEP, Lsn, TxnNo};
use std::alloc::{AllocError, Global};
use std::marker::Model;
use txn_table::OpenTransactions;

/// The open checkpoint: the LSN of its BeginChkpt, the last of its pages, and its redo point so
/// far.
#[derive(Clone, Copy)]
struct Open {
    begin: u64,
    last_page: Option<u32>,
    redo: u64,
}

/// An open checkpoint, as far as its records have come: the LSN of its BeginChkpt, and its redo
/// point so far.
#[derive(Clone, Copy, Debug, PartialEq, Eq)]
pub struct OpenCkpt {
    pub begin: Lsn,
    pub redo: Lsn,
}

/// The page that each record of a log changes, the open checkpoint, and the complete ones. It takes
/// the records of the log one by one, and needs 4 bytes of memory for each, and for each transaction
/// of a checkpoint.
#[derive(Drop)]
pub struct Checkpoints {
    changed: Vec<u32>,
    current: Option<Open>,
    txns: Vec<u32>,
    complete: Vec<CkptPoint>,
}

impl Model for Checkpoints {
    ghost use Rattle.log_rules.specs.CheckpointTable.{CheckpointTable};

    ghost Value = { CheckpointTable };

    ghost use Rattle.std.specs.Option.{option_map};

    ghost view = { λ t. record {
      changed = t.changed.items;
      current = option_map (λ c. record {
        begin = c.begin;
        last_page = c.last_page;
        redo = c.redo;
        txns = t.txns.items;
      }) t.current;
      complete = t.complete.items;
    } };
}

impl Checkpoints {
    ghost use Rattle.log_rules.specs.CheckpointTable.{MayAddPages, MayAddTxn};
    ghost use Rattle.log_rules.specs.CheckpointTable.{MayClose, MayNoteCheckpoint};
    ghost use Rattle.log_rules.specs.CheckpointTable.{add_pages, noted_checkpoint};
    ghost use Rattle.log_rules.specs.Transactions.{without_last};
    ghost use Rattle.log_records.specs.Record.{IsOfTransaction};
    ghost use Rattle.std.specs.Option.{option_map};

    /// Before the first record: no checkpoint is open.
    pub fn new(alloc: Global) -> Checkpoints
        ensures { result ≡ record { changed = []; current = None; complete = [] } }
    {
        Checkpoints {
            changed: Vec::new(alloc),
            current: None,
            txns: Vec::new(alloc),
            complete: Vec::new(alloc),
        }
    }

    /// How many records the log has.
    pub fn records(&self) -> usize
        ensures { result ≡ length self.now.changed }
    {
        self.changed.len()
    }

    /// The open checkpoint, if one is.
    pub fn begun(&self) -> Option<OpenCkpt>
        ensures { result ≡ option_map (λ c. record { begin = c.begin; redo = c.redo })
            self.now.current }
    {
        match self.current {
            Some(Open { begin, redo, .. }) => Some(OpenCkpt {
                begin: Lsn(begin),
                redo: Lsn(redo),
            }),
            None => None,
        }
    }

    /// The complete checkpoints, in their order. The rest is let go.
    pub fn into_complete(self) -> Vec<CkptPoint>
        ensures { result.items ≡ self.complete }
    {
        self.complete
    }

    /// The record may come next, as far as the checkpoints say.
    #[inline(always)]
    pub fn may_note(&self, txns: &OpenTransactions, next: &Record) -> bool
        ensures { IsTrue result ↔ MayNoteCheckpoint txns.now.table self.now next.now }
    {
        match *next {
            Record::BeginChkpt { .. } => self.current.is_none(),
            Record::ChkptPages { begin, pages, .. } => {
                self.may_add_pages(begin, &pages) && are_changes(&self.changed, &pages)
            }
            Record::ChkptTxns { begin, txn, .. } => self.may_add_txn(begin, txn),
            Record::EndChkpt { begin, redo, .. } => self.may_close(txns, begin, redo),
            _ => true,
        }
    }

    fn may_add_pages(&self, begin: Lsn, pages: &DirtyPages) -> bool
        ensures { IsTrue result ↔ IsSomeAnd self.now.current (MayAddPages begin pages.now) }
    {
        match self.current {
            Some(open) => {
                open.begin == begin.0 && self.txns.is_empty() && are_above(open.last_page, pages)
            }
            None => false,
        }
    }

    fn may_add_txn(&self, begin: Lsn, txn: TxnNo) -> bool
        ensures { IsTrue result ↔ IsSomeAnd self.now.current (MayAddTxn begin txn) }
    {
        match self.current {
            Some(open) => open.begin == begin.0
                && match self.txns.last() {
                    Some(last) => *last < txn.0,
                    None => true,
                },
            None => false,
        }
    }

    fn may_close(&self, txns: &OpenTransactions, begin: Lsn, redo: Lsn) -> bool
        ensures { IsTrue result ↔ IsSomeAnd self.now.current (MayClose txns.now.table begin redo) }
    {
        match self.current {
            Some(open) => open.begin == begin.0
                && open.redo == redo.0
                && txns.began_before_are_among(begin, &self.txns),
            None => false,
        }
    }

    /// The open checkpoint has these pages too.
    fn add_pages(&mut self, pages: &DirtyPages)
        ensures { self.new ≡ record self.old {
          current = option_map (add_pages pages.now) self.old.current;
        } }
    {
        if let Some(open) = self.current {
            self.current = Some(with_pages(open, pages));
        }
    }

    /// Keeps a complete checkpoint, behind which none is open.
    fn end(&mut self, point: CkptPoint) -> Result<(), AllocError>
        ensures ok { OnOk result (self.new ≡ record self.old {
          current = None;
          complete = self.old.complete ++ point ∷ [];
        }) }
        ensures err { OnErr result (self.new ≡ self.old) }
    {
        self.complete.push(point)?;
        self.current = None;
        Ok(())
    }

    /// Takes the record as the next one. An `Err` comes where memory is refused, and changes
    /// nothing.
    #[inline(always)]
    pub fn note(&mut self, next: &Record) -> Result<(), AllocError>
        ensures ok { OnOk result (self.new ≡ noted_checkpoint self.old next.now) }
        ensures err { OnErr result (self.new ≡ self.old) }
    {
        self.txns.reserve(1)?;
        self.changed.push(page_of(next))?;
        match *next {
            Record::BeginChkpt { lsn } => {
                self.txns.clear();
                self.current = Some(Open {
                    begin: lsn.0,
                    last_page: None,
                    redo: lsn.0,
                });
            }
            Record::ChkptPages { pages, .. } => self.add_pages(&pages),
            Record::ChkptTxns { txn, .. } => {
                if self.txns.push(txn.0).is_err() {
                    unreachable!();
                }
            }
            Record::EndChkpt { lsn, begin, redo } => {
                let end = lsn;
                let ended = self.end(CkptPoint { begin, end, redo });
                if ended.is_err() {
                    self.take_back();
                }
                return ended;
            }
            _ => {}
        }
        Ok(())
    }

    /// Takes a transaction's record as the next one. An `Err` comes where memory is refused, and
    /// changes nothing.
    pub fn note_page(&mut self, next: &Record) -> Result<(), AllocError>
        requires { IsOfTransaction next.now }
        ensures ok { OnOk result (self.new ≡ noted_checkpoint self.old next.now) }
        ensures err { OnErr result (self.new ≡ self.old) }
    {
        self.changed.push(page_of(next))?;
        Ok(())
    }

    /// Takes back the last noted record, which is a transaction's or an Extend.
    pub fn take_back(&mut self)
        ensures { self.new ≡ record self.old { changed = without_last self.old.changed } }
    {
        let _ = self.changed.pop();
    }
}

/// The page that a record changes.
fn page_of(next: &Record) -> u32
    ensures { result ≡ page_of next.now }
{
    match next.change() {
        Some(change) => change.page.0,
        None => NO_PAGE,
    }
}

fn with_pages(current: Open, pages: &DirtyPages) -> Open
    ensures begin { result.begin ≡ current.begin }
    ensures last { result.last_page ≡ Some (last_page_of pages.now) }
    ensures redo { result.redo ≡ fold (λ least e. min least e.rec_lsn) current.redo
        (entries_of pages.now) }
{
    let begin = current.begin;
    match *pages {
        DirtyPages::One(a) => Open {
            begin,
            last_page: Some(a.page),
            redo: current.redo.min(a.rec_lsn),
        },
        DirtyPages::Two(a, b) => Open {
            begin,
            last_page: Some(b.page),
            redo: current.redo.min(a.rec_lsn).min(b.rec_lsn),
        },
        DirtyPages::Three(a, b, c) => Open {
            begin,
            last_page: Some(c.page),
            redo: current.redo.min(a.rec_lsn).min(b.rec_lsn).min(c.rec_lsn),
        },
    }
}

/// The pages are above the last one, if there is one.
fn are_above(last_page: Option<u32>, pages: &DirtyPages) -> bool
    ensures { IsTrue result ↔ IfSome last_page
        (λ last. AllByRecursion (λ e. last < e.page) (entries_of pages.now)) }
{
    match last_page {
        Some(last) => match *pages {
            DirtyPages::One(a) => last < a.page,
            DirtyPages::Two(a, b) => last < a.page && last < b.page,
            DirtyPages::Three(a, b, c) => last < a.page && last < b.page && last < c.page,
        },
        None => true,
    }
}

/// Each RecLSN names a record that changed its page.
fn are_changes(changed: &[u32], pages: &DirtyPages) -> bool
    ensures { IsTrue result ↔ AreChanges changed.now pages.now }
{
    match *pages {
        DirtyPages::One(a) => is_change(changed, a),
        DirtyPages::Two(a, b) => is_change(changed, a) && is_change(changed, b),
        DirtyPages::Three(a, b, c) => {
            is_change(changed, a) && is_change(changed, b) && is_change(changed, c)
        }
    }
}

fn is_change(changed: &[u32], entry: DirtyPage) -> bool
    ensures { IsTrue result ↔ NamesChange changed.now entry }
{
    let index = (entry.rec_lsn / LSN_STEP).saturating_sub(1);
    match changed.get(index as usize) {
        Some(page) => entry.page < NO_PAGE && *page == entry.page,
        None => false,
    }
}
