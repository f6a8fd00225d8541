//! Which records and pages are shown.

ghost use Rattle.std.specs.Prelude.{◌↔◌, IfSome, IsTrue};
ghost use Rattle.file_view.specs.Wanted.{HasPage, Is, IsCommit, IsIn, IsWanted, Names};

use log_records::{DirtyPages, Record};
use page_core::{Lsn, PageNo, TxnNo};

/// Which records of a log are shown: those from one LSN to another, both included, that name the
/// transaction and the page, as far as these are told; or of them the commits alone. Of an archive
/// and of a volume the page alone is shown, where one is told.
#[derive(Clone, Copy)]
pub struct Wanted {
    pub from: Option<Lsn>,
    pub to: Option<Lsn>,
    pub txn: Option<TxnNo>,
    pub page: Option<PageNo>,
    pub commits: bool,
}

impl Wanted {
    /// Whether a record of a log is shown.
    pub fn takes(&self, entry: &Record) -> bool
        ensures { IsTrue result ↔ IsWanted self.now entry.now }
    {
        is_in(self.from, self.to, entry.lsn())
            && names(self.txn, self.page, entry)
            && (!self.commits || is_commit(entry))
    }

    /// Whether a page of an archive or of a volume is shown.
    pub fn takes_page(&self, number: PageNo) -> bool
        ensures { IsTrue result ↔ Is self.now.page number }
    {
        is_page(self.page, number)
    }
}

fn is_commit(entry: &Record) -> bool
    ensures { IsTrue result ↔ IsCommit entry.now }
{
    matches!(entry, Record::Commit { .. })
}

fn is_in(from: Option<Lsn>, to: Option<Lsn>, lsn: Lsn) -> bool
    ensures { IsTrue result ↔ IsIn from to lsn }
{
    let is_from = match from {
        Some(from) => from <= lsn,
        None => true,
    };
    let is_to = match to {
        Some(to) => lsn <= to,
        None => true,
    };
    is_from && is_to
}

/// Whether the record names the transaction and the page, as far as these are told: it is one of the
/// transaction, or what a checkpoint found of it; it changes the page, or says that it is dirty.
fn names(txn: Option<TxnNo>, page: Option<PageNo>, entry: &Record) -> bool
    ensures { IsTrue result ↔ Names txn page entry.now }
{
    match *entry {
        Record::Begin { txn: own, .. }
        | Record::Commit { txn: own, .. }
        | Record::Abort { txn: own, .. }
        | Record::End { txn: own, .. }
        | Record::ChkptTxns { txn: own, .. } => is_txn(txn, own) && page.is_none(),
        Record::Update {
            txn: own,
            page: changed,
            ..
        }
        | Record::Comp {
            txn: own,
            page: changed,
            ..
        } => is_txn(txn, own) && is_page(page, changed),
        Record::ChkptPages { pages, .. } => txn.is_none() && is_among(page, pages),
        _ => txn.is_none() && page.is_none(),
    }
}

fn is_txn(wanted: Option<TxnNo>, txn: TxnNo) -> bool
    ensures { IsTrue result ↔ Is wanted txn }
{
    match wanted {
        Some(wanted) => txn == wanted,
        None => true,
    }
}

fn is_page(wanted: Option<PageNo>, page: PageNo) -> bool
    ensures { IsTrue result ↔ Is wanted page }
{
    match wanted {
        Some(wanted) => page == wanted,
        None => true,
    }
}

fn is_among(wanted: Option<PageNo>, pages: DirtyPages) -> bool
    ensures { IsTrue result ↔ IfSome wanted (λ told. HasPage told pages) }
{
    let Some(PageNo(page)) = wanted else {
        return true;
    };
    match pages {
        DirtyPages::One(a) => a.page == page,
        DirtyPages::Two(a, b) => a.page == page || b.page == page,
        DirtyPages::Three(a, b, c) => a.page == page || b.page == page || c.page == page,
    }
}
