//! Whether a copy of an older life is one of this log.

ghost use Rattle.std.specs.Prelude.{◌≡◌, ◌↔◌, ◌++◌, [], ◌∷◌, IfErr, IfOk, IfSome, IsTrue, None, OnOk, map};
ghost use Rattle.std.specs.List.{range_with_len};
ghost use Rattle.copy_coverage.specs.Copied.{IsPoint};
ghost use Rattle.fuzzy_ckpt.specs.LogCheckpoints.{IsLastPoint};
ghost use Rattle.copy_vault.specs.Chain.{content};
ghost use Rattle.copy_vault.specs.Copy.{IsComplete};
ghost use Rattle.log_rules.specs.Linked.{IsLinked};
ghost use Rattle.log_records.specs.Log.{IsLog, page_count};
ghost use Rattle.log_records.specs.Record.{IsLsn};
ghost use Rattle.page_redo.specs.PageRecords.{numbers_on};
ghost use Rattle.engine_restart.specs.Added.{AreSoundBelow, BeginsIn, IsLeastIn};
ghost use Rattle.engine_restart.specs.Added.{IsNotOf, MayAdd, StandsBehind};
ghost use Rattle.engine_restart.specs.Chained.{IsNoChain, members};

use crate::add_fault::AddCopyFault;
use copy_audit::is_sound;
use copy_vault::{AddFault, Chain, CompleteCopy, CopyFault, CopyKind, Vault};
use fuzzy_ckpt::Point;
use log_store::LogImage;
use page_core::{LSN_STEP, Lsn, Page, PageNo};
use page_redo::{PageRecords, by_page};
use std::alloc::{AllocError, Global};

/// An LSN at which a record may stand.
fn is_lsn(lsn: Lsn) -> bool
    ensures { IsTrue result ↔ IsLsn lsn }
{
    lsn.0 >= LSN_STEP && lsn.0 % LSN_STEP == 0
}

/// Whether a checkpoint may have begun and have its redo point there.
fn is_point(begin: Lsn, redo: Lsn) -> bool
    ensures { IsTrue result ↔ IsPoint begin redo }
{
    is_lsn(begin) && is_lsn(redo) && redo <= begin
}

/// Whether the copy may have begun in this log: it names a place in it, has as many pages as the
/// volume had there, and some checkpoint is complete.
fn begins_in(
    alloc: Global,
    log: &LogImage,
    last: &Option<Point>,
    copy: &CompleteCopy,
) -> Result<bool, AllocError>
    requires valid { IsLog log.now }
    requires linked { IsLinked log.now.records }
    requires last { IsLastPoint log.now log.now.records last.now }
    ensures { IfOk result (λ begins. IsTrue begins ↔ BeginsIn log.now copy.now) }
{
    let begin = copy.begin();
    if !is_point(begin, copy.redo()) || begin.0 >= log.end().0 {
        return Ok(false);
    }
    let counts = log.counts(alloc)?;
    if copy.pages() != counts.below(begin) {
        return Ok(false);
    }
    Ok(last.is_some())
}

/// The chain of the copies that a copy stands on; None where it is a full one.
fn older<'a>(
    alloc: Global,
    vault: &'a Vault,
    kind: CopyKind,
) -> Result<Option<Chain<'a>>, AddCopyFault>
    ensures ok { IfOk result (λ it. StandsBehind vault.now.copies kind (members it)) }
    ensures err { IfErr result (IsNoChain vault.now.copies kind) }
{
    let CopyKind::Inc(parent) = kind else {
        return Ok(None);
    };
    match vault.chain(alloc, parent) {
        Ok(chain) => Ok(Some(chain)),
        Err(CopyFault::OutOfMemory) => Err(AddCopyFault::OutOfMemory),
        Err(_) => Err(AddCopyFault::Refused(AddFault::NoParent)),
    }
}

/// A page as the copy has it, or else those that it stands on, or formatted.
fn content_of(copy: &CompleteCopy, older: &Option<Chain<'_>>, number: PageNo) -> Page
    ensures content { result ≡ content (members older.now ++ copy.now ∷ []) number }
    ensures numbered { result.number ≡ number }
{
    match (copy.page(number), older) {
        (Some(page), _) => page.copy(),
        (None, Some(chain)) => chain.content(number),
        (None, None) => Page::formatted(number),
    }
}

/// The least page of the chain that ends with a copy which is not of the log's past, or lacks a
/// change below the copy's redo point.
fn first_unsound(
    log: &LogImage,
    changes: &PageRecords,
    older: &Option<Chain<'_>>,
    copy: &CompleteCopy,
) -> Option<PageNo>
    requires changes { changes.now
        ≡ map (numbers_on log.now.records 0) (range_with_len 0 (page_count log.now)) }
    ensures found { IfSome result (IsLeastIn log.now (members older.now) copy.now) }
    ensures none { result ≡ None → AreSoundBelow log.now (members older.now) copy.now
        (page_count log.now) }
{
    for number in 0..log.page_count() {
        let page = content_of(copy, older, PageNo(number));
        let numbers = changes.of(PageNo(number));
        if !is_sound(log.records(), numbers, &page, copy.redo()) {
            return Some(PageNo(number));
        }
    }
    None
}

/// Whether a copy is one of this log, whose last complete checkpoint this is, behind the copies of the
/// vault.
pub(crate) fn check(
    alloc: Global,
    log: &LogImage,
    last: &Option<Point>,
    vault: &Vault,
    copy: &CompleteCopy,
) -> Result<(), AddCopyFault>
    requires linked { IsLinked log.now.records }
    requires last { IsLastPoint log.now log.now.records last.now }
    ensures ok { OnOk result (MayAdd log.now vault.now.copies copy.now) }
    ensures whole { IsComplete copy.now.kind copy.now.pages }
    ensures err { IfErr result (IsNotOf log.now vault.now.copies copy.now) }
    ensures valid { IsLog log.now }
{
    let (kind, count) = (copy.kind(), log.page_count());
    if !begins_in(alloc, log, last, copy)? {
        return Err(AddCopyFault::OfOtherLog);
    }
    let older = older(alloc, vault, kind)?;
    let changes = by_page(alloc, log.records(), Lsn(0), count)?;
    match first_unsound(log, &changes, &older, copy) {
        Some(page) => Err(AddCopyFault::Unsound(page)),
        None => Ok(()),
    }
}
