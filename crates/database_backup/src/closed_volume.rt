//! The volume of a closed database, which is read and left as it is.

ghost use Rattle.std.specs.Prelude.{◌≡◌, IfOk, IsTrue, OnOk};
ghost use Rattle.log_prefix.specs.Front.{end_of};
ghost use Rattle.database_backup.specs.ClosedVolume.{HaveSameNumbers, IsLeftBy, IsOfClosed};
ghost use Rattle.database_files.specs.Evidence.{LacksNothing};
ghost use Rattle.database_files.specs.Master.{spelled};

use database_files::{DatabaseFolder, Diagnostics, Inventory, OpenFault, bytes_of};
use database_opening::{Others, evidence_of, find_others, is_vouched};
use engine_restart::{committed_pages, log_in};
use log_prefix::Front;
use page_core::Page;
use std::alloc::Global;

/// The pages of the closed database in a folder that is claimed, in order of their numbers, each
/// slot with its committed number. Nothing is changed there.
///
/// A database is closed where the note of its closing says where its log ends, and nothing that
/// stands beside it knows of more.
pub(crate) fn read_closed<F: DatabaseFolder>(
    diagnostics: &Diagnostics<'_>,
    folder: &F,
) -> Result<Vec<Page>, OpenFault>
    requires { F.is_claimed folder.now }
    ensures { IfOk result (λ pages. IsOfClosed pages.items) }
{
    let alloc = diagnostics.alloc;
    let there = Inventory::of(alloc, folder)?;
    if let (Some(place), false) = (there.orphan(), there.has_log()) {
        return Err(OpenFault::LogLost(place));
    }
    let Some(log) = folder.open_log(false)? else {
        return Err(OpenFault::NoLog);
    };
    let bytes = bytes_of::<F>(alloc, &log)?;
    let others = find_others(diagnostics, folder, &there)?;
    volume_in(alloc, &bytes, &others)
}

/// The pages that the log in these bytes leaves, where that is all of them, and what stands beside
/// it vouches for its end.
fn volume_in(alloc: Global, bytes: &[u8], others: &Others) -> Result<Vec<Page>, OpenFault>
    ensures { IfOk result (λ pages. IsLeftBy bytes.now others.now.note others.now.manifest
        (spelled others.now.master) others.now.copies.items pages.items) }
{
    let front = match log_in(alloc, bytes) {
        Ok(front) => front,
        Err(why) => return Err(OpenFault::Found(why)),
    };
    check_kept(alloc, &front, bytes, others)?;
    if front.cut().is_some() {
        return Err(OpenFault::NotClosed);
    }
    if !is_vouched(others.note, front.log().end()) {
        return Err(OpenFault::NotClosed);
    }
    match committed_pages(front) {
        Ok(pages) => Ok(pages),
        Err(why) => Err(OpenFault::Restart(why)),
    }
}

/// Sees that nothing which stands beside a log, or behind it, knows of more than it has.
fn check_kept(alloc: Global, front: &Front, bytes: &[u8], others: &Others) -> Result<(), OpenFault>
    ensures { OnOk result (LacksNothing (end_of front.now.log) others.now.note
        others.now.manifest (spelled others.now.master) others.now.copies.items bytes.now) }
{
    let (evidence, _) = evidence_of(alloc, front, bytes, others)?;
    if evidence.claims.is_empty() {
        return Ok(());
    }
    Err(OpenFault::Lost(evidence))
}

/// Whether both volumes have as many pages, and each slot the same number.
pub(crate) fn have_same_numbers(old: &[Page], new: &[Page]) -> bool
    ensures { IsTrue result → HaveSameNumbers old.now new.now }
{
    if old.len() != new.len() {
        return false;
    }
    for place in 0..old.len() {
        if old[place].slots != new[place].slots {
            return false;
        }
    }
    true
}
