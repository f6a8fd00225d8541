//! The audit of a chain of copies.

ghost use Rattle.std.specs.Prelude.{ℕ, ◌≡◌, ◌+◌, ◌<◌, ◌≤◌, ◌++◌, [], ◌∷◌, List, IfErr, IfOk};
ghost use Rattle.std.specs.Prelude.{IfSome};
ghost use Rattle.std.specs.Prelude.{OnOk, length, map};
ghost use Rattle.page_core.specs.declared.page.Page.{Page};
ghost use Rattle.page_core.specs.Input.{HasGivenAll};
ghost use Rattle.log_records.specs.declared.record.Record.{Record};
ghost use Rattle.log_records.specs.Log.{Log, counts_of};
ghost use Rattle.copy_vault.specs.ChainEach.{ids_of, place_list, points_of};
ghost use Rattle.copy_vault.specs.ChainReading.{AreNoChain, HaveGivenAll};
ghost use Rattle.copy_audit.specs.Audit.{end_of};
ghost use Rattle.copy_audit.specs.Audited.{AreAudited, AreRefused, IsLooked, IsNamed, StopsIn};
ghost use Rattle.copy_audit.specs.Changes.{AreChangesOf, IsKeptOf};
ghost use Rattle.copy_audit.specs.Rows.{AreFound};

use crate::found::Found;
use crate::members::first_unsound;
use crate::page_places::PagePlaces;
use crate::unsound::Unsound;
use copy_vault::{ChainReadFault, ChainReader};
use loser_undo::{LogChanges, read_changes};
use page_core::{Lsn, Page, PageNo};
use page_redo::PlacedChange;
use std::alloc::{AllocError, Global};
use std::io::Read;

/// Each page of each copy is as the log made it at some moment, and lacks no change below the redo
/// point of its copy. So a restore of any member of the chain is right, whoever wrote the copies.
#[derive(Clone, Copy, Debug, PartialEq, Eq)]
pub struct Sound;

/// Audits the archives of a chain of copies against a log: whether a restore of the chain, and of
/// the chain up to each of its members, gives what the log says (ARIES, section 8, with no trust in
/// who made the copies). A page of the chain up to a member has to be as the log made it at some
/// moment, and may lack no change below the member's redo point.
///
/// The log is read first, with the faults of `read_log`. Then come the faults of the archives, in
/// the order in which `ChainReader` meets them, with those of `RedoBeyondLog` and `PageBeyondLog`;
/// `ChainBroken` with 0 where no archive is given. After all of these `Unsound` names the first
/// member that fails, and the least page of the chain up to it that does. `OutOfMemory` comes where
/// memory is refused. `ReadFault` comes where a reader fails or does not come to an end, and what
/// it gave holds no fault.
///
/// No record of the log is kept, but of each change 16 bytes, 4 bytes for its place among the
/// changes of its page, and 4 bytes a page of the volume. The archives are read side by side, in one
/// pass. Of each just the redo point and one page are kept, beside the changes of that page, in
/// their order, and a copy of it. Each change is redone once on its page, and at most twice where
/// an archive has an older page than one before it in the chain: these pages are looked at in the
/// order of their LSNs, with 32 bytes an archive.
pub fn audit<L: Read, A: Read>(
    alloc: Global,
    log: &mut L,
    archives: &mut [A],
) -> Result<Sound, Unsound>
    ensures sound { OnOk result
        (AreAudited (L.remaining log.old) (map (λ a. A.remaining a) archives.old)) }
    ensures err { IfErr result
        (AreRefused (L.remaining log.old) (map (λ a. A.remaining a) archives.old)) }
    // It reads to the first file that is refused, and of none behind it.
    ensures stops { IfErr result (StopsIn (L.remaining log.old) (L.remaining log.new)
        (map (λ a. A.remaining a) archives.old) (map (λ a. A.remaining a) archives.new)
        (archives.new ≡ archives.old)) }
    ensures log_end { OnOk result (HasGivenAll (L.remaining log.old) (L.remaining log.new)) }
    ensures end { OnOk result (HaveGivenAll (map (λ a. A.remaining a) archives.old)
        (map (λ a. A.remaining a) archives.new)) }
{
    let kept = read_changes(alloc, log)?.0;
    match first_in(alloc, &kept, archives)? {
        Some(unsound) => Err(unsound),
        None => Ok(Sound),
    }
}

/// The first copy with an unsound page in the chain up to it, and the least such page. This was
/// kept of the log.
fn first_in<A: Read>(
    alloc: Global,
    log: &LogChanges,
    archives: &mut [A],
) -> Result<Option<Unsound>, ChainReadFault>
    requires { (whole : Log) × IsKeptOf whole log.now }
    ensures ok { IfOk result (λ found. (whole : Log) → IsKeptOf whole log.now
        → IsLooked whole (map (λ a. A.remaining a) archives.old) found) }
    ensures err { IfErr result (λ why. (whole : Log) → IsKeptOf whole log.now
        → AreNoChain (counts_of whole) (end_of whole)
        (map (λ a. A.remaining a) archives.old) (map (λ a. A.remaining a) archives.new) why) }
    ensures end { OnOk result (HaveGivenAll (map (λ a. A.remaining a) archives.old)
        (map (λ a. A.remaining a) archives.new)) }
{
    let mut chain = ChainReader::new(alloc, archives, log.counts(), log.end())?;
    let changes = PagePlaces::new(alloc, log.changes(), log.counts().last())?;
    let points = points_of(alloc, &chain, archives.len())?;
    let mut row = places(alloc, archives.len())?;
    let mut on_page = Vec::new(alloc);
    let mut found = None;
    let mut number = 0;
    'rows: loop {
        if !chain.next_each(archives, &mut row)? {
            return Ok(named(&chain, found));
        }
        let page = PageNo(number);
        changes.list(log.changes(), page, &mut on_page)?;
        found = found_with(alloc, &points, &on_page, page, log.count(), &row, found)?;
        number += 1;
    }
}

/// As many places as a chain has members.
pub(crate) fn places(alloc: Global, members: usize) -> Result<Vec<Option<Page>>, AllocError>
    ensures { IfOk result (λ row. length row.items ≡ members) }
{
    let mut row = Vec::with_capacity(alloc, members)?;
    for _ in 0..members {
        row.push(None)?;
    }
    Ok(row)
}

/// The redo points of a chain's members, side by side.
pub(crate) fn points_of(
    alloc: Global,
    chain: &ChainReader,
    members: usize,
) -> Result<Vec<Lsn>, AllocError>
    requires { members ≡ length (points_of chain.now) }
    ensures { IfOk result (λ points. points.items ≡ points_of chain.now) }
{
    let mut points = Vec::with_capacity(alloc, members)?;
    for member in 0..members {
        points.push(chain.redo_at(member))?;
    }
    Ok(points)
}

/// What is found with one row more.
fn found_with(
    alloc: Global,
    points: &[Lsn],
    changes: &[PlacedChange],
    page: PageNo,
    count: usize,
    row: &[Option<Page>],
    found: Option<Found>,
) -> Result<Option<Found>, AllocError>
    requires members { length row.now ≡ length points.now }
    ensures { IfOk result (λ now. (rs : List Record) → AreChangesOf rs page count changes.now
        → (given : List (List (List Page))) → length given ≡ page
        → AreFound rs points.now (length row.now) given found
        → AreFound rs points.now (length row.now) (given ++ map place_list row.now ∷ []) now) }
{
    let most = match &found {
        Some(found) => found.member.min(row.len()),
        None => row.len(),
    };
    let first = first_unsound(alloc, points, changes, page, count, row, most)?;
    match first {
        Some(member) => Ok(Some(Found { member, page })),
        None => Ok(found),
    }
}

/// Names the copy that was found by its id.
fn named(chain: &ChainReader, found: Option<Found>) -> Option<Unsound>
    requires { IfSome found (λ it. it.member < length (ids_of chain.now)) }
    ensures { IsNamed (ids_of chain.now) found result }
{
    let Found { member, page } = found?;
    Some(Unsound::Unsound(chain.id_at(member), page))
}
