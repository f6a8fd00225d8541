//! The vault, which keeps the image copies of a volume.

ghost use Rattle.std.specs.Prelude.{◌≡◌, ◌+◌, ◌<◌, ◌≤◌, ◌++◌, [], false, length, replicate, IfOk};
ghost use Rattle.std.specs.Prelude.{IfErr};
ghost use Rattle.std.specs.Prelude.{OnOk, OnErr, vec_capacity, vec_len};
ghost use Rattle.std.specs.Prelude.{IfSome, IsSome, Some, None};
ghost use Rattle.std.specs.Option.{option_map, option_map_or};
ghost use Rattle.copy_vault.specs.Added.{AddRefuses, add_refusal, lacks_parent, with_copy};
ghost use Rattle.copy_vault.specs.Chain.{IsChain};
ghost use Rattle.copy_vault.specs.ChainOf.{IsChainOf};
ghost use Rattle.copy_vault.specs.CopyWrite.{LeavesCopy, WritesCopy};
ghost use Rattle.copy_vault.specs.Vault.{HasRoomForPage, OpenRefuses, answer_in};
ghost use Rattle.copy_vault.specs.Vault.{complete};
ghost use Rattle.copy_vault.specs.Vault.{complete_of, complete_refusal, inc_refusal};
ghost use Rattle.copy_vault.specs.Vault.{decided, drop_refusal, dropped, open_refusal, opened};
ghost use Rattle.copy_vault.specs.Vault.{pages_read, reading, reading_of, seal_refusal, sealed};
ghost use Rattle.copy_vault.specs.Vault.{HasParent, IsOfVault, IsOfId, since_of, state_in};
ghost use Rattle.copy_vault.specs.Vault.{state_of};
ghost use Rattle.copy_vault.specs.Vault.{WaitsFor, sealed_in, taken_in, without};
ghost use Rattle.copy_vault.specs.declared.copy_id.CopyKind.TheVariants.{Full, Inc};
ghost use Rattle.copy_vault.specs.declared.copy_id.TheConstants.{MAX_COPIES};
ghost use Rattle.copy_vault.specs.declared.vault.VaultEntry.TheVariants as entry;

use crate::add_fault::AddFault;
use crate::chain::Chain;
use crate::complete::CompleteCopy;
use crate::copy_id::{CopyId, CopyKind, Decision, MAX_COPIES};
use crate::copy_write_fault::CopyWriteFault;
use crate::fault::CopyFault;
use crate::lent_copy::{KeptCopy, LentCopy};
use crate::reading::{CopyStart, ReadingCopy};
use crate::write::write_archive;
use page_core::{Lsn, Page, PageNo};
use std::alloc::{AllocError, Global};
use std::io::Write;
use std::marker::Model;
use std::mem;

/// What a vault keeps of a copy.
#[derive(Drop)]
pub enum VaultEntry {
    Reading(ReadingCopy),
    Complete(KeptCopy),
    Dropped,
}

impl VaultEntry {
    /// Makes the copy complete, and answers how many pages it has.
    fn seal(&mut self) -> Result<u32, CopyFault>
        ensures ok { OnOk result (seal_refusal (state_in self.old) ≡ None) }
        ensures sealed { OnOk result (state_in self.new ≡ sealed_in (state_in self.old)) }
        ensures count { IfOk result (λ taken. taken ≡ taken_in (state_in self.old)) }
        ensures err { IfErr result (λ fault. seal_refusal (state_in self.old) ≡ Some fault) }
        ensures same { OnErr result (self.new ≡ self.old) }
    {
        match mem::replace(self, VaultEntry::Dropped) {
            VaultEntry::Dropped => Err(CopyFault::NoCopy),
            VaultEntry::Complete(copy) => {
                *self = VaultEntry::Complete(copy);
                Err(CopyFault::CopyNotOpen)
            }
            VaultEntry::Reading(copy) => match copy.seal() {
                Ok(copy) => {
                    let taken = copy.taken();
                    *self = VaultEntry::Complete(KeptCopy::new(copy));
                    Ok(taken)
                }
                Err(mut copy) => {
                    let Some(page) = copy.find_undecided() else {
                        unreachable!()
                    };
                    *self = VaultEntry::Reading(copy);
                    Err(CopyFault::PagesLeft(page))
                }
            },
        }
    }

    /// Lends the copy.
    fn lend(&mut self, alloc: Global) -> Result<LentCopy, CopyFault>
        ensures ok { IfOk result (λ copy. state_in self.old ≡ complete copy) }
        ensures err { IfErr result (OpenRefuses (complete_refusal (state_in self.old))) }
        ensures same { self.new ≡ self.old }
    {
        match mem::replace(self, VaultEntry::Dropped) {
            VaultEntry::Dropped => Err(CopyFault::NoCopy),
            VaultEntry::Reading(copy) => {
                *self = VaultEntry::Reading(copy);
                Err(CopyFault::CopyNotComplete)
            }
            VaultEntry::Complete(copy) => {
                let (copy, lent) = copy.lend(alloc);
                *self = VaultEntry::Complete(copy);
                Ok(lent?)
            }
        }
    }

    /// Drops the copy.
    fn drop_open(&mut self) -> Result<(), CopyFault>
        ensures ok { OnOk result (drop_refusal (state_in self.old) ≡ None) }
        ensures dropped { OnOk result (self.new ≡ entry.Dropped) }
        ensures err { IfErr result (λ fault. drop_refusal (state_in self.old) ≡ Some fault) }
        ensures same { OnErr result (self.new ≡ self.old) }
    {
        match self {
            VaultEntry::Dropped => Err(CopyFault::NoCopy),
            VaultEntry::Complete(_) => Err(CopyFault::CopyNotOpen),
            VaultEntry::Reading(_) => {
                *self = VaultEntry::Dropped;
                Ok(())
            }
        }
    }
}

/// Adds entries of so many dropped copies, for which there is room.
fn push_dropped(entries: &mut Vec<VaultEntry>, count: usize)
    requires room { vec_len entries.old + count ≤ vec_capacity entries.old }
    ensures items { entries.new.items ≡ entries.old.items ++ replicate count entry.Dropped }
    ensures len { vec_len entries.new ≡ vec_len entries.old + count }
    ensures capacity { vec_capacity entries.new ≡ vec_capacity entries.old }
{
    for _ in 0..count {
        entries.push_reserved(VaultEntry::Dropped);
    }
}

/// The image copies of a volume, by their ids.
#[derive(Drop)]
pub struct Vault {
    entries: Vec<VaultEntry>,
}

impl Model for Vault {
    ghost use Rattle.copy_vault.specs.Vault.{IsVault, VaultView, vault_view};

    ghost Value = { VaultView };

    ghost view = { λ it. vault_view it.entries.items };

    ghost invariant = { λ it. IsVault it.entries.items };
}

impl Vault {
    /// A vault without copies. This takes no memory.
    pub fn new(alloc: Global) -> Vault
        ensures { result.copies ≡ [] }
    {
        Vault {
            entries: Vec::new(alloc),
        }
    }

    /// Begins a full copy of so many pages, and answers its id: one more than the last one. It
    /// notes a checkpoint by its begin LSN and redo point. Refusals in order: `TooManyCopies`,
    /// `OutOfMemory`.
    pub fn open_full(
        &mut self,
        alloc: Global,
        pages: u32,
        begin: Lsn,
        redo: Lsn,
    ) -> Result<CopyId, CopyFault>
        ensures id { IfOk result (λ id. id ≡ length self.old.copies + 1) }
        ensures opened { OnOk result
            (self.new.copies ≡ opened self.old.copies Full pages begin redo) }
        ensures ok { OnOk result (open_refusal self.old.copies ≡ None) }
        ensures err { IfErr result (OpenRefuses (open_refusal self.old.copies)) }
        ensures same { OnErr result (self.new ≡ self.old) }
    {
        self.open(alloc, CopyKind::Full, Lsn(0), pages, begin, redo)
    }

    /// Begins an incremental copy of so many pages, whose parent is the copy of this id, and
    /// answers its id: one more than the last one. It notes a checkpoint by its begin LSN and redo
    /// point. Refusals in order: `NoCopy` and `CopyNotComplete` of the parent, `TooManyCopies`,
    /// `OutOfMemory`.
    pub fn open_inc(
        &mut self,
        alloc: Global,
        parent: CopyId,
        pages: u32,
        begin: Lsn,
        redo: Lsn,
    ) -> Result<CopyId, CopyFault>
        ensures id { IfOk result (λ id. id ≡ length self.old.copies + 1) }
        ensures opened { OnOk result
            (self.new.copies ≡ opened self.old.copies (Inc parent) pages begin redo) }
        ensures ok { OnOk result (inc_refusal self.old.copies parent ≡ None) }
        ensures err { IfErr result (OpenRefuses (inc_refusal self.old.copies parent)) }
        ensures same { OnErr result (self.new ≡ self.old) }
    {
        let copy = self.complete_copy(parent)?;
        let since = copy.redo();
        self.open(alloc, CopyKind::Inc(parent), since, pages, begin, redo)
    }

    /// Begins a copy of this kind.
    fn open(
        &mut self,
        alloc: Global,
        kind: CopyKind,
        since: Lsn,
        pages: u32,
        begin: Lsn,
        redo: Lsn,
    ) -> Result<CopyId, CopyFault>
        requires parent { HasParent self.old.copies (length self.old.copies + 1) kind }
        requires since { since ≡ since_of self.old.copies kind }
        ensures id { IfOk result (λ id. id ≡ length self.old.copies + 1) }
        ensures opened { OnOk result
            (self.new.copies ≡ opened self.old.copies kind pages begin redo) }
        ensures ok { OnOk result (open_refusal self.old.copies ≡ None) }
        ensures err { IfErr result (OpenRefuses (open_refusal self.old.copies)) }
        ensures same { OnErr result (self.new ≡ self.old) }
    {
        let count = self.entries.len() as u32;
        if count >= MAX_COPIES {
            return Err(CopyFault::TooManyCopies);
        }
        let id = CopyId(count + 1);
        let start = CopyStart {
            id,
            kind,
            since,
            begin,
            redo,
        };
        self.entries.push(VaultEntry::Reading(ReadingCopy::new(alloc, start, pages)?))?;
        Ok(id)
    }

    /// Adds a complete copy that was there in an older life of the volume, under its own id. Ids
    /// that are passed over count as dropped. Refusals in order: `IdGiven`, `TooManyCopies`,
    /// `NoParent`, `OutOfMemory`. They hand the copy back.
    pub fn add(&mut self, copy: CompleteCopy) -> Result<(), (CompleteCopy, AddFault)>
        ensures added { OnOk result (self.new.copies ≡ with_copy self.old.copies copy) }
        ensures ok { OnOk result (add_refusal self.old.copies copy ≡ None) }
        ensures err { IfErr result (λ e. AddRefuses (add_refusal self.old.copies copy) e.1) }
        ensures back { IfErr result (λ e. e.0 ≡ copy) }
        ensures same { OnErr result (self.new.copies ≡ self.old.copies) }
    {
        if let Err(fault) = self.check(&copy) {
            return Err((copy, fault));
        }
        let skipped = copy.id().0 as usize - 1 - self.entries.len();
        if self.entries.reserve(skipped + 1).is_err() {
            return Err((copy, AddFault::OutOfMemory));
        }
        push_dropped(&mut self.entries, skipped);
        self.entries
            .push_reserved(VaultEntry::Complete(KeptCopy::new(copy)));
        Ok(())
    }

    /// Whether a copy may be added.
    fn check(&self, copy: &CompleteCopy) -> Result<(), AddFault>
        ensures ok { OnOk result (add_refusal self.now.copies copy.now ≡ None) }
        ensures err { IfErr result (λ fault. add_refusal self.now.copies copy.now ≡ Some fault) }
        ensures behind { OnOk result (length self.now.copies < copy.now.id) }
        ensures few { OnOk result (copy.now.id ≤ MAX_COPIES) }
        ensures parent { OnOk result (lacks_parent self.now.copies copy.now.kind ≡ false) }
    {
        let id = copy.id().0;
        if id as usize <= self.entries.len() {
            return Err(AddFault::IdGiven);
        }
        if id > MAX_COPIES {
            return Err(AddFault::TooManyCopies);
        }
        if let CopyKind::Inc(parent) = copy.kind()
            && self.complete(parent).is_none()
        {
            return Err(AddFault::NoParent);
        }
        Ok(())
    }

    /// The copy of this id, if it is being read.
    pub fn reading(&self, id: CopyId) -> Option<&ReadingCopy>
        ensures { option_map (λ it. it.now.copy) result ≡ reading_of (state_of self.now.copies id) }
    {
        match self.entry(id) {
            Some(VaultEntry::Reading(copy)) => Some(copy),
            _ => None,
        }
    }

    /// The copy of this id, if it is complete.
    pub fn complete(&self, id: CopyId) -> Option<&CompleteCopy>
        ensures { option_map (λ copy. copy.now) result ≡ complete_of (state_of self.now.copies id) }
    {
        match self.entry(id) {
            Some(VaultEntry::Complete(copy)) => Some(copy.get()),
            _ => None,
        }
    }

    /// The chain that ends with a complete copy: the copies that are its parent, the parent of that
    /// one and so on, and itself. Refusals in order: `NoCopy`, `CopyNotComplete`, `OutOfMemory`.
    pub fn chain(&self, alloc: Global, id: CopyId) -> Result<Chain<'_>, CopyFault>
        ensures chain { IfOk result IsChain }
        ensures found { IfOk result (IsChainOf self.now.copies id) }
        ensures ok { OnOk result (complete_refusal (state_of self.now.copies id) ≡ None) }
        ensures err { IfErr result
            (OpenRefuses (complete_refusal (state_of self.now.copies id))) }
    {
        let mut members = Vec::new(alloc);
        let mut copy = self.complete_copy(id)?;
        while let CopyKind::Inc(parent) = copy.kind() {
            members.push(copy)?;
            copy = self.complete_copy(parent)?;
        }
        members.push(copy)?;
        members.reverse();
        Ok(Chain::new(members))
    }

    /// The copy of this id, which has to be being read. Refusals in order: `NoCopy`, `CopyNotOpen`.
    pub fn reading_copy(&self, id: CopyId) -> Result<&ReadingCopy, CopyFault>
        ensures ok { IfOk result (λ copy. state_of self.now.copies id ≡ reading copy.now.copy) }
        ensures err { IfErr result (λ fault.
            drop_refusal (state_of self.now.copies id) ≡ Some fault) }
    {
        match self.entry(id) {
            Some(VaultEntry::Reading(copy)) => Ok(copy),
            Some(VaultEntry::Complete(_)) => Err(CopyFault::CopyNotOpen),
            _ => Err(CopyFault::NoCopy),
        }
    }

    /// The copy of this id, which has to be complete. Refusals in order: `NoCopy`,
    /// `CopyNotComplete`.
    pub fn complete_copy(&self, id: CopyId) -> Result<&CompleteCopy, CopyFault>
        ensures ok { IfOk result (λ copy. state_of self.now.copies id ≡ complete copy.now) }
        ensures kept { IfOk result (λ copy. IsOfId self.now.copies id copy.now) }
        ensures err { IfErr result (λ fault.
            complete_refusal (state_of self.now.copies id) ≡ Some fault) }
    {
        match self.entry(id) {
            Some(VaultEntry::Complete(copy)) => Ok(copy.get()),
            Some(VaultEntry::Reading(_)) => Err(CopyFault::CopyNotComplete),
            _ => Err(CopyFault::NoCopy),
        }
    }

    /// Lends the copy of this id, which has to be complete. Refusals in order: `NoCopy`,
    /// `CopyNotComplete`, `OutOfMemory`. Only the first time takes memory, and never as much as the
    /// pages of the copy.
    pub fn lend(&mut self, alloc: Global, id: CopyId) -> Result<LentCopy, CopyFault>
        ensures ok { IfOk result (λ copy. state_of self.old.copies id ≡ complete copy) }
        ensures kept { IfOk result (λ copy. IsOfId self.old.copies id copy) }
        ensures err { IfErr result
            (OpenRefuses (complete_refusal (state_of self.old.copies id))) }
        ensures same { self.new ≡ self.old }
    {
        let Some(index) = self.index_of(id) else {
            return Err(CopyFault::NoCopy);
        };
        let entry = &mut self.entries[index];
        entry.lend(alloc)
    }

    /// Writes the archive of the copy of this id, which has to be complete, as `write_archive` does.
    /// Refusals in order: `NoCopy`, `CopyNotComplete`; then the faults of `write_archive`. The
    /// writer is not flushed.
    pub fn write_copy<W: Write>(
        &self,
        alloc: Global,
        id: CopyId,
        writer: &mut W,
    ) -> Result<(), CopyWriteFault>
        ensures ok { OnOk result (WritesCopy self.now.copies id (W.contents writer.old)
            (W.contents writer.new)) }
        ensures err { IfErr result (LeavesCopy self.now.copies id (W.contents writer.old)
            (W.contents writer.new)) }
    {
        let copy = self.complete_copy(id)?;
        write_archive(alloc, copy, writer)?;
        Ok(())
    }

    /// What is kept of the copy of this id.
    fn entry(&self, id: CopyId) -> Option<&VaultEntry>
        ensures state { option_map_or (λ it. state_in it.now) result dropped
            ≡ state_of self.now.copies id }
        ensures kept { IfSome result (λ it. IsOfVault self.now.copies id it.now) }
    {
        let index = self.index_of(id)?;
        Some(&self.entries[index])
    }

    /// Makes room for one page that a copy takes. The room stays until the next call that changes
    /// the vault.
    pub fn make_room(&mut self, alloc: Global, id: CopyId) -> Result<(), AllocError>
        requires { IsSome (reading_of (state_of self.old.copies id)) }
        ensures room { OnOk result (HasRoomForPage self.new id) }
        ensures copies { self.new.copies ≡ self.old.copies }
    {
        let VaultEntry::Reading(copy) = &mut self.entries[id.0 as usize - 1] else {
            unreachable!()
        };
        copy.make_room(alloc)
    }

    /// Decides of a page as it was stored: a full copy takes it, an incremental one where its LSN
    /// is at least the redo point of the copy's parent. This takes no memory.
    pub fn decide(&mut self, id: CopyId, number: PageNo, page: &Page) -> Decision
        requires there { number < length (pages_read (state_of self.old.copies id)) }
        requires undecided { WaitsFor (state_of self.old.copies id) number }
        requires numbered { page.now.number ≡ number }
        requires room { HasRoomForPage self.old id }
        ensures answer { result
            ≡ answer_in self.old.copies (state_of self.old.copies id) page.now }
        ensures decided { self.new.copies ≡ decided self.old.copies id number page.now }
    {
        let VaultEntry::Reading(copy) = &mut self.entries[id.0 as usize - 1] else {
            unreachable!()
        };
        copy.decide(number, page)
    }

    /// Seals an open copy, and answers how many pages it took. Refusals in order: `NoCopy`,
    /// `CopyNotOpen`, `PagesLeft`. This takes no memory.
    pub fn seal(&mut self, id: CopyId) -> Result<u32, CopyFault>
        ensures count { IfOk result (λ taken. taken ≡ taken_in (state_of self.old.copies id)) }
        ensures sealed { OnOk result (self.new.copies ≡ sealed self.old.copies id) }
        ensures ok { OnOk result (seal_refusal (state_of self.old.copies id) ≡ None) }
        ensures err { IfErr result (λ fault.
            seal_refusal (state_of self.old.copies id) ≡ Some fault) }
        ensures same { OnErr result (self.new ≡ self.old) }
    {
        let Some(index) = self.index_of(id) else {
            return Err(CopyFault::NoCopy);
        };
        let entry = &mut self.entries[index];
        entry.seal()
    }

    /// Drops an open copy. Its id is not given again. Refusals in order: `NoCopy`, `CopyNotOpen`.
    /// This takes no memory.
    pub fn drop_open(&mut self, id: CopyId) -> Result<(), CopyFault>
        ensures dropped { OnOk result (self.new.copies ≡ without self.old.copies id) }
        ensures ok { OnOk result (drop_refusal (state_of self.old.copies id) ≡ None) }
        ensures err { IfErr result (λ fault.
            drop_refusal (state_of self.old.copies id) ≡ Some fault) }
        ensures same { OnErr result (self.new ≡ self.old) }
    {
        let Some(index) = self.index_of(id) else {
            return Err(CopyFault::NoCopy);
        };
        let entry = &mut self.entries[index];
        entry.drop_open()
    }

    /// Where the copy of this id stands, if the id was given.
    fn index_of(&self, id: CopyId) -> Option<usize>
        ensures found { IfSome result (λ index.
            (index < length self.now.copies) × (id ≡ index + 1)) }
        ensures none { result ≡ None → state_of self.now.copies id ≡ dropped }
    {
        if id.0 == 0 || id.0 as usize > self.entries.len() {
            None
        } else {
            Some(id.0 as usize - 1)
        }
    }
}
