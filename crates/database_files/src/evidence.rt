//! What shows that a log was longer once than its file's front is now.

ghost use Rattle.std.specs.Prelude.{◌↔◌, IsTrue};
ghost use Rattle.database_files.specs.Evidence.{IsMissed, IsWithin};

use crate::closed_note::ClosedNote;
use crate::found_copies::{CopyFile, FoundCopy};
use crate::found_manifest::sums_of;
use copy_vault::{CompleteCopy, CopyId};
use log_prefix::{Cut, forced_behind};
use log_store::Master;
use manifest::{FileSum, Sums};
use page_core::{Lsn, PageNo};
use std::alloc::{AllocError, Global};
use std::fmt;

/// What knows of a place in the log that was forced.
#[derive(Clone, Copy, Debug, PartialEq, Eq)]
pub enum Witness {
    /// The note of the last clean closing: the log ended there.
    Closed,
    /// The manifest: the log was forced up to there.
    Manifest,
    /// The manifest has the sum of the log's bytes before there, and they have another one.
    Changed,
    /// The master record: its checkpoint ended with the record there.
    Master,
    /// The copy of this id began at the record there.
    Begin(CopyId),
    /// This page of the copy of this id has the change of the record there.
    Page(CopyId, PageNo),
    /// A Commit or an EndChkpt stands there, and a record behind it.
    Record,
}

impl fmt::Display for Witness {
    fn fmt<W: fmt::Write>(&self, f: &mut fmt::Formatter<W>) -> fmt::Result {
        match self {
            Witness::Closed => f.write_str("`closed` says that the log ended at"),
            Witness::Manifest => f.write_str("`manifest` says that the log was forced to"),
            Witness::Changed => {
                f.write_str("`manifest` has another sum of the bytes of the log before")
            }
            Witness::Master => f.write_str("`master` names the end of a checkpoint at"),
            Witness::Begin(id) => write!(f, "`copy-{number}` began at", number = id.0),
            Witness::Page(id, page) => {
                let (copy, page) = (id.0, page.0);
                write!(f, "page {page} of `copy-{copy}` has the change at")
            }
            Witness::Record => f.write_str("a record that was forced stands at"),
        }
    }
}

/// Whether a log that ends there has all that a copy knows of: where it began, and the change of
/// each of its pages.
pub fn is_within(copy: &CompleteCopy, end: Lsn) -> bool
    ensures { IsTrue result ↔ IsWithin end copy.now }
{
    if copy.begin() >= end {
        return false;
    }
    for number in 0..copy.pages() {
        if let Some(page) = copy.page(PageNo(number))
            && page.lsn >= end
        {
            return false;
        }
    }
    true
}

/// That the log was forced up to a place, and who knows it.
#[derive(Clone, Copy, Debug, PartialEq, Eq)]
pub struct ForcedEndClaim {
    pub witness: Witness,
    /// The LSN of a record that was forced, or where the log ended.
    pub at: Lsn,
}

impl ForcedEndClaim {
    /// Whether a log that ends there lacks something that was forced.
    pub fn is_missed(&self, end: Lsn) -> bool
        ensures { IsTrue result ↔ IsMissed self.now end }
    {
        match self.witness {
            Witness::Closed | Witness::Manifest => end < self.at,
            Witness::Changed => true,
            Witness::Master | Witness::Begin(_) | Witness::Page(_, _) | Witness::Record => {
                end <= self.at
            }
        }
    }
}

/// What shows that a log was forced past the end that it has now.
#[derive(Debug, Drop)]
pub struct ForcedEndEvidence {
    /// Where the front of its file ends.
    pub end: Lsn,
    /// Why the bytes behind it are left out, if there are such.
    pub cut: Option<Cut>,
    /// Those that say that more was forced.
    pub claims: Vec<ForcedEndClaim>,
}

impl ForcedEndEvidence {
    ghost use Rattle.std.specs.Prelude.{ℕ, ◌≡◌, ◌<◌, ◌≤◌, [], IfOk, IfSome, OnOk};
    ghost use Rattle.std.specs.List.{All};
    ghost use Rattle.log_prefix.specs.Remains.{WasForced};
    ghost use Rattle.database_files.specs.Evidence.{HaveSummedNamed, Weighs, IsBegunIn, IsBy};
    ghost use Rattle.database_files.specs.Evidence.{IsByManifest, IsFileWithin, IsWeighed, IsOfCopy};
    ghost use Rattle.database_files.specs.Evidence.{IsOfLongerCopy, IsWithin, NotesMissed};
    ghost use Rattle.database_files.specs.declared.evidence.Witness.TheVariants as witness;

    /// Whether nothing shows that.
    pub fn is_none(&self) -> bool
        ensures { IsTrue result ↔ (self.now.claims.items ≡ []) }
    {
        self.claims.is_empty()
    }

    /// Of a log whose front ends there, before anything is weighed.
    pub fn new(alloc: Global, end: Lsn, cut: Option<Cut>) -> ForcedEndEvidence
        ensures end { result.end ≡ end }
        ensures claims { result.claims.items ≡ [] }
    {
        ForcedEndEvidence {
            end,
            cut,
            claims: Vec::new(alloc),
        }
    }

    /// Takes note of a claim, if the log lacks what it says.
    fn note(&mut self, witness: Witness, at: Lsn) -> Result<(), AllocError>
        ensures end { self.new.end ≡ self.old.end }
        ensures noted { OnOk result (NotesMissed self.old.end
            (record { witness = witness; at = at }) self.old.claims.items self.new.claims.items) }
    {
        let claim = ForcedEndClaim { witness, at };
        if claim.is_missed(self.end) {
            self.claims.push(claim)?;
        }
        Ok(())
    }

    /// Weighs the note of the last closing.
    pub fn weigh_note(&mut self, note: Option<ClosedNote>) -> Result<(), AllocError>
        ensures end { self.new.end ≡ self.old.end }
        ensures weighed { OnOk result (Weighs (IsBy witness.Closed)
            self.old.claims.items self.new.claims.items
            (IfSome note (λ it. it.end ≤ self.old.end))) }
    {
        match note {
            Some(note) => self.note(Witness::Closed, note.end),
            None => Ok(()),
        }
    }

    /// Weighs the master record.
    pub fn weigh_master(&mut self, master: Option<Master>) -> Result<(), AllocError>
        ensures end { self.new.end ≡ self.old.end }
        ensures weighed { OnOk result (Weighs (IsBy witness.Master)
            self.old.claims.items self.new.claims.items
            (IfSome master (λ it. it.end < self.old.end))) }
    {
        match master {
            Some(master) => self.note(Witness::Master, master.end),
            None => Ok(()),
        }
    }

    /// Weighs what a manifest says of the log, whose file has these bytes: it has as many as are
    /// named, and they have the sum that is named. Answers the sum of these, if that is so.
    pub fn weigh_manifest(
        &mut self,
        log: Option<FileSum>,
        bytes: &[u8],
    ) -> Result<Option<Sums>, AllocError>
        ensures end { self.new.end ≡ self.old.end }
        ensures weighed { OnOk result (Weighs IsByManifest
            self.old.claims.items self.new.claims.items
            (IfSome log (IsBegunIn self.old.end bytes.now))) }
        ensures summed { IfOk result (HaveSummedNamed self.old.end bytes.now log) }
    {
        let Some(file) = log else {
            return Ok(None);
        };
        if file.bytes > self.end.0 {
            self.note(Witness::Manifest, Lsn(file.bytes))?;
            return Ok(None);
        }
        let sums = sums_of(&file, bytes);
        if sums.is_none() {
            self.note(Witness::Changed, Lsn(file.bytes))?;
        }
        Ok(sums)
    }

    /// Weighs the copies that were found.
    pub fn weigh_copies(&mut self, copies: &[CopyFile]) -> Result<(), AllocError>
        ensures end { self.new.end ≡ self.old.end }
        ensures weighed { OnOk result (Weighs (IsOfLongerCopy self.old.end copies.now)
            self.old.claims.items self.new.claims.items
            (All (IsFileWithin self.old.end) copies.now)) }
        // Each copy that knows of more is named by the id of its file.
        ensures each { OnOk result
            (All (IsWeighed self.old.end self.new.claims.items) copies.now) }
    {
        for file in copies {
            if let FoundCopy::Whole(copy) = &file.found {
                self.weigh_copy(file.id, copy)?;
            }
        }
        Ok(())
    }

    /// Weighs the copy that stands under the name of this id: where it began, and the first of its
    /// pages that knows of more.
    fn weigh_copy(&mut self, id: CopyId, copy: &CompleteCopy) -> Result<(), AllocError>
        ensures end { self.new.end ≡ self.old.end }
        ensures weighed { OnOk result (Weighs (IsOfCopy id)
            self.old.claims.items self.new.claims.items
            (IsWithin self.old.end copy.now)) }
    {
        self.note(Witness::Begin(id), copy.begin())?;
        for number in 0..copy.pages() {
            if let Some(page) = copy.page(PageNo(number))
                && page.lsn >= self.end
            {
                return self.note(Witness::Page(id, PageNo(number)), page.lsn);
            }
        }
        Ok(())
    }

    /// Weighs the bytes of the log's file behind the front: a forced record may stand there.
    pub fn weigh_bytes_behind(&mut self, bytes: &[u8]) -> Result<(), AllocError>
        ensures end { self.new.end ≡ self.old.end }
        ensures weighed { OnOk result (Weighs (IsBy witness.Record)
            self.old.claims.items self.new.claims.items
            ((at : ℕ) → self.old.end ≤ at → ¬ WasForced bytes.now at)) }
    {
        match forced_behind(bytes, self.end) {
            Some(at) => self.note(Witness::Record, at),
            None => Ok(()),
        }
    }
}
