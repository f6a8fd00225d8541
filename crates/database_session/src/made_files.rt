//! The calls whose answers say that a file is in place.

ghost use Rattle.std.specs.Prelude.{ℕ, ◌≡◌, ◌≢◌, [], Err, IfSome, None, Ok, OnErr, OnOk, Some};
ghost use Rattle.std.specs.Prelude.{true};
ghost use Rattle.std.specs.List.{Contains};
ghost use Rattle.copy_vault.specs.CopyWrite.{WritesCopy};
ghost use Rattle.copy_vault.specs.Vault.{complete_of, state_of, taken_in};
ghost use Rattle.engine_calls.specs.declared.event.Answer.TheVariants as answered;
ghost use Rattle.engine_calls.specs.declared.event.Answer.TheVariants.{Copied};
ghost use Rattle.engine_calls.specs.declared.event.Event.TheVariants as event;
ghost use Rattle.engine_calls.specs.declared.refusal.Refusal.TheVariants as refusal;
ghost use Rattle.engine_rules.specs.Step.{Step};
ghost use Rattle.saved_files.specs.Folder.{Changes, Puts};
ghost use Rattle.saved_files.specs.PutFault.{bytes_by};
ghost use Rattle.saved_files.specs.Saved.{name_of};
ghost use Rattle.saved_files.specs.declared.saved_name.SavedName.TheVariants as saved;
ghost use Rattle.database_session.specs.Calls.{Makes, MakesOne, copy_call};
ghost use Rattle.database_files.specs.DatabaseFolder.{HasFile};
ghost use Rattle.database_session.specs.MadeFiles.{IfPoint, IsCopy, IsEndedOrWaited};
ghost use Rattle.database_session.specs.MadeFiles.{IsSealedAgain, StepsAndSays, is_master};
ghost use Rattle.database_files.specs.MovedAside.{IsCleared, PutsAside};
ghost use Rattle.database_session.specs.UnplacedCopies.{PointWaits, PointWaitsUnlessPlaced, Waits};
ghost use Rattle.database_session.specs.UnplacedCopies.{WaitsFree, WaitsUnlessPlaced, answer_of};
ghost use Rattle.session_lines.specs.Said.{IsAnswer, IsAnswerOr, IsReply};

use crate::engine_files::{place_copy, place_master};
use crate::session::{OpenDatabase, TellsWhy};
use crate::unplaced_point::UnplacedPoint;
use aries_core::{Answer, Event, Refusal, Reply};
use copy_vault::{CopyId, CopyWriteFault};
use database_files::{DatabaseFolder, Place, move_copy_aside, move_master_aside};
use fuzzy_ckpt::Point;
use log_store::LogDevice;
use page_store::PageStore;
use saved_files::{FileFault, PutFault};
use session_lines::Said;
use std::io;

impl<F: DatabaseFolder, S: PageStore, D: LogDevice + TellsWhy> OpenDatabase<'_, F, S, D> {
    /// Makes a copy complete, and puts its file in place. Where the engine has made it complete
    /// before, and its file is not in place, that is tried again.
    pub(crate) fn seal(&mut self, id: u32) -> Said
        requires { F.is_claimed self.old.folder }
        ensures says { StepsAndSays self.old.engine.state (event.Seal id) refusal.CopyNotOpen
            result self.new.engine.state }
        // Where it is said that the copy is complete, its file is in place, and its name lasts.
        ensures put { IsAnswer result → HasFile (name_of (saved.Copy id))
            (bytes_by (WritesCopy self.new.engine.state.copies id)) (F.entries self.new.folder) }
        ensures stored { IsAnswer result → F.is_stored self.new.folder }
        // Where it is said that the file is not in place, the copy waits for it from then on.
        ensures waits { WaitsUnlessPlaced id result self.new.unplaced }
        // It is tried again then, and answered as the call that made the copy complete.
        ensures again { Waits self.old.unplaced id → IsSealedAgain
            (state_of self.old.engine.state.copies id) result }
        // Where it is in place, it is to be named in the manifest.
        ensures noted { IsAnswer result → self.new.placed.copy ≡ Some id }
        ensures claimed { F.is_claimed self.new.folder }
    {
        match self.complete(id) {
            Ok(answer) => self.place_sealed(id, answer),
            Err(Refusal::CopyNotOpen) => match self.waiting(id) {
                Some(taken) => self.place_sealed(id, Answer::Sealed(taken)),
                None => Said::Reply(Err(Refusal::CopyNotOpen)),
            },
            Err(why) => Said::Reply(Err(why)),
        }
    }

    /// Makes a copy complete, which waits for its file then.
    pub(crate) fn complete(&mut self, id: u32) -> Reply
        ensures step { Step self.old.engine.state (event.Seal id) result self.new.engine.state }
        ensures waits { OnOk result (Waits self.new.unplaced id) }
        ensures refused { OnErr result (self.new.unplaced ≡ self.old.unplaced) }
        ensures folder { self.new.folder ≡ self.old.folder }
    {
        let reply = self.engine.apply(Event::Seal(CopyId(id)));
        if reply.is_ok() {
            // The engine is fit, and so has no more copies than may wait.
            let _end = self.engine.log_end();
            self.unplaced.begin(id);
        }
        reply
    }

    /// How many pages a complete copy has whose file is not in place, if this is one.
    fn waiting(&self, id: u32) -> Option<u32>
        ensures waits { IfSome result (λ _. Waits self.now.unplaced id) }
        ensures taken { IfSome result (λ taken.
            taken ≡ taken_in (state_of self.now.engine.state.copies id)) }
        ensures none { result ≡ None → Waits self.now.unplaced id
            → complete_of (state_of self.now.engine.state.copies id) ≡ None }
    {
        if !self.unplaced.has(id) {
            return None;
        }
        match self.engine.copies().complete(CopyId(id)) {
            Some(copy) => Some(copy.taken()),
            None => None,
        }
    }

    /// Puts the file of a complete copy in place, and answers this, if it is there.
    pub(crate) fn place_sealed(&mut self, id: u32, answer: Answer) -> Said
        requires claimed { F.is_claimed self.old.folder }
        requires waits { Waits self.old.unplaced id }
        ensures says { IsAnswerOr answer result }
        ensures put { IsAnswer result → HasFile (name_of (saved.Copy id))
            (bytes_by (WritesCopy self.new.engine.state.copies id)) (F.entries self.new.folder) }
        ensures stored { IsAnswer result → F.is_stored self.new.folder }
        ensures waits { WaitsUnlessPlaced id result self.new.unplaced }
        ensures noted { IsAnswer result → self.new.placed.copy ≡ Some id }
        ensures engine { self.new.engine ≡ self.old.engine }
        ensures claimed { F.is_claimed self.new.folder }
    {
        match self.keep_copy(id) {
            Ok(()) => {
                self.unplaced.end(id);
                self.placed.copy = Some(id);
                Said::Reply(Ok(answer))
            }
            Err(fault) => {
                self.diagnostics
                    .tell_unkept(Place::Copy(CopyId(id)), fault, self.notes);
                Said::Unplaced(fault)
            }
        }
    }

    /// Puts a copy that is complete in place. What has its name before gets another one.
    fn keep_copy(&mut self, id: u32) -> Result<(), FileFault>
        requires claimed { F.is_claimed self.old.folder }
        requires waits { Waits self.old.unplaced id }
        ensures put { OnOk result (HasFile (name_of (saved.Copy id))
            (bytes_by (WritesCopy self.new.engine.state.copies id)) (F.entries self.new.folder)) }
        ensures stored { OnOk result (F.is_stored self.new.folder) }
        ensures waits { Waits self.new.unplaced id }
        ensures engine { self.new.engine ≡ self.old.engine }
        ensures claimed { F.is_claimed self.new.folder }
    {
        if !self.unplaced.is_alone(id) {
            match move_copy_aside(&self.diagnostics, &mut self.folder, CopyId(id)) {
                Ok(name) => self.unplaced.free(name),
                Err(_) => return Err(FileFault::WriteFault(0)),
            }
        }
        self.put_copy(id)
    }

    /// Puts a copy that is complete in place, whose name nothing else has.
    fn put_copy(&mut self, id: u32) -> Result<(), FileFault>
        requires claimed { F.is_claimed self.old.folder }
        requires free { WaitsFree self.old.unplaced id }
        ensures put { OnOk result (HasFile (name_of (saved.Copy id))
            (bytes_by (WritesCopy self.new.engine.state.copies id)) (F.entries self.new.folder)) }
        ensures stored { OnOk result (F.is_stored self.new.folder) }
        ensures unplaced { self.new.unplaced ≡ self.old.unplaced }
        ensures engine { self.new.engine ≡ self.old.engine }
        ensures claimed { F.is_claimed self.new.folder }
    {
        match place_copy(&mut self.folder, self.alloc, &self.engine, CopyId(id)) {
            Ok(()) => Ok(()),
            Err(PutFault::Unwritten(CopyWriteFault::Archive(why))) => Err(FileFault::from(why)),
            Err(PutFault::Unwritten(CopyWriteFault::Refused(_))) => Err(FileFault::OutOfMemory),
            Err(PutFault::Unmade(fault) | PutFault::Unplaced(fault)) => Err(fault),
        }
    }

    /// Ends a checkpoint, and puts its master record in place. Where no checkpoint is open, and the
    /// record of the last one is not in place, that is tried again.
    pub(crate) fn end_checkpoint(&mut self) -> Said
        requires { F.is_claimed self.old.folder }
        ensures says { StepsAndSays self.old.engine.state event.CkptEnd refusal.NoCkpt result
            self.new.engine.state }
        // Where a checkpoint is answered, its master record is in place, and its name lasts.
        ensures put { IfPoint result (λ begin end. HasFile (name_of saved.Master)
            (is_master begin end) (F.entries self.new.folder)) }
        ensures stored { IfPoint result (λ _ _. F.is_stored self.new.folder) }
        // What stood there as one, and was wrong, has another name, and no other name changes.
        ensures kept { IfPoint result (λ begin end. PutsAside (self.old.is_master_wrong ≡ true)
            (name_of saved.Master) (is_master begin end)
            (F.entries self.old.folder) (F.entries self.new.folder)) }
        ensures which { IsEndedOrWaited self.old.engine.state self.old.point result
            self.new.engine.state }
        ensures waits { PointWaitsUnlessPlaced self.old.point result self.new.point }
        ensures claimed { F.is_claimed self.new.folder }
    {
        match self.engine.ckpt_end() {
            Ok(point) => self.place_ended(point),
            Err(Refusal::NoCkpt) => match self.point {
                Some(point) => self.place_point(&point),
                None => Said::Reply(Err(Refusal::NoCkpt)),
            },
            Err(why) => Said::Reply(Err(why)),
        }
    }

    /// Puts the master record of the last checkpoint in place, and answers it, if it is there.
    pub fn place_ended(&mut self, point: Point) -> Said
        requires { F.is_claimed self.old.folder }
        ensures says { IsAnswerOr (answered.Point point.begin point.end point.redo) result }
        ensures placed { IsAnswer result → self.new.point ≡ None }
        ensures waits { ¬ IsAnswer result
            → PointWaits self.new.point (answered.Point point.begin point.end point.redo) }
        ensures noted { IsAnswer result → self.new.placed.master ≡ true }
        ensures put { IsAnswer result → HasFile (name_of saved.Master)
            (is_master point.begin point.end) (F.entries self.new.folder) }
        ensures stored { IsAnswer result → F.is_stored self.new.folder }
        ensures kept { IsAnswer result → PutsAside (self.old.is_master_wrong ≡ true)
            (name_of saved.Master) (is_master point.begin point.end)
            (F.entries self.old.folder) (F.entries self.new.folder) }
        ensures failed { self.new.has_failed ≡ self.old.has_failed }
        ensures engine { self.new.engine ≡ self.old.engine }
        ensures unplaced { self.new.unplaced ≡ self.old.unplaced }
        ensures unread { self.new.unread ≡ self.old.unread }
        ensures claimed { F.is_claimed self.new.folder }
    {
        let unplaced = UnplacedPoint {
            begin: point.begin.0,
            end: point.end.0,
            redo: point.redo.0,
        };
        self.point = Some(unplaced);
        self.place_point(&unplaced)
    }

    /// Puts the master record of the checkpoint that waits in place, and answers it, if it is
    /// there.
    fn place_point(&mut self, point: &UnplacedPoint) -> Said
        requires claimed { F.is_claimed self.old.folder }
        requires waits { self.old.point ≡ Some point.now }
        ensures says { IsAnswerOr (answer_of point.now) result }
        ensures placed { IsAnswer result → self.new.point ≡ None }
        ensures waits { ¬ IsAnswer result → self.new.point ≡ self.old.point }
        ensures noted { IsAnswer result → self.new.placed.master ≡ true }
        ensures put { IsAnswer result → HasFile (name_of saved.Master)
            (is_master point.now.begin point.now.end) (F.entries self.new.folder) }
        ensures stored { IsAnswer result → F.is_stored self.new.folder }
        ensures kept { IsAnswer result → PutsAside (self.old.is_master_wrong ≡ true)
            (name_of saved.Master) (is_master point.now.begin point.now.end)
            (F.entries self.old.folder) (F.entries self.new.folder) }
        ensures failed { self.new.has_failed ≡ self.old.has_failed }
        ensures engine { self.new.engine ≡ self.old.engine }
        ensures unplaced { self.new.unplaced ≡ self.old.unplaced }
        ensures unread { self.new.unread ≡ self.old.unread }
        ensures claimed { F.is_claimed self.new.folder }
    {
        match self.keep_master(point) {
            Ok(()) => {
                self.point = None;
                self.placed.master = true;
                Said::Reply(Ok(point.answer()))
            }
            Err(fault) => {
                self.diagnostics
                    .tell_unkept(Place::Master, fault, self.notes);
                Said::Unplaced(fault)
            }
        }
    }

    /// Puts the master record of a checkpoint in place. What stands there and names no checkpoint
    /// of the log gets another name.
    fn keep_master(&mut self, point: &UnplacedPoint) -> Result<(), FileFault>
        requires { F.is_claimed self.old.folder }
        ensures put { OnOk result (HasFile (name_of saved.Master)
            (is_master point.now.begin point.now.end) (F.entries self.new.folder)) }
        ensures stored { OnOk result (F.is_stored self.new.folder) }
        ensures kept { OnOk result (PutsAside (self.old.is_master_wrong ≡ true)
            (name_of saved.Master) (is_master point.now.begin point.now.end)
            (F.entries self.old.folder) (F.entries self.new.folder)) }
        ensures point { self.new.point ≡ self.old.point }
        ensures failed { self.new.has_failed ≡ self.old.has_failed }
        ensures engine { self.new.engine ≡ self.old.engine }
        ensures unplaced { self.new.unplaced ≡ self.old.unplaced }
        ensures unread { self.new.unread ≡ self.old.unread }
        ensures claimed { F.is_claimed self.new.folder }
    {
        match self.clear_master() {
            Ok(()) => self.put_master(point),
            Err(_) => Err(FileFault::WriteFault(0)),
        }
    }

    /// Gives what stands as the master record another name, if it names no checkpoint of the log.
    fn clear_master(&mut self) -> io::Result<()>
        requires { F.is_claimed self.old.folder }
        ensures cleared { OnOk result (self.old.is_master_wrong ≡ true
            → IsCleared (name_of saved.Master)
            (F.entries self.old.folder) (F.entries self.new.folder)) }
        ensures kept { OnOk result (¬ (self.old.is_master_wrong ≡ true)
            → F.entries self.new.folder ≡ F.entries self.old.folder) }
        ensures point { self.new.point ≡ self.old.point }
        ensures failed { self.new.has_failed ≡ self.old.has_failed }
        ensures engine { self.new.engine ≡ self.old.engine }
        ensures unplaced { self.new.unplaced ≡ self.old.unplaced }
        ensures unread { self.new.unread ≡ self.old.unread }
        ensures claimed { F.is_claimed self.new.folder }
    {
        if !self.is_master_wrong {
            return Ok(());
        }
        match move_master_aside(&self.diagnostics, &mut self.folder) {
            Ok(()) => {
                self.is_master_wrong = false;
                Ok(())
            }
            Err(why) => Err(why),
        }
    }

    /// Puts the master record of a checkpoint in the place of the one before.
    fn put_master(&mut self, point: &UnplacedPoint) -> Result<(), FileFault>
        requires { F.is_claimed self.old.folder }
        ensures put { OnOk result (HasFile (name_of saved.Master)
            (is_master point.now.begin point.now.end) (F.entries self.new.folder)) }
        ensures stored { OnOk result (F.is_stored self.new.folder) }
        ensures kept { OnOk result (Changes
            (Puts (name_of saved.Master) (is_master point.now.begin point.now.end))
            (F.entries self.old.folder) (F.entries self.new.folder)) }
        ensures point { self.new.point ≡ self.old.point }
        ensures failed { self.new.has_failed ≡ self.old.has_failed }
        ensures engine { self.new.engine ≡ self.old.engine }
        ensures unplaced { self.new.unplaced ≡ self.old.unplaced }
        ensures unread { self.new.unread ≡ self.old.unread }
        ensures claimed { F.is_claimed self.new.folder }
    {
        match place_master(&mut self.folder, self.alloc, point.master()) {
            Ok(()) => Ok(()),
            Err(PutFault::Unwritten(why) | PutFault::Unmade(why) | PutFault::Unplaced(why)) => {
                Err(why)
            }
        }
    }

    /// Begins an incremental copy. None stands on a copy whose file is not in place.
    pub(crate) fn begin_increment(&mut self, parent: u32) -> Said
        ensures made { Makes (event.CopyInc parent) self.old.engine.state result
            self.new.engine.state }
        ensures given { IsCopy result (λ id. ¬ Contains self.old.unread.items id) }
        ensures once { self.old.unread.items ≡ [] → ¬ Waits self.old.unplaced parent
            → MakesOne (event.CopyInc parent) self.old.engine.state result
            self.new.engine.state }
        ensures refused { Waits self.old.unplaced parent
            → result ≡ Said.Reply (Err refusal.CopyNotComplete) }
        ensures same { Waits self.old.unplaced parent → self.new.engine ≡ self.old.engine }
        ensures replied { IsReply result }
        ensures folder { self.new.folder ≡ self.old.folder }
    {
        if self.unplaced.has(parent) {
            return Said::Reply(Err(Refusal::CopyNotComplete));
        }
        self.begin_copy(Some(parent))
    }

    /// Begins a copy: a full one, or an incremental one on this parent. The ids of files that could
    /// not be read are passed over: such a copy is dropped at once.
    pub(crate) fn begin_copy(&mut self, parent: Option<u32>) -> Said
        ensures made { Makes (copy_call parent) self.old.engine.state result
            self.new.engine.state }
        ensures given { IsCopy result (λ id. ¬ Contains self.old.unread.items id) }
        // Where each file could be read, the first call is said.
        ensures once { self.old.unread.items ≡ [] → MakesOne (copy_call parent)
            self.old.engine.state result self.new.engine.state }
        ensures replied { IsReply result }
        ensures folder { self.new.folder ≡ self.old.folder }
    {
        for _ in 0..=self.unread.len() {
            let reply = self.begun(parent);
            match copied_id(&reply) {
                Some(id) if self.unread.contains(&id) => {
                    let _ = self.engine.apply(Event::DropCopy(CopyId(id)));
                }
                _ => return Said::Reply(reply),
            }
        }
        // No more are passed over than were not read, for ids rise.
        Said::Reply(Err(Refusal::TooManyCopies))
    }

    /// Makes the call that begins a copy.
    fn begun(&mut self, parent: Option<u32>) -> Reply
        ensures step { Step self.old.engine.state (copy_call parent) result
            self.new.engine.state }
        ensures unread { self.new.unread ≡ self.old.unread }
        ensures folder { self.new.folder ≡ self.old.folder }
    {
        match parent {
            None => self.engine.apply(Event::CopyFull),
            Some(id) => self.engine.apply(Event::CopyInc(CopyId(id))),
        }
    }
}

/// The id of the new copy that is answered, if one is.
pub(crate) fn copied_id(reply: &Reply) -> Option<u32>
    ensures found { IfSome result (λ id. reply.now ≡ Ok (Copied id)) }
    ensures none { result ≡ None → (id : ℕ) → reply.now ≢ Ok (Copied id) }
{
    match reply {
        Ok(Answer::Copied(id)) => Some(id.0),
        _ => None,
    }
}
