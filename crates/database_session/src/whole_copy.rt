//! A copy of all pages, which is made by one command.

ghost use Rattle.std.specs.Prelude.{ℕ, ◌≡◌, ◌≢◌, Err, IfSome, IsTrue, None, Ok};
ghost use Rattle.std.specs.List.{Contains};
ghost use Rattle.engine_calls.specs.declared.event.Answer.TheVariants.{Copied, Sealed};
ghost use Rattle.engine_calls.specs.declared.refusal.Refusal.TheVariants as refusal;
ghost use Rattle.database_session.specs.Calls.{Makes, copy_call};
ghost use Rattle.database_session.specs.MadeFiles.{CopyStandsOnPlaced, HasPlaced, HasStored, IsCopy};
ghost use Rattle.database_session.specs.MadeFiles.{IsBehindPoint, IsCopyGiven, IsCopyInPlace};
ghost use Rattle.database_session.specs.MadeFiles.{IsCopyStored, ItsFileWaits, SomeCopyWaits};
ghost use Rattle.database_session.specs.MadeFiles.{WaitsUnlessCopied};
ghost use Rattle.database_session.specs.UnplacedCopies.{Waits};
ghost use Rattle.session_lines.specs.Said.{IsReply};
ghost use Rattle.database_session.specs.CommandCopies.{BeginsAndFills, FillsCopy, IsPointNew, SealsCopy};
ghost use Rattle.database_session.specs.CommandCalls.{MakesCommand, Runs};
ghost use Rattle.session_lines.specs.Commands.{one_line};
ghost use Rattle.session_lines.specs.declared.operator_command.OperatorCommand.TheVariants as command;
ghost use Rattle.session_lines.specs.declared.command_said.CommandSaid.TheVariants as command_said;

use crate::made_files::copied_id;
use crate::page_takes::take_or_drop;
use crate::session::{OpenDatabase, TellsWhy};
use aries_core::{Answer, Event};
use copy_vault::{CopyId, MAX_COPIES, Vault};
use database_files::DatabaseFolder;
use log_records::RECORD_BYTES;
use log_store::LogDevice;
use page_core::PageNo;
use page_store::PageStore;
use session_lines::{CommandSaid, Said};

impl<F: DatabaseFolder, S: PageStore, D: LogDevice + TellsWhy> OpenDatabase<'_, F, S, D> {
    /// Makes a whole copy, a full one or one on this parent, behind a checkpoint that is new. Where
    /// a call is refused, none is made behind it but the one that drops the copy.
    pub fn copy(&mut self, parent: Option<u32>) -> CommandSaid
        requires { F.is_claimed self.old.folder }
        ensures made { MakesCommand (command.Copy parent) self.old.engine.state (one_line result)
            self.new.engine.state }
        // The checkpoint before it is made, unless the last one is new.
        ensures behind { IsBehindPoint parent self.old.point self.old.engine.state result
            self.new.engine.state }
        // Where a copy is told, its file is in place, and its name lasts.
        ensures in_place { HasPlaced (command.Copy parent) (one_line result) self.new.engine.state
            (F.entries self.new.folder) }
        ensures stored { HasStored (command.Copy parent) (one_line result)
            (F.is_stored self.new.folder) }
        // Where it is not, the copy waits for it. No copy stands on that one.
        ensures waits { ItsFileWaits result self.new.unplaced self.old.engine.state
            self.new.engine.state }
        ensures stands { CopyStandsOnPlaced parent result self.old.unplaced
            self.old.engine.state self.new.engine.state }
        ensures given { IsCopyGiven result self.old.unread.items }
        ensures claimed { F.is_claimed self.new.folder }
    {
        if self.is_point_new() {
            return self.copy_behind(parent);
        }
        match self.checkpoint() {
            Said::Reply(Ok(_)) => self.copy_behind(parent),
            Said::Reply(Err(why)) => CommandSaid::Call(Said::Reply(Err(why))),
            Said::Unplaced(why) => CommandSaid::Call(Said::Unplaced(why)),
        }
    }

    /// Whether the log ends with the last checkpoint, whose redo point is its begin and whose
    /// master record is in place, and no page is dirty: another one would begin redo at nothing
    /// later.
    fn is_point_new(&self) -> bool
        ensures new { IsTrue result → IsPointNew self.now.engine.state }
        ensures placed { IsTrue result → self.now.point ≡ None }
    {
        let Some(point) = self.engine.master() else {
            return false;
        };
        let behind = self.engine.log_end().0.saturating_sub(point.end.0);
        let is_last = behind == RECORD_BYTES as u64;
        let is_clean = self.engine.dirty_from(PageNo(0)).is_none();
        self.point.is_none() && is_last && point.redo == point.begin && is_clean
    }

    /// Begins a copy, has it take its pages, and makes it complete.
    fn copy_behind(&mut self, parent: Option<u32>) -> CommandSaid
        requires { F.is_claimed self.old.folder }
        ensures made { Runs (λ events replies. BeginsAndFills parent events replies result)
            self.old.engine.state self.new.engine.state }
        ensures in_place { IsCopyInPlace result self.new.engine.state
            (F.entries self.new.folder) }
        ensures stored { IsCopyStored result (F.is_stored self.new.folder) }
        ensures stands { IfSome parent (λ id. Waits self.old.unplaced id
            → result ≡ command_said.Call (Said.Reply (Err refusal.CopyNotComplete))) }
        ensures same { IfSome parent (λ id. Waits self.old.unplaced id
            → self.new.engine ≡ self.old.engine) }
        ensures given { IsCopyGiven result self.old.unread.items }
        ensures waits { SomeCopyWaits result self.new.unplaced self.old.engine.state
            self.new.engine.state }
        ensures claimed { F.is_claimed self.new.folder }
    {
        let begun = self.begin_on(parent);
        match id_of(&begun) {
            Some(id) => self.fill(id),
            None => CommandSaid::Call(begun),
        }
    }

    /// Begins a full copy, or one on this parent.
    fn begin_on(&mut self, parent: Option<u32>) -> Said
        ensures made { Makes (copy_call parent) self.old.engine.state result
            self.new.engine.state }
        ensures stands { IfSome parent (λ id. Waits self.old.unplaced id
            → result ≡ Said.Reply (Err refusal.CopyNotComplete)) }
        ensures same { IfSome parent (λ id. Waits self.old.unplaced id
            → self.new.engine ≡ self.old.engine) }
        ensures given { IsCopy result (λ id. ¬ Contains self.old.unread.items id) }
        ensures replied { IsReply result }
        ensures folder { self.new.folder ≡ self.old.folder }
    {
        match parent {
            None => self.begin_copy(None),
            Some(id) => self.begin_increment(id),
        }
    }

    /// Has a copy that was begun take its pages, and makes it complete.
    fn fill(&mut self, id: u32) -> CommandSaid
        requires { F.is_claimed self.old.folder }
        ensures made { Runs (λ events replies. FillsCopy id events replies result)
            self.old.engine.state self.new.engine.state }
        ensures in_place { IsCopyInPlace result self.new.engine.state
            (F.entries self.new.folder) }
        ensures stored { IsCopyStored result (F.is_stored self.new.folder) }
        ensures waits { WaitsUnlessCopied id result self.new.unplaced self.old.engine.state
            self.new.engine.state }
        ensures claimed { F.is_claimed self.new.folder }
    {
        match take_or_drop(&mut self.engine, &self.diagnostics, id) {
            Ok(pages) => self.finish(id, pages),
            Err(why) => CommandSaid::Call(Said::Reply(Err(why))),
        }
    }

    /// Makes a copy complete that took so many pages, and puts its file in place.
    fn finish(&mut self, id: u32, pages: u32) -> CommandSaid
        requires { F.is_claimed self.old.folder }
        ensures made { Runs (λ events replies. SealsCopy id pages events replies result)
            self.old.engine.state self.new.engine.state }
        ensures in_place { IsCopyInPlace result self.new.engine.state
            (F.entries self.new.folder) }
        ensures stored { IsCopyStored result (F.is_stored self.new.folder) }
        // A copy whose file is not in place waits for it from then on.
        ensures waits { WaitsUnlessCopied id result self.new.unplaced self.old.engine.state
            self.new.engine.state }
        ensures claimed { F.is_claimed self.new.folder }
    {
        match self.complete(id) {
            Ok(answer) => match self.place_sealed(id, answer) {
                Said::Reply(_) => CommandSaid::Copied {
                    id,
                    pages,
                    taken: taken_of(&answer),
                },
                Said::Unplaced(fault) => CommandSaid::Call(Said::Unplaced(fault)),
            },
            Err(why) => {
                let _ = self.engine.apply(Event::DropCopy(CopyId(id)));
                CommandSaid::Call(Said::Reply(Err(why)))
            }
        }
    }
}

/// The id of the new copy that is said, if one is.
fn id_of(said: &Said) -> Option<u32>
    ensures found { IfSome result (λ id. said.now ≡ Said.Reply (Ok (Copied id))) }
    ensures none { result ≡ None → (id : ℕ) → said.now ≢ Said.Reply (Ok (Copied id)) }
{
    match said {
        Said::Reply(reply) => copied_id(reply),
        Said::Unplaced(_) => None,
    }
}

/// How many pages a copy took, as the call that made it complete is answered.
fn taken_of(answer: &Answer) -> u32
    ensures { (count : ℕ) → answer.now ≡ Sealed count → result ≡ count }
{
    match answer {
        Answer::Sealed(count) => *count,
        _ => 0,
    }
}

/// The newest complete copy, if there is one.
pub fn newest(vault: &Vault) -> Option<CopyId> {
    let mut found = None;
    for id in 1..=MAX_COPIES {
        if vault.complete(CopyId(id)).is_some() {
            found = Some(CopyId(id));
        }
    }
    found
}
