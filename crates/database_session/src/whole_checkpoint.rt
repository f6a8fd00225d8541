//! A checkpoint that is made by one command.

ghost use Rattle.std.specs.Prelude.{◌≡◌, IfErr, OnOk, true};
ghost use Rattle.saved_files.specs.Saved.{name_of};
ghost use Rattle.saved_files.specs.declared.saved_name.SavedName.TheVariants as saved;
ghost use Rattle.database_session.specs.MadeFiles.{EndsCheckpoint, IfPoint, IsCleanFor, IsInPlace};
ghost use Rattle.database_session.specs.MadeFiles.{IsStoredFor, is_master};
ghost use Rattle.database_files.specs.MovedAside.{PutsAside};
ghost use Rattle.database_session.specs.UnplacedCopies.{PointWaitsUnlessPlaced};
ghost use Rattle.database_session.specs.CommandCalls.{AreRefused, GatherSteps, Gathers, GathersAll};
ghost use Rattle.database_session.specs.CommandCalls.{GathersClean, IsOfCheckpoint, MakesCommand, Runs};
ghost use Rattle.session_lines.specs.Commands.{one_line};
ghost use Rattle.session_lines.specs.declared.operator_command.OperatorCommand.TheVariants as command;
ghost use Rattle.session_lines.specs.declared.command_said.CommandSaid.TheVariants as command_said;
ghost use Rattle.engine_calls.specs.declared.event.Event.TheVariants as event;

use crate::page_writes::write_pages;
use crate::session::{OpenDatabase, TellsWhy};
use aries_core::{Engine, Gathered, Refusal};
use database_files::DatabaseFolder;
use log_store::LogDevice;
use page_core::MAX_PAGES;
use page_store::PageStore;
use session_lines::Said;

impl<F: DatabaseFolder, S: PageStore, D: LogDevice + TellsWhy> OpenDatabase<'_, F, S, D> {
    /// Writes each dirty page, so that redo begins late, and makes a whole checkpoint, whose master
    /// record is in place.
    pub fn checkpoint(&mut self) -> Said
        requires { F.is_claimed self.old.folder }
        ensures made { MakesCommand command.Checkpoint self.old.engine.state
            (one_line (command_said.Call result)) self.new.engine.state }
        // Where it is answered, no page was dirty when it was begun, or gone on with.
        ensures clean { IsCleanFor command.Checkpoint self.old.engine.state
            (one_line (command_said.Call result)) self.new.engine.state }
        ensures in_place { IsInPlace event.CkptEnd result self.new.engine.state
            (F.entries self.new.folder) }
        ensures stored { IsStoredFor event.CkptEnd result (F.is_stored self.new.folder) }
        ensures waits { PointWaitsUnlessPlaced self.old.point result self.new.point }
        ensures kept { IfPoint result (λ begin end. PutsAside (self.old.is_master_wrong ≡ true)
            (name_of saved.Master) (is_master begin end)
            (F.entries self.old.folder) (F.entries self.new.folder)) }
        ensures unplaced { self.new.unplaced ≡ self.old.unplaced }
        ensures unread { self.new.unread ≡ self.old.unread }
        ensures claimed { F.is_claimed self.new.folder }
    {
        match gathered(&mut self.engine) {
            Ok(()) => self.end_gathered(),
            Err(why) => Said::Reply(Err(why)),
        }
    }

    /// Ends the checkpoint that is gathered, and puts its master record in place.
    fn end_gathered(&mut self) -> Said
        requires { F.is_claimed self.old.folder }
        ensures ended { EndsCheckpoint self.old.engine.state result self.new.engine.state }
        ensures in_place { IsInPlace event.CkptEnd result self.new.engine.state
            (F.entries self.new.folder) }
        ensures stored { IsStoredFor event.CkptEnd result (F.is_stored self.new.folder) }
        ensures waits { PointWaitsUnlessPlaced self.old.point result self.new.point }
        ensures kept { IfPoint result (λ begin end. PutsAside (self.old.is_master_wrong ≡ true)
            (name_of saved.Master) (is_master begin end)
            (F.entries self.old.folder) (F.entries self.new.folder)) }
        ensures unplaced { self.new.unplaced ≡ self.old.unplaced }
        ensures unread { self.new.unread ≡ self.old.unread }
        ensures claimed { F.is_claimed self.new.folder }
    {
        match self.engine.ckpt_end() {
            Ok(point) => self.place_ended(point),
            Err(why) => Said::Reply(Err(why)),
        }
    }
}

/// Writes each dirty page, begins a checkpoint, and gathers all that it has to.
fn gathered<S: PageStore, D: LogDevice>(engine: &mut Engine<S, D>) -> Result<(), Refusal>
    ensures gathered { OnOk result (Runs GathersAll engine.old.state engine.new.state) }
    ensures clean { OnOk result (GathersClean engine.old.state engine.new.state) }
    ensures refused { IfErr result (λ why.
        Runs (AreRefused IsOfCheckpoint why) engine.old.state engine.new.state) }
{
    match write_pages(engine) {
        Ok(_) => begin_gathered(engine),
        Err(why) => Err(why),
    }
}

/// Begins a checkpoint, or goes on with one that is open, and gathers all that it has to.
fn begin_gathered<S: PageStore, D: LogDevice>(engine: &mut Engine<S, D>) -> Result<(), Refusal>
    ensures gathered { OnOk result (Runs Gathers engine.old.state engine.new.state) }
    ensures refused { IfErr result (λ why.
        Runs (AreRefused IsOfCheckpoint why) engine.old.state engine.new.state) }
{
    match engine.ckpt_begin() {
        Ok(_) => gather_all(engine),
        Err(Refusal::CkptOpen) => gather_all(engine),
        Err(why) => Err(why),
    }
}

/// Gathers all that the open checkpoint has to.
fn gather_all<S: PageStore, D: LogDevice>(engine: &mut Engine<S, D>) -> Result<(), Refusal>
    ensures gathered { OnOk result (Runs GatherSteps engine.old.state engine.new.state) }
    ensures refused { IfErr result (λ why.
        Runs (AreRefused IsOfCheckpoint why) engine.old.state engine.new.state) }
{
    for _ in 0..MAX_PAGES {
        match engine.ckpt_gather() {
            Ok(Gathered::More) => {}
            Ok(Gathered::Done) => return Ok(()),
            Err(why) => return Err(why),
        }
    }
    Ok(())
}
