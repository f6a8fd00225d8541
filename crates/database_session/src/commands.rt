//! The commands of an operator: each makes calls of the engine, or tells of the database.

ghost use Rattle.std.specs.Prelude.{◌≡◌, IfErr, OnOk};
ghost use Rattle.std.specs.Io.KnownBytes.{Appends};
ghost use Rattle.database_session.specs.MadeFiles.{IsCleanFor};
ghost use Rattle.session_lines.specs.Said.{LeavesLine};
ghost use Rattle.database_session.specs.Session.{LeavesCommand, TakesCommand};
ghost use Rattle.database_session.specs.CommandCalls.{MakesCommand};
ghost use Rattle.session_lines.specs.Commands.{one_line, text_of};
ghost use Rattle.session_lines.specs.declared.operator_command.OperatorCommand.TheVariants as command;

use crate::page_writes::write_pages;
use crate::session::{OpenDatabase, TellsWhy};
use database_files::DatabaseFolder;
use log_store::LogDevice;
use page_store::PageStore;
use session_lines::{
    CommandSaid, HELP, OperatorCommand, Said, ServeFault, write_command, write_text,
};
use std::io::Write;

impl<F: DatabaseFolder, S: PageStore, D: LogDevice + TellsWhy> OpenDatabase<'_, F, S, D> {
    /// Does what a command says, and writes its lines.
    pub(crate) fn take_command<W: Write>(
        &mut self,
        number: u64,
        command: OperatorCommand,
        writer: &mut W,
    ) -> Result<(), ServeFault>
        requires { F.is_claimed self.old.folder }
        ensures taken { OnOk result (TakesCommand command self.old.engine.state self.new.engine.state
            (F.entries self.new.folder) (F.is_stored self.new.folder)
            (W.contents writer.old) (W.contents writer.new)) }
        ensures left { IfErr result (LeavesCommand command self.old.engine.state self.new.engine.state
            (F.entries self.new.folder) (F.is_stored self.new.folder)
            (W.contents writer.old) (W.contents writer.new)) }
        ensures claimed { F.is_claimed self.new.folder }
    {
        match command {
            OperatorCommand::Checkpoint => {
                let said = CommandSaid::Call(self.checkpoint());
                self.answer_command(number, &said, writer)
            }
            OperatorCommand::Flush => {
                let said = self.flush();
                self.answer_command(number, &said, writer)
            }
            OperatorCommand::Copy(parent) => {
                let said = self.copy(parent);
                self.answer_command(number, &said, writer)
            }
            OperatorCommand::Status => self.tell_status(number, writer),
            OperatorCommand::Help => {
                self.tally.note(number, false);
                write_text(HELP.as_bytes(), writer)
            }
        }
    }

    /// Writes each dirty page.
    fn flush(&mut self) -> CommandSaid
        ensures made { MakesCommand command.Flush self.old.engine.state (one_line result)
            self.new.engine.state }
        // Where it is answered, no page is dirty.
        ensures clean { IsCleanFor command.Flush self.old.engine.state (one_line result)
            self.new.engine.state }
        ensures folder { self.new.folder ≡ self.old.folder }
    {
        match write_pages(&mut self.engine) {
            Ok(count) => CommandSaid::Flushed(count),
            Err(why) => CommandSaid::Call(Said::Reply(Err(why))),
        }
    }

    /// Writes what a command is answered, and takes note of it.
    fn answer_command<W: Write>(
        &mut self,
        number: u64,
        said: &CommandSaid,
        writer: &mut W,
    ) -> Result<(), ServeFault>
        ensures ok { OnOk result (Appends (W.contents writer.old) (W.contents writer.new)
            (text_of (one_line said.now))) }
        ensures err { IfErr result (LeavesLine (W.contents writer.old) (W.contents writer.new)
            (text_of (one_line said.now))) }
        ensures engine { self.new.engine ≡ self.old.engine }
        ensures folder { self.new.folder ≡ self.old.folder }
    {
        match said.refused() {
            Some(refused) => self.note(number, &refused),
            None => self.tally.note(number, false),
        }
        write_command(self.alloc, said, writer)
    }
}
