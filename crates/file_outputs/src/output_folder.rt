//! The folder of a file that `-o` or `--log-out` names.

ghost use Rattle.std.specs.Prelude.{◌≡◌, IfNone, IfSome, IsErr, None, Some, true};
ghost use Rattle.file_inputs.specs.Paths.{parts_in};
ghost use Rattle.file_outputs.specs.Outputs.{IsOutputOf, IsRefused, IsSameOutput};
ghost use Rattle.file_outputs.specs.Unfinished.{NamesUnfinished};

use crate::leftovers::{UNFINISHED_NAME, is_unfinished, tell_left_beside};
use crate::limits::{Limits, OutputFault, look};
use crate::output_lines::{tell, tell_fault, tell_placed};
use file_inputs::parts_of;
use saved_files::{Folder, PutStoredFault};
use std::fs::File;
use std::io;
use std::io::ErrorKind;
use system_files::{Noted, Notes, SystemFolder, WrittenFile};

/// The folder in which an output is put in place. It is had while the file is made, and once more
/// from the file's sync on, so that others can work in it meanwhile. A file is locked as long as
/// its writer lives, and no one takes it for a leftover.
#[derive(Drop)]
pub struct OutputFolder<'a> {
    rt: &'a HostRuntime,
    path: &'a str,
    folder: &'a str,
    name: &'a str,
    there: SystemFolder<'a>,
    limits: Limits<'a>,
    notes: &'a Notes,
    /// Another output of the same command has the folder.
    is_shared: bool,
    fault: Option<OutputFault>,
}

impl<'a> OutputFolder<'a> {
    /// The folder of this path. None where the path names no file, or has the name of an unfinished
    /// one, which is told.
    pub fn of(
        rt: &'a HostRuntime,
        path: &'a str,
        limits: Limits<'a>,
        notes: &'a Notes,
    ) -> Option<OutputFolder<'a>>
        ensures made { IfSome result (IsOutputOf path.now limits.entry) }
        // It has no unfinished file's name: what is told to be left is no output.
        ensures finished { IfSome result (λ it. ¬ NamesUnfinished it.name.now) }
        ensures refused { IfNone result (IsRefused (parts_in path.now)) }
    {
        let Some((folder, name)) = parts_of(path) else {
            tell(rt, path, &"this names no file");
            return None;
        };
        if is_unfinished(name) {
            tell(rt, path, &UNFINISHED_NAME);
            return None;
        }
        Some(OutputFolder {
            rt,
            path,
            folder,
            name,
            there: SystemFolder::new(rt, rt.alloc(), folder, notes).guarded(limits.force),
            limits,
            notes,
            is_shared: false,
            fault: None,
        })
    }

    /// This folder, where another output of the command has it once it is to be had again.
    pub fn shared(self) -> OutputFolder<'a>
        ensures { result ≡ record self.entry { is_shared = true } }
    {
        OutputFolder {
            is_shared: true,
            ..self
        }
    }

    /// The name that the output is to have.
    pub fn name(&self) -> &'a str
        ensures { result ≡ self.now.name }
    {
        self.name
    }

    /// Tells why the output is not in its place, or may not stay there.
    pub fn tell_unput<E>(&self, fault: &PutStoredFault<E>) {
        self.tell_fault();
        if let PutStoredFault::Unstored(_) = fault {
            self.tell_placed();
        }
    }

    /// Tells which call failed.
    pub fn tell_fault(&self) {
        match &self.fault {
            Some(fault) => tell_fault(self.rt, self.path, fault, self.notes),
            None => tell_fault(self.rt, self.path, &OutputFault::System, self.notes),
        }
    }

    /// Tells that the output is in its place all the same.
    pub fn tell_placed(&self) {
        tell_placed(self.rt, self.path);
    }

    /// Notes why a call failed.
    fn fails<T>(&mut self, fault: OutputFault) -> io::Result<T>
        ensures failed { IsErr result }
        ensures noted { self.new.fault ≡ Some fault }
        ensures same { IsSameOutput self.old self.new }
    {
        self.fault = Some(fault);
        Err(io::Error::from(ErrorKind::Other))
    }

    /// Has the folder while it looks at what stands there and makes a file of this name. What is left
    /// beside the output is told once that is made.
    fn made(&mut self, beside: &str) -> io::Result<Noted<'a, File>>
        ensures { IsSameOutput self.old self.new }
    {
        if let Err(fault) = look(self.rt, self.path, self.name, &self.limits) {
            return self.fails(fault);
        }
        if let Err(fault) = self.there.claim_soon() {
            return self.fails(OutputFault::Folder(fault));
        }
        let made = self.there.make(beside)?;
        if made.file.try_lock().is_err() {
            let _ = self.there.give_up(beside, SystemFolder::finish(made));
            return self.fails(OutputFault::System);
        }
        tell_left_beside(self.rt, self.folder, self.name, &self.limits.inputs);
        Ok(made)
    }

    /// Has the folder, and sees that the file may still take its name.
    fn have(&mut self) -> io::Result<()>
        ensures { IsSameOutput self.old self.new }
    {
        if self.is_shared {
            self.there.open()?;
        } else if let Err(fault) = self.there.claim_soon() {
            return self.fails(OutputFault::Folder(fault));
        }
        match look(self.rt, self.path, self.name, &self.limits) {
            Ok(()) => Ok(()),
            Err(fault) => self.fails(fault),
        }
    }
}

impl<'a> Folder for OutputFolder<'a> {
    type File = Noted<'a, File>;

    type Written = WrittenFile;

    ghost entries = { λ _. None };

    ghost is_claimed = { λ _. Unit {0} };

    ghost is_stored = { λ _. Unit {0} };

    ghost may_leave = { λ _ _ _. Unit {0} };

    ghost given_up = { λ _. None };

    ghost holds = { λ _. None };

    fn claim(&mut self) -> io::Result<()> {
        self.there.claim()
    }

    fn make(&mut self, name: &str) -> io::Result<Noted<'a, File>> {
        let made = self.made(name);
        self.there.release();
        made
    }

    fn finish(file: Noted<'a, File>) -> WrittenFile {
        SystemFolder::finish(file)
    }

    fn sync(&mut self, name: &str, file: &WrittenFile) -> io::Result<()> {
        self.there.sync(name, file)?;
        self.have()
    }

    fn rename(&mut self, from: &str, to: &str) -> io::Result<()> {
        let renamed = self.there.rename(from, to);
        if let Err(error) = &renamed {
            self.fault = Some(match self.there.refused() {
                Some(kept) => OutputFault::Kept(kept),
                None if error.kind() == ErrorKind::WouldBlock => OutputFault::InUse,
                None => OutputFault::System,
            });
        }
        renamed
    }

    fn give_up(&mut self, name: &str, file: WrittenFile) -> io::Result<()> {
        self.there.give_up(name, file)
    }

    fn sync_names(&mut self) -> io::Result<()> {
        self.there.sync_names()
    }

    ghost stands = { λ _. tt };

    ghost lasts = { λ _ _. tt };
}
