//! A machine whose files are in memory, and what was asked of them.

use crate::trouble::{Call, Trouble};
use std::alloc::Global;
use std::cell::RefCell;
use std::io;
use std::io::ErrorKind;

/// One thing that was asked of the files of a machine, and was done as far as a process sees.
#[derive(Drop)]
pub enum Step {
    Make {
        name: String,
        file: usize,
    },
    Rename {
        from: String,
        to: String,
        file: usize,
    },
    Remove {
        name: String,
        file: usize,
    },
    SyncNames,
    Write {
        file: usize,
        at: usize,
        bytes: Vec<u8>,
    },
    SetLen {
        file: usize,
        len: usize,
    },
    Sync {
        file: usize,
    },
    /// A sync failed. What was not synced before is seen, and no later sync stores it.
    Lose {
        file: usize,
    },
    /// The next line of the input was asked for.
    Asked,
    /// Bytes went to the output.
    Told {
        bytes: Vec<u8>,
    },
}

/// A name, and the number of the file that has it.
#[derive(Drop)]
pub struct Entry {
    pub name: String,
    pub file: usize,
}

/// The files of a machine as a process sees them, and what was asked of them since its power came.
#[derive(Drop)]
pub struct State {
    pub alloc: Global,
    pub entries: Vec<Entry>,
    pub files: Vec<Vec<u8>>,
    pub steps: Vec<Step>,
    trouble: Trouble,
    /// How many calls of those that may fail were made.
    calls: u64,
    has_failed: bool,
    has_log_failed: bool,
    has_lost_log: bool,
    is_misused: bool,
}

/// A machine. Its folder, its files and its output share it.
#[derive(Drop)]
pub struct Machine {
    pub state: RefCell<State>,
}

pub(crate) fn busy() -> io::Error {
    io::Error::from(ErrorKind::Other)
}

pub(crate) fn absent() -> io::Error {
    io::Error::from(ErrorKind::NotFound)
}

fn failed() -> io::Error {
    io::Error::other("the call is to fail")
}

impl State {
    /// An empty folder, and a process that has made no call.
    pub fn new(alloc: Global) -> State {
        State {
            alloc,
            entries: Vec::new(alloc),
            files: Vec::new(alloc),
            steps: Vec::new(alloc),
            trouble: Trouble::NONE,
            calls: 0,
            has_failed: false,
            has_log_failed: false,
            has_lost_log: false,
            is_misused: false,
        }
    }

    /// A copy of the files, of which nothing was asked yet.
    pub fn copied(&self) -> io::Result<State> {
        let mut copy = State::new(self.alloc);
        for bytes in &self.files {
            copy.files.push(copied(self.alloc, bytes)?)?;
        }
        copy.entries = self.copied_entries()?;
        Ok(copy)
    }

    /// A copy of the names.
    pub(crate) fn copied_entries(&self) -> io::Result<Vec<Entry>> {
        let mut entries = Vec::new(self.alloc);
        for entry in &self.entries {
            entries.push(Entry {
                name: String::from_str(self.alloc, entry.name.as_str())?,
                file: entry.file,
            })?;
        }
        Ok(entries)
    }

    /// Has a process begin, which meets this trouble.
    pub fn begin(&mut self, trouble: Trouble) {
        self.trouble = trouble;
        self.calls = 0;
        self.has_failed = false;
        self.has_log_failed = false;
        self.has_lost_log = false;
    }

    /// Whether a call has failed since the process began.
    pub fn has_failed(&self) -> bool {
        self.has_failed
    }

    /// Whether a call of the log has.
    pub fn has_log_failed(&self) -> bool {
        self.has_log_failed
    }

    /// Whether a log was asked to change or sync bytes by a process for which a sync of it had failed.
    pub fn is_misused(&self) -> bool {
        self.is_misused
    }

    /// The number of the file of this name.
    pub fn file_of(&self, name: &str) -> Option<usize> {
        for entry in &self.entries {
            if entry.name.as_str() == name {
                return Some(entry.file);
            }
        }
        None
    }

    /// The bytes of a file.
    pub fn bytes_of(&self, file: usize) -> &[u8] {
        match self.files.get(file) {
            Some(bytes) => bytes.as_slice(),
            None => &[],
        }
    }

    /// The bytes of the file of this name, if it is there.
    pub fn bytes_at(&self, name: &str) -> Option<&[u8]> {
        Some(self.bytes_of(self.file_of(name)?))
    }

    /// Counts a call, and tells whether it fails.
    fn fails(&mut self, call: Call) -> bool {
        let is_of_log = matches!(call, Call::WriteLog | Call::SyncLog);
        if is_of_log && self.has_lost_log {
            self.is_misused = true;
        }
        if !self.trouble.counts(call) {
            return false;
        }
        self.calls = self.calls.saturating_add(1);
        if !self.trouble.fails_at(self.calls) {
            return false;
        }
        self.has_failed = true;
        if is_of_log {
            self.has_log_failed = true;
        }
        if call == Call::SyncLog {
            self.has_lost_log = true;
        }
        true
    }

    /// Whether a call that fails is made all the same.
    fn is_late(&self) -> bool {
        self.trouble.is_late
    }

    /// Has a call that reads be made.
    pub fn read(&mut self) -> io::Result<()> {
        answer(self.fails(Call::Read))
    }

    /// Makes a file of this name, and answers its number. An `Err` comes where the name is taken,
    /// or the call is to fail.
    pub fn make(&mut self, name: &str) -> io::Result<usize> {
        answer(self.fails(Call::Make))?;
        if self.file_of(name).is_some() {
            return Err(io::Error::from(ErrorKind::AlreadyExists));
        }
        let file = self.files.len();
        let step = Step::Make {
            name: String::from_str(self.alloc, name)?,
            file,
        };
        self.take(step)?;
        Ok(file)
    }

    /// Gives a file another name, in place of what has that one.
    pub fn rename(&mut self, from: &str, to: &str) -> io::Result<()> {
        let Some(file) = self.file_of(from) else {
            return Err(absent());
        };
        let fails = self.fails(Call::Rename);
        if !fails || self.is_late() {
            let step = Step::Rename {
                from: String::from_str(self.alloc, from)?,
                to: String::from_str(self.alloc, to)?,
                file,
            };
            self.take(step)?;
        }
        answer(fails)
    }

    /// Takes a name away.
    pub fn remove(&mut self, name: &str) -> io::Result<()> {
        let Some(file) = self.file_of(name) else {
            return Err(absent());
        };
        let fails = self.fails(Call::Remove);
        if !fails || self.is_late() {
            let step = Step::Remove {
                name: String::from_str(self.alloc, name)?,
                file,
            };
            self.take(step)?;
        }
        answer(fails)
    }

    /// Makes the names last, unless such a call is to do nothing.
    pub fn sync_names(&mut self) -> io::Result<()> {
        answer(self.fails(Call::SyncNames))?;
        if self.trouble.ignores(Call::SyncNames) {
            return Ok(());
        }
        self.take(Step::SyncNames)
    }

    /// Writes bytes into a file. A call that fails late has written half of them.
    pub fn write(&mut self, call: Call, file: usize, at: usize, bytes: &[u8]) -> io::Result<()> {
        let fails = self.fails(call);
        let count = match (fails, self.is_late()) {
            (false, _) => bytes.len(),
            (true, true) => bytes.len() / 2,
            (true, false) => 0,
        };
        let step = Step::Write {
            file,
            at,
            bytes: copied(self.alloc, bytes.get(..count).unwrap_or(&[]))?,
        };
        self.take(step)?;
        answer(fails)
    }

    /// Gives a file so many bytes.
    pub fn set_len(&mut self, call: Call, file: usize, len: usize) -> io::Result<()> {
        let fails = self.fails(call);
        if !fails || self.is_late() {
            self.take(Step::SetLen { file, len })?;
        }
        answer(fails)
    }

    /// Makes what a file has last, unless such a call is to do nothing. One that fails late
    /// loses it.
    pub fn sync(&mut self, call: Call, file: usize) -> io::Result<()> {
        let fails = self.fails(call);
        if fails && self.is_late() {
            self.take(Step::Lose { file })?;
        }
        if !fails && !self.trouble.ignores(call) {
            self.take(Step::Sync { file })?;
        }
        answer(fails)
    }

    /// A line is read from the input.
    pub fn ask(&mut self) -> io::Result<()> {
        self.take(Step::Asked)
    }

    /// Bytes are written to the output.
    pub fn tell(&mut self, bytes: &[u8]) -> io::Result<()> {
        answer(self.fails(Call::Tell))?;
        let step = Step::Told {
            bytes: copied(self.alloc, bytes)?,
        };
        self.take(step)
    }

    /// Makes a step, as a process sees it, and notes it.
    pub(crate) fn take(&mut self, step: Step) -> io::Result<()> {
        change_names(self.alloc, &mut self.entries, &step)?;
        match &step {
            Step::Make { .. } => self.files.push(Vec::new(self.alloc))?,
            Step::Write { file, at, bytes } => {
                if let Some(all) = self.files.get_mut(*file) {
                    overwrite(all, *at, bytes)?;
                }
            }
            Step::SetLen { file, len } => {
                if let Some(all) = self.files.get_mut(*file) {
                    all.resize(*len, 0)?;
                }
            }
            _ => {}
        }
        self.steps.push(step)?;
        Ok(())
    }
}

impl Step {
    /// A copy of this step.
    pub(crate) fn copied(&self, alloc: Global) -> io::Result<Step> {
        Ok(match self {
            Step::Make { name, file } => Step::Make {
                name: String::from_str(alloc, name.as_str())?,
                file: *file,
            },
            Step::Rename { from, to, file } => Step::Rename {
                from: String::from_str(alloc, from.as_str())?,
                to: String::from_str(alloc, to.as_str())?,
                file: *file,
            },
            Step::Remove { name, file } => Step::Remove {
                name: String::from_str(alloc, name.as_str())?,
                file: *file,
            },
            Step::SyncNames => Step::SyncNames,
            Step::Write { file, at, bytes } => Step::Write {
                file: *file,
                at: *at,
                bytes: copied(alloc, bytes)?,
            },
            Step::SetLen { file, len } => Step::SetLen {
                file: *file,
                len: *len,
            },
            Step::Sync { file } => Step::Sync { file: *file },
            Step::Lose { file } => Step::Lose { file: *file },
            Step::Asked => Step::Asked,
            Step::Told { bytes } => Step::Told {
                bytes: copied(alloc, bytes)?,
            },
        })
    }
}

fn answer(fails: bool) -> io::Result<()> {
    if fails { Err(failed()) } else { Ok(()) }
}

/// Makes the change of names that a step is, if it is one. It is a change of the file that had the name
/// then, whatever has it now.
pub(crate) fn change_names(alloc: Global, entries: &mut Vec<Entry>, step: &Step) -> io::Result<()> {
    match step {
        Step::Make { name, file } => set_entry(alloc, entries, name.as_str(), *file),
        Step::Rename { from, to, file } => {
            drop_entry(entries, from.as_str(), Some(*file));
            set_entry(alloc, entries, to.as_str(), *file)
        }
        Step::Remove { name, file } => {
            drop_entry(entries, name.as_str(), Some(*file));
            Ok(())
        }
        _ => Ok(()),
    }
}

fn set_entry(alloc: Global, entries: &mut Vec<Entry>, name: &str, file: usize) -> io::Result<()> {
    drop_entry(entries, name, None);
    entries.push(Entry {
        name: String::from_str(alloc, name)?,
        file,
    })?;
    Ok(())
}

/// Has nothing stand under this name, or not this file, where one is told.
fn drop_entry(entries: &mut Vec<Entry>, name: &str, file: Option<usize>) {
    for place in 0..entries.len() {
        if let Some(entry) = entries.get(place)
            && entry.name.as_str() == name
            && (file.is_none() || file == Some(entry.file))
        {
            let _ = entries.remove(place);
            return;
        }
    }
}

/// Writes bytes over those of a file. Zeros stand for those that it lacks before them.
pub(crate) fn overwrite(all: &mut Vec<u8>, at: usize, bytes: &[u8]) -> io::Result<()> {
    let Some(end) = at.checked_add(bytes.len()) else {
        return Err(io::Error::from(ErrorKind::InvalidInput));
    };
    if end > all.len() {
        all.resize(end, 0)?;
    }
    if let Some(part) = all.as_mut_slice().get_mut(at..end) {
        part.copy_from_slice(bytes);
    }
    Ok(())
}

pub(crate) fn copied(alloc: Global, bytes: &[u8]) -> io::Result<Vec<u8>> {
    let mut copy = Vec::new(alloc);
    copy.extend_from_slice(bytes)?;
    Ok(copy)
}

impl Machine {
    /// A machine in this state.
    pub fn new(state: State) -> Machine {
        Machine {
            state: RefCell::new(state),
        }
    }

    /// Gives the machine up.
    pub fn into_state(self) -> State {
        self.state.into_inner()
    }
}
