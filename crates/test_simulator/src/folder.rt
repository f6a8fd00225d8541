//! The folder of a database on a machine, and the output of its process.

ghost use Rattle.std.specs.Prelude.{None};

use crate::disk::SimulatedDisk;
use crate::machine::{Machine, busy, copied};
use crate::trouble::Call;
use crate::volume::SimulatedVolume;
use database_files::{DatabaseFolder, LogFault, LogFile, Standing, VolumeFault};
use file_devices::FileLog;
use page_store::MemStore;
use saved_files::Folder;
use sqlite_disk::Memory;
use std::alloc::{AllocError, Global};
use std::io;
use std::io::{ErrorKind, Read, Write};
use system_files::ClaimFault;

/// The folder of a database on a machine.
#[derive(Drop)]
pub struct SimulatedFolder<'a> {
    pub alloc: Global,
    pub machine: &'a Machine,
}

/// A file of a machine that is being written.
#[derive(Drop)]
pub struct SimulatedFile<'a> {
    machine: &'a Machine,
    file: usize,
    len: usize,
}

/// What is left of the bytes of a file.
#[derive(Drop)]
pub struct SimulatedReader {
    bytes: Vec<u8>,
    place: usize,
}

/// The file of a log that was opened.
#[derive(Drop)]
pub struct SimulatedLog<'a> {
    machine: &'a Machine,
    file: usize,
    bytes: Vec<u8>,
}

/// The output of a process, which its machine sees.
#[derive(Drop)]
pub struct SimulatedOutput<'a> {
    pub machine: &'a Machine,
}

impl SimulatedReader {
    /// A reader of these bytes.
    pub fn new(bytes: Vec<u8>) -> SimulatedReader {
        SimulatedReader { bytes, place: 0 }
    }
}

impl Write for SimulatedOutput<'_> {
    fn write(&mut self, buf: &[u8]) -> io::Result<usize> {
        match self.machine.state.try_borrow_mut() {
            Ok(mut state) => state.tell(buf)?,
            Err(_) => return Err(busy()),
        }
        Ok(buf.len())
    }

    fn flush(&mut self) -> io::Result<()> {
        Ok(())
    }
}

impl Write for SimulatedFile<'_> {
    fn write(&mut self, buf: &[u8]) -> io::Result<usize> {
        match self.machine.state.try_borrow_mut() {
            Ok(mut state) => state.write(Call::Write, self.file, self.len, buf)?,
            Err(_) => return Err(busy()),
        }
        self.len = self.len.saturating_add(buf.len());
        Ok(buf.len())
    }

    fn flush(&mut self) -> io::Result<()> {
        Ok(())
    }
}

impl Read for SimulatedReader {
    fn read(&mut self, buf: &mut [u8]) -> io::Result<usize> {
        let mut rest = self.bytes.as_slice().get(self.place..).unwrap_or(&[]);
        let count = rest.read(buf)?;
        self.place = self.place.saturating_add(count);
        Ok(count)
    }
}

impl SimulatedFolder<'_> {
    /// The bytes of the file of this name, if it is there.
    fn bytes_of(&self, name: &str) -> io::Result<Option<Vec<u8>>> {
        let Ok(mut state) = self.machine.state.try_borrow_mut() else {
            return Err(busy());
        };
        state.read()?;
        match state.file_of(name) {
            Some(file) => Ok(Some(copied(self.alloc, state.bytes_of(file))?)),
            None => Ok(None),
        }
    }

    /// The number of the file of this name, if it is there.
    fn file_of(&self, name: &str) -> io::Result<Option<usize>> {
        match self.machine.state.try_borrow() {
            Ok(state) => Ok(state.file_of(name)),
            Err(_) => Err(busy()),
        }
    }
}

impl<'a> Folder for SimulatedFolder<'a> {
    type File = SimulatedFile<'a>;

    type Written = SimulatedFile<'a>;

    ghost entries = { λ _. None };

    ghost is_claimed = { λ _. Unit {0} };

    ghost is_stored = { λ _. Unit {0} };

    ghost may_leave = { λ _ _ _. Unit {0} };

    ghost given_up = { λ _. None };

    ghost holds = { λ _. None };

    fn claim(&mut self) -> io::Result<()> {
        Ok(())
    }

    fn make(&mut self, name: &str) -> io::Result<SimulatedFile<'a>> {
        let file = match self.machine.state.try_borrow_mut() {
            Ok(mut state) => state.make(name)?,
            Err(_) => return Err(busy()),
        };
        Ok(SimulatedFile {
            machine: self.machine,
            file,
            len: 0,
        })
    }

    fn finish(file: SimulatedFile<'a>) -> SimulatedFile<'a> {
        file
    }

    fn sync(&mut self, _name: &str, file: &SimulatedFile<'a>) -> io::Result<()> {
        match self.machine.state.try_borrow_mut() {
            Ok(mut state) => state.sync(Call::Sync, file.file),
            Err(_) => Err(busy()),
        }
    }

    fn rename(&mut self, from: &str, to: &str) -> io::Result<()> {
        match self.machine.state.try_borrow_mut() {
            Ok(mut state) => state.rename(from, to),
            Err(_) => Err(busy()),
        }
    }

    fn give_up(&mut self, name: &str, _file: SimulatedFile<'a>) -> io::Result<()> {
        match self.machine.state.try_borrow_mut() {
            Ok(mut state) => state.remove(name),
            Err(_) => Err(busy()),
        }
    }

    fn sync_names(&mut self) -> io::Result<()> {
        match self.machine.state.try_borrow_mut() {
            Ok(mut state) => state.sync_names(),
            Err(_) => Err(busy()),
        }
    }

    ghost stands = { λ _. tt };

    ghost lasts = { λ _ _. tt };
}

impl<'a> DatabaseFolder for SimulatedFolder<'a> {
    type Reader = SimulatedReader;

    type Log = SimulatedLog<'a>;

    type LogDisk = SimulatedDisk<'a, Memory>;

    type Volume = SimulatedVolume<'a>;

    ghost held = { λ _. None };

    ghost was_asked = { λ _ _. Unit {0} };

    fn claim_or_wait(&mut self) -> Result<(), ClaimFault> {
        Ok(())
    }

    fn names(&self) -> io::Result<Vec<String>> {
        let mut names = Vec::new(self.alloc);
        let Ok(mut state) = self.machine.state.try_borrow_mut() else {
            return Err(busy());
        };
        state.read()?;
        for entry in &state.entries {
            names.push(String::from_str(self.alloc, entry.name.as_str())?)?;
        }
        Ok(names)
    }

    fn has(&self, name: &str) -> io::Result<bool> {
        Ok(self.file_of(name)?.is_some())
    }

    fn open_file(&self, name: &str) -> io::Result<Standing<SimulatedReader>> {
        match self.bytes_of(name)? {
            Some(bytes) => Ok(Standing::File(SimulatedReader::new(bytes))),
            None => Ok(Standing::Absent),
        }
    }

    fn whole(&self, name: &str) -> io::Result<Standing<Vec<u8>>> {
        match self.bytes_of(name)? {
            Some(bytes) => Ok(Standing::File(bytes)),
            None => Ok(Standing::Absent),
        }
    }

    fn remove(&mut self, name: &str) -> io::Result<()> {
        match self.machine.state.try_borrow_mut() {
            Ok(mut state) => state.remove(name),
            Err(_) => Err(busy()),
        }
    }

    fn open_log(&self, _writes: bool) -> Result<Option<LogFile<SimulatedLog<'a>>>, LogFault> {
        let Some(file) = self.file_of("log")? else {
            return Ok(None);
        };
        let Some(bytes) = self.bytes_of("log")? else {
            return Ok(None);
        };
        let len = bytes.len() as u64;
        Ok(Some(LogFile {
            file: SimulatedLog {
                machine: self.machine,
                file,
                bytes,
            },
            len,
        }))
    }

    fn make_log(&mut self) -> Result<SimulatedLog<'a>, LogFault> {
        let file = match self.machine.state.try_borrow_mut() {
            Ok(mut state) => state.make("log")?,
            Err(_) => return Err(LogFault::System(busy())),
        };
        Ok(SimulatedLog {
            machine: self.machine,
            file,
            bytes: Vec::new(self.alloc),
        })
    }

    fn log_begins(log: &SimulatedLog<'a>, bytes: &mut [u8]) -> io::Result<()> {
        match log.bytes.as_slice().get(..bytes.len()) {
            Some(first) => {
                bytes.copy_from_slice(first);
                Ok(())
            }
            None => Err(io::Error::from(ErrorKind::UnexpectedEof)),
        }
    }

    fn emptied(
        alloc: Global,
        log: SimulatedLog<'a>,
    ) -> io::Result<FileLog<SimulatedDisk<'a, Memory>>> {
        let disk = SimulatedDisk::new(alloc, log.machine, log.file, &log.bytes)?;
        match FileLog::emptied(alloc, disk) {
            Ok(device) => Ok(device),
            Err(why) => Err(why.error),
        }
    }

    fn resumed(
        alloc: Global,
        log: SimulatedLog<'a>,
        bytes: &mut [u8],
    ) -> io::Result<FileLog<SimulatedDisk<'a, Memory>>> {
        let disk = SimulatedDisk::new(alloc, log.machine, log.file, &log.bytes)?;
        match FileLog::found(alloc, disk, bytes) {
            Ok(device) => Ok(device),
            Err(why) => Err(why.error),
        }
    }

    fn volume_begins(&self, bytes: &mut [u8]) -> io::Result<Standing<usize>> {
        let Some(there) = self.bytes_of("volume")? else {
            return Ok(Standing::Absent);
        };
        let mut count = 0usize;
        for (byte, first) in bytes.iter_mut().zip(there.iter()) {
            *byte = *first;
            count = count.saturating_add(1);
        }
        Ok(Standing::File(count))
    }

    fn make_volume(&mut self, pages: MemStore) -> Result<SimulatedVolume<'a>, VolumeFault> {
        let file = match self.file_of("volume")? {
            Some(file) => file,
            None => match self.machine.state.try_borrow_mut() {
                Ok(mut state) => state.make("volume")?,
                Err(_) => return Err(VolumeFault::System(busy())),
            },
        };
        Ok(SimulatedVolume::new(self.machine, file, pages)?)
    }

    fn low_limit(&self) -> Result<Option<u64>, AllocError> {
        Ok(None)
    }

    fn draw(&self, bytes: &mut [u8]) -> io::Result<()> {
        for byte in bytes {
            *byte = 7;
        }
        Ok(())
    }
}
