//! A file of the system as a disk.

ghost use Rattle.std.specs.Prelude.{ℕ, ◌≡◌, ◌<◌, ◌≤◌, ◌^◌, ◌∷◌, [], length, take, true, IfOk, IsTrue, List};
ghost use Rattle.file_devices.specs.FileDisk.{disk_is_usable, event_of, events_of};
ghost use Rattle.sqlite_disk.specs.Events.{IsHonest, flushed, read, settled};
ghost use Rattle.sqlite_disk.specs.Refusal.{as_number, is_no_room};

use crate::calls::SliceSnapshot;
use sqlite_disk::{Modelled, Start, is_no_room};
use std::fs::File;
use std::io;
use std::os::unix::fs::{FileExt, MetadataExt};
use std::snapshot::Snapshot;

/// A call of a file, with its answer.
#[derive(Drop)]
enum Note {
    Measured {
        is_done: bool,
        len: usize,
    },
    Read {
        at: usize,
        count: usize,
        is_done: bool,
        bytes: SliceSnapshot,
    },
    /// A read whose bytes are to have a digest under a key.
    ReadUnder {
        key: u64,
        want: u64,
        at: usize,
        count: usize,
        is_done: bool,
        bytes: SliceSnapshot,
    },
    /// So many of the bytes were taken, or 1 where there was no room.
    Written {
        at: usize,
        bytes: SliceSnapshot,
        is_done: bool,
        count: usize,
    },
    Cut {
        len: usize,
        is_done: bool,
        why: usize,
    },
    Flushed {
        is_done: bool,
        why: usize,
    },
}

/// The calls of a file, in order. It has them for contracts alone, and takes one byte.
#[derive(Drop)]
enum Notes {
    None,
    After {
        before: Snapshot<Notes>,
        last: Snapshot<Note>,
    },
}

impl Notes {
    /// Notes one call more.
    fn add(&mut self, note: Note)
        ensures { events_of self.new ≡ event_of note ∷ events_of self.old }
    {
        let before = Snapshot::of(self);
        *self = Notes::After {
            before,
            last: Snapshot::of(&note),
        };
    }
}

/// A file of the system, and the calls that were made of it. Each method makes one call and notes it
/// with its answer.
#[derive(Drop)]
pub struct FileCalls {
    file: File,
    notes: Notes,
}

/// The number that the system has for a file that is not what it was any more.
const STALE: i32 = 116;

/// The last offset that a file may have, and 1.
const END_OF_OFFSETS: usize = 1 << 63;

/// Why a call failed, as its note has it: 1 where there was no room.
fn number_of(error: &io::Error) -> usize
    ensures { result ≡ as_number (is_no_room error.now) }
{
    if is_no_room(error) { 1 } else { 0 }
}

fn measure(file: &File) -> io::Result<usize> {
    Ok(file.metadata()?.len() as usize)
}

fn read(file: &File, at: usize, buf: &mut [u8]) -> io::Result<usize>
    ensures { IfOk result (λ n. (0 < n) × (n ≤ length buf.old) × (at < 2 ^ 63)) }
{
    if at >= END_OF_OFFSETS {
        return Err(io::ErrorKind::InvalidInput.into());
    }
    let count = file.read_at(buf, at as u64)?;
    if count == 0 {
        Err(io::ErrorKind::UnexpectedEof.into())
    } else {
        Ok(count)
    }
}

fn write(file: &File, at: usize, bytes: &[u8]) -> io::Result<usize>
    ensures { IfOk result (λ n. (0 < n) × (n ≤ length bytes.now) × (at < 2 ^ 63)) }
{
    if at >= END_OF_OFFSETS {
        return Err(io::ErrorKind::InvalidInput.into());
    }
    let count = file.write_at(bytes, at as u64)?;
    if count == 0 {
        Err(io::ErrorKind::WriteZero.into())
    } else {
        Ok(count)
    }
}

/// Waits until all that was written lasts. It fails where the file has no name any more: what it
/// has is gone as soon as it is closed.
fn sync(file: &File) -> io::Result<()> {
    file.sync_data()?;
    if file.metadata()?.nlink() == 0 {
        return Err(io::Error::from_raw_os_error(STALE));
    }
    Ok(())
}

impl sqlite_disk::Calls for FileCalls {
    ghost history = { λ it. events_of it.notes };

    fn len(&mut self) -> io::Result<usize> {
        let answer = measure(&self.file);
        let (is_done, len) = match &answer {
            Ok(len) => (true, *len),
            Err(_) => (false, 0),
        };
        self.notes.add(Note::Measured { is_done, len });
        answer
    }

    fn read_some(&mut self, at: usize, buf: &mut [u8]) -> io::Result<usize> {
        let count = buf.len();
        let answer = read(&self.file, at, buf);
        let (is_done, given) = match &answer {
            Ok(given) => (true, *given),
            Err(_) => (false, 0),
        };
        let bytes = SliceSnapshot::of(&buf[..given]);
        self.notes.add(Note::Read {
            at,
            count,
            is_done,
            bytes,
        });
        answer
    }

    fn read_under(&mut self, key: u64, want: u64, at: usize, buf: &mut [u8]) -> io::Result<usize> {
        let count = buf.len();
        let answer = read(&self.file, at, buf);
        let (is_done, given) = match &answer {
            Ok(given) => (true, *given),
            Err(_) => (false, 0),
        };
        let bytes = SliceSnapshot::of(&buf[..given]);
        self.notes.add(Note::ReadUnder {
            key,
            want,
            at,
            count,
            is_done,
            bytes,
        });
        answer
    }

    fn write_some(&mut self, at: usize, bytes: &[u8]) -> io::Result<usize> {
        let answer = write(&self.file, at, bytes);
        let (is_done, count) = match &answer {
            Ok(count) => (true, *count),
            Err(error) => (false, number_of(error)),
        };
        let bytes = SliceSnapshot::of(bytes);
        self.notes.add(Note::Written {
            at,
            bytes,
            is_done,
            count,
        });
        answer
    }

    fn resize(&mut self, len: usize) -> io::Result<()> {
        let answer = self.file.set_len(len as u64);
        let (is_done, why) = match &answer {
            Ok(()) => (true, 0),
            Err(error) => (false, number_of(error)),
        };
        self.notes.add(Note::Cut { len, is_done, why });
        answer
    }

    fn sync(&mut self) -> io::Result<()> {
        let answer = sync(&self.file);
        let (is_done, why) = match &answer {
            Ok(()) => (true, 0),
            Err(error) => (false, number_of(error)),
        };
        self.notes.add(Note::Flushed { is_done, why });
        answer
    }
}

/// A file of the system as a disk: what it has, and what a crash may leave of it, follows from what
/// it had when it was opened, which `S` supposes, and from the calls that were made of it since.
pub type FileDisk<S> = Modelled<FileCalls, S>;

/// The disk of a file of which nothing was asked yet. A value of `S` is used up, so that no second
/// file counts as having had the same bytes.
pub(crate) fn disk_of<S: Start>(file: File, _start: S) -> FileDisk<S>
    ensures { IsTrue (disk_is_usable S.Start result) }
{
    let calls = FileCalls {
        file,
        notes: Notes::None,
    };
    Modelled::new(calls, true, 0)
}

/// What is supposed of a log's file can be true, so a law that supposes it says something. A file had
/// these bytes when it was opened; it gives the first ones, as many as were asked for, and syncs: then
/// no wrong answer of it was taken.
pub fn a_file_may_be_read_rightly()
    ensures { (had : List ℕ) (count why : ℕ) → count ≤ length had → IsHonest had
        (flushed true why ∷ read 0 count true (take count had) ∷ settled 0 ∷ []) }
{}
