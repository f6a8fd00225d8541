//! Files of which the log counts up to one of its records.

ghost use Rattle.std.specs.Prelude.{◌≡◌, IfErr, IfOk, Some};
ghost use Rattle.log_records.specs.Log.{Log};
ghost use Rattle.log_store.specs.Fault.{IsPlace};
ghost use Rattle.media_restore.specs.Until.{EndsElsewhere, IsLogUntil, RefusesCheckpoint};
ghost use Rattle.media_restore.specs.Until.{last_checkpoint};

use crate::named_files::NamedFiles;
use crate::restore::{LOG, told_late};
use log_records::RECORD_BYTES;
use log_store::{MASTER_BYTES, Master, encode_master};
use media_restore::{UntilFault, checkpoint_until};
use page_core::Lsn;
use std::alloc::Global;
use std::io;
use std::io::{Cursor, Read, Take};

/// Files of which the log counts up to the record at an LSN, that one included: what follows in it
/// is not there. Its last complete checkpoint up to there stands in the place of the master record,
/// so the file of this name is not read.
#[derive(Drop)]
pub struct UntilFiles<'a, N> {
    files: &'a N,
    log: &'a str,
    master: Option<&'a str>,
    until: Lsn,
    point: Master,
    ghost place: { IsPlace until },
}

impl<'a, N: NamedFiles> UntilFiles<'a, N> {
    /// The files up to the record at this LSN, where that is a record of the log, and a checkpoint
    /// is complete by then. The faults are those of `checkpoint_until`.
    pub fn new(
        files: &'a N,
        alloc: Global,
        log: &'a str,
        master: Option<&'a str>,
        until: Lsn,
    ) -> Result<UntilFiles<'a, N>, UntilFault>
        ensures same { IfOk result (λ it. (it.files.now ≡ files.now) × (it.log.now ≡ log.now)
            × (it.master ≡ master.entry) × (it.until ≡ until)) }
        ensures ended { IfOk result (λ it. (ended : Log)
            × (IsLogUntil (N.bytes files.now log.now) until ended
            × (last_checkpoint ended ≡ Some it.point))) }
        ensures err { IfErr result (RefusesCheckpoint (N.bytes files.now log.now) until) }
        ensures no_record { IfErr result (EndsElsewhere (N.bytes files.now log.now) until) }
    {
        let mut first = told_late(files, LOG, log);
        let point = match checkpoint_until(alloc, &mut first, until) {
            Ok(point) => point,
            Err(fault) => return Err(fault),
        };
        Ok(UntilFiles {
            files,
            log,
            master,
            until,
            point,
        })
    }
}

/// A file of them, which is open.
#[derive(Drop)]
pub enum UntilFile<F> {
    /// The log, up to the end of the record.
    Cut(Take<F>),
    /// The master record.
    Made(Cursor<[u8; MASTER_BYTES]>),
    /// Another file.
    Whole(F),
}

impl<F: Read> Read for UntilFile<F> {
    ghost use Rattle.saved_files.specs.UntilFiles.{left_of};

    ghost remaining = { left_of F.remaining };

    fn read(&mut self, buf: &mut [u8]) -> io::Result<usize> {
        match self {
            UntilFile::Cut(front) => front.read(buf),
            UntilFile::Made(bytes) => bytes.read(buf),
            UntilFile::Whole(file) => file.read(buf),
        }
    }
}

impl<N: NamedFiles> NamedFiles for UntilFiles<'_, N> {
    ghost use Rattle.std.specs.Option.{option_map};
    ghost use Rattle.saved_files.specs.UntilFiles.{bytes_of};

    type File = UntilFile<N::File>;

    ghost bytes = { λ it. bytes_of (N.bytes it.files.now) it.log.now
        (option_map (λ name. name.now) it.master) it.until it.point };

    fn open(&self, name: &str) -> io::Result<UntilFile<N::File>> {
        if name == self.log {
            let file = self.files.open(name)?;
            return Ok(UntilFile::Cut(file.take(self.until.0 + RECORD_BYTES as u64)));
        }
        match self.master {
            Some(master) if name == master => {
                Ok(UntilFile::Made(Cursor::new(encode_master(&self.point))))
            }
            _ => Ok(UntilFile::Whole(self.files.open(name)?)),
        }
    }

    fn tell_read(&self, place: usize) {
        self.files.tell_read(place);
    }
}
