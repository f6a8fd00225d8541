//! What a file is made of.

ghost use Rattle.std.specs.Prelude.{ℕ, List, Option, IfErr, OnOk};
ghost use Rattle.std.specs.Io.KnownBytes.{Appends};
ghost use Rattle.log_records.specs.Log.{log_bytes};
ghost use Rattle.log_store.specs.Master.{master_bytes};
ghost use Rattle.copy_vault.specs.Archive.{archive_bytes};
ghost use Rattle.saved_files.specs.FileFault.{Leaves};

use crate::file_fault::FileFault;
use crate::log_file::write_log;
use copy_vault::{CompleteCopy, write_archive};
use log_store::{LogImage, Master, encode_master};
use page_core::write_out;
use std::alloc::Global;
use std::io::Write;

/// What a file is made of: it writes the bytes.
pub trait Source {
    /// Why its bytes could not all be written.
    type Fault;

    /// What the writer has before and after, where all is written.
    ghost gives: { Self → Option (List ℕ) → Option (List ℕ) → Type 0 };

    /// What it has where that failed.
    ghost leaves: { Self → Self.Fault → Option (List ℕ) → Option (List ℕ) → Type 0 };

    /// Writes the bytes. The writer is not flushed.
    fn write_to<W: Write>(&mut self, alloc: Global, writer: &mut W) -> Result<(), Self::Fault>
        ensures ok { OnOk result (gives self.old (W.contents writer.old) (W.contents writer.new)) }
        ensures err { IfErr result (λ fault.
            leaves self.old fault (W.contents writer.old) (W.contents writer.new)) };
}

impl Source for &LogImage {
    type Fault = FileFault;

    ghost gives = { λ it old new. Appends old new (log_bytes it.now) };

    ghost leaves = { λ it fault old new. Leaves (log_bytes it.now) old new fault };

    fn write_to<W: Write>(&mut self, alloc: Global, writer: &mut W) -> Result<(), FileFault> {
        write_log(alloc, self, writer)
    }
}

impl Source for Master {
    type Fault = FileFault;

    ghost gives = { λ it old new. Appends old new (master_bytes it) };

    ghost leaves = { λ it fault old new. Leaves (master_bytes it) old new fault };

    fn write_to<W: Write>(&mut self, _alloc: Global, writer: &mut W) -> Result<(), FileFault> {
        match write_out(writer, &encode_master(self)) {
            Ok(()) => Ok(()),
            Err(done) => Err(FileFault::WriteFault(done)),
        }
    }
}

impl Source for &CompleteCopy {
    type Fault = FileFault;

    ghost gives = { λ it old new. Appends old new (archive_bytes it.now) };

    ghost leaves = { λ it fault old new. Leaves (archive_bytes it.now) old new fault };

    fn write_to<W: Write>(&mut self, alloc: Global, writer: &mut W) -> Result<(), FileFault> {
        match write_archive(alloc, self, writer) {
            Ok(()) => Ok(()),
            Err(why) => Err(FileFault::from(why)),
        }
    }
}
