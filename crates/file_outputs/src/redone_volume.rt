//! The volume of a log, as what a file is made of.

use media_restore::{UntilFault, redo_until};
use page_core::Lsn;
use page_redo::{StreamFault, redo_stream};
use saved_files::Source;
use std::alloc::Global;
use std::io::{Read, Write};

/// The volume that `redo_stream` makes of the log that a reader gives.
#[derive(Drop)]
pub struct RedoneVolume<R: Read + Drop> {
    pub log: R,
}

impl<R: Read + Drop> Source for RedoneVolume<R> {
    ghost use Rattle.page_redo.specs.Stream.{Leaves, WritesVolume};

    type Fault = StreamFault;

    ghost gives = { λ it. WritesVolume (R.remaining it.log) };

    ghost leaves = { λ it fault old new. Leaves (R.remaining it.log) old new fault };

    fn write_to<W: Write>(&mut self, alloc: Global, writer: &mut W) -> Result<(), StreamFault> {
        redo_stream(alloc, &mut self.log, writer)
    }
}

/// The volume that `redo_until` makes of the log that a reader gives.
#[derive(Drop)]
pub struct RedoneUntil<R: Read + Drop> {
    pub log: R,
    pub until: Lsn,
}

impl<R: Read + Drop> Source for RedoneUntil<R> {
    ghost use Rattle.media_restore.specs.Until.{LeavesUntil, WritesUntil};

    type Fault = UntilFault;

    ghost gives = { λ it. WritesUntil (R.remaining it.log) it.until };

    ghost leaves = { λ it fault old new. LeavesUntil (R.remaining it.log) it.until old new fault };

    fn write_to<W: Write>(&mut self, alloc: Global, writer: &mut W) -> Result<(), UntilFault> {
        redo_until(alloc, &mut self.log, self.until, writer)
    }
}
