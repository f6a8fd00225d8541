//! A manifest as what a file is made of.

ghost use Rattle.std.specs.Prelude.{◌≡◌, IfErr, OnOk};
ghost use Rattle.std.specs.Io.KnownBytes.{Appends};
ghost use Rattle.manifest.specs.Text.{manifest_text};
ghost use Rattle.saved_files.specs.FileFault.{Leaves};

use manifest::Manifest;
use page_core::write_out;
use saved_files::{FileFault, Source};
use std::alloc::Global;
use std::io::Write;

/// The text of a manifest, which a file is made of.
#[derive(Clone, Copy)]
pub struct ManifestText<'a> {
    pub manifest: &'a Manifest,
}

impl Source for ManifestText<'_> {
    type Fault = FileFault;

    ghost gives = { λ it old new. Appends old new (manifest_text it.manifest.now) };

    ghost leaves = { λ it fault old new. Leaves (manifest_text it.manifest.now) old new fault };

    fn write_to<W: Write>(&mut self, _alloc: Global, writer: &mut W) -> Result<(), FileFault> {
        let Ok(text) = self.manifest.to_text() else {
            return Err(FileFault::OutOfMemory);
        };
        match write_out(writer, text.as_bytes()) {
            Ok(()) => Ok(()),
            Err(done) => Err(FileFault::WriteFault(done)),
        }
    }
}
