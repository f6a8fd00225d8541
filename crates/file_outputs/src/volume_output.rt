//! Where a volume goes.

ghost use Rattle.std.specs.Prelude.{◌≡◌, IsTrue};
ghost use Rattle.file_outputs.specs.VolumeOutputs.{output_of};
ghost use Rattle.file_outputs.specs.declared.volume_output.VolumeOutput.TheVariants.{Piped};

use std::io::IsTerminal;

/// Where a volume goes.
#[derive(Clone, Copy)]
pub enum VolumeOutput<'a> {
    /// To standard output, if that is no terminal.
    Piped,
    /// To standard output, be it a terminal or not.
    Standard,
    /// Into this file.
    File(&'a str),
}

impl<'a> VolumeOutput<'a> {
    /// Where the words of a command have it go: they may name a file, and `-` is standard output.
    pub fn of(output: Option<&'a str>) -> VolumeOutput<'a>
        ensures { result ≡ output_of output.entry }
    {
        match output {
            None => VolumeOutput::Piped,
            Some("-") => VolumeOutput::Standard,
            Some(path) => VolumeOutput::File(path),
        }
    }

    /// Whether it would go to a terminal, which was not asked for.
    pub fn is_barred(self, rt: &HostRuntime) -> bool
        ensures { IsTrue result → self.entry ≡ Piped }
    {
        matches!(self, VolumeOutput::Piped) && rt.stdout().is_terminal()
    }
}
