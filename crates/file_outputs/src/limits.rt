//! What an output may not replace.

ghost use Rattle.std.specs.Prelude.{◌≡◌, IfErr, IsTrue};
ghost use Rattle.file_outputs.specs.Outputs.{IsOfName};
ghost use Rattle.file_outputs.specs.declared.limits.OutputFault.TheVariants.{Irregular};

use checked_files::ManifestUse;
use file_inputs::{InputNames, STANDARD_INPUT};
use std::fs;
use std::io::{ErrorKind, Read};
use std::path::Path;
use system_files::{ClaimFault, FileIdentity, Kept, kept_at};

/// With what a manifest begins, in any format.
const MANIFEST_BEGIN: [u8; 19] = *b"# imgcopy manifest ";

/// What the command reads that writes an output.
#[derive(Clone, Copy)]
pub enum Inputs<'a> {
    /// Standard input.
    Standard,
    /// Files that are named.
    Named(&'a InputNames<'a>),
}

/// What an output may not replace. With force that is a file alone that another one has open.
#[derive(Clone, Copy)]
pub struct Limits<'a> {
    pub inputs: Inputs<'a>,
    pub force: bool,
}

/// Why an output cannot be written, or not be put in place.
#[derive(Drop)]
pub enum OutputFault {
    /// A folder, a device or a link has the name.
    Irregular,
    /// What has the name is kept.
    Kept(Kept),
    /// It is a manifest, which is kept, too.
    Manifest,
    /// Another one has the log open that has the name.
    InUse,
    /// The folder was not claimed.
    Folder(ClaimFault),
    /// A call of the system failed, which the notes know.
    System,
}

/// Sees that a file may take a name: nothing stands there, or a regular file that is not kept.
pub fn look(
    rt: &HostRuntime,
    path: &str,
    name: &str,
    limits: &Limits<'_>,
) -> Result<(), OutputFault>
    ensures forced { IsTrue limits.now.force → IfErr result (λ fault. fault ≡ Irregular) }
    ensures of_name { IfErr result IsOfName }
{
    if !is_replaceable(rt, path) {
        return Err(OutputFault::Irregular);
    }
    if limits.force {
        return Ok(());
    }
    if let Some(kept) = kept_at(rt, path, name) {
        return Err(OutputFault::Kept(kept));
    }
    if is_manifest(rt, path) {
        return Err(OutputFault::Manifest);
    }
    if is_input(rt, &Path::new(path), &limits.inputs) {
        return Err(OutputFault::Kept(Kept::Input));
    }
    Ok(())
}

/// Whether a file begins as a manifest does.
fn is_manifest(rt: &HostRuntime, path: &str) -> bool {
    let Ok(mut file) = fs::open(rt, path) else {
        return false;
    };
    let mut first = [0; 19];
    file.read_exact(&mut first).is_ok() && first == MANIFEST_BEGIN
}

/// Whether a path leads to a file that the command reads.
pub fn is_input(rt: &HostRuntime, path: &Path<'_>, inputs: &Inputs<'_>) -> bool {
    let Some(identity) = FileIdentity::at(rt, *path) else {
        return false;
    };
    let is_it = |name: &str| FileIdentity::at(rt, name) == Some(identity);
    match inputs {
        Inputs::Standard => is_it(STANDARD_INPUT),
        Inputs::Named(names) => {
            is_it(names.log)
                || names.master.is_some_and(|name| is_it(name))
                || names.archives.iter().any(|name| is_it(name))
                || matches!(names.manifest, ManifestUse::Told(name) if is_it(name))
        }
    }
}

/// Nothing stands there, or a regular file: no folder, device or link is replaced.
fn is_replaceable(rt: &HostRuntime, path: &str) -> bool {
    match fs::symlink_metadata(rt, Path::new(path)) {
        Ok(there) => there.is_file(),
        Err(error) => error.kind() == ErrorKind::NotFound,
    }
}
