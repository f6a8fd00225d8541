//! A text to a manifest.

ghost use Rattle.std.specs.Prelude.{◌≡◌, ◌-◌, IfErr, IfOk, length};
ghost use Rattle.manifest.specs.declared.fault.ManifestFault.TheVariants.{BadLine};
ghost use Rattle.manifest.specs.Entries.{IsManifest, Listed};
ghost use Rattle.manifest.specs.Fault.{line_at, Reads};
ghost use Rattle.manifest.specs.Reading.{StopsAt, TakesEntry};
ghost use Rattle.manifest.specs.Text.{manifest_text};

use crate::entry::FileSum;
use crate::fault::{LineFault, ManifestFault};
use crate::noted_files::{MAX_ENTRIES, Manifest};
use crate::pieces::{head_at, length_at, sum_at};
use std::alloc::Global;

/// Why no entry is read.
pub(crate) enum Stop {
    OutOfMemory,
    /// The line is bad that begins with so many bytes left, or has them as its end.
    Bad(usize, LineFault),
}

/// The manifest that has just this text.
pub fn decode(alloc: Global, bytes: &[u8]) -> Result<Manifest, ManifestFault>
    // What is read is spelled so.
    ensures found { IfOk result (λ it. IsManifest it × (bytes.now ≡ manifest_text it)) }
    // What is spelled so is read, unless memory runs out.
    ensures only { (wanted : Listed) → IsManifest wanted → bytes.now ≡ manifest_text wanted
        → Reads wanted result }
{
    let Some((database, behind)) = head_at(bytes) else {
        return Err(ManifestFault::BadLine(1, LineFault::Head));
    };
    let mut rest = behind;
    let mut manifest = Manifest::new(alloc, database);
    'entries: while !rest.is_empty() {
        rest = match read_entry(&mut manifest, rest) {
            Ok(behind) => behind,
            Err(Stop::OutOfMemory) => return Err(ManifestFault::OutOfMemory),
            Err(Stop::Bad(left, why)) => return Err(bad_line(bytes, left, why)),
        };
    }
    Ok(manifest)
}

/// Adds the entry that stands here to a manifest, and gives what follows it.
fn read_entry<'a>(manifest: &mut Manifest, bytes: &'a [u8]) -> Result<&'a [u8], Stop>
    ensures taken { IfOk result (λ rest. TakesEntry manifest.old manifest.new bytes.now rest.now) }
    ensures stopped { IfErr result (StopsAt manifest.old bytes.now) }
{
    let Some((extent, count, behind)) = length_at(bytes) else {
        return Err(Stop::Bad(bytes.len(), LineFault::Length));
    };
    let Some((sum, name, rest)) = sum_at(behind) else {
        return Err(Stop::Bad(behind.len(), LineFault::Sum));
    };
    if manifest.entry(name).is_some() {
        return Err(Stop::Bad(behind.len(), LineFault::Twice));
    }
    if manifest.entries().len() >= MAX_ENTRIES {
        return Err(Stop::Bad(bytes.len(), LineFault::TooMany));
    }
    let file = FileSum {
        extent,
        bytes: count,
        sum,
    };
    match manifest.add(name, file) {
        Ok(()) => Ok(rest),
        Err(_) => Err(Stop::OutOfMemory),
    }
}

/// The fault of the line that has so many bytes left.
fn bad_line(bytes: &[u8], left: usize, why: LineFault) -> ManifestFault
    ensures { result ≡ BadLine (line_at bytes.now (length bytes.now - left)) why }
{
    let before = bytes.len().saturating_sub(left);
    let feeds = bytes[..before].iter().filter(|byte| **byte == b'\n');
    ManifestFault::BadLine(feeds.count() as u64 + 1, why)
}
