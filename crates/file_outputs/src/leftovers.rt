//! Unfinished files that commands left which were cut off. A writer has its file locked as long as
//! it lives. None is removed: nobody can tell by a name whose file it is, and what reads it.

ghost use Rattle.std.specs.Prelude.{ℕ, ◌-◌, ◌<◌, ◌≤◌, ◌↔◌, IsTrue, get_or, length};
ghost use Rattle.std.specs.Char.{IsAsciiDigit, IsNotAsciiDigit};
ghost use Rattle.file_outputs.specs.Unfinished.{AreDigits, IsUnfinishedOf, NamesUnfinished};

use crate::limits::{Inputs, is_input};
use std::fs;
use std::path::Path;
use system_files::{Escaped, is_in_use};

/// What follows a name in that of an unfinished file, in front of a number.
const UNFINISHED: &str = ".unfinished-";

/// Why nothing else gets such a name.
pub const UNFINISHED_NAME: &str = "this is the name of an unfinished file: name another one";

/// How many names of unfinished files are told.
const MOST_TOLD: usize = 64;

/// Whether an unfinished file may have this name, beside any other one.
pub fn is_unfinished(name: &str) -> bool
    ensures { IsTrue result ↔ NamesUnfinished name.now }
{
    let bytes = name.as_bytes();
    let end = before_digits(bytes);
    end < bytes.len() && bytes[..end].ends_with(UNFINISHED.as_bytes())
}

/// Where the digits begin that stand at the end of these bytes.
fn before_digits(bytes: &[u8]) -> usize
    ensures bound { result ≤ length bytes.now }
    ensures digits { (at : ℕ) → result ≤ at → at < length bytes.now
        → IsAsciiDigit (get_or bytes.now at 0) }
    ensures most { 0 < result → IsNotAsciiDigit (get_or bytes.now (result - 1) 0) }
{
    let mut end = bytes.len();
    while end > 0 && bytes[end - 1].is_ascii_digit() {
        end -= 1;
    }
    end
}

/// Names the unfinished files of this name in a folder that have no writer any more, but for those
/// that the command reads. The caller has the folder, so that no file is made and not locked yet.
pub fn tell_left_beside(rt: &HostRuntime, folder: &str, name: &str, inputs: &Inputs<'_>) {
    let Ok(entries) = fs::read_dir(rt, folder) else {
        return;
    };
    let mut told = 0usize;
    for entry in entries {
        let Ok(entry) = entry else {
            continue;
        };
        let left = entry.file_name();
        if told < MOST_TOLD
            && is_beside(left.as_bytes(), name.as_bytes())
            && is_left(rt, &entry.path(), inputs)
        {
            tell(rt, folder, left);
            told += 1;
        }
    }
}

/// Whether a file of this name is written beside that name.
fn is_beside(left: &[u8], name: &[u8]) -> bool
    ensures { IsTrue result ↔ IsUnfinishedOf name.now left.now }
{
    let Some(rest) = left.strip_prefix(name) else {
        return false;
    };
    match rest.strip_prefix(UNFINISHED.as_bytes()) {
        Some(digits) => are_digits(digits),
        None => false,
    }
}

fn are_digits(bytes: &[u8]) -> bool
    ensures { IsTrue result ↔ AreDigits bytes.now }
{
    !bytes.is_empty() && before_digits(bytes) == 0
}

/// Whether it is a regular file that no writer has, and no input of the command.
fn is_left(rt: &HostRuntime, place: &Path<'_>, inputs: &Inputs<'_>) -> bool {
    match fs::symlink_metadata(rt, *place) {
        Ok(there) => there.is_file() && !is_in_use(rt, place) && !is_input(rt, place, inputs),
        Err(_) => false,
    }
}

fn tell(rt: &impl Eprint, folder: &str, left: &str) {
    let (folder, left) = (Escaped(folder), Escaped(left));
    let _ = eprintln!(rt;
        "imgcopy: {folder}/{left}: left by a command that was cut off; it may be deleted"
    );
}

/// Names the unfinished files of a folder that have no writer any more: a save or another command
/// that was cut off left them.
pub fn tell_left(rt: &HostRuntime, folder: &str) {
    let Ok(entries) = fs::read_dir(rt, folder) else {
        return;
    };
    let mut told = 0usize;
    for entry in entries {
        let Ok(entry) = entry else {
            continue;
        };
        let left = entry.file_name();
        if left.contains(UNFINISHED) && told < MOST_TOLD && !is_in_use(rt, &entry.path()) {
            tell(rt, folder, left);
            told += 1;
        }
    }
}
