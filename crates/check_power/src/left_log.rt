//! The log that is left in a folder.

use crate::wrong::Wrong;
use engine_restart::log_in;
use manifest::decode;
use std::alloc::Global;
use test_simulator::{Remains, State, Step};

/// How many bytes a record has, and a header.
const RECORD: usize = 64;

/// Whether the log of a folder has a record that nobody wrote.
pub fn is_strange(alloc: Global, lived: &Remains, left: &State) -> bool {
    let Some(log) = left.file_of("log") else {
        return false;
    };
    let bytes = left.bytes_of(log);
    let Ok(front) = log_in(alloc, bytes) else {
        return false;
    };
    let end = front.log().end().0 as usize;
    let records = bytes.get(..end).unwrap_or(&[]);
    for (index, record) in records.chunks(RECORD).enumerate() {
        if !was_written(lived, log, index.saturating_mul(RECORD), record) {
            return true;
        }
    }
    false
}

/// Whether these bytes stood there when the power came, or were written there since.
fn was_written(lived: &Remains, file: usize, at: usize, record: &[u8]) -> bool {
    if has_at(lived.first.bytes_of(file), at, record) {
        return true;
    }
    for step in &lived.now.steps {
        if let Step::Write {
            file: written,
            at: from,
            bytes,
        } = step
            && *written == file
            && *from <= at
            && has_at(bytes, at.saturating_sub(*from), record)
        {
            return true;
        }
    }
    false
}

fn has_at(bytes: &[u8], at: usize, record: &[u8]) -> bool {
    bytes.get(at..at.saturating_add(record.len())) == Some(record)
}

/// How many bytes of the log the manifest of a folder names.
pub fn named_bytes(alloc: Global, folder: &State) -> u64 {
    let Some(bytes) = folder.bytes_at("manifest") else {
        return 0;
    };
    match decode(alloc, bytes) {
        Ok(manifest) => match manifest.entry("log") {
            Some(file) => file.bytes,
            None => 0,
        },
        Err(_) => 0,
    }
}

/// Compares the files of a folder that was refused with those that it had.
pub fn check_untouched(before: &State, after: &State) -> Result<(), Wrong> {
    if before.entries.len() != after.entries.len() {
        return Err(Wrong::Touched);
    }
    for entry in &before.entries {
        if after.file_of(entry.name.as_str()) != Some(entry.file)
            || after.bytes_of(entry.file) != before.bytes_of(entry.file)
        {
            return Err(Wrong::Touched);
        }
    }
    Ok(())
}

/// Sees that each file that has its own name is whole.
pub fn check_whole(lived: &State, left: &State) -> Result<(), Wrong> {
    for entry in &left.entries {
        let name = entry.name.as_str();
        if name == "log" || name == "volume" || name.contains(".unfinished-") {
            continue;
        }
        if left.bytes_of(entry.file) != lived.bytes_of(entry.file) {
            return Err(Wrong::NotWhole {
                file: entry.file as u64,
            });
        }
    }
    Ok(())
}
