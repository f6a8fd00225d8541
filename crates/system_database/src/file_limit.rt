//! The limit that the system sets to the length of a file. Where a write passes it, the system ends
//! the program.

use log_records::MAX_LOG_BYTES;
use page_core::zeros;
use std::alloc::AllocError;
use std::fs;
use std::io::Read;

/// Where Linux tells the limits of a process.
const LIMITS: &str = "/proc/self/limits";

/// How its line begins.
const LINE: &str = "Max file size";

/// How many bytes of the limits are looked at.
const MOST_BYTES: usize = 8_192;

/// How many bytes a file may have, where that is less than the longest log has. Where the system
/// does not tell, nothing is known of a limit.
pub(crate) fn low_limit(files: &HostRuntime) -> Result<Option<u64>, AllocError> {
    let mut bytes = zeros(files.alloc(), MOST_BYTES)?;
    let Ok(mut file) = fs::open(files, LIMITS) else {
        return Ok(None);
    };
    let mut len = 0usize;
    for _ in 0..=MOST_BYTES {
        let Some(rest) = bytes.as_mut_slice().get_mut(len..) else {
            break;
        };
        match file.read(rest) {
            Ok(0) | Err(_) => break,
            Ok(count) => len = len.saturating_add(count),
        }
    }
    Ok(limit_in(bytes.as_slice().get(..len).unwrap_or(&[])))
}

fn limit_in(limits: &[u8]) -> Option<u64> {
    let text = std::str::from_utf8(limits).ok()?;
    let line = text.lines().find(|line| line.starts_with(LINE))?;
    let limit: u64 = line
        .strip_prefix(LINE)?
        .split_whitespace()
        .next()?
        .parse()
        .ok()?;
    if limit < MAX_LOG_BYTES as u64 {
        Some(limit)
    } else {
        None
    }
}
