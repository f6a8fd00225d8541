//! The copies that a copy stands on, by their headers.

ghost use Rattle.std.specs.Prelude.{IfOk};
ghost use Rattle.folder_reports.specs.Sound.{EndsWith};

use file_view::CopyHeader;
use std::alloc::{AllocError, Global};

/// The copies that one stands on, and it, the full one first; or the nearest of them that is not
/// there.
pub(crate) fn chain_of(
    alloc: Global,
    headers: &[CopyHeader],
    id: u32,
) -> Result<Result<Vec<u32>, u32>, AllocError>
    ensures { IfOk result (λ found. IfOk found (λ chain. EndsWith id chain.items)) }
{
    let mut chain = Vec::new(alloc);
    chain.push(id)?;
    let mut next = id;
    for _ in 0..=headers.len() {
        match parent_of(headers, next) {
            None => return Ok(Err(next)),
            Some(0) => {
                chain.reverse();
                return Ok(Ok(chain));
            }
            Some(parent) => {
                chain.push(parent)?;
                next = parent;
            }
        }
    }
    Ok(Err(next))
}

/// The copy that one stands on, or 0 for a full one. None where it is not there.
fn parent_of(headers: &[CopyHeader], id: u32) -> Option<u32> {
    for header in headers {
        if header.id == id {
            return Some(header.parent);
        }
    }
    None
}
