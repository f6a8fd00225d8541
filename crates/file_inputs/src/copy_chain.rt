//! The chain of a copy: it, and those that it stands on, down to a full one.

ghost use Rattle.std.specs.Prelude.{ℕ, IfOk, MatchOption};
ghost use Rattle.file_inputs.specs.CopyChain.{HasChain, IsNewestChain, IsWholeChain, StandsOn};

use file_view::CopyHeader;
use std::alloc::{AllocError, Global};

/// The copies of the newest whole chain, the newest one first: none of these headers with a whole
/// chain has a higher id.
pub fn newest_chain(alloc: Global, headers: &[CopyHeader]) -> Result<Option<Vec<u32>>, AllocError>
    ensures { IfOk result (λ found. MatchOption found
        ((id : ℕ) → HasChain headers.now id → ⊥) (λ chain. IsNewestChain headers.now chain.items)) }
{
    let mut newest = 0;
    for header in headers {
        if newest < header.id {
            if let Some(_) = chain_of(alloc, headers, header.id)? {
                newest = header.id;
            }
        }
    }
    chain_of(alloc, headers, newest)
}

/// The copies that a restore of this one takes, the newest one first: it, the one that it stands
/// on, and so on, down to a full one. None where one of them has no header here, or stands on none
/// that is older.
pub fn chain_of(
    alloc: Global,
    headers: &[CopyHeader],
    id: u32,
) -> Result<Option<Vec<u32>>, AllocError>
    ensures { IfOk result (λ found. MatchOption found
        (HasChain headers.now id → ⊥) (λ chain. IsWholeChain headers.now id chain.items)) }
{
    let mut chain = Vec::new(alloc);
    let mut next = id;
    while next != 0 {
        let Some(below) = stands_on(headers, next) else {
            return Ok(None);
        };
        chain.push(next)?;
        next = below;
    }
    if chain.is_empty() {
        Ok(None)
    } else {
        Ok(Some(chain))
    }
}

/// The copy that one stands on, or 0 for a full one. None where it is not there, or where it is no
/// older one.
fn stands_on(headers: &[CopyHeader], id: u32) -> Option<u32>
    ensures { MatchOption result
        ((on : ℕ) → StandsOn headers.now id on → ⊥) (StandsOn headers.now id) }
{
    for header in headers {
        if header.id == id {
            return if header.parent < id {
                Some(header.parent)
            } else {
                None
            };
        }
    }
    None
}
