//! What a disk was asked to write since its last sync, and what a cut of the power makes of it.

ghost use Rattle.std.specs.Prelude.{◌<◌, length, OnOk};
ghost use Rattle.sqlite_disk.specs.Disk.{Cut, Torn};

use crate::chance::Chance;
use std::alloc::{AllocError, Global};

/// A call of a disk that changes bytes.
#[derive(Drop)]
pub enum Step {
    Write { at: usize, bytes: Vec<u8> },
    SetLen(usize),
}

/// How a write is torn: pieces begin at places of which these bits are 0, and one of so many begins
/// there.
#[derive(Clone, Copy)]
pub struct Grain {
    bits: usize,
    one_in: u32,
    ghost some: { 0 < one_in },
}

impl Grain {
    /// Pieces of any lengths, of some times 8 bytes, of records, or of sectors of 512 bytes.
    pub fn draw(chance: &mut Chance) -> Grain {
        let (bits, one_in) = match chance.below(4) {
            0 => (0, 24),
            1 => (7, 4),
            2 => (63, 1),
            _ => (511, 1),
        };
        Grain { bits, one_in }
    }

    fn begins_piece(&self, place: usize, chance: &mut Chance) -> bool {
        place & self.bits == 0 && chance.one_in(self.one_in)
    }
}

/// What a torn write leaves of a piece.
#[derive(Clone, Copy)]
enum Piece {
    Old,
    New,
    Garbage,
}

impl Step {
    ghost use Rattle.std.specs.Prelude.{OnOk};
    ghost use Rattle.check_power.specs.Steps.{MayMake};

    /// A write of these bytes.
    pub fn write(alloc: Global, at: usize, bytes: &[u8]) -> Result<Step, AllocError> {
        let bytes = Vec::from_slice(alloc, bytes)?;
        Ok(Step::Write { at, bytes })
    }

    /// Makes the whole step.
    pub fn make(&self, left: &mut Vec<u8>) -> Result<(), AllocError>
        ensures { OnOk result (MayMake self.now left.old.items left.new.items) }
    {
        match self {
            Step::Write { at, bytes } => {
                let end = at.checked_add(bytes.len()).ok_or(AllocError)?;
                if end > left.len() {
                    left.resize(end, 0)?;
                }
                left[*at..end].copy_from_slice(bytes);
                Ok(())
            }
            Step::SetLen(len) => left.resize(*len, 0),
        }
    }

    /// Makes the step, or nothing of it, or a part.
    pub fn tear(
        &self,
        left: &mut Vec<u8>,
        grain: Grain,
        chance: &mut Chance,
    ) -> Result<(), AllocError>
        ensures { OnOk result (MayMake self.now left.old.items left.new.items) }
    {
        match chance.below(4) {
            0 => Ok(()),
            1 => self.make(left),
            _ => match self {
                Step::Write { at, bytes } => tear_write(left, *at, bytes, grain, chance),
                Step::SetLen(len) => tear_length(left, *len, chance),
            },
        }
    }
}

/// Leaves any length between the old one and the new one.
fn tear_length(left: &mut Vec<u8>, len: usize, chance: &mut Chance) -> Result<(), AllocError>
    ensures { OnOk result (Cut len left.old.items left.new.items) }
{
    let old = left.len();
    if len < old {
        left.truncate(len + chance.up_to(old - len));
        return Ok(());
    }
    left.resize(old.saturating_add(chance.up_to(len - old)), 0)
}

/// Leaves of each piece of a write the old bytes, the new ones, or any. Bytes that are written over
/// the same ones stay, and the file gets longer by any part.
fn tear_write(
    left: &mut Vec<u8>,
    at: usize,
    bytes: &[u8],
    grain: Grain,
    chance: &mut Chance,
) -> Result<(), AllocError>
    ensures { OnOk result (Torn at (length bytes.now) left.old.items left.new.items) }
{
    let old = left.len();
    let end = at.checked_add(bytes.len()).ok_or(AllocError)?;
    if old < end {
        tear_length(left, end, chance)?;
    }
    let mut piece = any_piece(chance);
    for (index, byte) in bytes.iter().enumerate() {
        let place = at.saturating_add(index);
        if grain.begins_piece(place, chance) {
            piece = any_piece(chance);
        }
        if let Some(there) = left.get_mut(place) {
            if place >= old || *there != *byte {
                *there = torn_byte(piece, *there, *byte, chance);
            }
        }
    }
    Ok(())
}

fn any_piece(chance: &mut Chance) -> Piece {
    match chance.below(8) {
        0..=2 => Piece::Old,
        3 => Piece::Garbage,
        _ => Piece::New,
    }
}

fn torn_byte(piece: Piece, old: u8, new: u8, chance: &mut Chance) -> u8 {
    match piece {
        Piece::Old => old,
        Piece::New => new,
        Piece::Garbage => (chance.next() & 0xff) as u8,
    }
}
