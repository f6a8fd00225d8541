//! What is left of a machine whose power failed, or whose process came to its end.

use crate::draw::Draw;
use crate::machine::{Entry, State, Step, change_names, copied, overwrite};
use std::alloc::Global;
use std::io;

/// How many first bytes of a volume say that it is one.
const VOLUME_HEAD: usize = 8;

/// What a machine had when its power came, all of which lasts, and what it has now.
#[derive(Drop)]
pub struct Remains {
    pub first: State,
    pub now: State,
}

/// What becomes of a step that was not synced.
#[derive(Clone, Copy)]
enum Fate {
    Lost,
    Done,
    Torn,
}

/// What a torn write leaves of a piece.
#[derive(Clone, Copy)]
enum Piece {
    Old,
    New,
    Any,
}

/// How writes are torn: pieces begin at places of which these bits are 0, and one of so many begins
/// there.
#[derive(Clone, Copy)]
struct Grain {
    bits: usize,
    one_in: u64,
    /// Zeros stand for any bytes before this place.
    zeros: usize,
}

/// What becomes of the steps of a file that were not synced.
#[derive(Clone, Copy)]
struct Fates {
    grain: Grain,
    draw: Draw,
    /// All of them are lost.
    loses_all: bool,
}

impl Remains {
    /// Those of a machine without files.
    pub fn new(alloc: Global) -> Remains {
        Remains {
            first: State::new(alloc),
            now: State::new(alloc),
        }
    }

    /// What is there once the power failed behind so many steps. The files keep their numbers.
    pub fn cut(&self, at: usize, draw: &mut Draw) -> io::Result<Remains> {
        let steps = self.now.steps.get(..at).unwrap_or(&[]);
        let alloc = self.first.alloc;
        let grain = Grain::draw(draw);
        let mut left = State::new(alloc);
        left.entries = entries_left(&self.first, steps, draw)?;
        for file in 0..self.now.files.len() {
            let bytes = match name_of(&left.entries, file) {
                Some(name) => {
                    let fates = Fates {
                        grain: grain.of_file(name),
                        draw: Draw::new(draw.next()),
                        loses_all: false,
                    };
                    bytes_left(&self.first, steps, file, fates)?
                }
                None => Vec::new(alloc),
            };
            left.files.push(bytes)?;
        }
        let now = left.copied()?;
        Ok(Remains { first: left, now })
    }

    /// What is there once the process came to its end behind so many steps, and the power stayed.
    pub fn killed(&self, at: usize) -> io::Result<Remains> {
        let first = self.first.copied()?;
        let mut now = self.first.copied()?;
        for step in self.now.steps.get(..at).unwrap_or(&[]) {
            now.take(step.copied(self.first.alloc)?)?;
        }
        Ok(Remains { first, now })
    }

    /// A copy of what is there.
    pub fn copied(&self) -> io::Result<Remains> {
        self.killed(self.now.steps.len())
    }

    /// What is there, all of which lasts.
    pub fn settled(&self) -> io::Result<Remains> {
        Ok(Remains {
            first: self.now.copied()?,
            now: self.now.copied()?,
        })
    }

    /// How many bytes a file has for certain behind so many steps.
    pub fn lasting_bytes(&self, file: usize, at: usize) -> io::Result<usize> {
        let steps = self.now.steps.get(..at).unwrap_or(&[]);
        let mut draw = Draw::new(0);
        let fates = Fates {
            grain: Grain::draw(&mut draw),
            draw,
            loses_all: true,
        };
        Ok(bytes_left(&self.first, steps, file, fates)?.len())
    }

    /// Puts another byte in the place of one of a file.
    pub fn damage(&mut self, file: usize, at: usize, bits: u8) {
        damage_in(&mut self.first, file, at, bits);
        damage_in(&mut self.now, file, at, bits);
    }
}

/// A name of this file.
fn name_of(entries: &[Entry], file: usize) -> Option<&str> {
    for entry in entries {
        if entry.file == file {
            return Some(entry.name.as_str());
        }
    }
    None
}

fn damage_in(state: &mut State, file: usize, at: usize, bits: u8) {
    if let Some(bytes) = state.files.get_mut(file)
        && let Some(byte) = bytes.as_mut_slice().get_mut(at)
    {
        *byte ^= bits;
    }
}

impl Grain {
    /// Pieces of any lengths, of some times 8 bytes, of records, or of sectors of 512 bytes.
    fn draw(draw: &mut Draw) -> Grain {
        let (bits, one_in) = match draw.below(4) {
            0 => (0, 24),
            1 => (7, 4),
            2 => (63, 1),
            _ => (511, 1),
        };
        Grain {
            bits,
            one_in,
            zeros: 0,
        }
    }

    /// These pieces for the file of this name. Of a volume the first bytes are right, or zeros: an opening
    /// takes one that begins otherwise for another one's file.
    fn of_file(self, name: &str) -> Grain {
        Grain {
            zeros: if name == "volume" { VOLUME_HEAD } else { 0 },
            ..self
        }
    }

    fn begins_piece(&self, place: usize, draw: &mut Draw) -> bool {
        place & self.bits == 0 && draw.below(self.one_in) == 0
    }
}

/// The names: a change that was not synced is there, or is not.
fn entries_left(first: &State, steps: &[Step], draw: &mut Draw) -> io::Result<Vec<Entry>> {
    let mut entries = first.copied_entries()?;
    let synced = end_of_names(steps);
    for (place, step) in steps.iter().enumerate() {
        if place < synced || draw.below(2) == 0 {
            change_names(first.alloc, &mut entries, step)?;
        }
    }
    Ok(entries)
}

/// How many steps were made before the names were synced last.
fn end_of_names(steps: &[Step]) -> usize {
    let mut end = 0usize;
    for (place, step) in steps.iter().enumerate() {
        if matches!(step, Step::SyncNames) {
            end = place;
        }
    }
    end
}

/// The bytes of a file. What was not synced meets its fate.
fn bytes_left(first: &State, steps: &[Step], file: usize, fates: Fates) -> io::Result<Vec<u8>> {
    let mut fates = fates;
    let mut bytes = copied(first.alloc, first.bytes_of(file))?;
    let mut waiting: Vec<usize> = Vec::new(first.alloc);
    for (place, step) in steps.iter().enumerate() {
        match step {
            Step::Write { file: it, .. } | Step::SetLen { file: it, .. } if *it == file => {
                waiting.push(place)?;
            }
            Step::Sync { file: it } if *it == file => {
                for place in &waiting {
                    change_bytes(&mut bytes, steps.get(*place))?;
                }
                waiting.clear();
            }
            Step::Lose { file: it } if *it == file => {
                leave(&mut bytes, steps, &waiting, &mut fates)?;
                waiting.clear();
            }
            _ => {}
        }
    }
    leave(&mut bytes, steps, &waiting, &mut fates)?;
    Ok(bytes)
}

/// Each of these steps meets its own fate.
fn leave(
    bytes: &mut Vec<u8>,
    steps: &[Step],
    waiting: &[usize],
    fates: &mut Fates,
) -> io::Result<()> {
    for place in waiting {
        let step = steps.get(*place);
        match fates.next() {
            Fate::Lost => {}
            Fate::Done => change_bytes(bytes, step)?,
            Fate::Torn => tear_bytes(bytes, step, fates.grain, &mut fates.draw)?,
        }
    }
    Ok(())
}

impl Fates {
    fn next(&mut self) -> Fate {
        if self.loses_all {
            return Fate::Lost;
        }
        match self.draw.below(4) {
            0 => Fate::Lost,
            1 => Fate::Done,
            _ => Fate::Torn,
        }
    }
}

/// Makes a step, if it changes bytes.
fn change_bytes(bytes: &mut Vec<u8>, step: Option<&Step>) -> io::Result<()> {
    match step {
        Some(Step::Write { at, bytes: new, .. }) => overwrite(bytes, *at, new),
        Some(Step::SetLen { len, .. }) => {
            bytes.resize(*len, 0)?;
            Ok(())
        }
        _ => Ok(()),
    }
}

/// Makes a step in part.
fn tear_bytes(
    bytes: &mut Vec<u8>,
    step: Option<&Step>,
    grain: Grain,
    draw: &mut Draw,
) -> io::Result<()> {
    match step {
        Some(Step::Write { at, bytes: new, .. }) => tear_write(bytes, *at, new, grain, draw),
        Some(Step::SetLen { len, .. }) => tear_length(bytes, *len, draw),
        _ => Ok(()),
    }
}

/// Leaves any length between the old one and the new one.
fn tear_length(bytes: &mut Vec<u8>, len: usize, draw: &mut Draw) -> io::Result<()> {
    let (least, most) = (bytes.len().min(len), bytes.len().max(len));
    let room = most.saturating_sub(least).saturating_add(1);
    let drawn = least.saturating_add(draw.below(room as u64) as usize);
    bytes.resize(drawn.min(most), 0)?;
    Ok(())
}

/// Leaves of each piece of a write the old bytes, the new ones, or any. Bytes that are written over
/// the same ones stay, and the file gets longer by any part.
fn tear_write(
    bytes: &mut Vec<u8>,
    at: usize,
    new: &[u8],
    grain: Grain,
    draw: &mut Draw,
) -> io::Result<()> {
    let old = bytes.len();
    let end = at.saturating_add(new.len());
    if old < end {
        tear_length(bytes, end, draw)?;
    }
    let mut piece = drawn_piece(draw);
    for (index, byte) in new.iter().enumerate() {
        let place = at.saturating_add(index);
        if grain.begins_piece(place, draw) {
            piece = drawn_piece(draw);
        }
        if let Some(there) = bytes.as_mut_slice().get_mut(place)
            && (place >= old || *there != *byte)
        {
            match piece {
                Piece::Old => {}
                Piece::New => *there = *byte,
                Piece::Any if place < grain.zeros => *there = 0,
                Piece::Any => *there = draw.byte(),
            }
        }
    }
    Ok(())
}

fn drawn_piece(draw: &mut Draw) -> Piece {
    match draw.below(8) {
        0..=2 => Piece::Old,
        3 => Piece::Any,
        _ => Piece::New,
    }
}
