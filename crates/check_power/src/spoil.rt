//! Bytes of files that are damaged while a database is closed.

use crate::chance::Chance;
use crate::wrong::Wrong;
use test_simulator::Remains;

/// Of what a byte is another one.
#[derive(Clone, Copy, PartialEq, Eq)]
pub enum Spoiled {
    Nothing,
    /// The volume behind the number and the format of its first page, or a file that is not read.
    Unread,
    /// The beginning of the volume, the master record, the note of a closing, the manifest or a copy.
    Beside,
    /// The log behind what was forced.
    Behind,
    /// The log before that, from this byte on.
    Forced(usize),
}

impl Spoiled {
    /// Draws what is damaged, and damages it. The log has so many bytes for certain.
    pub fn draw(
        chance: &mut Chance,
        remains: &mut Remains,
        lasting: usize,
    ) -> Result<Spoiled, Wrong> {
        if !chance.one_in(3) {
            return Ok(Spoiled::Nothing);
        }
        let count = remains.now.entries.len();
        let index = chance.up_to(count.saturating_sub(1));
        let Some(entry) = remains.now.entries.get(index) else {
            return Ok(Spoiled::Nothing);
        };
        let file = entry.file;
        let place = place_of(entry.name.as_str());
        let len = remains.now.bytes_of(file).len();
        if len == 0 {
            return Ok(Spoiled::Nothing);
        }
        let at = chance.up_to(len.saturating_sub(1));
        *remains = remains.settled()?;
        remains.damage(file, at, any_bits(chance));
        if chance.one_in(2) {
            let next = at.saturating_add(1).saturating_add(chance.up_to(8));
            remains.damage(file, next, any_bits(chance));
        }
        Ok(match place {
            Place::Log if at < lasting => Spoiled::Forced(at),
            Place::Log => Spoiled::Behind,
            Place::Volume if at < 8 => Spoiled::Beside,
            Place::Volume | Place::Unread => Spoiled::Unread,
            Place::Beside => Spoiled::Beside,
        })
    }

    /// Whether an opening may be refused for it.
    pub fn may_be_refused(&self) -> bool {
        matches!(self, Spoiled::Beside | Spoiled::Forced(_))
    }
}

fn any_bits(chance: &mut Chance) -> u8 {
    ((chance.next() & 0xff) as u8) | 1
}

/// What a file of a folder is.
#[derive(Clone, Copy)]
enum Place {
    Log,
    Volume,
    Beside,
    Unread,
}

fn place_of(name: &str) -> Place {
    match name {
        "log" => Place::Log,
        "volume" => Place::Volume,
        "master" | "closed" | "manifest" => Place::Beside,
        _ if name.starts_with("copy-") && !name.contains(".unfinished-") => Place::Beside,
        _ => Place::Unread,
    }
}
