//! What befalls a disk.

use crate::chance::Chance;

/// After how many calls the power of a disk is cut; and which of its calls fail before that, counted
/// from 1: some syncs, and writes while the disk is full.
#[derive(Clone, Copy)]
pub struct Trouble {
    pub calls: u64,
    sync_from: u64,
    sync_to: u64,
    /// A sync that fails loses what it was to bring to the disk, and no later one tells of that.
    pub drops: bool,
    full_from: u64,
    full_to: u64,
}

impl Trouble {
    /// None.
    pub const NONE: Trouble = Trouble {
        calls: u64::MAX,
        sync_from: 0,
        sync_to: 0,
        drops: false,
        full_from: 0,
        full_to: 0,
    };

    /// Draws some: mostly a cut, and now and then a failed sync or a full disk before it.
    pub fn draw(chance: &mut Chance) -> Trouble {
        let mut drawn = Trouble::NONE;
        if !chance.one_in(8) {
            let most = if chance.one_in(4) { 8 } else { 48 };
            drawn.calls = chance.below(most) as u64;
        }
        if chance.one_in(6) {
            let from = chance.below(40) as u64;
            drawn.sync_from = from;
            drawn.sync_to = from + 1 + chance.below(3) as u64;
            drawn.drops = chance.one_in(2);
        }
        if chance.one_in(6) {
            let from = chance.below(40) as u64;
            drawn.full_from = from;
            drawn.full_to = from + 1 + chance.below(12) as u64;
        }
        drawn
    }

    /// Whether a write or a change of the length fails that is this call.
    pub fn fails_write(&self, call: u64) -> bool {
        self.full_from <= call && call < self.full_to
    }

    /// Whether a sync fails that is this call.
    pub fn fails_sync(&self, call: u64) -> bool {
        self.sync_from <= call && call < self.sync_to
    }
}
