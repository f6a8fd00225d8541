//! Which calls of a machine fail.

use crate::draw::Draw;

/// A call of a machine.
#[derive(Clone, Copy, PartialEq, Eq)]
pub enum Call {
    Read,
    Make,
    Write,
    Sync,
    Rename,
    Remove,
    SyncNames,
    WriteLog,
    SyncLog,
    WriteVolume,
    Tell,
}

/// Which calls fail.
#[derive(Clone, Copy)]
enum Failing {
    Nothing,
    /// Those of one kind.
    Each(Call),
    /// Those that need room.
    Full,
}

/// Which calls of a machine fail, and from which one on up to which one, counted from 1.
#[derive(Clone, Copy)]
pub struct Trouble {
    failing: Failing,
    from: u64,
    to: u64,
    /// A write that fails is made in part, and another change is made; a sync that fails loses what it
    /// was to store, and no later one brings that back.
    pub is_late: bool,
    /// Syncs of this kind are answered, and store nothing.
    ignored: Option<Call>,
}

const KINDS: [Call; 11] = [
    Call::Read,
    Call::Make,
    Call::Write,
    Call::Sync,
    Call::Rename,
    Call::Remove,
    Call::SyncNames,
    Call::WriteLog,
    Call::SyncLog,
    Call::WriteVolume,
    Call::Tell,
];

impl Trouble {
    /// No call fails.
    pub const NONE: Trouble = Trouble {
        failing: Failing::Nothing,
        from: 0,
        to: 0,
        is_late: false,
        ignored: None,
    };

    /// No call fails, and syncs of this kind store nothing: a machine on which a loss of power loses
    /// what it must not.
    pub fn ignoring(sync: Call) -> Trouble {
        Trouble {
            ignored: Some(sync),
            ..Trouble::NONE
        }
    }

    /// Draws some: one call, a few, or all from one on.
    pub fn draw(draw: &mut Draw) -> Trouble {
        let failing = match KINDS.get(draw.below(12) as usize) {
            Some(kind) => Failing::Each(*kind),
            None => Failing::Full,
        };
        let most = if draw.below(2) == 0 { 6 } else { 40 };
        let from = draw.below(most).saturating_add(1);
        let to = match draw.below(3) {
            0 => u64::MAX,
            1 => from.saturating_add(1),
            _ => from.saturating_add(draw.below(5)).saturating_add(1),
        };
        Trouble {
            failing,
            from,
            to,
            is_late: draw.below(2) == 0,
            ignored: None,
        }
    }

    /// Whether syncs of this kind store nothing.
    pub fn ignores(&self, sync: Call) -> bool {
        self.ignored == Some(sync)
    }

    /// Whether a call of this kind is counted.
    pub fn counts(&self, call: Call) -> bool {
        match self.failing {
            Failing::Nothing => false,
            Failing::Each(kind) => kind == call,
            Failing::Full => matches!(
                call,
                Call::Make | Call::Write | Call::WriteLog | Call::WriteVolume
            ),
        }
    }

    /// Whether the call of this number fails.
    pub fn fails_at(&self, number: u64) -> bool {
        self.from <= number && number < self.to
    }
}
