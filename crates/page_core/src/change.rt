//! What a change does to a slot, and the change that undoes it.

ghost use Rattle.std.specs.Prelude.{ℕ, ◌≡◌, ◌<◌, ◌^◌};
ghost use Rattle.page_core.specs.Change.{Replaces, changed, kind_of, undo_of as inverse_of};

/// A change of one slot. It has what redo needs and what undo needs.
#[derive(Clone, Copy, Debug, PartialEq, Eq)]
pub enum Change {
    /// Replaces the slot's number. `before` is the number that it replaces.
    Set { before: u64, after: u64 },
    /// Adds to the slot's number, modulo 2^64.
    Add { amount: u64 },
}

/// Which kind of change it is, without its numbers. It decides which changes of two transactions
/// may stand beside each other on a slot.
#[derive(Clone, Copy, Debug, PartialEq, Eq)]
pub enum ChangeKind {
    Set,
    Add,
}

impl Change {
    /// Which kind of change it is.
    pub fn kind(&self) -> ChangeKind
        ensures { result ≡ kind_of self.now }
    {
        match *self {
            Change::Set { .. } => ChangeKind::Set,
            Change::Add { .. } => ChangeKind::Add,
        }
    }

    /// The slot's number after this change.
    pub fn changed(&self, number: u64) -> u64
        ensures { result ≡ changed self.now number }
    {
        match *self {
            Change::Set { after, .. } => after,
            Change::Add { amount } => number.wrapping_add(amount),
        }
    }
}

/// The change that undoes a change.
pub fn undo_of(change: &Change) -> Change
    ensures inverse { result ≡ inverse_of change.now }
    // Undoing puts the number back.
    ensures restores { (number : ℕ) → number < 2 ^ 64 → Replaces change.now number
        → changed result (changed change.now number) ≡ number }
{
    match *change {
        Change::Set { before, .. } => Change::Set {
            before: 0,
            after: before,
        },
        Change::Add { amount } => Change::Add {
            amount: 0u64.wrapping_sub(amount),
        },
    }
}
