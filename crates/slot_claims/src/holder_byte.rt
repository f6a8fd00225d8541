//! The holder of a slot, in one byte.

ghost use Rattle.std.specs.Prelude.{◌≡◌};
ghost use Rattle.slot_claims.specs.HolderByte.{HasRow, holder_of};

use crate::row_set::ROWS;
use page_core::ChangeKind;

/// Who keeps others from a slot.
#[derive(Clone, Copy)]
pub enum Holder {
    Nobody,
    /// The transaction of one row: by Adds alone, or by a Set at least.
    One { row: u8, kind: ChangeKind },
    /// Transactions that add to the slot. There were several once; which they are now, the mark
    /// does not say.
    Adders,
}

/// A holder in one byte, since each slot of a volume has one.
#[derive(Clone, Copy)]
pub struct HolderByte {
    /// `ROWS` times the number of what is there, and the row, or 0.
    byte: u8,
}

impl HolderByte {
    /// The mark of a holder.
    #[tactic(auto, unfolding(crate::specs::HolderByte::holder_of))]
    pub fn of(holder: Holder) -> HolderByte
        requires { HasRow holder }
        ensures { holder_of result ≡ holder }
    {
        let byte = match holder {
            Holder::Nobody => 0,
            Holder::One {
                row,
                kind: ChangeKind::Add,
            } => ROWS + row,
            Holder::One {
                row,
                kind: ChangeKind::Set,
            } => 2 * ROWS + row,
            Holder::Adders => 3 * ROWS,
        };
        HolderByte { byte }
    }

    /// The byte.
    pub fn byte(self) -> u8 {
        self.byte
    }

    /// The holder that it says.
    #[tactic(auto, unfolding(crate::specs::HolderByte::holder_of))]
    pub fn holder(self) -> Holder
        ensures holder { result ≡ holder_of self }
        ensures row { HasRow result }
    {
        let row = self.byte % ROWS;
        match self.byte / ROWS {
            1 => Holder::One {
                row,
                kind: ChangeKind::Add,
            },
            2 => Holder::One {
                row,
                kind: ChangeKind::Set,
            },
            3 => Holder::Adders,
            _ => Holder::Nobody,
        }
    }
}
