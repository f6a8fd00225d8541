//! Numbers that look random: the same for the same seed.

ghost use Rattle.std.specs.Prelude.{◌<◌};

use crate::accounts::ACCOUNTS;

/// A row of draws.
#[derive(Clone, Copy)]
pub struct Draws {
    state: u64,
}

/// Money that is moved from one account to another one, or would be, and is taken back.
#[derive(Clone, Copy)]
pub struct Transfer {
    pub from: u32,
    pub to: u32,
    pub amount: u64,
    pub is_taken_back: bool,
}

impl Draws {
    /// The row of this number; each number has a row of its own.
    pub fn new(seed: u64, row: u32) -> Draws {
        Draws {
            state: seed
                .wrapping_mul(0x9e37_79b9_7f4a_7c15)
                .wrapping_add(row as u64),
        }
    }

    /// A number below a bound.
    pub fn below(&mut self, bound: u64) -> u64
        requires { 0 < bound }
        ensures { result < bound }
    {
        self.state = self
            .state
            .wrapping_mul(6_364_136_223_846_793_005)
            .wrapping_add(1_442_695_040_888_963_407);
        (self.state >> 33) % bound
    }

    /// A transfer of 1 to 9 between two accounts. One in five is taken back.
    pub fn transfer(&mut self) -> Transfer {
        let from = self.below(ACCOUNTS as u64);
        let further = self.below(ACCOUNTS as u64 - 1);
        Transfer {
            from: from as u32,
            to: ((from + 1 + further) % ACCOUNTS as u64) as u32,
            amount: 1 + self.below(9),
            is_taken_back: self.below(5) == 0,
        }
    }
}
