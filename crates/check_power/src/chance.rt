//! Numbers that a seed draws.

ghost use Rattle.std.specs.Prelude.{◌<◌, ◌≤◌};

/// A row of numbers that looks random, and is the same for the same seed (SplitMix64).
#[derive(Drop)]
pub struct Chance {
    state: u64,
}

impl Chance {
    /// The row of a seed.
    pub fn of(seed: u64) -> Chance {
        Chance {
            state: seed.wrapping_mul(0x9E37_79B9_7F4A_7C15),
        }
    }

    /// The next number.
    pub fn next(&mut self) -> u64 {
        self.state = self.state.wrapping_add(0x9E37_79B9_7F4A_7C15);
        let mut mixed = self.state;
        mixed = (mixed ^ (mixed >> 30)).wrapping_mul(0xBF58_476D_1CE4_E5B9);
        mixed = (mixed ^ (mixed >> 27)).wrapping_mul(0x94D0_49BB_1331_11EB);
        mixed ^ (mixed >> 31)
    }

    /// A number below this one.
    pub fn below(&mut self, count: u32) -> u32
        requires { 0 < count }
        ensures { result < count }
    {
        (self.next() % count as u64) as u32
    }

    /// A number up to this one.
    pub fn up_to(&mut self, most: usize) -> usize
        ensures { result ≤ most }
    {
        match (most as u64).checked_add(1) {
            Some(count) => (self.next() % count) as usize,
            None => 0,
        }
    }

    /// True once in so many times.
    pub fn one_in(&mut self, count: u32) -> bool
        requires { 0 < count }
    {
        self.below(count) == 0
    }
}
