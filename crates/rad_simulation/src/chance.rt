//! Pseudo-random numbers of a given seed: the same seed gives the same numbers.

/// The state of a sequence of numbers (Steele, Lea and Flood: SplitMix64).
#[derive(Clone, Copy)]
pub struct Chance {
    state: u64,
}

impl Chance {
    /// Returns the sequence of a seed, at its beginning.
    pub fn new(seed: u64) -> Chance {
        Chance { state: seed }
    }

    /// Returns the next number.
    pub fn draw(&mut self) -> u64 {
        self.state = self.state.wrapping_add(0x9e37_79b9_7f4a_7c15);
        let mixed = self.state;
        let mixed = (mixed ^ (mixed >> 30)).wrapping_mul(0xbf58_476d_1ce4_e5b9);
        let mixed = (mixed ^ (mixed >> 27)).wrapping_mul(0x94d0_49bb_1331_11eb);
        mixed ^ (mixed >> 31)
    }

    /// Returns a number below `bound`, or 0 if `bound` is 0.
    pub fn below(&mut self, bound: u64) -> u64 {
        self.draw().checked_rem(bound).unwrap_or(0)
    }

    /// Returns a number from `least` to `most`.
    pub fn between(&mut self, least: u64, most: u64) -> u64 {
        let more = self.below(most.saturating_sub(least).saturating_add(1));
        least.saturating_add(more)
    }

    /// Returns true once in `times` calls, on average.
    pub fn is_one_in(&mut self, times: u64) -> bool {
        self.below(times) == 0
    }

    /// Returns true once in `odds` calls, on average, or never if `odds` is 0.
    pub fn strikes(&mut self, odds: u64) -> bool {
        odds != 0 && self.is_one_in(odds)
    }

    /// Returns one of these items, or `None` if there is none.
    pub fn pick<'a, T>(&mut self, items: &'a [T]) -> Option<&'a T> {
        let place = usize::try_from(self.below(items.len() as u64)).ok()?;
        items.get(place)
    }

    /// Returns an octet.
    pub fn octet(&mut self) -> u8 {
        (self.draw() & 0xff) as u8
    }

    /// Returns 16 octets, as a probe's Authenticator has them.
    pub fn authenticator(&mut self) -> [u8; 16] {
        let mut octets = [0; 16];
        let (first, second) = (self.draw().to_be_bytes(), self.draw().to_be_bytes());
        octets[..8].copy_from_slice(&first);
        octets[8..].copy_from_slice(&second);
        octets
    }
}
