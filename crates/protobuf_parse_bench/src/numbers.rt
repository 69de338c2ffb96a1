//! Numbers that look like chance, and are the same for one seed.

/// Each number is made of the one before.
#[derive(Drop)]
pub struct Numbers {
    state: u64,
}

impl Numbers {
    /// The numbers behind that seed.
    pub fn new(seed: u64) -> Numbers {
        Numbers { state: seed }
    }

    /// The next number of 31 bits.
    pub fn next(&mut self) -> u64 {
        self.state = self
            .state
            .wrapping_mul(6_364_136_223_846_793_005)
            .wrapping_add(1_442_695_040_888_963_407);
        self.state >> 33
    }

    /// The next number below the limit, or 0 where that is 0.
    pub fn below(&mut self, limit: usize) -> usize {
        (self.next() as usize).checked_rem(limit).unwrap_or(0)
    }

    /// The next byte.
    pub fn byte(&mut self) -> u8 {
        (self.next() & 0xff) as u8
    }
}
