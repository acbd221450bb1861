//! Numbers by chance, the same in each run.

/// A sequence of numbers that looks random.
#[derive(Drop)]
pub(crate) struct Chance {
    state: u64,
}

impl Chance {
    /// A sequence of its own for each seed.
    pub(crate) fn new(seed: u64) -> Chance {
        Chance { state: seed }
    }

    /// The next number, below 2^31.
    pub(crate) fn number(&mut self) -> u32 {
        self.state = self
            .state
            .wrapping_mul(6_364_136_223_846_793_005)
            .wrapping_add(1_442_695_040_888_963_407);
        (self.state >> 33) as u32
    }

    /// The next number, below this bound; 0 below 0.
    pub(crate) fn below(&mut self, bound: u32) -> u32 {
        self.number().checked_rem(bound).unwrap_or(0)
    }

    /// A number below 256.
    pub(crate) fn byte(&mut self) -> u8 {
        (self.number() % 256) as u8
    }

    /// One of four letters from this on.
    pub(crate) fn letter(&mut self, first: u8) -> u8 {
        first.wrapping_add(self.byte() % 4)
    }
}
