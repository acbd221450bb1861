//! What comes as it may: the same for the same seed.

ghost use Rattle.std.specs.Prelude.{◌≤◌};

use rand::rngs::SmallRng;
use rand::{RngExt, SeedableRng};

/// Numbers that follow from a seed.
#[derive(Drop)]
pub(crate) struct Chance {
    numbers: SmallRng,
}

impl Chance {
    pub(crate) fn new(seed: u64) -> Chance {
        Chance {
            numbers: SmallRng::seed_from_u64(seed),
        }
    }

    /// A number below this one, and 0 below 0.
    pub(crate) fn below(&mut self, bound: u32) -> u32
        ensures { result ≤ bound }
    {
        if bound == 0 {
            return 0;
        }
        self.numbers.random_range(0..bound)
    }

    /// Whether what comes once in so many times comes now.
    pub(crate) fn once_in(&mut self, times: u32) -> bool {
        self.below(times) == 0
    }

    /// One of these.
    pub(crate) fn one_of<'a, T>(&mut self, some: &'a [T]) -> Option<&'a T> {
        let count = u32::try_from(some.len()).unwrap_or(u32::MAX);
        some.get(self.below(count) as usize)
    }
}
