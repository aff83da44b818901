//! Choices at random, from a seed.
ghost use Rattle.std.specs.Prelude.{◌<◌};

use rand_core::{Rng, SeedableRng};
use rand_xoshiro::Xoshiro256PlusPlus;

/// A generator of choices. The same seed gives the same choices.
#[derive(Drop)]
pub struct Choices {
    words: Xoshiro256PlusPlus,
}

impl Choices {
    pub fn new(seed: u64) -> Choices {
        Choices {
            words: Xoshiro256PlusPlus::seed_from_u64(seed),
        }
    }

    /// A number below the bound.
    pub fn below(&mut self, bound: u64) -> u64
        requires { 0 < bound }
        ensures { result < bound }
    {
        self.words.next_u64() % bound
    }

    /// An index of a list of so many.
    pub fn index(&mut self, len: usize) -> usize
        requires { 0 < len }
        ensures { result < len }
    {
        self.below(len as u64) as usize
    }

    /// True once in so many times.
    pub fn one_in(&mut self, times: u64) -> bool
        requires { 0 < times }
    {
        self.below(times) == 0
    }
}
