//! Random numbers that a seed determines.
ghost use Rattle.std.specs.Prelude.{◌<◌};

use rand_core::{Rng, SeedableRng};
use rand_xoshiro::Xoshiro256PlusPlus;

/// A generator of random numbers.
#[derive(Drop)]
pub struct Dice {
    rng: Xoshiro256PlusPlus,
}

impl Dice {
    /// The generator of this seed.
    pub fn of(seed: u64) -> Dice {
        Dice {
            rng: Xoshiro256PlusPlus::seed_from_u64(seed),
        }
    }

    /// A number below the bound.
    pub fn below(&mut self, bound: u64) -> u64
        requires { 0 < bound }
        ensures { result < bound }
    {
        self.rng.next_u64() % bound
    }

    /// True so many times of a hundred.
    pub fn chance(&mut self, percent: u64) -> bool {
        self.below(100) < percent
    }

    /// One of the texts; the empty text where there is none.
    pub fn pick(&mut self, texts: &[&'static str]) -> &'static str {
        let bound = (texts.len() as u64).max(1);
        match texts.get(self.below(bound) as usize) {
            Some(text) => *text,
            None => "",
        }
    }
}
