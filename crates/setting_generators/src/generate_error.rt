//! Why the generators gave no values.

use key_names::Key;
use std::alloc::{AllocError, AllocFailed};

/// The first refusal of the generators that were asked.
#[derive(Debug, Drop)]
pub enum GenerateError {
    /// The program for the key could not be run: the count of faults rose.
    Failed {
        /// The key.
        key: Key,
    },
    /// The program for the key ended with another status than 0.
    Status {
        /// The key.
        key: Key,
        /// The status.
        number: u16,
    },
    /// The output of the program for the key is too long, or no scalar.
    BadOutput {
        /// The key.
        key: Key,
    },
    /// It ran out of memory.
    Memory,
}

impl From<AllocError> for GenerateError {
    ghost use Rattle.std.specs.Prelude.{◌≡◌};
    ghost use Rattle.setting_generators.specs.declared.generate_error.GenerateError.TheVariants.{Memory};

    ghost from_gives = { λ _ e. e ≡ Memory };

    fn from(_: AllocError) -> Self {
        GenerateError::Memory
    }
}

impl<T: Drop> From<AllocFailed<T>> for GenerateError {
    ghost use Rattle.std.specs.Prelude.{◌≡◌};
    ghost use Rattle.setting_generators.specs.declared.generate_error.GenerateError.TheVariants.{Memory};

    ghost from_gives = { λ _ e. e ≡ Memory };

    fn from(_: AllocFailed<T>) -> Self {
        GenerateError::Memory
    }
}
