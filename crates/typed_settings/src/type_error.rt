//! Why a value may not be at a key.

use key_names::{Key, Text};
use std::alloc::AllocError;

/// Why a value may not be at a key.
#[derive(Debug, Drop)]
pub enum TypeError {
    /// No row matches the key.
    Unknown {
        /// The key.
        key: Key,
    },
    /// The row that matches the key doesn't take the value.
    Wrong {
        /// The key.
        key: Key,
        /// The row's word, as it was given.
        wanted: Text,
    },
    /// Out of memory. It says nothing of the key and the value.
    Memory,
}

impl From<AllocError> for TypeError {
    ghost use Rattle.std.specs.Prelude.{◌≡◌};
    ghost use Rattle.typed_settings.specs.declared.type_error.TypeError.TheVariants.{Memory};

    ghost from_gives = { λ _ e. e ≡ Memory };

    fn from(_: AllocError) -> Self {
        TypeError::Memory
    }
}
