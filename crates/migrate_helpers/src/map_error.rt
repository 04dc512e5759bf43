//! Why a mapping refuses.

use key_names::Key;
use std::alloc::{AllocError, AllocFailed};

/// Why a mapping makes nothing of what is held.
#[derive(Debug, Drop)]
pub enum MapError {
    /// What it would make would break the prefix rule.
    Conflict {
        /// The least key that is a proper prefix of another, of the live settings if they break the
        /// rule, and else of the first transaction by name that does.
        key: Key,
    },
    /// Out of memory. It says nothing of what is held.
    Memory,
}

impl From<AllocError> for MapError {
    ghost use Rattle.std.specs.Prelude.{◌≡◌};
    ghost use Rattle.migrate_helpers.specs.declared.map_error.MapError.TheVariants.{Memory};

    ghost from_gives = { λ _ e. e ≡ Memory };

    fn from(_: AllocError) -> Self {
        MapError::Memory
    }
}

impl<T: Drop> From<AllocFailed<T>> for MapError {
    ghost use Rattle.std.specs.Prelude.{◌≡◌};
    ghost use Rattle.migrate_helpers.specs.declared.map_error.MapError.TheVariants.{Memory};

    ghost from_gives = { λ _ e. e ≡ Memory };

    fn from(_: AllocFailed<T>) -> Self {
        MapError::Memory
    }
}
