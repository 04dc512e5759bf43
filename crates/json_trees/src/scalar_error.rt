//! Why a text is no scalar.

use std::alloc::{AllocError, AllocFailed};

/// Why a JSON text is no scalar.
#[derive(Clone, Copy, Debug, PartialEq, Eq)]
pub enum ScalarError {
    /// The text is no JSON.
    NotJson,
    /// The value is `null`, or an item of a list is.
    Null,
    /// A number that `serde_json` doesn't hold as a whole number of 64 bits with a sign.
    NotInt,
    /// The whole value is an object.
    Object,
    /// An item of a list is a list or an object.
    Nested,
    /// Out of memory. It says nothing of the text.
    Memory,
}

impl From<AllocError> for ScalarError {
    ghost use Rattle.std.specs.Prelude.{◌≡◌};
    ghost use Rattle.json_trees.specs.declared.scalar_error.ScalarError.TheVariants.{Memory};

    ghost from_gives = { λ _ e. e ≡ Memory };

    fn from(_: AllocError) -> Self {
        ScalarError::Memory
    }
}

impl<T: Drop> From<AllocFailed<T>> for ScalarError {
    ghost use Rattle.std.specs.Prelude.{◌≡◌};
    ghost use Rattle.json_trees.specs.declared.scalar_error.ScalarError.TheVariants.{Memory};

    ghost from_gives = { λ _ e. e ≡ Memory };

    fn from(_: AllocFailed<T>) -> Self {
        ScalarError::Memory
    }
}
