//! Why a text is no tree of settings.

use std::alloc::{AllocError, AllocFailed};

/// Why a JSON text gives no pairs.
#[derive(Clone, Copy, Debug, PartialEq, Eq)]
pub enum TreeError {
    /// The text is no JSON.
    NotJson,
    /// The whole value is no object.
    NotObject,
    /// The names that lead to an entry are together no key.
    BadKey,
    /// An entry is neither an object nor a value that may be at a key.
    BadValue,
    /// Out of memory. It says nothing of the text.
    Memory,
}

impl From<AllocError> for TreeError {
    ghost use Rattle.std.specs.Prelude.{◌≡◌};
    ghost use Rattle.json_trees.specs.declared.tree_error.TreeError.TheVariants.{Memory};

    ghost from_gives = { λ _ e. e ≡ Memory };

    fn from(_: AllocError) -> Self {
        TreeError::Memory
    }
}

impl<T: Drop> From<AllocFailed<T>> for TreeError {
    ghost use Rattle.std.specs.Prelude.{◌≡◌};
    ghost use Rattle.json_trees.specs.declared.tree_error.TreeError.TheVariants.{Memory};

    ghost from_gives = { λ _ e. e ≡ Memory };

    fn from(_: AllocFailed<T>) -> Self {
        TreeError::Memory
    }
}
