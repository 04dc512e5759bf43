//! Why a text is no held text.

use json_trees::TreeError;
use key_names::{KeyError, KeyFault};
use std::alloc::{AllocError, AllocFailed};

/// Why a text gives no `Held`.
#[derive(Clone, Copy, Debug, PartialEq, Eq)]
pub enum HeldError {
    /// The text is the print of no `Held`.
    BadHeld,
    /// Out of memory. It says nothing of the text.
    Memory,
}

impl From<AllocError> for HeldError {
    ghost use Rattle.std.specs.Prelude.{◌≡◌};
    ghost use Rattle.held_text.specs.declared.held_error.HeldError.TheVariants.{Memory};

    ghost from_gives = { λ _ e. e ≡ Memory };

    fn from(_: AllocError) -> Self {
        HeldError::Memory
    }
}

impl<T: Drop> From<AllocFailed<T>> for HeldError {
    ghost use Rattle.std.specs.Prelude.{◌≡◌};
    ghost use Rattle.held_text.specs.declared.held_error.HeldError.TheVariants.{Memory};

    ghost from_gives = { λ _ e. e ≡ Memory };

    fn from(_: AllocFailed<T>) -> Self {
        HeldError::Memory
    }
}

impl From<KeyError> for HeldError {
    ghost use Rattle.std.specs.Prelude.{◌≡◌};
    ghost use Rattle.held_text.specs.Refusals.{of_key_fault};

    ghost from_gives = { λ fault e. e ≡ of_key_fault fault.kind };

    fn from(fault: KeyError) -> Self {
        match fault.kind {
            KeyFault::Memory => HeldError::Memory,
            _ => HeldError::BadHeld,
        }
    }
}

impl From<TreeError> for HeldError {
    ghost use Rattle.std.specs.Prelude.{◌≡◌};
    ghost use Rattle.held_text.specs.Refusals.{of_tree_error};

    ghost from_gives = { λ fault e. e ≡ of_tree_error fault };

    fn from(fault: TreeError) -> Self {
        match fault {
            TreeError::Memory => HeldError::Memory,
            _ => HeldError::BadHeld,
        }
    }
}
