//! Why a text is no dump.

use crate::held_error::HeldError;
use std::alloc::AllocError;
use thiserror::Error;

/// Why a text gives no `Dump`, in the order in which it is tried.
#[derive(Clone, Copy, Debug, PartialEq, Eq, Error)]
pub enum DumpError {
    /// The text is no JSON text.
    #[error("the dump is no JSON text")]
    NotJson,
    /// The JSON value is no object, it has another member than `held` and `version`, or it has no member `held` that is
    /// the value of a held text.
    #[error("the dump has no held text")]
    BadHeld,
    /// The object has no member `version` that is the text of a version.
    #[error("the dump has no version")]
    BadVersion,
    /// Out of memory. It says nothing of the text.
    #[error("out of memory")]
    Memory,
}

impl From<AllocError> for DumpError {
    ghost use Rattle.std.specs.Prelude.{◌≡◌};
    ghost use Rattle.held_text.specs.declared.dump_error.DumpError.TheVariants.{Memory};

    ghost from_gives = { λ _ e. e ≡ Memory };

    fn from(_: AllocError) -> Self {
        DumpError::Memory
    }
}

impl From<HeldError> for DumpError {
    ghost use Rattle.std.specs.Prelude.{◌≡◌};
    ghost use Rattle.held_text.specs.Refusals.{of_held_error};

    ghost from_gives = { λ fault e. e ≡ of_held_error fault };

    fn from(fault: HeldError) -> Self {
        match fault {
            HeldError::BadHeld => DumpError::BadHeld,
            HeldError::Memory => DumpError::Memory,
        }
    }
}
