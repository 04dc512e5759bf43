//! Why a text is no path.
use std::alloc::{AllocError, AllocFailed};
use thiserror::Error;

/// Why a path could not be made.
#[derive(Clone, Copy, Debug, PartialEq, Eq, Error)]
pub enum PathError {
    /// A part is no name: see [`is_name`](crate::is_name).
    #[error("a part of the path is no name")]
    BadName,
    /// The path would have more than 40 names.
    #[error("the path has more than 40 names")]
    TooDeep,
    /// Out of memory.
    #[error("out of memory")]
    Memory,
}

impl From<AllocError> for PathError {
    ghost use Rattle.std.specs.Prelude.{◌≡◌};
    ghost use Rattle.outside.specs.declared.path_error.PathError.TheVariants.{Memory};

    ghost from_gives = { λ _ e. e ≡ Memory };

    fn from(_: AllocError) -> Self {
        PathError::Memory
    }
}

impl<T: Drop> From<AllocFailed<T>> for PathError {
    ghost use Rattle.std.specs.Prelude.{◌≡◌};
    ghost use Rattle.outside.specs.declared.path_error.PathError.TheVariants.{Memory};

    ghost from_gives = { λ _ e. e ≡ Memory };

    fn from(_: AllocFailed<T>) -> Self {
        PathError::Memory
    }
}
