//! Why a batch could not be made.
use std::alloc::{AllocError, AllocFailed};
use thiserror::Error;

/// Why a batch could not be made.
#[derive(Clone, Copy, Debug, PartialEq, Eq, Error)]
pub enum BatchError {
    /// A path of an entry, joined to the directory's, has more than 40 names.
    #[error("a joined path has more than 40 names")]
    TooDeep,
    /// Out of memory.
    #[error("out of memory")]
    Memory,
}

impl From<AllocError> for BatchError {
    ghost use Rattle.std.specs.Prelude.{◌≡◌};
    ghost use Rattle.commit_journal.specs.declared.batch_error.BatchError.TheVariants.{Memory};

    ghost from_gives = { λ _ e. e ≡ Memory };

    fn from(_: AllocError) -> Self {
        BatchError::Memory
    }
}

impl<T: Drop> From<AllocFailed<T>> for BatchError {
    ghost use Rattle.std.specs.Prelude.{◌≡◌};
    ghost use Rattle.commit_journal.specs.declared.batch_error.BatchError.TheVariants.{Memory};

    ghost from_gives = { λ _ e. e ≡ Memory };

    fn from(_: AllocFailed<T>) -> Self {
        BatchError::Memory
    }
}
