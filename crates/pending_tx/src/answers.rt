//! What the calls answer.

use settings_tree::{Change, KeyList};
use std::alloc::{AllocError, AllocFailed};
use thiserror::Error;

/// What the commit of a transaction makes of what is held.
#[derive(Debug, Drop)]
pub struct Commit {
    /// All keys of the transaction, rising.
    pub keys: KeyList,
    /// The keys whose live value the commit changes, rising: those of values that differ from the
    /// live one or have none, and the removed keys that have a live value.
    pub changed: KeyList,
    /// The change to be laid.
    pub change: Change,
}

/// What the end of a transaction makes of what is held.
#[derive(Debug, Drop)]
pub struct Dropped {
    /// All keys that the transaction had, rising.
    pub keys: KeyList,
    /// The change to be laid.
    pub change: Change,
}

/// Why a transaction was not committed.
#[derive(Clone, Copy, Debug, PartialEq, Eq, Error)]
pub enum CommitError {
    /// There is no such transaction.
    #[error("no such transaction")]
    NoPending,
    /// It ran out of memory. It says nothing of the transaction.
    #[error("out of memory")]
    Memory,
}

impl From<AllocError> for CommitError {
    ghost use Rattle.std.specs.Prelude.{◌≡◌};
    ghost use Rattle.pending_tx.specs.declared.answers.CommitError.TheVariants.{Memory};

    ghost from_gives = { λ _ e. e ≡ Memory };

    fn from(_: AllocError) -> Self {
        CommitError::Memory
    }
}

impl<T: Drop> From<AllocFailed<T>> for CommitError {
    ghost use Rattle.std.specs.Prelude.{◌≡◌};
    ghost use Rattle.pending_tx.specs.declared.answers.CommitError.TheVariants.{Memory};

    ghost from_gives = { λ _ e. e ≡ Memory };

    fn from(_: AllocFailed<T>) -> Self {
        CommitError::Memory
    }
}
