//! Why a journal was not carried out.
use outside::{DiskErr, Failed, Path};
use std::alloc::AllocError;
use thiserror::Error;

/// Why a journal was not carried out.
#[derive(Debug, Drop, Error)]
pub enum JournalError {
    /// The disk failed: its count of faults rose.
    #[error("the disk failed")]
    Failed,
    /// The text of the file at this path is no journal.
    #[error("the journal is outside its grammar")]
    BadJournal {
        /// Where the file is.
        path: Path,
    },
    /// Out of memory.
    #[error("out of memory")]
    Memory,
}

impl From<AllocError> for JournalError {
    ghost use Rattle.std.specs.Prelude.{◌≡◌};
    ghost use Rattle.commit_journal.specs.declared.journal_error.JournalError.TheVariants.{Memory};

    ghost from_gives = { λ _ e. e ≡ Memory };

    fn from(_: AllocError) -> Self {
        JournalError::Memory
    }
}

impl From<Failed> for JournalError {
    ghost use Rattle.std.specs.Prelude.{◌≡◌};
    ghost use Rattle.commit_journal.specs.declared.journal_error.JournalError.TheVariants as told;

    ghost from_gives = { λ _ e. e ≡ told.Failed };

    fn from(_: Failed) -> Self {
        JournalError::Failed
    }
}

impl From<DiskErr> for JournalError {
    ghost use Rattle.outside.specs.Faults.{HandsOn};
    ghost use Rattle.commit_journal.specs.declared.journal_error.JournalError.TheVariants as told;

    ghost from_gives = { HandsOn told.Failed told.Memory };

    fn from(error: DiskErr) -> Self {
        match error {
            DiskErr::Failed => JournalError::Failed,
            DiskErr::Memory => JournalError::Memory,
        }
    }
}
