//! Why a store was not moved to another version.

use crate::task_error::TaskError;
use commit_journal::JournalError;
use fs_datastore::LoadError;
use key_names::{Key, Text};
use outside::{DiskErr, Failed, Path};
use release_file::PlanError;
use std::alloc::AllocError;
use thiserror::Error;
use version_links::{LinkError, Version};

/// Why a store was not moved to another version, in the order of the work. `Failed` and `Memory` may come at any place.
#[derive(Debug, Drop, Error)]
pub enum MoveError {
    /// `store/current` is no link.
    #[error("there is no store")]
    NoStore,
    /// The first link of the chain that is missing or bad.
    #[error("a link is missing or bad")]
    BadLink {
        /// Where the link is, or should be.
        path: Path,
    },
    /// The journal of the data directory is outside its grammar.
    #[error("the journal is outside its grammar")]
    BadJournal {
        /// Where the file is.
        path: Path,
    },
    /// The files of the data directory represent nothing, and this is the first path that is at fault.
    #[error("a file of the data directory is damaged")]
    Damaged {
        /// The path of the file.
        path: Path,
    },
    /// No transition leads on from a version of the chain.
    #[error("no transition leads on")]
    Missing {
        /// Where the chain ends.
        at: Version,
        /// Where it should lead.
        target: Version,
    },
    /// A migration would break the prefix rule.
    #[error("keys of settings would overlap")]
    Conflict {
        /// The least key that is a proper prefix of another.
        key: Key,
    },
    /// A program ended with another status than 0.
    #[error("a program of a migration ended with a status")]
    Status {
        /// The name of the migration.
        name: Text,
        /// The status.
        number: u16,
    },
    /// A program answered nothing that a store may hold.
    #[error("a program of a migration gave a bad answer")]
    BadAnswer {
        /// The name of the migration.
        name: Text,
    },
    /// A program could not be asked: the spawner's count of faults rose.
    #[error("a program of a migration could not be asked")]
    Spawn {
        /// The name of the migration.
        name: Text,
    },
    /// The disk failed: its count of faults rose.
    #[error("the disk failed")]
    Failed,
    /// Out of memory.
    #[error("out of memory")]
    Memory,
}

impl From<LinkError> for MoveError {
    ghost use Rattle.std.specs.Prelude.{◌≡◌};
    ghost use Rattle.migrate_chain.specs.Errors.{of_link};

    ghost from_gives = { λ x e. e ≡ of_link x };

    fn from(error: LinkError) -> Self {
        match error {
            LinkError::Failed => MoveError::Failed,
            LinkError::BadLink { path } => MoveError::BadLink { path },
            LinkError::Memory => MoveError::Memory,
        }
    }
}

impl From<JournalError> for MoveError {
    ghost use Rattle.std.specs.Prelude.{◌≡◌};
    ghost use Rattle.migrate_chain.specs.Errors.{of_journal};

    ghost from_gives = { λ x e. e ≡ of_journal x };

    fn from(error: JournalError) -> Self {
        match error {
            JournalError::Failed => MoveError::Failed,
            JournalError::BadJournal { path } => MoveError::BadJournal { path },
            JournalError::Memory => MoveError::Memory,
        }
    }
}

impl From<LoadError> for MoveError {
    ghost use Rattle.std.specs.Prelude.{◌≡◌};
    ghost use Rattle.migrate_chain.specs.Errors.{of_load};

    ghost from_gives = { λ x e. e ≡ of_load x };

    fn from(error: LoadError) -> Self {
        match error {
            LoadError::Failed => MoveError::Failed,
            LoadError::Damaged { path } => MoveError::Damaged { path },
            LoadError::Memory => MoveError::Memory,
        }
    }
}

impl From<PlanError> for MoveError {
    ghost use Rattle.std.specs.Prelude.{◌≡◌};
    ghost use Rattle.migrate_chain.specs.Errors.{of_plan};

    ghost from_gives = { λ x e. e ≡ of_plan x };

    fn from(error: PlanError) -> Self {
        match error {
            PlanError::Missing { at, target } => MoveError::Missing { at, target },
            PlanError::Memory => MoveError::Memory,
        }
    }
}

impl From<TaskError> for MoveError {
    ghost use Rattle.std.specs.Prelude.{◌≡◌};
    ghost use Rattle.migrate_chain.specs.Errors.{of_task};

    ghost from_gives = { λ x e. e ≡ of_task x };

    fn from(error: TaskError) -> Self {
        match error {
            TaskError::Conflict { key } => MoveError::Conflict { key },
            TaskError::Status { name, number } => MoveError::Status { name, number },
            TaskError::BadAnswer { name } => MoveError::BadAnswer { name },
            TaskError::Failed { name } => MoveError::Spawn { name },
            TaskError::Memory => MoveError::Memory,
        }
    }
}

impl From<DiskErr> for MoveError {
    ghost use Rattle.std.specs.Prelude.{◌≡◌};
    ghost use Rattle.migrate_chain.specs.Errors.{of_disk};

    ghost from_gives = { λ x e. e ≡ of_disk x };

    fn from(error: DiskErr) -> Self {
        match error {
            DiskErr::Failed => MoveError::Failed,
            DiskErr::Memory => MoveError::Memory,
        }
    }
}

impl From<Failed> for MoveError {
    ghost use Rattle.std.specs.Prelude.{◌≡◌};
    ghost use Rattle.migrate_chain.specs.Errors.{of_failure};

    ghost from_gives = { λ x e. e ≡ of_failure x };

    fn from(error: Failed) -> Self {
        match error {
            Failed => MoveError::Failed,
        }
    }
}

impl From<AllocError> for MoveError {
    ghost use Rattle.std.specs.Prelude.{◌≡◌};
    ghost use Rattle.migrate_chain.specs.declared.move_error.MoveError.TheVariants.{Memory};

    ghost from_gives = { λ _ e. e ≡ Memory };

    fn from(_: AllocError) -> Self {
        MoveError::Memory
    }
}
