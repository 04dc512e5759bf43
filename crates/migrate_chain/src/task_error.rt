//! Why a migration is not carried out.

use key_names::{Key, Text};
use std::alloc::AllocError;

/// Why a migration makes nothing of what is held.
#[derive(Debug, Drop)]
pub(crate) enum TaskError {
    /// What it would make would break the prefix rule.
    Conflict {
        /// The least key that is a proper prefix of another.
        key: Key,
    },
    /// A program ended with another status than 0.
    Status {
        /// The name of the migration.
        name: Text,
        /// The status.
        number: u16,
    },
    /// A program answered nothing that a store may hold.
    BadAnswer {
        /// The name of the migration.
        name: Text,
    },
    /// A program could not be asked: the spawner's count of faults rose.
    Failed {
        /// The name of the migration.
        name: Text,
    },
    /// Out of memory.
    Memory,
}

impl From<AllocError> for TaskError {
    ghost use Rattle.std.specs.Prelude.{◌≡◌};
    ghost use Rattle.migrate_chain.specs.declared.task_error.TaskError.TheVariants.{Memory};

    ghost from_gives = { λ _ e. e ≡ Memory };

    fn from(_: AllocError) -> Self {
        TaskError::Memory
    }
}
