//! Why there is no plan.

use std::alloc::{AllocError, AllocFailed};
use thiserror::Error;
use version_links::Version;

/// Why no steps lead from one version to another.
#[derive(Debug, Drop, Error)]
pub enum PlanError {
    /// The chain from the lower version comes to this version, where no step begins that doesn't go beyond its target,
    /// the upper version.
    #[error("no transition leads on")]
    Missing {
        /// Where the chain ends.
        at: Version,
        /// Where it should lead.
        target: Version,
    },
    /// Out of memory.
    #[error("out of memory")]
    Memory,
}

impl From<AllocError> for PlanError {
    ghost use Rattle.std.specs.Prelude.{◌≡◌};
    ghost use Rattle.release_file.specs.declared.plan_error.PlanError.TheVariants.{Memory};

    ghost from_gives = { λ _ e. e ≡ Memory };

    fn from(_: AllocError) -> Self {
        PlanError::Memory
    }
}

impl<T: Drop> From<AllocFailed<T>> for PlanError {
    ghost use Rattle.std.specs.Prelude.{◌≡◌};
    ghost use Rattle.release_file.specs.declared.plan_error.PlanError.TheVariants.{Memory};

    ghost from_gives = { λ _ e. e ≡ Memory };

    fn from(_: AllocFailed<T>) -> Self {
        PlanError::Memory
    }
}
