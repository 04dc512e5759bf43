//! Why a data directory was not read.
use outside::{DiskErr, Path};
use std::alloc::AllocError;
use thiserror::Error;

/// Why a data directory was not read.
#[derive(Debug, Drop, Error)]
pub enum LoadError {
    /// The disk failed: its count of faults rose.
    #[error("the disk failed")]
    Failed,
    /// The files represent nothing, and this is the first path that is at fault.
    #[error("a file of the data directory is damaged")]
    Damaged {
        /// The path of the file.
        path: Path,
    },
    /// Out of memory.
    #[error("out of memory")]
    Memory,
}

impl From<AllocError> for LoadError {
    ghost use Rattle.std.specs.Prelude.{◌≡◌};
    ghost use Rattle.fs_datastore.specs.declared.load_error.LoadError.TheVariants.{Memory};

    ghost from_gives = { λ _ e. e ≡ Memory };

    fn from(_: AllocError) -> Self {
        LoadError::Memory
    }
}

impl From<DiskErr> for LoadError {
    ghost use Rattle.outside.specs.Faults.{HandsOn};
    ghost use Rattle.fs_datastore.specs.declared.load_error.LoadError.TheVariants as told;

    ghost from_gives = { HandsOn told.Failed told.Memory };

    fn from(error: DiskErr) -> Self {
        match error {
            DiskErr::Failed => LoadError::Failed,
            DiskErr::Memory => LoadError::Memory,
        }
    }
}
