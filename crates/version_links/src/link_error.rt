//! Why the links of the store don't lead to a data directory.
use outside::{DiskErr, Path};
use std::alloc::AllocError;
use thiserror::Error;

/// Why the links of the store don't lead to a data directory.
#[derive(Debug, Drop, Error)]
pub enum LinkError {
    /// The disk failed: its count of faults rose.
    #[error("the disk failed")]
    Failed,
    /// The chain of links leads to this path, where no link is, or one whose text doesn't go on as it should.
    #[error("a link is missing or bad")]
    BadLink {
        /// Where the link is, or should be.
        path: Path,
    },
    /// Out of memory.
    #[error("out of memory")]
    Memory,
}

impl From<AllocError> for LinkError {
    ghost use Rattle.std.specs.Prelude.{◌≡◌};
    ghost use Rattle.version_links.specs.declared.link_error.LinkError.TheVariants.{Memory};

    ghost from_gives = { λ _ e. e ≡ Memory };

    fn from(_: AllocError) -> Self {
        LinkError::Memory
    }
}

impl From<DiskErr> for LinkError {
    ghost use Rattle.outside.specs.Faults.{HandsOn};
    ghost use Rattle.version_links.specs.declared.link_error.LinkError.TheVariants as told;

    ghost from_gives = { HandsOn told.Failed told.Memory };

    fn from(error: DiskErr) -> Self {
        match error {
            DiskErr::Failed => LinkError::Failed,
            DiskErr::Memory => LinkError::Memory,
        }
    }
}
