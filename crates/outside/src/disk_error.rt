//! Why a call of a device was refused.
ghost use Rattle.std.specs.Prelude.{◌≡◌};
ghost use Rattle.outside.specs.declared.disk_error.DiskErr.TheVariants.{Memory};

use std::alloc::{AllocError, AllocFailed};

/// The device failed: its count of faults rose.
#[derive(Clone, Copy, Debug, PartialEq, Eq)]
pub struct Failed;

/// Why a disk refused a call that hands out memory.
#[derive(Clone, Copy, Debug, PartialEq, Eq)]
pub enum DiskErr {
    /// The disk failed: its count of faults rose.
    Failed,
    /// Out of memory.
    Memory,
}

impl From<AllocError> for DiskErr {
    ghost from_gives = { λ _ e. e ≡ Memory };

    fn from(_: AllocError) -> Self {
        DiskErr::Memory
    }
}

impl<T: Drop> From<AllocFailed<T>> for DiskErr {
    ghost from_gives = { λ _ e. e ≡ Memory };

    fn from(_: AllocFailed<T>) -> Self {
        DiskErr::Memory
    }
}
