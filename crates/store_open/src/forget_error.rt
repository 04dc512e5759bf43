//! Why keys were not forgotten.
use crate::OpenError;
use key_names::Key;
use outside::DiskErr;
use std::alloc::AllocError;

/// Why keys were not forgotten.
#[derive(Debug, Drop)]
pub enum ForgetError {
    /// The store was not read, the disk failed, or it ran out of memory.
    Store(OpenError),
    /// The first of the keys that has no value, live or pending.
    NotHeld {
        /// The key.
        key: Key,
    },
}

impl From<OpenError> for ForgetError {
    ghost use Rattle.std.specs.Prelude.{◌≡◌};
    ghost use Rattle.store_open.specs.declared.forget_error.ForgetError.TheVariants.{Store};

    ghost from_gives = { λ error e. e ≡ Store error };

    fn from(error: OpenError) -> Self {
        ForgetError::Store(error)
    }
}

impl From<AllocError> for ForgetError {
    ghost use Rattle.std.specs.Prelude.{◌≡◌};
    ghost use Rattle.store_open.specs.declared.open_error.OpenError.TheVariants.{Memory};
    ghost use Rattle.store_open.specs.declared.forget_error.ForgetError.TheVariants.{Store};

    ghost from_gives = { λ _ e. e ≡ Store Memory };

    fn from(_: AllocError) -> Self {
        ForgetError::Store(OpenError::Memory)
    }
}

impl From<DiskErr> for ForgetError {
    ghost use Rattle.std.specs.Prelude.{◌≡◌};
    ghost use Rattle.store_open.specs.Forgetting.{of_disk};

    ghost from_gives = { λ error e. e ≡ of_disk error };

    fn from(error: DiskErr) -> Self {
        match error {
            DiskErr::Failed => ForgetError::Store(OpenError::Failed),
            DiskErr::Memory => ForgetError::Store(OpenError::Memory),
        }
    }
}
