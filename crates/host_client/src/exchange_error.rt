//! Why a question got no answer.
use outside::Failed;
use std::alloc::AllocError;
use thiserror::Error;

/// Why a question got no answer.
#[derive(Clone, Copy, Debug, PartialEq, Eq, Error)]
pub enum AskError {
    /// The link failed: its count of faults rose.
    #[error("the link failed")]
    Failed,
    /// The input is no reply.
    #[error("no reply")]
    BadReply,
    /// The input has more than 16,777,216 bytes.
    #[error("the reply is too long")]
    TooLong,
    /// Out of memory.
    #[error("out of memory")]
    Memory,
}

impl From<AllocError> for AskError {
    ghost use Rattle.std.specs.Prelude.{◌≡◌};
    ghost use Rattle.host_client.specs.declared.exchange_error.AskError.TheVariants.{Memory};

    ghost from_gives = { λ _ e. e ≡ Memory };

    fn from(_: AllocError) -> Self {
        AskError::Memory
    }
}

impl From<Failed> for AskError {
    ghost use Rattle.std.specs.Prelude.{◌≡◌};
    ghost use Rattle.host_client.specs.declared.exchange_error.AskError.TheVariants as asked;

    ghost from_gives = { λ _ e. e ≡ asked.Failed };

    fn from(_: Failed) -> Self {
        AskError::Failed
    }
}
