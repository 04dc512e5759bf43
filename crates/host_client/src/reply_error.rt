//! Why bytes are not taken as a reply.
ghost use Rattle.std.specs.Prelude.{◌≡◌};
ghost use Rattle.host_client.specs.declared.reply_error.ReplyError.TheVariants.{Memory};

use std::alloc::AllocError;
use thiserror::Error;

/// Why bytes are not taken as a reply.
#[derive(Clone, Copy, Debug, PartialEq, Eq, Error)]
pub enum ReplyError {
    /// They are no reply.
    #[error("no reply")]
    BadReply,
    /// Out of memory.
    #[error("memory")]
    Memory,
}

impl From<AllocError> for ReplyError {
    ghost from_gives = { λ _ e. e ≡ Memory };

    fn from(_: AllocError) -> Self {
        ReplyError::Memory
    }
}
