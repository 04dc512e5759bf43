//! What a request came to.
ghost use Rattle.std.specs.Prelude.{◌≡◌};
ghost use Rattle.api_server.specs.Handled.{sent_of};

use api_http::{Refusal, Reply};

/// What a request came to, and the reply that says so.
#[derive(Debug, Drop)]
pub enum Handled {
    /// The machine answered it; the answer, printed.
    Answered(Reply),
    /// Out of memory: 503, and nothing was written for the request.
    Memory,
    /// A call of the disk failed: 500 `disk`.
    DiskFault,
    /// The store could not be opened again, because of what is there: 500 `store`, printed.
    NotOpened(Reply),
}

impl Handled {
    /// The status of the reply. It takes no memory.
    pub fn status(&self) -> u16
        ensures { result ≡ (sent_of self.now).status }
    {
        match self {
            Handled::Answered(reply) | Handled::NotOpened(reply) => reply.status(),
            Handled::Memory => Refusal::Memory.status(),
            Handled::DiskFault => Refusal::DiskFault.status(),
        }
    }

    /// The reply. It takes no memory.
    pub fn reply(self) -> Reply
        ensures { result ≡ sent_of self }
    {
        match self {
            Handled::Answered(reply) | Handled::NotOpened(reply) => reply,
            Handled::Memory => Reply::memory(),
            Handled::DiskFault => Reply::disk(),
        }
    }
}
