//! The stream of a client, and whether a poll watches it.
use mio::net::UnixStream;
use mio::{Interest, Registry, Token};
use std::io;

/// The stream of a client, which a poll watches once it is asked to. One that is served and closed at once is never watched.
#[derive(Drop)]
pub struct Watched {
    stream: UnixStream,
    token: Token,
    is_watched: bool,
}

impl Watched {
    /// One that no poll watches; the token is its own.
    pub fn new(stream: UnixStream, token: Token) -> Watched {
        Watched {
            stream,
            token,
            is_watched: false,
        }
    }

    /// Whether it has this token.
    pub fn has(&self, token: Token) -> bool {
        self.token == token
    }

    /// The stream itself.
    pub fn get(&mut self) -> &mut UnixStream {
        &mut self.stream
    }

    /// Lets the poll tell of these from now on, also of what was there before. The system's error where it has no room for that.
    pub fn watch(&mut self, registry: &Registry, interest: Interest) -> io::Result<()> {
        if self.is_watched {
            return registry.reregister(&mut self.stream, self.token, interest);
        }
        registry.register(&mut self.stream, self.token, interest)?;
        self.is_watched = true;
        Ok(())
    }
}
