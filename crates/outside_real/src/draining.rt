//! A client that takes the rest of its answer, and is then closed.
use crate::watched::Watched;
use mio::{Interest, Registry, Token};
use std::io::{self, ErrorKind, Read, Write};
use std::net::Shutdown;
use std::time::Duration;

/// How many seconds a client has to take the next bytes of its answer.
const PATIENCE: u64 = 10;

/// How many seconds a client that has taken its answer has to close.
const LINGERING: u64 = 1;

/// How many pieces of at most 4,096 bytes are read and dropped until then.
const MOST_PIECES: u32 = 1024;

/// How many calls are made for a client between two polls.
const CALLS: u32 = 64;

/// A client that takes the rest of its answer, and is then closed.
#[derive(Drop)]
pub struct Draining {
    stream: Watched,
    /// The bytes of its answer that were kept.
    rest: Vec<u8>,
    /// How many of these it has taken.
    sent: usize,
    /// Whether all of its request was received.
    is_whole: bool,
    /// How many pieces may still be read, once it has taken its answer and writing was shut down.
    pieces: Option<u32>,
    /// Whether a call may go on.
    ready: bool,
    /// How much of its time is left.
    left: Duration,
}

impl Draining {
    /// One that has still to take these bytes, and whether all of its request was received.
    pub fn new(stream: Watched, rest: Vec<u8>, is_whole: bool) -> Draining {
        Draining {
            stream,
            rest,
            sent: 0,
            is_whole,
            pieces: None,
            ready: true,
            left: Duration::from_secs(PATIENCE),
        }
    }

    /// Whether it has this token.
    pub fn has(&self, token: Token) -> bool {
        self.stream.has(token)
    }

    /// A call may go on from now on.
    pub fn wake(&mut self) {
        self.ready = true;
    }

    /// Lets the poll tell from now on when it can take more, where something is kept, or has sent more. The system's error where it has no room
    /// for that.
    pub fn watch(&mut self, registry: &Registry) -> io::Result<()> {
        let interest = if self.has_unsent() {
            Interest::READABLE | Interest::WRITABLE
        } else {
            Interest::READABLE
        };
        self.stream.watch(registry, interest)
    }

    /// Whether something can be done for it without waiting.
    pub fn is_pressing(&self) -> bool {
        self.ready
    }

    /// Whether it has not taken its answer.
    pub fn has_unsent(&self) -> bool {
        self.pieces.is_none()
    }

    /// How many bytes are kept for it.
    pub fn size(&self) -> usize {
        self.rest.len()
    }

    // Whether it can be closed now that its answer was written: its request is whole, and it has sent nothing after it. Else it is read on, as a client
    // whose socket is closed over unread bytes gets an error in place of the end of its answer, and one that is still sending gets one at once.
    fn is_done(&mut self) -> io::Result<bool> {
        if !self.is_whole {
            return Ok(false);
        }
        match self.stream.get().read(&mut [0u8; 1]) {
            Ok(count) => Ok(count == 0),
            Err(e) if e.kind() == ErrorKind::WouldBlock => Ok(true),
            Err(e) => Err(e),
        }
    }

    // One step for it: a piece of its answer, the shutdown after it, or a piece of what it still sends. Whether there is more to do.
    fn call(&mut self) -> io::Result<bool> {
        match self.pieces {
            None => {
                let more = self.rest.get(self.sent..).unwrap_or(&[]);
                if more.is_empty() {
                    if self.is_done()? {
                        return Ok(false);
                    }
                    self.stream.get().shutdown(Shutdown::Write)?;
                    self.pieces = Some(MOST_PIECES);
                    self.left = Duration::from_secs(LINGERING);
                    return Ok(true);
                }
                let count = self.stream.get().write(more)?;
                self.sent = self.sent.saturating_add(count);
                self.left = Duration::from_secs(PATIENCE);
                Ok(0 < count)
            }
            Some(pieces) => {
                self.pieces = Some(pieces.saturating_sub(1));
                Ok(0 < pieces && 0 < self.stream.get().read(&mut [0u8; 4096])?)
            }
        }
    }

    /// Does what can be done without waiting; so much of its time has passed. False where it is done, went, or has used up its time.
    pub fn progress(&mut self, elapsed: Duration) -> bool {
        for _ in 0..CALLS {
            if !self.ready {
                break;
            }
            match self.call() {
                Ok(true) => {}
                Err(e) if e.kind() == ErrorKind::WouldBlock => self.ready = false,
                Err(e) if e.kind() == ErrorKind::Interrupted => {}
                Ok(false) | Err(_) => return false,
            }
        }
        self.left = self.left.saturating_sub(elapsed);
        !self.left.is_zero()
    }
}
