//! The client that is served: its request is heard, and its answer is written.
ghost use Rattle.std.specs.Prelude.{◌≤◌, length, IfOk};

use crate::draining::Draining;
use crate::watched::Watched;
use std::alloc::Global;
use std::io::{self, ErrorKind, Read, Write};

/// The client that is served.
#[derive(Drop)]
pub struct Serving {
    stream: Watched,
    /// What was received of it.
    bytes: Vec<u8>,
    /// How much of that was read by the door's caller.
    taken: usize,
    /// What of its answer the socket didn't take.
    rest: Vec<u8>,
    /// Whether all of its request was received.
    is_whole: bool,
}

impl Serving {
    /// One of which these bytes were received, and whether they are all of its request.
    pub fn new(alloc: Global, stream: Watched, bytes: Vec<u8>, is_whole: bool) -> Serving {
        Serving {
            stream,
            bytes,
            taken: 0,
            rest: Vec::new(alloc),
            is_whole,
        }
    }

    /// The next of the received bytes, and after them what the socket has at once.
    pub fn read(&mut self, room: &mut [u8]) -> io::Result<usize>
        ensures { IfOk result (λ count. count ≤ length room.new) }
    {
        let Some(more) = self.bytes.get(self.taken..) else {
            return Ok(0);
        };
        if more.is_empty() {
            return self.stream.get().read(room);
        }
        let count = more.len().min(room.len());
        room[..count].copy_from_slice(&more[..count]);
        self.taken = self.taken.saturating_add(count);
        Ok(count)
    }

    // Writes as many bytes as the socket takes at once.
    fn write_some(&mut self, piece: &[u8]) -> io::Result<usize>
        ensures { IfOk result (λ count. count ≤ length piece.now) }
    {
        for _ in 0..u64::MAX {
            match self.stream.get().write(piece) {
                Err(e) if e.kind() == ErrorKind::Interrupted => {}
                answer => return answer,
            }
        }
        Err(io::Error::from(ErrorKind::Interrupted))
    }

    /// Writes some bytes of its answer. Those that the socket doesn't take at once are kept.
    pub fn write(&mut self, piece: &[u8]) -> io::Result<usize>
        ensures { IfOk result (λ count. count ≤ length piece.now) }
    {
        if self.rest.is_empty() {
            match self.write_some(piece) {
                Err(e) if e.kind() == ErrorKind::WouldBlock => {}
                answer => return answer,
            }
        }
        self.rest.extend_from_slice(piece)?;
        Ok(piece.len())
    }

    /// As one that takes the rest of its answer.
    pub fn into_draining(self) -> Draining {
        Draining::new(self.stream, self.rest, self.is_whole)
    }
}
