//! A client whose request is read.
use crate::serving::Serving;
use crate::watched::Watched;
use client_framing::{Framing, Wanted};
use mio::{Interest, Registry, Token};
use std::alloc::Global;
use std::io::{self, ErrorKind, Read};
use std::time::Duration;

/// How many seconds a client has to send its whole request.
const PATIENCE: u64 = 10;

/// How many reads of a client are made between two polls.
const READS: u32 = 16;

/// The most bytes that are kept of a client; it is served then, whatever they are.
const MOST_BYTES: usize = 1_064_960;

/// How far the request of a client is.
#[derive(Clone, Copy, Debug, PartialEq, Eq)]
enum Stage {
    /// More of it is wanted.
    Waits,
    /// It is whole: the client can be served.
    Whole,
    /// The client can be served, though it may still send more of it.
    Early,
    /// The client went before it was whole, or there was no memory for it.
    Gone,
}

/// A client whose request is read.
#[derive(Drop)]
pub struct Reading {
    stream: Watched,
    /// What was received.
    bytes: Vec<u8>,
    /// How many bytes there have to be before they are looked at again.
    wanted: usize,
    stage: Stage,
    /// Whether a read may find more.
    ready: bool,
    /// How much of its time is left.
    left: Duration,
}

impl Reading {
    /// One that has just connected.
    pub fn new(alloc: Global, stream: Watched) -> Reading {
        Reading {
            stream,
            bytes: Vec::new(alloc),
            wanted: 1,
            stage: Stage::Waits,
            ready: true,
            left: Duration::from_secs(PATIENCE),
        }
    }

    /// Whether it has this token.
    pub fn has(&self, token: Token) -> bool {
        self.stream.has(token)
    }

    /// A read may find more from now on.
    pub fn wake(&mut self) {
        self.ready = true;
    }

    /// Whether it can be served.
    pub fn is_servable(&self) -> bool {
        matches!(self.stage, Stage::Whole | Stage::Early)
    }

    /// Lets the poll tell from now on when it has sent more. The system's error where it has no room for that.
    pub fn watch(&mut self, registry: &Registry) -> io::Result<()> {
        self.stream.watch(registry, Interest::READABLE)
    }

    /// Whether something can be done for it without waiting.
    pub fn is_pressing(&self) -> bool {
        self.ready || self.is_servable()
    }

    /// How many received bytes are kept.
    pub fn size(&self) -> usize {
        self.bytes.len()
    }

    /// As the one that is served.
    pub fn into_serving(self, alloc: Global) -> Serving {
        let is_whole = self.stage == Stage::Whole;
        Serving::new(alloc, self.stream, self.bytes, is_whole)
    }

    // Asks whether the bytes are enough, once they may be.
    fn look(&mut self, framing: &impl Framing) {
        if self.bytes.len() < self.wanted {
            return;
        }
        match framing.wanted(&self.bytes) {
            Wanted::Whole => self.stage = Stage::Whole,
            Wanted::More(count) if self.bytes.len() < MOST_BYTES => {
                self.wanted = count.min(MOST_BYTES);
            }
            Wanted::More(_) | Wanted::Early => self.stage = Stage::Early,
        }
    }

    // Reads once.
    fn read_once(&mut self, framing: &impl Framing) {
        let mut room = [0u8; 4096];
        match self.stream.get().read(&mut room) {
            Ok(0) => self.stage = Stage::Gone,
            Ok(count) => match self.bytes.extend_from_slice(&room[..count]) {
                Ok(()) => self.look(framing),
                Err(_) => self.stage = Stage::Gone,
            },
            Err(e) if e.kind() == ErrorKind::WouldBlock => self.ready = false,
            Err(e) if e.kind() == ErrorKind::Interrupted => {}
            Err(_) => self.stage = Stage::Gone,
        }
    }

    /// Reads what it has sent, where there is room for it; so much of its time has passed. False where it went or its time is used up.
    pub fn progress(&mut self, framing: &impl Framing, room: bool, elapsed: Duration) -> bool {
        for _ in 0..READS {
            if !self.ready || !room || self.stage != Stage::Waits {
                break;
            }
            self.read_once(framing);
        }
        self.left = self.left.saturating_sub(elapsed);
        match self.stage {
            Stage::Waits => !self.left.is_zero(),
            Stage::Whole | Stage::Early => true,
            Stage::Gone => false,
        }
    }
}
