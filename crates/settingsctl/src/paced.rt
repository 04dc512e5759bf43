//! A link that waits before it connects.

use outside::{Failed, Link};
use std::thread;
use std::time::{Clock, Duration};

/// A link that waits for a while before it connects, and is that link in all else.
#[derive(Drop)]
pub struct PacedLink<R: Clock + Drop, L: Drop> {
    clock: R,
    link: L,
    pause: Duration,
}

impl<R: Clock + Drop, L: Drop> PacedLink<R, L> {
    /// The link, which waits so long before it connects.
    pub fn new(clock: R, link: L, pause: Duration) -> PacedLink<R, L> {
        PacedLink { clock, link, pause }
    }

    /// The link.
    pub fn link(&self) -> &L {
        &self.link
    }
}

impl<R: Clock + Drop, L: Link + Drop> Link for PacedLink<R, L> {
    ghost faults = { λ paced. L.faults paced.link };

    ghost connected = { λ paced. L.connected paced.link };

    ghost told = { λ paced. L.told paced.link };

    fn connect(&mut self) -> Result<(), Failed> {
        if !self.pause.is_zero() {
            thread::sleep(&self.clock, self.pause);
        }
        self.link.connect()
    }

    fn read(&mut self, room: &mut [u8]) -> Result<usize, Failed> {
        self.link.read(room)
    }

    fn write(&mut self, piece: &[u8]) -> Result<usize, Failed> {
        self.link.write(piece)
    }
}
