//! One connection in memory.
ghost use Rattle.std.specs.Prelude.{◌≡◌, ◌<◌, length};
ghost use Rattle.outside.specs.Exchange.{Hears, Says};

use crate::Input;
use crate::incoming::Incoming;
use outside::Failed;
use std::alloc::Global;

/// What goes to and fro on one connection. Its calls are counted from 1.
#[derive(Debug, Drop)]
pub struct Connection {
    incoming: Incoming,
    written: Vec<u8>,
    reads: u64,
    read_fails: Option<u64>,
    writes: u64,
    write_fails: Option<u64>,
    failed: bool,
}

impl Connection {
    ghost use Rattle.outside.specs.Exchange.{fresh};
    ghost use Rattle.disk_memory.specs.Pieces.{joined};
    ghost use Rattle.disk_memory.specs.Connection.{exchange_of, GivesNext, TakesAll, IsPlanned, CountsRead, CountsWrite};

    /// A connection before its first byte.
    pub fn new(alloc: Global, input: Input) -> Connection
        ensures exchange { exchange_of result ≡ fresh (joined input.pieces.items) }
        ensures planned { IsPlanned input result }
    {
        Connection {
            incoming: Incoming::new(input.pieces),
            written: Vec::new(alloc),
            reads: 0,
            read_fails: input.read_fails,
            writes: 0,
            write_fails: input.write_fails,
            failed: false,
        }
    }

    /// Puts the next bytes, of one piece, at the front of the room, or fails.
    pub fn read(&mut self, room: &mut [u8]) -> Result<usize, Failed>
        requires { 0 < length room.old }
        ensures heard { Hears room.new result (exchange_of self.old) (exchange_of self.new) }
        ensures next { GivesNext room.new self.old result }
        ensures counted { CountsRead self.old self.new }
    {
        self.reads = self.reads.saturating_add(1);
        if self.read_fails == Some(self.reads) {
            self.failed = true;
            return Err(Failed);
        }
        Ok(self.incoming.read(room))
    }

    /// Takes the whole piece, or fails; so it does where it runs out of memory.
    pub fn write(&mut self, piece: &[u8]) -> Result<usize, Failed>
        ensures said { Says piece.now result (exchange_of self.old) (exchange_of self.new) }
        ensures all { TakesAll piece.now self.old result }
        ensures counted { CountsWrite self.old self.new }
    {
        self.writes = self.writes.saturating_add(1);
        let fails = self.write_fails == Some(self.writes);
        if fails || self.written.extend_from_slice(piece).is_err() {
            self.failed = true;
            return Err(Failed);
        }
        Ok(piece.len())
    }

    /// The bytes that were written to it.
    pub fn written(&self) -> &[u8]
        ensures { result.now ≡ (exchange_of self.now).written }
    {
        &self.written
    }
}
