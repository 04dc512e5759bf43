//! Connections of a door in memory whose calls are counted.
ghost use Rattle.std.specs.Prelude.{◌≡◌, ◌<◌, ◌≤◌, ◌-◌, ◌^◌, true, false, length, IfOk};
ghost use Rattle.outside.specs.Exchange.{Hears, Says};
ghost use Rattle.outside.specs.Door.{Accepts, Opens, LastBy, finished};
ghost use Rattle.outside.specs.Told.{Moves};
ghost use Rattle.outside.specs.Faults.{HasCause};

use crate::asks::{refusal, request};
use api_server::{Heard, hear, say};
use disk_memory::{Input, MemoryDoor};
use outside::{Door, Failed};
use row_files::bad;
use std::alloc::{AllocError, Global};
use std::io::{self, Write};

/// Numbers of calls of a connection: those that fail, 0 where none does, or how many there were.
#[derive(Clone, Copy)]
pub struct Calls {
    /// Of its reads.
    pub reads: u64,
    /// Of its writes.
    pub writes: u64,
}

impl Calls {
    /// None.
    pub const NONE: Calls = Calls {
        reads: 0,
        writes: 0,
    };
}

/// A door in memory that counts the calls of its connections, and the bytes that they gave.
#[derive(Drop)]
pub struct CountedDoor {
    door: MemoryDoor,
    /// The calls.
    pub calls: Calls,
    given: usize,
}

impl Door for CountedDoor {
    ghost use Rattle.disk_memory.specs.Door.{told, state, door_faults};

    ghost faults = { λ d. door_faults d.door };

    ghost state = { λ d. state d.door };

    ghost told = { λ d. told d.door };

    fn is_awaited(&mut self) -> bool {
        self.door.is_awaited()
    }

    fn accept(&mut self) -> Result<bool, Failed> {
        self.door.accept()
    }

    fn read(&mut self, room: &mut [u8]) -> Result<usize, Failed> {
        self.calls.reads = self.calls.reads.saturating_add(1);
        let answer = self.door.read(room);
        if let Ok(count) = &answer {
            self.given = self.given.saturating_add(*count);
        }
        answer
    }

    fn write(&mut self, piece: &[u8]) -> Result<usize, Failed> {
        self.calls.writes = self.calls.writes.saturating_add(1);
        self.door.write(piece)
    }

    fn finish(&mut self) {
        self.door.finish();
    }
}

// What comes to a door: one connection, on which the bytes come in pieces of so many.
fn inputs_of(
    alloc: Global,
    bytes: &[u8],
    size: usize,
    fails: Calls,
) -> Result<Vec<Input>, AllocError> {
    let mut pieces = Vec::new(alloc);
    for piece in bytes.chunks(size.max(1)) {
        pieces.push(piece.to_vec(alloc)?)?;
    }
    let input = Input {
        pieces,
        read_fails: Some(fails.reads),
        write_fails: Some(fails.writes),
    };
    Ok(vec![in alloc; input]?)
}

/// Tells what comes of a connection on which the bytes come in pieces of so many, and how many of them are left, if any. How many calls it had.
pub fn heard(out: &mut Vec<u8>, bytes: &[u8], size: usize, fails: Calls) -> io::Result<Calls> {
    let alloc = *out.allocator();
    let mut door = CountedDoor {
        door: MemoryDoor::of_inputs(alloc, inputs_of(alloc, bytes, size, fails)?),
        calls: Calls::NONE,
        given: 0,
    };
    let Ok(true) = door.accept() else {
        return Err(bad());
    };
    match hear(alloc, &mut door) {
        Heard::Asked { request: asked } => request(out, &asked)?,
        Heard::Refused { refusal: why } => refusal(out, &why)?,
        Heard::Ended => write!(out, "ended")?,
        Heard::Memory => write!(out, "memory")?,
    }
    out.push(b'\n')?;
    let left = bytes.len().saturating_sub(door.given);
    if left > 0 {
        writeln!(out, "{left} left")?;
    }
    Ok(door.calls)
}

/// Tells what is written to a connection of what is said to it. How many calls it had.
pub fn said(out: &mut Vec<u8>, text: &[u8], fails: Calls) -> io::Result<Calls> {
    let alloc = *out.allocator();
    let mut door = CountedDoor {
        door: MemoryDoor::of_inputs(alloc, inputs_of(alloc, b"", 1, fails)?),
        calls: Calls::NONE,
        given: 0,
    };
    let Ok(true) = door.accept() else {
        return Err(bad());
    };
    say(&mut door, text);
    out.extend_from_slice(door.door.output(0).ok_or(bad())?)?;
    Ok(door.calls)
}
