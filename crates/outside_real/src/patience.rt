//! Calls on a connection, a client's or that to a server, which wait no longer than they may.
ghost use Rattle.std.specs.Prelude.{◌≤◌, length, IfOk};

use std::io::{self, ErrorKind, Read, Write};
use std::os::unix::net::UnixStream;
use std::time::{Clock, Duration, Instant};

/// How long the calls on a connection may still wait.
#[derive(Clone, Copy, Debug)]
pub struct Patience {
    /// Those that read it.
    read: Duration,
    /// Those that write it.
    write: Duration,
}

// Reads once, and takes the time that it waited from what is left. It is an error where nothing is left.
fn read_once(
    clock: &impl Clock,
    stream: &mut UnixStream,
    room: &mut [u8],
    left: &mut Duration,
) -> io::Result<usize>
    ensures { IfOk result (λ count. count ≤ length room.new) }
{
    stream.set_read_timeout(Some(*left))?;
    let began = Instant::now(clock)?;
    let answer = stream.read(room);
    *left = left.saturating_sub(began.elapsed(clock)?);
    answer
}

// Writes once, likewise.
fn write_once(
    clock: &impl Clock,
    stream: &mut UnixStream,
    piece: &[u8],
    left: &mut Duration,
) -> io::Result<usize>
    ensures { IfOk result (λ count. count ≤ length piece.now) }
{
    stream.set_write_timeout(Some(*left))?;
    let began = Instant::now(clock)?;
    let answer = stream.write(piece);
    *left = left.saturating_sub(began.elapsed(clock)?);
    answer
}

impl Patience {
    /// That of a new connection: the calls that read it may wait so many seconds in all, and so may those that write it. Who keeps
    /// them waiting longer is parted from.
    pub fn of_seconds(seconds: u64) -> Patience {
        Patience {
            read: Duration::from_secs(seconds),
            write: Duration::from_secs(seconds),
        }
    }

    /// Reads some bytes, while there is patience. A signal that comes before the first byte is no failure.
    pub fn read(
        &mut self,
        clock: &impl Clock,
        stream: &mut UnixStream,
        room: &mut [u8],
    ) -> io::Result<usize>
        ensures { IfOk result (λ count. count ≤ length room.new) }
    {
        for _ in 0..u64::MAX {
            match read_once(clock, stream, room, &mut self.read) {
                Err(e) if e.kind() == ErrorKind::Interrupted => {}
                answer => return answer,
            }
        }
        Err(io::Error::from(ErrorKind::Interrupted))
    }

    /// Writes some bytes, while there is patience. A signal that comes before the first byte is no failure.
    pub fn write(
        &mut self,
        clock: &impl Clock,
        stream: &mut UnixStream,
        piece: &[u8],
    ) -> io::Result<usize>
        ensures { IfOk result (λ count. count ≤ length piece.now) }
    {
        for _ in 0..u64::MAX {
            match write_once(clock, stream, piece, &mut self.write) {
                Err(e) if e.kind() == ErrorKind::Interrupted => {}
                answer => return answer,
            }
        }
        Err(io::Error::from(ErrorKind::Interrupted))
    }
}
