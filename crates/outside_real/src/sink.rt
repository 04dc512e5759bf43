//! A writer of the system, as standard output, as a sink.
ghost use Rattle.std.specs.Prelude.{◌≡◌, ◌≤◌, length, None, IfOk};

use crate::failure::On;
use crate::faults::{Faults, written_of};
use outside::{Failed, Sink};
use std::alloc::{AllocError, Global};
use std::io::{self, ErrorKind, Write};

// Writes some bytes of the piece. A signal that comes before the first byte is no failure.
fn write_once(writer: &mut impl Write, piece: &[u8]) -> io::Result<usize>
    ensures { IfOk result (λ count. count ≤ length piece.now) }
{
    for _ in 0..u64::MAX {
        match writer.write(piece) {
            Err(e) if e.kind() == ErrorKind::Interrupted => {}
            answer => return answer,
        }
    }
    Err(io::Error::from(ErrorKind::Interrupted))
}

// The number of the error of a descriptor that is no open file.
const EBADF: i32 = 9;

/// A sink over a writer, as standard output. Each error of the writer is a fault, and so is a write that takes nothing
/// of a piece that isn't empty.
#[derive(Drop)]
pub struct RealSink<W: Write + Drop> {
    writer: W,
    faults: Faults,
    // The first bytes that were written.
    kept: Vec<u8>,
}

// How many of the first bytes are kept.
const MOST_KEPT: usize = 4096;

impl<W: Write + Drop> RealSink<W> {
    /// A sink over this writer, as `io::writer(&rt)`.
    pub fn new(alloc: Global, writer: W) -> RealSink<W> {
        RealSink {
            writer,
            faults: Faults::new(alloc),
            kept: Vec::new(alloc),
        }
    }

    /// The first bytes that were written, 4,096 at least or all; fewer where it ran out of memory.
    pub fn first_bytes(&self) -> &[u8] {
        &self.kept
    }

    // Keeps what was written of the piece, where it is among the first bytes.
    fn keep(&mut self, piece: &[u8], answer: &io::Result<usize>)
        ensures { self.new.faults ≡ self.old.faults }
    {
        let Ok(count) = answer else {
            return;
        };
        if self.kept.len() < MOST_KEPT {
            if let Some(written) = piece.get(..(*count).min(MOST_KEPT)) {
                let _ = self.kept.extend_from_slice(written);
            }
        }
    }

    /// What the last failure was, in a line for a person without a line feed; none where no call has failed. Or out of memory.
    pub fn last_failure(&self) -> Result<Option<String>, AllocError> {
        self.faults.print_last()
    }

    /// Whether the writer's descriptor is no open file, as where a shell has closed it: the first file that a program opens would
    /// take its place, and get what is printed. It is asked by a write of no bytes, which counts as no fault.
    pub fn is_closed(&mut self) -> bool
        ensures { self.new.faults ≡ self.old.faults }
    {
        match self.writer.write(b"") {
            Ok(_) => false,
            Err(e) => e.raw_os_error() == Some(EBADF),
        }
    }
}

impl<W: Write + Drop> Sink for RealSink<W> {
    ghost faults = { λ s. s.faults.count };

    ghost told = { λ _. None };

    fn write(&mut self, piece: &[u8]) -> Result<usize, Failed> {
        let answer = written_of(piece, write_once(&mut self.writer, piece));
        self.keep(piece, &answer);
        self.faults
            .counted("write", On::Name("standard output"), answer)
    }
}
