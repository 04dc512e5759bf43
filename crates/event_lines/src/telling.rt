//! Lines are written to the log.
ghost use Rattle.std.specs.Prelude.{◌≡◌, List, ℕ, IfOk};
ghost use Rattle.event_lines.specs.Logs.{log_state, Tells};

use key_names::Bytes;
use outside::{Failed, Sink, say};
use std::alloc::AllocError;

/// The line in the place of those for which there was no memory.
const LOST: &str = "out-of-memory\n";

/// A sink that keeps nothing of what it takes, and never fails.
#[derive(Drop)]
pub struct Discard;

impl Sink for Discard {
    ghost use Rattle.std.specs.Prelude.{None};

    ghost faults = { λ _. 0 };

    ghost told = { λ _. None };

    fn write(&mut self, piece: &[u8]) -> Result<usize, Failed> {
        Ok(piece.len())
    }
}

/// Writes these lines of an event to the log, or the line `out-of-memory` in their place where there was no memory for them. A log that
/// fails is passed over; some of the bytes are then written, from the first on.
pub fn tell<L: Sink>(log: &mut L, lines: Result<Bytes, AllocError>)
    ensures { (text : List ℕ) → IfOk lines (λ bytes. bytes ≡ text)
        → Tells text (log_state (L.told log.old) (L.faults log.old)) (log_state (L.told log.new) (L.faults log.new)) }
{
    let _ = match &lines {
        Ok(text) => say(log, text.as_slice()),
        Err(_) => say(log, LOST.as_bytes()),
    };
}
