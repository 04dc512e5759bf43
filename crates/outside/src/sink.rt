//! A place that bytes are written to, as standard output.
ghost use Rattle.std.specs.Prelude.{◌≡◌, ◌<◌, ◌≤◌, List, ℕ, Option, length, IfOk};
ghost use Rattle.outside.specs.Sink.{Takes};
ghost use Rattle.outside.specs.Told.{Moves};
ghost use Rattle.outside.specs.Faults.{HasCause};

use crate::Failed;

/// A sink. It fails only where its count of faults rises.
pub trait Sink {
    /// How often it has failed. The count begins at 0, never falls, and stays at the greatest `u64`.
    ghost faults: { Self → ℕ };

    /// The bytes that were written, where it tells them.
    ghost told: { Self → Option (List ℕ) };

    /// Takes some bytes from the front of the piece and answers how many: at least one, unless the piece is empty.
    ///
    /// `Failed` where the sink fails; no byte is then taken.
    fn write(&mut self, piece: &[u8]) -> Result<usize, Failed>
        ensures taken { Moves (told self.old) (told self.new) (Takes piece.now result) }
        ensures bound { IfOk result (λ count. count ≤ length piece.now) }
        ensures goes_on { IfOk result (λ count. 0 < length piece.now → 0 < count) }
        ensures cause { HasCause (faults self.old) (faults self.new) result };
}
