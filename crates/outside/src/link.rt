//! A link: a connection that this program makes to a server.
ghost use Rattle.std.specs.Prelude.{◌≡◌, ◌<◌, ◌≤◌, Bool, true, ℕ, Option, length, IfOk, OnOk, OnErr};
ghost use Rattle.outside.specs.Exchange.{Exchange, Hears, Says};
ghost use Rattle.outside.specs.Told.{Moves};
ghost use Rattle.outside.specs.Faults.{HasCause};

use crate::Failed;

/// Connects to a server, and reads and writes that connection. It fails only where its count of faults rises.
pub trait Link {
    /// How often it has failed. The count begins at 0, never falls, and stays at the greatest `u64`.
    ghost faults: { Self → ℕ };

    /// Whether `connect` has answered Ok. Every link tells this.
    ghost connected: { Self → Bool };

    /// The bytes of the connection, where it tells them.
    ghost told: { Self → Option Exchange };

    /// Connects to the server.
    ///
    /// `Failed` where the link fails.
    fn connect(&mut self) -> Result<(), Failed>
        ensures connected { OnOk result (connected self.new ≡ true) }
        ensures refused { OnErr result (connected self.new ≡ connected self.old) }
        ensures same { told self.new ≡ told self.old }
        ensures cause { HasCause (faults self.old) (faults self.new) result };

    /// Puts the next bytes of the server at the front of the room and answers how many; 0 exactly at the end of
    /// its answer.
    ///
    /// `Failed` where the link fails; no byte is then taken.
    fn read(&mut self, room: &mut [u8]) -> Result<usize, Failed>
        requires connected { connected self.old ≡ true }
        requires room { 0 < length room.old }
        ensures same { connected self.new ≡ connected self.old }
        ensures bound { IfOk result (λ count. count ≤ length room.new) }
        ensures heard { Moves (told self.old) (told self.new) (Hears room.new result) }
        ensures cause { HasCause (faults self.old) (faults self.new) result };

    /// Sends some bytes from the front of the piece and answers how many: at least one, unless the piece is empty.
    ///
    /// `Failed` where the link fails; no byte is then taken.
    fn write(&mut self, piece: &[u8]) -> Result<usize, Failed>
        requires { connected self.old ≡ true }
        ensures same { connected self.new ≡ connected self.old }
        ensures bound { IfOk result (λ count. count ≤ length piece.now) }
        ensures goes_on { IfOk result (λ count. 0 < length piece.now → 0 < count) }
        ensures said { Moves (told self.old) (told self.new) (Says piece.now result) }
        ensures cause { HasCause (faults self.old) (faults self.new) result };
}
