//! A door: clients that connect, one after another.
ghost use Rattle.std.specs.Prelude.{◌≡◌, ◌<◌, ◌≤◌, ◌-◌, ◌^◌, List, ℕ, Option, true, false, length, IfOk};
ghost use Rattle.outside.specs.Exchange.{Exchange, Hears, Says};
ghost use Rattle.outside.specs.Door.{DoorState, Accepts, Opens, LastBy, finished};
ghost use Rattle.outside.specs.Told.{Moves};
ghost use Rattle.outside.specs.Faults.{HasCause};

use crate::Failed;

/// Accepts connections one after another, and reads and writes the last one until it is finished.
/// It fails only where its count of faults rises.
pub trait Door {
    /// How often it has failed. The count begins at 0, never falls, and stays at the greatest `u64`.
    ghost faults: { Self → ℕ };

    /// What was accepted so far, and whether a connection is at hand. Every door tells this.
    ghost state: { Self → DoorState };

    /// The bytes of each accepted connection, the last one first, where it tells them.
    ghost told: { Self → Option (List Exchange) };

    /// Whether an accept would answer at once, so that whoever has something else to do should not begin it. It takes nothing.
    fn is_awaited(&mut self) -> bool
        ensures same { state self.new ≡ state self.old }
        ensures told { told self.new ≡ told self.old }
        ensures faults { faults self.new ≡ faults self.old };

    /// Takes the next connection. False where no further one will come.
    ///
    /// `Failed` where the door fails.
    fn accept(&mut self) -> Result<bool, Failed>
        requires idle { (state self.old).busy ≡ false }
        requires room { (state self.old).accepted < 2 ^ 32 - 1 }
        ensures accepted { Accepts result (state self.old) (state self.new) }
        ensures opened { Moves (told self.old) (told self.new) (Opens result) }
        ensures cause { HasCause (faults self.old) (faults self.new) result };

    /// Puts the next bytes of the connection at the front of the room and answers how many; 0 exactly at the end
    /// of its input.
    ///
    /// `Failed` where the connection fails; no byte is then taken.
    fn read(&mut self, room: &mut [u8]) -> Result<usize, Failed>
        requires busy { (state self.old).busy ≡ true }
        requires room { 0 < length room.old }
        ensures same { state self.new ≡ state self.old }
        ensures bound { IfOk result (λ count. count ≤ length room.new) }
        ensures heard { Moves (told self.old) (told self.new) (LastBy (Hears room.new result)) }
        ensures cause { HasCause (faults self.old) (faults self.new) result };

    /// Sends some bytes from the front of the piece and answers how many: at least one, unless the piece is empty.
    ///
    /// `Failed` where the connection fails; no byte is then taken.
    fn write(&mut self, piece: &[u8]) -> Result<usize, Failed>
        requires { (state self.old).busy ≡ true }
        ensures same { state self.new ≡ state self.old }
        ensures bound { IfOk result (λ count. count ≤ length piece.now) }
        ensures goes_on { IfOk result (λ count. 0 < length piece.now → 0 < count) }
        ensures said { Moves (told self.old) (told self.new) (LastBy (Says piece.now result)) }
        ensures cause { HasCause (faults self.old) (faults self.new) result };

    /// Ends the connection.
    fn finish(&mut self)
        requires { (state self.old).busy ≡ true }
        ensures done { state self.new ≡ finished (state self.old) }
        ensures same { told self.new ≡ told self.old }
        ensures faults { faults self.new ≡ faults self.old };
}
