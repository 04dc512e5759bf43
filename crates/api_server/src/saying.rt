//! Bytes are written to a connection.
ghost use Rattle.std.specs.Prelude.{◌≡◌, ◌≤◌, true};
ghost use Rattle.outside.specs.Door.{LastBy};
ghost use Rattle.outside.specs.Told.{Moves};
ghost use Rattle.api_server.specs.Saying.{IsSaid};

use outside::Door;

/// Writes the bytes to the connection at hand, however few each of its calls takes, until all are written or a call fails;
/// some of them are then written, from the first on. It takes no memory.
#[tactic(auto, using(crate::proofs::Sayings::sayings))]
pub fn say<N: Door>(door: &mut N, bytes: &[u8])
    requires { (N.state door.old).busy ≡ true }
    ensures same { N.state door.new ≡ N.state door.old }
    ensures said { Moves (N.told door.old) (N.told door.new) (LastBy (IsSaid bytes.now)) }
    ensures faults { N.faults door.old ≤ N.faults door.new }
{
    let mut rest = bytes;
    loop {
        match door.write(rest) {
            Ok(taken) => rest = &rest[taken..],
            Err(_) => return,
        }
        if rest.is_empty() {
            return;
        }
    }
}
