//! A connection is read until its request is whole or refused.
ghost use Rattle.std.specs.Prelude.{◌≡◌, ◌≢◌, ◌≤◌, true};
ghost use Rattle.outside.specs.Door.{LastBy};
ghost use Rattle.outside.specs.Told.{Moves};
ghost use Rattle.settings_machine.specs.Requests.{IsProper};
ghost use Rattle.api_server.specs.Hearing.{IsHeard, IfHeard};

use crate::more::More;
use crate::next::{Next, next_of};
use crate::reading::read_some;
use api_http::Refusal;
use outside::Door;
use settings_machine::Request;
use std::alloc::Global;

/// What reading a connection came to.
#[derive(Debug, Drop)]
pub enum Heard {
    /// Its input begins with a whole request.
    Asked {
        /// What it asks for.
        request: Request,
    },
    /// Its input is refused.
    Refused {
        /// Why.
        refusal: Refusal,
    },
    /// Its input ended before a request was whole or refused, or a read failed.
    Ended,
    /// Out of memory.
    Memory,
}

/// Reads the connection at hand until its request is whole or refused as `read_request` reads it, or its input ends, or a
/// read fails. What comes after the request is left alone.
///
/// - `Asked` comes exactly where the input begins with a whole request, whose bytes may come in any pieces, and no read
///   before its end fails.
/// - `Refused` comes only where the input is refused so. A hopeless head may be refused sooner or later, with the pieces
///   that its bytes come in.
/// - `Ended` comes where the input ends before either, and where a read fails: the count of faults rises only then.
///
/// At most 1,064,960 bytes are read, 4,096 at a time. Besides its bytes it takes the memory of `read_request`, and time
/// linear in the bytes but for the head, of at most 16,384 bytes, which is read again with each piece of it.
pub fn hear<N: Door>(alloc: Global, door: &mut N) -> Heard
    requires { (N.state door.old).busy ≡ true }
    ensures same { N.state door.new ≡ N.state door.old }
    ensures heard { Moves (N.told door.old) (N.told door.new) (LastBy (IsHeard result)) }
    ensures proper { IfHeard result IsProper }
    ensures faults { N.faults door.old ≤ N.faults door.new }
    ensures kept { result ≢ Heard.Ended → N.faults door.new ≡ N.faults door.old }
{
    let mut bytes = Vec::new(alloc);
    let mut wanted = 1;
    loop {
        match read_some(door, &mut bytes) {
            More::Bytes => match next_of(alloc, &bytes, wanted) {
                Next::Asked { request } => return Heard::Asked { request },
                Next::Refused { refusal } => return Heard::Refused { refusal },
                Next::Wanted { count } => wanted = count,
                Next::Memory => return Heard::Memory,
            },
            More::End => return Heard::Ended,
            More::Memory => return Heard::Memory,
        }
    }
}
