//! One read of a connection.
ghost use Rattle.std.specs.Prelude.{◌≡◌, ◌≢◌, ◌+◌, ◌<◌, ◌≤◌, true, length};
ghost use Rattle.outside.specs.Door.{LastBy};
ghost use Rattle.outside.specs.Told.{Moves};
ghost use Rattle.api_server.specs.Reading.{ReadsOn, Grows};

use crate::more::More;
use outside::Door;

// The most bytes of a request: 16,384 of its head, and 1,048,576 of its body.
const MOST: usize = 1_064_960;

// One read into the room, whose bytes are added to those before.
#[tactic(auto, using(crate::proofs::Readings::readings))]
fn read_into<N: Door>(door: &mut N, room: &mut [u8], bytes: &mut Vec<u8>) -> More
    requires busy { (N.state door.old).busy ≡ true }
    requires some { 0 < length room.old }
    requires within { length bytes.old.items + length room.old ≤ 1064960 }
    ensures same { N.state door.new ≡ N.state door.old }
    ensures read { Moves (N.told door.old) (N.told door.new) (LastBy (ReadsOn result bytes.old.items bytes.new.items)) }
    ensures grows { Grows result bytes.old.items bytes.new.items }
    ensures faults { N.faults door.old ≤ N.faults door.new }
    ensures kept { result ≢ More.End → N.faults door.new ≡ N.faults door.old }
{
    match door.read(room) {
        Ok(0) => More::End,
        Ok(count) => match bytes.extend_from_slice(&room[..count]) {
            Ok(()) => More::Bytes,
            Err(_) => More::Memory,
        },
        Err(_) => More::End,
    }
}

// One read, of at most as many bytes as a request may have besides these.
pub(crate) fn read_some<N: Door>(door: &mut N, bytes: &mut Vec<u8>) -> More
    requires busy { (N.state door.old).busy ≡ true }
    requires less { length bytes.old.items < 1064960 }
    ensures same { N.state door.new ≡ N.state door.old }
    ensures read { Moves (N.told door.old) (N.told door.new) (LastBy (ReadsOn result bytes.old.items bytes.new.items)) }
    ensures grows { Grows result bytes.old.items bytes.new.items }
    ensures faults { N.faults door.old ≤ N.faults door.new }
    ensures kept { result ≢ More.End → N.faults door.new ≡ N.faults door.old }
{
    let mut room = [0u8; 4096];
    let most = room.len().min(MOST - bytes.len());
    read_into(door, &mut room[..most], bytes)
}
