//! One connection: its request is read, handled and replied to.
ghost use Rattle.std.specs.Prelude.{◌≡◌, ◌≢◌, ◌+◌, [], ◌∷◌, List, true, false, IfOk, OnOk};
ghost use Rattle.outside.specs.Told.{Moves};
ghost use Rattle.outside.specs.Door.{LastBy};
ghost use Rattle.outside.specs.Exchange.{fresh};
ghost use Rattle.disk_memory.specs.Door.{told, state, exchanges_of, inputs_of, IsUnused};
ghost use Rattle.disk_memory.specs.Pieces.{joined};
ghost use Rattle.api_server.specs.Hearing.{IsHeard};
ghost use Rattle.outside.specs.Spawner.{Run};
ghost use Rattle.settings_machine.specs.Asked.{request_of};
ghost use Rattle.settings_machine.specs.Requests.{IsProper};
ghost use Rattle.settings_machine.specs.World.{Idle};
ghost use Rattle.api_http.specs.Replies.{is_of_success};
ghost use Rattle.api_core.specs.Cores.{core_state, IsSound};
ghost use Rattle.load_input.specs.Counts.{with_reply};
ghost use Rattle.load_input.specs.Counted.{Counted};

use crate::counts::Counts;
use api_core::{Core, Request};
use api_http::Reply;
use api_server::{Handled, Heard, handle, hear, say};
use disk_memory::{Input, MemoryDoor};
use event_lines::Discard;
use key_names::Bytes;
use outside::{Disk, Door};
use std::alloc::{AllocError, Global};

// What comes to a door: one connection with these bytes, in one piece.
fn input_of(alloc: Global, request: &Bytes) -> Result<Input, AllocError>
    ensures { IfOk result (λ input. joined input.pieces.items ≡ request.now) }
{
    let bytes = request.as_slice().to_vec(alloc)?;
    let mut pieces = Vec::new(alloc);
    pieces.push(bytes)?;
    Ok(Input {
        pieces,
        read_fails: None,
        write_fails: None,
    })
}

// A door to which this connection comes.
fn door_of(alloc: Global, input: Input) -> Result<MemoryDoor, AllocError>
    ensures unused { IfOk result IsUnused }
    ensures inputs { IfOk result (λ door. inputs_of door ≡ input ∷ []) }
{
    let mut inputs = Vec::new(alloc);
    inputs.push(input)?;
    Ok(MemoryDoor::of_inputs(alloc, inputs))
}

// Accepts the one connection of a door.
fn accept(door: &mut MemoryDoor) -> Result<(), AllocError>
    requires unused { IsUnused door.old }
    ensures busy { OnOk result ((state door.new).busy ≡ true) }
    ensures fresh { OnOk result ((input : Input) → inputs_of door.old ≡ input ∷ []
        → exchanges_of door.new ≡ fresh (joined input.pieces.items) ∷ []) }
{
    match door.accept() {
        Ok(true) => Ok(()),
        Ok(false) => Err(AllocError),
        Err(_) => Err(AllocError),
    }
}

// A door at which one connection with these bytes was accepted.
fn connection(alloc: Global, request: &Bytes) -> Result<MemoryDoor, AllocError>
    ensures busy { IfOk result (λ door. (state door).busy ≡ true) }
    ensures fresh { IfOk result (λ door. exchanges_of door ≡ fresh request.now ∷ []) }
{
    let input = input_of(alloc, request)?;
    let mut door = door_of(alloc, input)?;
    accept(&mut door)?;
    Ok(door)
}

// What the connection at hand asks. Each connection of the run asks something whole, so nothing else comes unless it runs out of memory.
fn asked(alloc: Global, door: &mut MemoryDoor) -> Result<Request, AllocError>
    requires busy { (state door.old).busy ≡ true }
    ensures heard { IfOk result (λ request. Moves (told door.old) (told door.new) (LastBy (IsHeard (Heard.Asked request)))) }
    ensures proper { IfOk result (λ request. IsProper (request_of request)) }
    ensures same { state door.new ≡ state door.old }
{
    match hear(alloc, door) {
        Heard::Asked { request } => Ok(request),
        Heard::Refused { refusal: _ } => Err(AllocError),
        Heard::Ended => Err(AllocError),
        Heard::Memory => Err(AllocError),
    }
}

// Counts the reply.
fn count(counts: &mut Counts, reply: &Reply) -> Result<(), AllocError>
    ensures success { OnOk result (is_of_success reply.now.status ≡ true → counts.new ≡ with_reply true counts.old) }
    ensures refused { OnOk result (is_of_success reply.now.status ≡ false → counts.new ≡ with_reply false counts.old) }
{
    if reply.is_of_success() {
        return counts.count_ok();
    }
    counts.count_refused()
}

/// Makes one connection with these bytes: reads its request, has it handled, writes the reply, ends the connection, and counts the
/// reply. The only error is out of memory.
pub(crate) fn answer<D: Disk>(
    alloc: Global,
    core: &mut Core,
    counts: &mut Counts,
    request: &Bytes,
    disk: &mut D,
) -> Result<(), AllocError>
    requires sound { IsSound core.old }
    requires calm { (core_state core.old).faulted ≡ false }
    requires idle { (core_state core.old).job ≡ Idle }
    ensures counted { OnOk result ((runs : List Run)
        → Moves (D.told disk.old) (D.told disk.new) (Counted (request.now ∷ []) core.old core.new counts.old counts.new runs runs)) }
    ensures sound { OnOk result (IsSound core.new) }
    ensures calm { OnOk result ((core_state core.new).faulted ≡ false) }
    ensures one { OnOk result (counts.new.ok + counts.new.refused ≡ counts.old.ok + counts.old.refused + 1) }
{
    let mut door = connection(alloc, request)?;
    let request = asked(alloc, &mut door)?;
    let Handled::Answered(reply) = handle(alloc, core, &request, disk, &mut Discard) else {
        // It ran out of memory: this disk never fails.
        return Err(AllocError);
    };
    say(&mut door, reply.bytes());
    door.finish();
    count(counts, &reply)?;
    Ok(())
}
