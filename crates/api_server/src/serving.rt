//! Connections one after another.
ghost use Rattle.std.specs.Prelude.{◌≡◌, ◌≤◌, true, false};
ghost use Rattle.outside.specs.Told.{Moves};
ghost use Rattle.outside.specs.Door.{finished};
ghost use Rattle.outside.specs.Faults.{Rose};
ghost use Rattle.event_lines.specs.Logs.{log_state};
ghost use Rattle.api_core.specs.Cores.{IsSound};
ghost use Rattle.api_server.specs.Answered.{ServesOne, ServesAll};
ghost use Rattle.api_server.specs.Causes.{fault_counts};
ghost use Rattle.api_server.specs.Serving.{HasAccepted};

use crate::Pace;
use crate::answering::answer_one;
use crate::idling::idle;
use crate::turning::turns;
use api_core::Core;
use outside::{Disk, Door, Sink, Spawner};
use std::alloc::Global;

/// Serves one connection, after its accept: its request is read, handled and replied to, the connection is ended, and then a
/// slice of the job's turns is made: so many, or fewer where the job stops running, or without a number until no job runs.
///
/// The request is one step of the machine, made on the disk and logged before the first byte of its reply is written, and each turn is
/// logged before the next. A read or a write that fails ends this connection alone, and a request or a turn that fails, and a log that
/// fails, ends nothing. At most 1,064,960 bytes are read.
pub fn serve_one<D: Disk, S: Spawner, N: Door, L: Sink>(
    alloc: Global,
    core: &mut Core,
    slice: Option<u32>,
    disk: &mut D,
    spawner: &mut S,
    door: &mut N,
    log: &mut L,
)
    requires busy { (N.state door.old).busy ≡ true }
    requires sound { IsSound core.old }

    // It is one request of the machine, or none, and a slice of its turns, crash included. What failed in these was counted, and they
    // are logged.
    ensures serves { Moves (D.told disk.old) (D.told disk.new)
        (ServesOne slice core.old core.new (fault_counts (D.faults disk.old) (S.faults spawner.old))
        (fault_counts (D.faults disk.new) (S.faults spawner.new)) (N.told door.old) (N.told door.new)
        (S.runs spawner.old) (S.runs spawner.new)
        (log_state (L.told log.old) (L.faults log.old)) (log_state (L.told log.new) (L.faults log.new))) }
    ensures sound { IsSound core.new }
    ensures done { N.state door.new ≡ finished (N.state door.old) }
    ensures disk_faults { D.faults disk.old ≤ D.faults disk.new }
    ensures spawner_faults { S.faults spawner.old ≤ S.faults spawner.new }
    ensures door_faults { N.faults door.old ≤ N.faults door.new }
    ensures asked { S.asked spawner.new ≡ S.asked spawner.old }
{
    answer_one(alloc, core, disk, door, log);
    door.finish();
    turns(alloc, core, slice, disk, spawner, log);
}

/// Serves connections, until so many were accepted, no further one comes, or an accept failed; without a number, so many as a
/// door may accept. Before each the job makes turns while no client is there, where the pace says so. False exactly where an
/// accept failed.
pub(crate) fn serve_all<D: Disk, S: Spawner, N: Door, L: Sink>(
    alloc: Global,
    core: &mut Core,
    pace: Pace,
    connections: Option<u32>,
    disk: &mut D,
    spawner: &mut S,
    door: &mut N,
    log: &mut L,
) -> bool
    requires idle { (N.state door.old).busy ≡ false }
    requires unused { (N.state door.old).accepted ≡ 0 }
    requires sound { IsSound core.old }

    // Each connection begins where the one before it has led. What failed in their events was counted, and they are logged.
    ensures serves { Moves (D.told disk.old) (D.told disk.new)
        (ServesAll pace core.old core.new (fault_counts (D.faults disk.old) (S.faults spawner.old))
        (fault_counts (D.faults disk.new) (S.faults spawner.new)) (N.told door.old) (N.told door.new) (S.runs spawner.old) (S.runs spawner.new)
        (log_state (L.told log.old) (L.faults log.old)) (log_state (L.told log.new) (L.faults log.new))) }
    ensures sound { IsSound core.new }
    ensures idle { (N.state door.new).busy ≡ false }
    ensures accepted { HasAccepted connections result (N.state door.old) (N.state door.new) }
    ensures cause { result ≡ false → Rose (N.faults door.old) (N.faults door.new) }
    ensures disk_faults { D.faults disk.old ≤ D.faults disk.new }
    ensures spawner_faults { S.faults spawner.old ≤ S.faults spawner.new }
    ensures door_faults { N.faults door.old ≤ N.faults door.new }
    ensures asked { S.asked spawner.new ≡ S.asked spawner.old }
{
    for _number in 0..connections.unwrap_or(u32::MAX) {
        idle(alloc, core, pace.while_idle, disk, spawner, door, log);
        match door.accept() {
            Ok(true) => serve_one(alloc, core, pace.slice, disk, spawner, door, log),
            Ok(false) => return true,
            Err(_) => return false,
        }
    }
    true
}
