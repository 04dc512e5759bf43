//! A whole run over an opened store.
ghost use Rattle.std.specs.Prelude.{◌≡◌, ◌≤◌, false};
ghost use Rattle.outside.specs.Told.{Moves};
ghost use Rattle.outside.specs.Faults.{Rose};
ghost use Rattle.event_lines.specs.Logs.{log_state};
ghost use Rattle.api_core.specs.Cores.{IsSound};
ghost use Rattle.api_server.specs.Causes.{fault_counts};
ghost use Rattle.api_server.specs.Serving.{HasAccepted, Serves};

use crate::Pace;
use crate::booting::boot_up;
use crate::driving::drive;
use crate::serving::serve_all;
use api_core::Core;
use outside::{Disk, Door, Sink, Spawner};
use std::alloc::Global;

/// Serves over an opened store. With boot the job is begun by the request `Apply` and a slice of its turns is made; then
/// connections are served one after another, as long as they come; and then, unless an accept failed,
/// turns are made until no job runs. False exactly where an accept failed; the running job is then left.
///
/// The pace says how many turns follow each connection, and whether turns are made while no client is there too: one at a time, so
/// that a client who comes meanwhile waits for one turn at most.
///
/// Each event is told to the log by its lines, behind what it made on the disk and before the reply or the next event. A log that fails
/// ends nothing, and is tried again at the next event.
pub fn serve<D: Disk, S: Spawner, N: Door, L: Sink>(
    alloc: Global,
    core: &mut Core,
    boot: bool,
    pace: Pace,
    connections: Option<u32>,
    disk: &mut D,
    spawner: &mut S,
    door: &mut N,
    log: &mut L,
) -> bool
    requires idle { (N.state door.old).busy ≡ false }
    requires unused { (N.state door.old).accepted ≡ 0 }
    requires sound { IsSound core.old }

    // It is a run of the machine: what boot makes, for each connection the turns before it while no client was there, its request and a
    // slice of turns, and the last turns. What failed in these events was counted, and they are logged.
    ensures serves { Moves (D.told disk.old) (D.told disk.new)
        (Serves pace boot result core.old core.new (fault_counts (D.faults disk.old) (S.faults spawner.old))
        (fault_counts (D.faults disk.new) (S.faults spawner.new)) (N.told door.old) (N.told door.new) (S.runs spawner.old) (S.runs spawner.new)
        (log_state (L.told log.old) (L.faults log.old)) (log_state (L.told log.new) (L.faults log.new))) }
    ensures sound { IsSound core.new }
    ensures idle { (N.state door.new).busy ≡ false }
    ensures accepted { HasAccepted connections result (N.state door.old) (N.state door.new) }
    ensures cause { result ≡ false → Rose (N.faults door.old) (N.faults door.new) }
    ensures disk_faults { D.faults disk.old ≤ D.faults disk.new }
    ensures spawner_faults { S.faults spawner.old ≤ S.faults spawner.new }
    ensures door_faults { N.faults door.old ≤ N.faults door.new }
    ensures asked { S.asked spawner.new ≡ S.asked spawner.old }
{
    boot_up(alloc, core, boot, pace.slice, disk, spawner, log);
    let fine = serve_all(alloc, core, pace, connections, disk, spawner, door, log);
    drive(alloc, core, fine, disk, spawner, log);
    fine
}
