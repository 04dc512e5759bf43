//! Turns of the job while no client is there.
ghost use Rattle.std.specs.Prelude.{◌≡◌, ◌≤◌, true};
ghost use Rattle.outside.specs.Told.{Moves};
ghost use Rattle.event_lines.specs.Logs.{log_state};
ghost use Rattle.api_core.specs.Cores.{IsSound};
ghost use Rattle.api_server.specs.Answered.{Idles};
ghost use Rattle.api_server.specs.Causes.{fault_counts};

use crate::turning::turns;
use api_core::Core;
use outside::{Disk, Door, Sink, Spawner};
use std::alloc::Global;

// Whether a job runs and no client is there, where turns are made then.
fn is_idle<N: Door>(while_idle: bool, core: &Core, door: &mut N) -> bool
    ensures allowed { result ≡ true → while_idle ≡ true }
    ensures same { N.state door.new ≡ N.state door.old }
    ensures told { N.told door.new ≡ N.told door.old }
    ensures faults { N.faults door.new ≡ N.faults door.old }
{
    while_idle && core.job().is_running() && !door.is_awaited()
}

/// Where turns are made while no client is there, the job makes them one at a time, until a client is there or no job runs. That a
/// client is there is what the door says of itself, and no clause speaks of it.
pub(crate) fn idle<D: Disk, S: Spawner, N: Door, L: Sink>(
    alloc: Global,
    core: &mut Core,
    while_idle: bool,
    disk: &mut D,
    spawner: &mut S,
    door: &mut N,
    log: &mut L,
)
    requires { IsSound core.old }
    ensures idles { Moves (D.told disk.old) (D.told disk.new)
        (Idles while_idle core.old core.new (fault_counts (D.faults disk.old) (S.faults spawner.old))
        (fault_counts (D.faults disk.new) (S.faults spawner.new)) (S.runs spawner.old) (S.runs spawner.new)
        (log_state (L.told log.old) (L.faults log.old)) (log_state (L.told log.new) (L.faults log.new))) }
    ensures sound { IsSound core.new }
    ensures same { N.state door.new ≡ N.state door.old }
    ensures told { N.told door.new ≡ N.told door.old }
    ensures disk_faults { D.faults disk.old ≤ D.faults disk.new }
    ensures spawner_faults { S.faults spawner.old ≤ S.faults spawner.new }
    ensures door_faults { N.faults door.new ≡ N.faults door.old }
    ensures asked { S.asked spawner.new ≡ S.asked spawner.old }
{
    for _turn in 0..u64::MAX {
        if !is_idle(while_idle, core, door) {
            return;
        }
        turns(alloc, core, Some(1), disk, spawner, log);
    }
}
