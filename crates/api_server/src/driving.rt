//! The end of a run.
ghost use Rattle.std.specs.Prelude.{◌≡◌, ◌≤◌};
ghost use Rattle.outside.specs.Told.{Moves};
ghost use Rattle.event_lines.specs.Logs.{log_state};
ghost use Rattle.api_core.specs.Cores.{IsSound};
ghost use Rattle.api_server.specs.Causes.{fault_counts};
ghost use Rattle.api_server.specs.Serving.{Ends};

use crate::turning::turns;
use api_core::Core;
use outside::{Disk, Sink, Spawner};
use std::alloc::Global;

/// Where no accept failed, turns are made until no job runs.
pub(crate) fn drive<D: Disk, S: Spawner, L: Sink>(
    alloc: Global,
    core: &mut Core,
    fine: bool,
    disk: &mut D,
    spawner: &mut S,
    log: &mut L,
)
    requires { IsSound core.old }
    ensures ends { Moves (D.told disk.old) (D.told disk.new)
        (Ends fine core.old core.new (fault_counts (D.faults disk.old) (S.faults spawner.old))
        (fault_counts (D.faults disk.new) (S.faults spawner.new)) (S.runs spawner.old) (S.runs spawner.new)
        (log_state (L.told log.old) (L.faults log.old)) (log_state (L.told log.new) (L.faults log.new))) }
    ensures sound { IsSound core.new }
    ensures disk_faults { D.faults disk.old ≤ D.faults disk.new }
    ensures spawner_faults { S.faults spawner.old ≤ S.faults spawner.new }
    ensures asked { S.asked spawner.new ≡ S.asked spawner.old }
{
    if fine {
        turns(alloc, core, None, disk, spawner, log);
    }
}
