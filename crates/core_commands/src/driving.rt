//! The job is driven to its end.
ghost use Rattle.std.specs.Prelude.{◌≡◌, None, OnOk, false};
ghost use Rattle.outside.specs.Told.{Moves};
ghost use Rattle.outside.specs.Faults.{HasCauseOf};
ghost use Rattle.api_core.specs.Cores.{core_state, IsSound};
ghost use Rattle.api_core.specs.Turned.{Turns};
ghost use Rattle.core_commands.specs.Handing.{HasSpawnCause, Drives};

use crate::handing::job_refusal;
use api_core::Core;
use command_outcome::Refusal;
use outside::{Disk, Spawner};
use std::alloc::Global;

/// Makes turns until no job runs, and answers why the job failed, if one ran and failed. No call of the disk has failed since the
/// store was opened.
pub(crate) fn drive<D: Disk, S: Spawner>(
    alloc: Global,
    core: &mut Core,
    disk: &mut D,
    spawner: &mut S,
) -> Result<(), Refusal>
    requires sound { IsSound core.old }
    requires calm { (core_state core.old).faulted ≡ false }

    // They are turns of the machine, on the disk, in the core and with the programs that were run, crash included.
    ensures turns { Moves (D.told disk.old) (D.told disk.new)
        (Turns core.old None core.new (S.runs spawner.old) (S.runs spawner.new)) }
    ensures drives { Drives (core_state core.old).job (core_state core.new).job result }
    ensures sound { IsSound core.new }
    ensures calm { OnOk result ((core_state core.new).faulted ≡ false) }
    ensures cause { HasCauseOf Refusal.Disk (D.faults disk.old) (D.faults disk.new) result }
    ensures spawn { HasSpawnCause (S.faults spawner.old) (S.faults spawner.new) result }
    ensures asked { S.asked spawner.new ≡ S.asked spawner.old }
{
    if !core.job().is_running() {
        return Ok(());
    }
    core.turns(alloc, None, disk, spawner);
    match job_refusal(core.job()) {
        Some(refusal) => Err(refusal),
        None => Ok(()),
    }
}
