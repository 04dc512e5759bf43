//! Requests one after another.
ghost use Rattle.std.specs.Prelude.{◌≡◌, ◌+◌, false, length, OnOk};
ghost use Rattle.outside.specs.Told.{Moves};
ghost use Rattle.settings_machine.specs.World.{Idle};
ghost use Rattle.api_core.specs.Cores.{core_state, IsSound};
ghost use Rattle.load_input.specs.Counted.{ran, Counted};

use crate::asking::answer;
use crate::counts::Counts;
use crate::driving::drive;
use api_core::Core;
use disk_memory::MemorySpawner;
use key_names::Bytes;
use outside::Disk;
use std::alloc::{AllocError, Global};

/// Makes a connection for each of the requests, with all turns after each, and counts. The only error is out of memory.
pub(crate) fn serve<D: Disk>(
    alloc: Global,
    core: &mut Core,
    counts: &mut Counts,
    requests: &[Bytes],
    disk: &mut D,
    spawner: &mut MemorySpawner,
) -> Result<(), AllocError>
    requires sound { IsSound core.old }
    requires calm { (core_state core.old).faulted ≡ false }
    requires still { (core_state core.old).job ≡ Idle }
    ensures counted { OnOk result (Moves (D.told disk.old) (D.told disk.new)
        (Counted requests.now core.old core.new counts.old counts.new (ran spawner.old) (ran spawner.new))) }
    ensures still { OnOk result ((core_state core.new).job ≡ Idle) }
    ensures all { OnOk result (counts.new.ok + counts.new.refused ≡ counts.old.ok + counts.old.refused + length requests.now) }
{
    for request in requests {
        answer(alloc, core, counts, request, disk)?;
        drive(alloc, core, counts, disk, spawner)?;
    }
    Ok(())
}
