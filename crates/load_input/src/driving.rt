//! The job is driven to its end, turn by turn.
ghost use Rattle.std.specs.Prelude.{◌≡◌, ◌≢◌, true, false, nat_lt, [], IfOk, OnOk};
ghost use Rattle.outside.specs.Told.{Moves};
ghost use Rattle.settings_machine.specs.World.{is_running, Idle, Failed};
ghost use Rattle.settings_machine.specs.declared.cause.Cause.{Cause};
ghost use Rattle.affected_apply.specs.Jobs.{job_of};
ghost use Rattle.api_core.specs.Cores.{core_state, IsSound};
ghost use Rattle.load_input.specs.Counts.{with_turn};
ghost use Rattle.load_input.specs.Counted.{ran, Counted};

use crate::counts::Counts;
use api_core::{Core, JobState};
use disk_memory::MemorySpawner;
use outside::Disk;
use std::alloc::{AllocError, Global};

// Counts a turn: so many programs had been run before it and were run after it, and the job goes on or not.
fn count(counts: &mut Counts, before: usize, after: usize, goes_on: bool) -> Result<(), AllocError>
    ensures turn { OnOk result (counts.new ≡ with_turn (nat_lt before after) goes_on counts.old) }
    ensures ok { OnOk result (counts.new.ok ≡ counts.old.ok) }
    ensures refused { OnOk result (counts.new.refused ≡ counts.old.refused) }
{
    if before < after {
        return counts.count_run();
    }
    if goes_on {
        return counts.count_written();
    }
    Ok(())
}

// Whether the job goes on. It is an error that it has failed.
fn still_runs(job: &JobState) -> Result<bool, AllocError>
    ensures running { IfOk result (λ goes. goes ≡ is_running (job_of job.now)) }
    ensures unfailed { OnOk result ((cause : Cause) → job_of job.now ≢ Failed cause) }
{
    match job {
        JobState::Idle => Ok(false),
        JobState::Running(_) => Ok(true),
        JobState::Failed(_) => Err(AllocError),
    }
}

// Makes one turn of a running job, and counts it.
fn turn_once<D: Disk>(
    alloc: Global,
    core: &mut Core,
    counts: &mut Counts,
    disk: &mut D,
    spawner: &mut MemorySpawner,
) -> Result<(), AllocError>
    requires sound { IsSound core.old }
    requires calm { (core_state core.old).faulted ≡ false }
    requires running { is_running (core_state core.old).job ≡ true }
    ensures counted { OnOk result (Moves (D.told disk.old) (D.told disk.new)
        (Counted [] core.old core.new counts.old counts.new (ran spawner.old) (ran spawner.new))) }
    ensures sound { IsSound core.new }
    ensures calm { OnOk result ((core_state core.new).faulted ≡ false) }
    ensures ok { OnOk result (counts.new.ok ≡ counts.old.ok) }
    ensures refused { OnOk result (counts.new.refused ≡ counts.old.refused) }
{
    let before = spawner.runs().len();
    core.turns(alloc, Some(1), disk, spawner);
    let goes_on = still_runs(core.job())?;
    let after = spawner.runs().len();
    count(counts, before, after, goes_on)?;
    Ok(())
}

// Whether the job that is over has ended well.
fn ended(job: &JobState) -> Result<(), AllocError>
    ensures { OnOk result (job_of job.now ≡ Idle) }
{
    match job {
        JobState::Idle => Ok(()),
        JobState::Failed(_) => Err(AllocError),
        JobState::Running(_) => Err(AllocError),
    }
}

/// Makes turns until the job is idle, and counts them. The only error is out of memory: the devices and the commands of the run
/// fail for nothing else, and each template renders.
pub(crate) fn drive<D: Disk>(
    alloc: Global,
    core: &mut Core,
    counts: &mut Counts,
    disk: &mut D,
    spawner: &mut MemorySpawner,
) -> Result<(), AllocError>
    requires sound { IsSound core.old }
    requires calm { (core_state core.old).faulted ≡ false }
    ensures counted { OnOk result (Moves (D.told disk.old) (D.told disk.new)
        (Counted [] core.old core.new counts.old counts.new (ran spawner.old) (ran spawner.new))) }
    ensures sound { OnOk result (IsSound core.new) }
    ensures calm { OnOk result ((core_state core.new).faulted ≡ false) }
    ensures idle { OnOk result ((core_state core.new).job ≡ Idle) }
    ensures ok { OnOk result (counts.new.ok ≡ counts.old.ok) }
    ensures refused { OnOk result (counts.new.refused ≡ counts.old.refused) }
{
    for _turn in 0..u32::MAX {
        if !core.job().is_running() {
            return ended(core.job());
        }
        turn_once(alloc, core, counts, disk, spawner)?;
    }
    Err(AllocError)
}
