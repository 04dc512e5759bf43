//! Turns of the job, each of which is logged.
ghost use Rattle.std.specs.Prelude.{◌≡◌, ◌<◌, ◌≤◌, IfOk, Some, true};
ghost use Rattle.outside.specs.Told.{Moves};
ghost use Rattle.settings_machine.specs.World.{is_running};
ghost use Rattle.affected_apply.specs.Jobs.{job_of, left_to_do};
ghost use Rattle.event_lines.specs.Due.{due_of};
ghost use Rattle.event_lines.specs.Lines as lines;
ghost use Rattle.event_lines.specs.Lines.{turn_lines};
ghost use Rattle.event_lines.specs.Logs.{log_state};
ghost use Rattle.api_core.specs.Cores.{IsSound, core_state};
ghost use Rattle.api_server.specs.Causes.{fault_counts};
ghost use Rattle.api_server.specs.Turning.{Turns};

use affected_apply::{any_left, one_less};
use api_core::{Core, JobState};
use event_lines::{Due, next_due, tell, turn_lines};
use key_names::Bytes;
use outside::{Disk, Sink, Spawner};
use std::alloc::{AllocError, Global};

// The lines of a turn that was to do this, where there was memory to tell what that is.
fn lines_after(
    alloc: Global,
    due: Result<Due, AllocError>,
    job: &JobState,
) -> Result<Bytes, AllocError>
    ensures { (is : lines.Due) → IfOk due (λ d. due_of d ≡ is) → IfOk result (λ text. text ≡ turn_lines is (job_of job.now)) }
{
    turn_lines(alloc, &due?, job)
}

// One turn of a running job, which is then logged.
fn turn_and_tell<D: Disk, S: Spawner, L: Sink>(
    alloc: Global,
    core: &mut Core,
    disk: &mut D,
    spawner: &mut S,
    log: &mut L,
)
    requires sound { IsSound core.old }
    requires running { is_running (core_state core.old).job ≡ true }
    ensures turns { Moves (D.told disk.old) (D.told disk.new)
        (Turns (Some 1) core.old core.new (fault_counts (D.faults disk.old) (S.faults spawner.old))
        (fault_counts (D.faults disk.new) (S.faults spawner.new)) (S.runs spawner.old) (S.runs spawner.new)
        (log_state (L.told log.old) (L.faults log.old)) (log_state (L.told log.new) (L.faults log.new))) }
    ensures sound { IsSound core.new }
    ensures image { core.new.image ≡ core.old.image }
    ensures less { left_to_do core.new.image.manifest (core_state core.new).job < left_to_do core.old.image.manifest (core_state core.old).job }
    ensures disk_faults { D.faults disk.old ≤ D.faults disk.new }
    ensures spawner_faults { S.faults spawner.old ≤ S.faults spawner.new }
    ensures asked { S.asked spawner.new ≡ S.asked spawner.old }
{
    let due = next_due(alloc, &core.image().manifest, core.job());
    core.turn(alloc, disk, spawner);
    tell(log, lines_after(alloc, due, core.job()));
}

/// Turns of the job as [`Core::turns`] makes them, each of which is logged before the next: until so many were made or no job runs;
/// without a number, until no job runs.
pub(crate) fn turns<D: Disk, S: Spawner, L: Sink>(
    alloc: Global,
    core: &mut Core,
    slice: Option<u32>,
    disk: &mut D,
    spawner: &mut S,
    log: &mut L,
)
    requires sound { IsSound core.old }
    ensures turns { Moves (D.told disk.old) (D.told disk.new)
        (Turns slice core.old core.new (fault_counts (D.faults disk.old) (S.faults spawner.old))
        (fault_counts (D.faults disk.new) (S.faults spawner.new)) (S.runs spawner.old) (S.runs spawner.new)
        (log_state (L.told log.old) (L.faults log.old)) (log_state (L.told log.new) (L.faults log.new))) }
    ensures sound { IsSound core.new }
    ensures disk_faults { D.faults disk.old ≤ D.faults disk.new }
    ensures spawner_faults { S.faults spawner.old ≤ S.faults spawner.new }
    ensures asked { S.asked spawner.new ≡ S.asked spawner.old }
{
    let mut left = slice;
    while any_left(left) && core.job().is_running() {
        turn_and_tell(alloc, core, disk, spawner, log);
        left = one_less(left);
    }
}
