//! Turns one after another.
ghost use Rattle.std.specs.Prelude.{◌≡◌, ◌≢◌, ◌&&◌, ℕ, ◌-◌, None, Some, true, false, length};
ghost use Rattle.std.specs.Option.{option_map};
ghost use Rattle.outside.specs.Told.{Moves};
ghost use Rattle.outside.specs.Faults.{HasCause};
ghost use Rattle.settings_machine.specs.World.{is_running, KeepsAllButOwed};
ghost use Rattle.affected_apply.specs.Jobs.{job_of, HasRows, failed_with_disk, failed_to_spawn, answer_of};
ghost use Rattle.affected_apply.specs.Turned.{Turns};

use crate::{JobState, Store, turn};
use outside::{Disk, Spawner};
use settings_tree::Held;
use std::alloc::Global;

/// Whether a turn is left of a slice: without a number one always is.
pub fn any_left(left: Option<u32>) -> bool
    ensures some { result ≡ true → left ≢ Some 0 }
    ensures none { result ≡ false → left ≡ Some 0 }
{
    !matches!(&left, Some(0))
}

// Whether a job that ran has failed because a call of the disk failed.
fn has_failed(ran: bool, job: &JobState) -> bool
    ensures { result ≡ (ran && failed_with_disk (job_of job.now)) }
{
    ran && job.failed_with_disk()
}

/// What is left of a slice after one turn, where one was left.
pub fn one_less(left: Option<u32>) -> Option<u32>
    requires { left ≢ Some 0 }
    ensures { result ≡ option_map (λ n. n - 1) left }
{
    match left {
        Some(n) => Some(n - 1),
        None => None,
    }
}

/// Turns of the job, as [`turn`](crate::turn) makes them, until so many were made or no job runs; without a number, until no
/// job runs. A turn that fails counts, and is the last. It answers whether a call of the disk failed.
///
/// What the job has left to do falls at each turn, so this ends: there are at most as many turns as the job has files and
/// commands left, and one more, and as many again for the noted keys where the job begins again.
pub fn turns<D: Disk, S: Spawner>(
    alloc: Global,
    store: &Store<'_>,
    held: &mut Held,
    job: &mut JobState,
    slice: Option<u32>,
    disk: &mut D,
    spawner: &mut S,
) -> bool
    requires names { length store.now.place.now.directory ≡ 2 }
    requires known { HasRows store.now.image.now.manifest (job_of job.old) }

    // It is a slice of the machine's turns, on the disk, in the core and with the programs that were run, crash included.
    ensures turns { Moves (D.told disk.old) (D.told disk.new)
        (Turns store.now slice held.old (job_of job.old) held.new (job_of job.new) (S.runs spawner.old) (S.runs spawner.new)) }
    ensures failed { result ≡ (is_running (job_of job.old) && failed_with_disk (job_of job.new)) }
    ensures held { KeepsAllButOwed held.old held.new }
    ensures known { HasRows store.now.image.now.manifest (job_of job.new) }
    ensures ended { slice ≡ None → is_running (job_of job.new) ≡ false }

    // A job that ran fails with Disk only where the disk's count rose, and with Spawn only where the spawner's did.
    ensures disk_faults { HasCause (D.faults disk.old) (D.faults disk.new)
        (answer_of (is_running (job_of job.old) && failed_with_disk (job_of job.new))) }
    ensures spawner_faults { HasCause (S.faults spawner.old) (S.faults spawner.new)
        (answer_of (is_running (job_of job.old) && failed_to_spawn (job_of job.new))) }
    ensures asked { S.asked spawner.new ≡ S.asked spawner.old }
{
    let ran = job.is_running();
    let mut left = slice;
    while any_left(left) && job.is_running() {
        turn(alloc, store, held, job, disk, spawner);
        left = one_less(left);
    }
    has_failed(ran, job)
}
