//! One turn.
ghost use Rattle.std.specs.Prelude.{◌≡◌, ◌<◌, true, All, length};
ghost use Rattle.outside.specs.Told.{Moves};
ghost use Rattle.outside.specs.Faults.{HasCause};
ghost use Rattle.settings_machine.specs.World.{Running, is_running, KeepsAllButOwed};
ghost use Rattle.affected_apply.specs.Sees.{HasRow};
ghost use Rattle.affected_apply.specs.Jobs.{job_of, HasRows, left_to_do, failed_with_disk, failed_to_spawn, answer_of};
ghost use Rattle.affected_apply.specs.Turned.{IsTurn};

use crate::ending::end;
use crate::{Job, JobState, Store, Turn, View};
use outside::{Disk, Spawner};
use settings_tree::Held;
use std::alloc::Global;
use std::mem;

// One turn of a running job. It answers the job.
fn go_on<D: Disk, S: Spawner>(
    alloc: Global,
    store: &Store<'_>,
    held: &mut Held,
    mut job: Job,
    disk: &mut D,
    spawner: &mut S,
) -> JobState
    requires names { length store.now.place.now.directory ≡ 2 }
    requires known { All (HasRow store.now.image.now.manifest) job.work.files }
    ensures event { Moves (D.told disk.old) (D.told disk.new)
        (IsTurn store.now held.old (Running job.work) held.new (job_of result) (S.runs spawner.old) (S.runs spawner.new)) }
    ensures held { KeepsAllButOwed held.old held.new }
    ensures known { HasRows store.now.image.now.manifest (job_of result) }
    ensures less { left_to_do store.now.image.now.manifest (job_of result)
        < left_to_do store.now.image.now.manifest (Running job.work) }
    ensures disk_faults { HasCause (D.faults disk.old) (D.faults disk.new) (answer_of (failed_with_disk (job_of result))) }
    ensures spawner_faults { HasCause (S.faults spawner.old) (S.faults spawner.new) (answer_of (failed_to_spawn (job_of result))) }
    ensures asked { S.asked spawner.new ≡ S.asked spawner.old }
{
    let view = View {
        live: &held.live,
        os: &store.image.model.os,
        manifest: &store.image.manifest,
        templates: &store.image.templates,
    };
    match job.turn(&view, disk, spawner) {
        Turn::Wrote { file: _ } => JobState::Running(job),
        Turn::Ran {
            service: _,
            index: _,
        } => JobState::Running(job),
        Turn::Failed { cause } => JobState::Failed(cause),
        Turn::Done => end(alloc, store, held, &job, disk),
    }
}

/// One turn of the running job, which is left in its place: the next file is written, or where none is left the next
/// command is run, or where none is left the disk is synced and the noted keys are stored as what is owed. Then the job is
/// idle, or begins again with these keys where it was asked for again and there are some. It answers whether a call of the
/// disk failed.
///
/// Where the turn fails the job has failed, with the causes of `Job::turn`; at the storing of the noted keys it fails with
/// `Memory` before the disk is written, and with `Disk` where the disk failed, and then they are stored or not.
///
/// A job runs, the manifest has each file that it has to do, and the data directory is a folder of the store. A turn
/// takes the time of `Job::turn`; one that ends the job takes that of a batch of one entry, and of `Job::begin`, besides.
pub fn turn<D: Disk, S: Spawner>(
    alloc: Global,
    store: &Store<'_>,
    held: &mut Held,
    job: &mut JobState,
    disk: &mut D,
    spawner: &mut S,
) -> bool
    requires names { length store.now.place.now.directory ≡ 2 }
    requires running { is_running (job_of job.old) ≡ true }
    requires known { HasRows store.now.image.now.manifest (job_of job.old) }

    // It is one turn of the machine, on the disk, in the core and with the programs that were run, crash included.
    ensures event { Moves (D.told disk.old) (D.told disk.new)
        (IsTurn store.now held.old (job_of job.old) held.new (job_of job.new) (S.runs spawner.old) (S.runs spawner.new)) }
    ensures failed { result ≡ failed_with_disk (job_of job.new) }
    ensures held { KeepsAllButOwed held.old held.new }
    ensures known { HasRows store.now.image.now.manifest (job_of job.new) }
    ensures less { left_to_do store.now.image.now.manifest (job_of job.new)
        < left_to_do store.now.image.now.manifest (job_of job.old) }

    // The job fails with Disk only where the disk's count rose, and with Spawn only where the spawner's did.
    ensures disk_faults { HasCause (D.faults disk.old) (D.faults disk.new) (answer_of (failed_with_disk (job_of job.new))) }
    ensures spawner_faults { HasCause (S.faults spawner.old) (S.faults spawner.new)
        (answer_of (failed_to_spawn (job_of job.new))) }
    ensures asked { S.asked spawner.new ≡ S.asked spawner.old }
{
    match mem::replace(job, JobState::Idle) {
        JobState::Running(running) => *job = go_on(alloc, store, held, running, disk, spawner),
        JobState::Idle => unreachable!(),
        JobState::Failed(_) => unreachable!(),
    }
    job.failed_with_disk()
}
