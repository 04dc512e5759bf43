//! The end of a job.
ghost use Rattle.std.specs.Prelude.{◌≡◌, ◌<◌, false, [], ◌∷◌, length, All, IfOk};
ghost use Rattle.outside.specs.Told.{Moves};
ghost use Rattle.outside.specs.Faults.{HasCause};
ghost use Rattle.fs_datastore.specs.Batches.{Follows};
ghost use Rattle.settings_machine.specs.World.{Running, KeepsAllButOwed};
ghost use Rattle.affected_apply.specs.Jobs.{job_of, job_after, HasRows, left_to_do, failed_with_disk, failed_to_spawn, answer_of};
ghost use Rattle.affected_apply.specs.Turned.{noted_change, Ends};

use crate::{Cause, Job, JobState, Store};
use commit_journal::{Batch, change};
use fs_datastore::batch_of;
use metadata_links::Manifest;
use outside::{Disk, Path};
use settings_tree::{Change, Entry, Held, Owed};
use std::alloc::{AllocError, Global};

// What the end of a job needs, taken before the disk is written: the batch that stores the noted keys as what is owed,
// these keys, and the job that follows.
#[derive(Drop)]
struct Ending {
    batch: Batch,
    owed: Owed,
    next: JobState,
}

// The noted keys.
fn noted(job: &Job) -> Result<Owed, AllocError>
    ensures { IfOk result (λ owed. owed ≡ Owed.Keys job.now.work.since) }
{
    Ok(Owed::Keys(job.since().copy()?))
}

// The change that stores the keys as what is owed.
fn change_of(alloc: Global, owed: Owed) -> Result<Change, AllocError>
    ensures { IfOk result (λ change. change ≡ Entry.OwedSet owed ∷ []) }
{
    let mut entries = Vec::new(alloc);
    entries.push(Entry::OwedSet { owed })?;
    Ok(Change::of(entries))
}

// The job that follows.
fn next_job(manifest: &Manifest, job: &Job, owed: &Owed) -> Result<JobState, AllocError>
    requires { owed.now ≡ Owed.Keys job.now.work.since }
    ensures next { IfOk result (λ next. job_of next ≡ job_after manifest.now job.now.work) }
    ensures known { IfOk result (λ next. HasRows manifest.now (job_of next)) }
{
    if job.again() && !job.since().as_slice().is_empty() {
        Ok(JobState::Running(Job::begin(manifest, owed)?))
    } else {
        Ok(JobState::Idle)
    }
}

// What the end of the job needs. The only error is out of memory.
fn prepared(
    alloc: Global,
    directory: &Path,
    manifest: &Manifest,
    job: &Job,
) -> Result<Ending, AllocError>
    requires names { length directory.now ≡ 2 }
    ensures dir { IfOk result (λ e. e.batch.dir ≡ directory.now) }
    ensures stored { IfOk result (λ e. Follows (noted_change job.now.work.since) e.batch.entries) }
    ensures owed { IfOk result (λ e. e.owed ≡ Owed.Keys job.now.work.since) }
    ensures next { IfOk result (λ e. job_of e.next ≡ job_after manifest.now job.now.work) }
    ensures known { IfOk result (λ e. HasRows manifest.now (job_of e.next)) }
{
    let change = change_of(alloc, noted(job)?)?;
    let batch = batch_of(alloc, directory, &change)?;
    let owed = noted(job)?;
    let next = next_job(manifest, job, &owed)?;
    Ok(Ending { batch, owed, next })
}

/// The end of a job that has nothing left to do, once the disk is synced: the noted keys are stored as what is owed, and
/// the job is idle, or begins again with them where it was asked for again and there are some. The batch and the job that
/// follows are made before the disk is written. It answers the job.
///
/// The job fails with `Memory` where it runs out of memory, before the disk is written, and with `Disk` where the disk fails.
/// It takes the time of a batch of one entry, and of `Job::begin`.
pub(crate) fn end<D: Disk>(
    alloc: Global,
    store: &Store<'_>,
    held: &mut Held,
    job: &Job,
    disk: &mut D,
) -> JobState
    requires names { length store.now.place.now.directory ≡ 2 }
    requires files { job.now.work.files ≡ [] }
    requires commands { job.now.work.commands ≡ [] }
    ensures event { Moves (D.told disk.old) (D.told disk.new)
        (Ends store.now held.old job.now.work held.new (job_of result)) }
    ensures held { KeepsAllButOwed held.old held.new }
    ensures known { HasRows store.now.image.now.manifest (job_of result) }
    ensures less { left_to_do store.now.image.now.manifest (job_of result)
        < left_to_do store.now.image.now.manifest (Running job.now.work) }
    ensures faults { HasCause (D.faults disk.old) (D.faults disk.new) (answer_of (failed_with_disk (job_of result))) }
    ensures no_spawn { failed_to_spawn (job_of result) ≡ false }
{
    match prepared(alloc, &store.place.directory, &store.image.manifest, job) {
        Ok(ending) => match change(disk, &ending.batch) {
            Ok(()) => {
                held.owed = ending.owed;
                ending.next
            }
            Err(_) => JobState::Failed(Cause::Disk),
        },
        Err(_) => JobState::Failed(Cause::Memory),
    }
}
