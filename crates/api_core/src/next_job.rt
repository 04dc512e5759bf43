//! What a request makes of the job.
ghost use Rattle.std.specs.Prelude.{◌≡◌, IfOk, OnOk};
ghost use Rattle.settings_machine.specs.declared.cause.Cause.TheVariants as cause;
ghost use Rattle.settings_machine.specs.World.{Image};
ghost use Rattle.settings_machine.specs.Step.{begun, noting, failing};
ghost use Rattle.affected_apply.specs.Jobs.{job_of, HasRows};
ghost use Rattle.api_core.specs.Jobs.{job_after, applied_job, with_again, count_noted, HasRoom, KnowsRows};

use affected_apply::{Cause, Job, JobState};
use metadata_links::Manifest;
use settings_machine::owes_none;
use settings_tree::{KeyList, Owed};
use std::alloc::AllocError;

/// What a request makes of the job.
#[derive(Drop)]
pub(crate) enum NextJob {
    /// It stays.
    Stay,
    /// A running one notes these keys.
    Noted(KeyList),
    /// A running one is asked for again.
    Again,
    /// A running one notes these keys, and is asked for again.
    NotedAgain(KeyList),
    /// It becomes this one.
    Becomes(JobState),
}

// A job of the owed keys. The only error is out of memory.
fn begun(manifest: &Manifest, owed: &Owed) -> Result<JobState, AllocError>
    ensures job { IfOk result (λ job. (I : Image) → I.manifest ≡ manifest.now → job_of job ≡ begun I owed.now) }
    ensures rows { IfOk result (λ job. HasRows manifest.now (job_of job)) }
{
    Ok(JobState::Running(Job::begin(manifest, owed)?))
}

/// Where nothing is owed the job is idle, a running one is asked for again, and else one begins. The only error is out
/// of memory.
pub(crate) fn applying(
    manifest: &Manifest,
    job: &JobState,
    owed: &Owed,
) -> Result<NextJob, AllocError>
    ensures job { IfOk result (λ next. (I : Image) → I.manifest ≡ manifest.now
        → job_after next (job_of job.now) ≡ applied_job I owed.now (job_of job.now)) }
    ensures rows { IfOk result (KnowsRows manifest.now) }
{
    if owes_none(owed) {
        return Ok(NextJob::Becomes(JobState::Idle));
    }
    match job {
        JobState::Running(_) => Ok(NextJob::Again),
        JobState::Idle | JobState::Failed(_) => Ok(NextJob::Becomes(begun(manifest, owed)?)),
    }
}

/// A running job notes the keys, and then the same. The only error is out of memory.
pub(crate) fn noting_and_applying(
    manifest: &Manifest,
    job: &JobState,
    keys: KeyList,
    owed: &Owed,
) -> Result<NextJob, AllocError>
    ensures job { IfOk result (λ next. (I : Image) → I.manifest ≡ manifest.now
        → job_after next (job_of job.now) ≡ applied_job I owed.now (noting (job_of job.now) keys)) }
    ensures rows { IfOk result (KnowsRows manifest.now) }
{
    if owes_none(owed) {
        return Ok(NextJob::Becomes(JobState::Idle));
    }
    match job {
        JobState::Running(_) => Ok(NextJob::NotedAgain(keys)),
        JobState::Idle | JobState::Failed(_) => Ok(NextJob::Becomes(begun(manifest, owed)?)),
    }
}

// How many keys a running job notes.
fn count_noted(next: &NextJob) -> usize
    ensures { result ≡ count_noted next.now }
{
    match next {
        NextJob::Noted(keys) => keys.as_slice().len(),
        NextJob::NotedAgain(keys) => keys.as_slice().len(),
        NextJob::Stay | NextJob::Again | NextJob::Becomes(_) => 0,
    }
}

/// Makes room for the keys that a running job notes. The only error is out of memory.
pub(crate) fn reserve(job: &mut JobState, next: &NextJob) -> Result<(), AllocError>
    ensures job { job_of job.new ≡ job_of job.old }
    ensures room { OnOk result (HasRoom next.now job.new) }
{
    match job {
        JobState::Running(job) => job.reserve(count_noted(next)),
        JobState::Idle | JobState::Failed(_) => Ok(()),
    }
}

// A running job notes the keys, for which there is room.
fn note(job: &mut JobState, keys: KeyList)
    requires { HasRoom (NextJob.Noted keys) job.old }
    ensures { job_of job.new ≡ noting (job_of job.old) keys }
{
    if let JobState::Running(job) = job {
        job.note(keys);
    }
}

// A running job is to begin again.
fn ask_again(job: &mut JobState)
    ensures { job_of job.new ≡ with_again (job_of job.old) }
{
    if let JobState::Running(job) = job {
        job.ask_again();
    }
}

// A running job notes the keys, for which there is room, and is to begin again.
fn note_again(job: &mut JobState, keys: KeyList)
    requires { HasRoom (NextJob.Noted keys) job.old }
    ensures { job_of job.new ≡ with_again (noting (job_of job.old) keys) }
{
    note(job, keys);
    ask_again(job);
}

/// The job becomes the next one. It takes no memory.
pub(crate) fn go(job: &mut JobState, next: NextJob)
    requires { HasRoom next job.old }
    ensures job { job_of job.new ≡ job_after next (job_of job.old) }
{
    match next {
        NextJob::Stay => {}
        NextJob::Noted(keys) => note(job, keys),
        NextJob::Again => ask_again(job),
        NextJob::NotedAgain(keys) => note_again(job, keys),
        NextJob::Becomes(next) => *job = next,
    }
}

/// A running job fails, because a call of the disk failed. It takes no memory.
pub(crate) fn fail(job: &mut JobState)
    ensures { job_of job.new ≡ failing (job_of job.old) cause.Disk }
{
    if let JobState::Running(_) = job {
        *job = JobState::Failed(Cause::Disk);
    }
}
