//! What a commit and a turn change in a job.
ghost use Rattle.std.specs.Prelude.{◌≡◌, IfOk};
ghost use Rattle.std.specs.Option.{option_map};
ghost use Rattle.settings_machine.specs.JobSeen.{job_seen, work_seen};
ghost use Rattle.settings_machine.specs.World.{Image};
ghost use Rattle.plain_machine.specs.Jobs.{noted, with_since, next_job, asked_again, taken_up, without_file, past_file, without_command, past_command};

use metadata_links::Manifest;
use settings_machine::{Job, Work, begun, owes_none};
use settings_tree::{KeyList, Owed};
use std::alloc::{AllocError, Global};

/// What a running job will have noted with these keys; nothing where none runs. The only error is out of memory.
pub(crate) fn noted(alloc: Global, job: &Job, keys: &KeyList) -> Result<KeyList, AllocError>
    ensures { IfOk result (λ since. since ≡ noted (job_seen job.now) keys.now) }
{
    match job {
        Job::Running(work) => work.since.joined(keys),
        _ => Ok(KeyList::new(alloc)),
    }
}

/// These are the keys that a running job has noted. It takes no memory.
pub(crate) fn note(job: &mut Job, since: KeyList)
    ensures { job_seen job.new ≡ with_since (job_seen job.old) since }
{
    if let Job::Running(work) = job {
        work.since = since;
    }
}

/// The job that apply begins, which is an idle one where nothing is owed; None exactly where a running one is asked for
/// again. The only error is out of memory.
pub(crate) fn next_job(
    alloc: Global,
    manifest: &Manifest,
    owed: &Owed,
    job: &Job,
) -> Result<Option<Job>, AllocError>
    ensures { IfOk result (λ next. (I : Image) → I.manifest ≡ manifest.now → next_job I owed.now (job_seen job.now) ≡ option_map job_seen next) }
{
    if owes_none(owed) {
        return Ok(Some(Job::Idle));
    }
    if let Job::Running(_) = job {
        return Ok(None);
    }
    Ok(Some(begun(alloc, manifest, owed)?))
}

fn ask_again(job: &mut Job)
    ensures { job_seen job.new ≡ asked_again (job_seen job.old) }
{
    if let Job::Running(work) = job {
        work.again = true;
    }
}

/// The next job takes its place; where none is given, a running one is asked for again. It takes no memory.
pub(crate) fn take_up(job: &mut Job, next: Option<Job>)
    ensures { job_seen job.new ≡ taken_up (job_seen job.old) (option_map job_seen next) }
{
    match next {
        Some(next) => *job = next,
        None => ask_again(job),
    }
}

fn pass_first_file(work: &mut Work)
    ensures { work_seen work.new ≡ without_file (work_seen work.old) }
{
    if !work.files.is_empty() {
        work.files.remove(0);
    }
}

/// A running job is done with its first file. It takes no memory.
pub(crate) fn pass_file(job: &mut Job)
    ensures { job_seen job.new ≡ past_file (job_seen job.old) }
{
    if let Job::Running(work) = job {
        pass_first_file(work);
    }
}

fn pass_first_command(work: &mut Work)
    ensures { work_seen work.new ≡ without_command (work_seen work.old) }
{
    if !work.commands.is_empty() {
        work.commands.remove(0);
    }
}

/// A running job is done with its first command. It takes no memory.
pub(crate) fn pass_command(job: &mut Job)
    ensures { job_seen job.new ≡ past_command (job_seen job.old) }
{
    if let Job::Running(work) = job {
        pass_first_command(work);
    }
}
