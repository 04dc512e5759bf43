//! The job, and how it begins.
ghost use Rattle.std.specs.Prelude.{◌≡◌, ◌||◌, IfOk, IsOk, IsTrue, OnOk, OnErr};
ghost use Rattle.settings_machine.specs.World.{Image, is_running, owes_none};
ghost use Rattle.settings_machine.specs.Requests.{job_status};
ghost use Rattle.settings_machine.specs.Step.{begun};
ghost use Rattle.settings_machine.specs.JobSeen.{job_seen, IsApplied};

use crate::cause::Cause;
use key_names::Text;
use metadata_links::{Command, Manifest};
use settings_tree::{KeyList, Owed};
use std::alloc::{AllocError, Global};

/// A running job.
#[derive(Debug, Drop)]
pub struct Work {
    /// The files that are still to be written.
    pub files: Vec<Text>,
    /// The commands that are still to be run.
    pub commands: Vec<Command>,
    /// The keys whose values were changed since it began, rising.
    pub since: KeyList,
    /// Whether it was asked for again.
    pub again: bool,
}

/// The job.
#[derive(Debug, Drop)]
pub enum Job {
    /// Nothing is to be done.
    Idle,
    /// The last one failed.
    Failed(Cause),
    /// One is running.
    Running(Work),
}

/// The status of a job, as a client sees it.
#[derive(Debug, Drop)]
pub enum JobStatus {
    /// Nothing is to be done.
    Idle,
    /// The last one failed.
    Failed(Cause),
    /// One is running.
    Running,
}

impl Job {
    /// Its status. The only error is out of memory.
    pub fn status(&self) -> Result<JobStatus, AllocError>
        ensures { IfOk result (λ status. status ≡ job_status (job_seen self.now)) }
    {
        match self {
            Job::Idle => Ok(JobStatus::Idle),
            Job::Failed(cause) => Ok(JobStatus::Failed(cause.copy()?)),
            Job::Running(_) => Ok(JobStatus::Running),
        }
    }
}

/// Whether nothing is owed. It takes no memory.
pub fn owes_none(owed: &Owed) -> bool
    ensures { result ≡ owes_none owed.now }
{
    match owed {
        Owed::All => false,
        Owed::Keys(keys) => keys.as_slice().is_empty(),
    }
}

/// A job that pays what is owed: it writes the files of the services that the owed keys affect, and then
/// runs their commands. The only error is out of memory. It takes the time of `Manifest::files_of` and
/// `Manifest::commands_of`.
pub fn begun(alloc: Global, manifest: &Manifest, owed: &Owed) -> Result<Job, AllocError>
    ensures { IfOk result (λ job. (I : Image) → I.manifest ≡ manifest.now → begun I owed.now ≡ job_seen job) }
{
    Ok(Job::Running(Work {
        files: manifest.files_of(owed)?,
        commands: manifest.commands_of(owed)?,
        since: KeyList::new(alloc),
        again: false,
    }))
}

/// What is owed is to be paid: a job begins where none runs, and a running one is asked for again; where
/// nothing is owed it is idle. The only error is out of memory, which leaves the job as it was; it comes
/// only where a job is to begin. It takes the time of `begun` there, and a step else.
pub fn apply(
    alloc: Global,
    manifest: &Manifest,
    owed: &Owed,
    job: &mut Job,
) -> Result<(), AllocError>
    ensures applied { OnOk result (IsApplied manifest.now owed.now (job_seen job.old) (job_seen job.new)) }
    ensures sure { IsTrue (owes_none owed.now || is_running (job_seen job.old)) → IsOk result }
    ensures unchanged { OnErr result (job.new ≡ job.old) }
{
    if owes_none(owed) {
        *job = Job::Idle;
        return Ok(());
    }
    if let Job::Running(work) = job {
        work.again = true;
        return Ok(());
    }
    *job = begun(alloc, manifest, owed)?;
    Ok(())
}
