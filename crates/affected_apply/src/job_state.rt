//! The job, which runs or not.
ghost use Rattle.std.specs.Prelude.{◌≡◌, IfOk};
ghost use Rattle.settings_machine.specs.Requests.{job_status};
ghost use Rattle.settings_machine.specs.World.{is_running};
ghost use Rattle.affected_apply.specs.Jobs.{job_of, failed_with_disk};

use crate::{Cause, Job};
use settings_machine::JobStatus;
use std::alloc::AllocError;

/// The job, which runs or not.
#[derive(Drop)]
pub enum JobState {
    /// Nothing is to be done.
    Idle,
    /// The last job failed.
    Failed(Cause),
    /// A job runs.
    Running(Job),
}

impl JobState {
    /// Whether a job runs.
    pub fn is_running(&self) -> bool
        ensures { result ≡ is_running (job_of self.now) }
    {
        matches!(self, JobState::Running(_))
    }

    /// Its status, as a client gets it. The only error is out of memory.
    pub fn status(&self) -> Result<JobStatus, AllocError>
        ensures { IfOk result (λ status. status ≡ job_status (job_of self.now)) }
    {
        match self {
            JobState::Idle => Ok(JobStatus::Idle),
            JobState::Failed(cause) => Ok(JobStatus::Failed(cause.copy()?)),
            JobState::Running(_) => Ok(JobStatus::Running),
        }
    }

    /// Whether the last job failed because a call of the disk failed.
    pub fn failed_with_disk(&self) -> bool
        ensures { result ≡ failed_with_disk (job_of self.now) }
    {
        matches!(self, JobState::Failed(Cause::Disk))
    }
}
