//! How refusals of lower calls are handed on.
ghost use Rattle.std.specs.Prelude.{◌≡◌};
ghost use Rattle.affected_apply.specs.Jobs.{job_of};
ghost use Rattle.core_commands.specs.Handing.{not_opened, failed_for, HandsCause, HandsJob};

use affected_apply::JobState;
use command_outcome::Refusal;
use settings_machine::Cause;
use store_open::OpenError;

/// Why a store was not opened.
pub fn not_opened(error: OpenError) -> Refusal
    ensures { result ≡ not_opened error }
{
    match error {
        OpenError::NoStore => Refusal::NoStore,
        OpenError::BadLink { path } => Refusal::BadLink { path },
        OpenError::BadJournal { path } => Refusal::BadJournal { path },
        OpenError::Damaged { path } => Refusal::Damaged { path },
        OpenError::OldFormat { directory } => Refusal::OldFormat { directory },
        OpenError::BadImage { file, kind, at } => Refusal::BadImage { file, kind, at },
        OpenError::IllTyped { key } => Refusal::IllTyped { key },
        OpenError::Failed => Refusal::Disk,
        OpenError::Memory => Refusal::Memory,
    }
}

// Why a job failed, as it is.
fn of_cause(cause: Cause) -> Refusal
    ensures { result ≡ failed_for cause }
{
    match cause {
        Cause::Disk => Refusal::Disk,
        Cause::Spawn { service } => Refusal::Spawn { name: service },
        Cause::Render { file, error } => Refusal::Render { file, error },
        Cause::Status { service, number } => Refusal::Status { service, number },
        Cause::Memory => Refusal::Memory,
    }
}

// Why a job failed, or out of memory.
fn failed_for(cause: &Cause) -> Refusal
    ensures { HandsCause cause.now result }
{
    match cause.copy() {
        Ok(cause) => of_cause(cause),
        Err(_) => Refusal::Memory,
    }
}

/// Why the last job failed, if it did, or out of memory.
pub(crate) fn job_refusal(job: &JobState) -> Option<Refusal>
    ensures { HandsJob (job_of job.now) result }
{
    match job {
        JobState::Failed(cause) => Some(failed_for(cause)),
        JobState::Idle | JobState::Running(_) => None,
    }
}
