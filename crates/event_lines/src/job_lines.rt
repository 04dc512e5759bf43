//! The lines of the job. The only error of each function is out of memory.
ghost use Rattle.std.specs.Prelude.{◌≡◌, ◌++◌, IfOk};
ghost use Rattle.affected_apply.specs.Jobs.{job_of};
ghost use Rattle.event_lines.specs.Lines.{began_line, ended_line, failed_line, failure, job_lines};

use crate::logfmt::Lines;
use crate::values::cause_text;
use affected_apply::{Cause, Job, JobState};
use std::alloc::{AllocError, Global};

/// The line of a job that began.
pub fn with_began(lines: Lines, job: &Job) -> Result<Lines, AllocError>
    ensures { IfOk result (λ more. more ≡ lines ++ began_line job.now.work) }
{
    lines
        .begin("job-began")?
        .number("files", job.files_left() as u64)?
        .number("commands", job.commands_left() as u64)?
        .end()
}

/// The line of a job that ended.
pub fn with_ended(lines: Lines) -> Result<Lines, AllocError>
    ensures { IfOk result (λ more. more ≡ lines ++ ended_line) }
{
    lines.begin("job-ended")?.end()
}

/// The line of a job that failed.
pub fn with_failed(alloc: Global, lines: Lines, cause: &Cause) -> Result<Lines, AllocError>
    ensures { IfOk result (λ more. more ≡ lines ++ failed_line cause.now) }
{
    let cause = cause_text(alloc, cause)?;
    lines
        .begin("job-failed")?
        .pair("cause", cause.as_str())?
        .end()
}

/// The line of a job that failed, if it did.
pub fn with_failure(alloc: Global, lines: Lines, job: &JobState) -> Result<Lines, AllocError>
    ensures { IfOk result (λ more. more ≡ lines ++ failure (job_of job.now)) }
{
    match job {
        JobState::Failed(cause) => with_failed(alloc, lines, cause),
        JobState::Idle | JobState::Running(_) => Ok(lines),
    }
}

/// What a request made of the job, by whether one ran before it.
pub fn with_job(
    alloc: Global,
    lines: Lines,
    was_running: bool,
    job: &JobState,
) -> Result<Lines, AllocError>
    ensures { IfOk result (λ more. more ≡ lines ++ job_lines was_running (job_of job.now)) }
{
    match (was_running, job) {
        (false, JobState::Running(job)) => with_began(lines, job),
        (true, JobState::Failed(cause)) => with_failed(alloc, lines, cause),
        (true, JobState::Idle) => with_ended(lines),
        _ => Ok(lines),
    }
}
