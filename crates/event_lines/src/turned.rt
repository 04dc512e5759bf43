//! The lines of turns.
ghost use Rattle.std.specs.Prelude.{◌≡◌, ◌++◌, IfOk, map, string_bytes};
ghost use Rattle.affected_apply.specs.Jobs.{job_of};
ghost use Rattle.event_lines.specs.Due.{due_of};
ghost use Rattle.event_lines.specs.Lines.{wrote_line, ran_line, run_lines, end_lines, turn_lines};
ghost use Rattle.event_lines.specs.Lines as lines;

use crate::Due;
use crate::job_lines::{with_began, with_ended, with_failed, with_failure};
use crate::logfmt::Lines;
use crate::values::words_text;
use affected_apply::{Cause, JobState};
use key_names::{Bytes, Text};
use machine_answers::path_text;
use outside::Path;
use std::alloc::{AllocError, Global};

fn wrote_line(alloc: Global, file: &Text, path: &Path) -> Result<Lines, AllocError>
    ensures { IfOk result (λ text. text ≡ wrote_line file.now path.now) }
{
    let path = path_text(alloc, path)?;
    Lines::new(alloc)
        .begin("wrote")?
        .pair("file", file.as_str())?
        .pair("path", path.as_str())?
        .end()
}

// The lines of a turn that was to write the file.
fn write_lines(alloc: Global, file: &Text, path: &Path, job: &JobState) -> Result<Lines, AllocError>
    ensures { IfOk result (λ text. text ≡ turn_lines (lines.Write file.now path.now) (job_of job.now)) }
{
    match job {
        JobState::Running(_) => wrote_line(alloc, file, path),
        JobState::Idle | JobState::Failed(_) => with_failure(alloc, Lines::new(alloc), job),
    }
}

fn ran_line(
    alloc: Global,
    service: &Text,
    words: &[String],
    status: u16,
) -> Result<Lines, AllocError>
    ensures { IfOk result (λ text. text ≡ ran_line service.now (map (λ w. string_bytes w) words.now) status) }
{
    let command = words_text(alloc, words)?;
    Lines::new(alloc)
        .begin("ran")?
        .pair("service", service.as_str())?
        .pair("command", command.as_str())?
        .number("status", u64::from(status))?
        .end()
}

// The lines of a turn that was to run the command.
fn run_lines(
    alloc: Global,
    service: &Text,
    words: &[String],
    job: &JobState,
) -> Result<Lines, AllocError>
    ensures { IfOk result (λ text. text ≡ run_lines service.now (map (λ w. string_bytes w) words.now) (job_of job.now)) }
{
    match job {
        JobState::Running(_) => ran_line(alloc, service, words, 0),
        JobState::Failed(Cause::Status { number, .. }) => {
            let lines = ran_line(alloc, service, words, *number)?;
            with_failure(alloc, lines, job)
        }
        JobState::Idle | JobState::Failed(_) => with_failure(alloc, Lines::new(alloc), job),
    }
}

// The lines of a turn that was to end the job.
fn end_lines(alloc: Global, job: &JobState) -> Result<Lines, AllocError>
    ensures { IfOk result (λ text. text ≡ end_lines (job_of job.now)) }
{
    match job {
        JobState::Running(job) => with_began(with_ended(Lines::new(alloc))?, job),
        JobState::Idle => with_ended(Lines::new(alloc)),
        JobState::Failed(cause) => with_failed(alloc, Lines::new(alloc), cause),
    }
}

fn lines_of(alloc: Global, due: &Due, job: &JobState) -> Result<Lines, AllocError>
    ensures { IfOk result (λ text. text ≡ turn_lines (due_of due.now) (job_of job.now)) }
{
    match due {
        Due::Nothing => Ok(Lines::new(alloc)),
        Due::Write { file, path } => write_lines(alloc, file, path, job),
        Due::Run { service, words } => run_lines(alloc, service, words, job),
        Due::End => end_lines(alloc, job),
    }
}

/// The lines of a turn that was to do this, by the job after it: `wrote file=motd path=/etc/motd`, `ran service=motd
/// command="systemctl restart motd" status=0`, `job-ended`, `job-failed cause="status motd 1"`, and `job-began files=1 commands=1`
/// where the job began again. The only error is out of memory. It costs the length of the lines.
pub fn turn_lines(alloc: Global, due: &Due, job: &JobState) -> Result<Bytes, AllocError>
    ensures { IfOk result (λ text. text ≡ turn_lines (due_of due.now) (job_of job.now)) }
{
    Ok(lines_of(alloc, due, job)?.into_bytes())
}
