//! What a turn of a job is to do.
ghost use Rattle.std.specs.Prelude.{◌≡◌, IfOk, map, string_bytes};
ghost use Rattle.settings_machine.specs.World.{Image};
ghost use Rattle.affected_apply.specs.Jobs.{job_of};
ghost use Rattle.event_lines.specs.Lines.{due_command, due_file, due_in};
ghost use Rattle.event_lines.specs.Due.{due_of};

use affected_apply::{Job, JobState};
use key_names::Text;
use metadata_links::Manifest;
use outside::Path;
use settings_machine::path_of;
use std::alloc::{AllocError, Global};

/// What a turn of a job is to do.
#[derive(Drop)]
pub enum Due {
    /// Nothing: no job runs.
    Nothing,
    /// The next file is to be written.
    Write {
        /// Its name.
        file: Text,
        /// Where it is written.
        path: Path,
    },
    /// The next command is to be run.
    Run {
        /// The service that it restarts.
        service: Text,
        /// Its words, none of them empty.
        words: Vec<String>,
    },
    /// The job is to end.
    End,
}

// Copies of the words. The only error is out of memory.
fn copy_words(alloc: Global, words: &[String]) -> Result<Vec<String>, AllocError>
    ensures { IfOk result (λ copies. map (λ w. string_bytes w) copies.items ≡ map (λ w. string_bytes w) words.now) }
{
    let mut copies = Vec::new(alloc);
    for word in words {
        copies.push(word.clone()?)?;
    }
    Ok(copies)
}

// What a job that runs is to do where no file is left.
fn due_command(alloc: Global, job: &Job) -> Result<Due, AllocError>
    ensures { IfOk result (λ due. due_of due ≡ due_command job.now.work.commands) }
{
    match job.next_command() {
        Some(command) => Ok(Due::Run {
            service: command.service.copy()?,
            words: copy_words(alloc, &command.words)?,
        }),
        None => Ok(Due::End),
    }
}

// What a job that runs is to do.
fn due_work(alloc: Global, manifest: &Manifest, job: &Job) -> Result<Due, AllocError>
    ensures { IfOk result (λ due. (I : Image) → I.manifest ≡ manifest.now
        → due_of due ≡ due_file I job.now.work.files job.now.work.commands) }
{
    match job.next_file() {
        Some(file) => Ok(Due::Write {
            file: file.copy()?,
            path: path_of(alloc, manifest, file)?,
        }),
        None => due_command(alloc, job),
    }
}

/// What the next turn of the job is to do, by the manifest of its image: to write the next file, or where none is left to run the next
/// command, or where none is left to end. The only error is out of memory.
pub fn next_due(alloc: Global, manifest: &Manifest, job: &JobState) -> Result<Due, AllocError>
    ensures { IfOk result (λ due. (I : Image) → I.manifest ≡ manifest.now → due_of due ≡ due_in I (job_of job.now)) }
{
    match job {
        JobState::Running(job) => due_work(alloc, manifest, job),
        JobState::Idle | JobState::Failed(_) => Ok(Due::Nothing),
    }
}
