//! The text of the job.
ghost use Rattle.std.specs.Prelude.{◌≡◌, ◌++◌, IfOk, OnOk, codes, decimal};
ghost use Rattle.serde_json.specs.Data.{object};
ghost use Rattle.held_text.specs.HeldRules.{Wrote, WroteMembers};
ghost use Rattle.settings_machine.specs.Requests.{JobIs};
ghost use Rattle.machine_answers.specs.Bodies.{cause_words, standing, failure, job_entries, members_of, IsTextOf};

use held_text::write_owed;
use json::Writer;
use json_trees::text_of;
use key_names::Text;
use settings_machine::{Cause, JobStatus};
use settings_tree::Owed;
use std::alloc::{AllocError, Global};

fn spawn_words(alloc: Global, service: &str) -> Result<Text, AllocError>
    ensures { IfOk result (λ text. text ≡ codes "spawn " ++ service.now) }
{
    let text = format!(in alloc; "spawn {service}")?;
    Ok(Text::of(text))
}

fn render_words(alloc: Global, file: &str) -> Result<Text, AllocError>
    ensures { IfOk result (λ text. text ≡ codes "render " ++ file.now) }
{
    let text = format!(in alloc; "render {file}")?;
    Ok(Text::of(text))
}

fn status_words(alloc: Global, service: &str, number: u16) -> Result<Text, AllocError>
    ensures { IfOk result (λ text. text ≡ codes "status " ++ service.now ++ codes " " ++ decimal number) }
{
    let text = format!(in alloc; "status {service} {number}")?;
    Ok(Text::of(text))
}

/// Why a job failed, as the body of the job tells it: `disk`, `spawn SERVICE`, `render FILE`, `status SERVICE NUMBER` or `memory`. The
/// only error is out of memory.
pub fn cause_words(alloc: Global, cause: &Cause) -> Result<Text, AllocError>
    ensures { IfOk result (λ text. text ≡ cause_words cause.now) }
{
    match cause {
        Cause::Disk => Text::from_str(alloc, "disk"),
        Cause::Spawn { service } => spawn_words(alloc, service.as_str()),
        Cause::Render { file, .. } => render_words(alloc, file.as_str()),
        Cause::Status { service, number } => status_words(alloc, service.as_str(), *number),
        Cause::Memory => Text::from_str(alloc, "memory"),
    }
}

// Writes the members `job` and `owed`, and ends the object.
fn write_standing(writer: &mut Writer, word: &str, owed: &Owed) -> Result<(), AllocError>
    ensures { OnOk result (WroteMembers (members_of (standing word.now owed.now)) writer.old writer.new) }
{
    writer.key("job")?;
    writer.string(word)?;
    writer.key("owed")?;
    write_owed(writer, owed)?;
    writer.end_object()
}

// Writes the members `cause`, `job` and `owed`, and ends the object.
fn write_failed(
    writer: &mut Writer,
    alloc: Global,
    cause: &Cause,
    owed: &Owed,
) -> Result<(), AllocError>
    ensures { OnOk result (WroteMembers (members_of (failure cause.now owed.now)) writer.old writer.new) }
{
    let words = cause_words(alloc, cause)?;
    writer.key("cause")?;
    writer.string(words.as_str())?;
    write_standing(writer, "failed", owed)
}

fn write_members(
    writer: &mut Writer,
    alloc: Global,
    status: &JobStatus,
    owed: &Owed,
) -> Result<(), AllocError>
    ensures { OnOk result (WroteMembers (members_of (job_entries status.now owed.now)) writer.old writer.new) }
{
    match status {
        JobStatus::Idle => write_standing(writer, "idle", owed),
        JobStatus::Failed(cause) => write_failed(writer, alloc, cause, owed),
        JobStatus::Running => write_standing(writer, "running", owed),
    }
}

fn write_job(
    writer: &mut Writer,
    alloc: Global,
    status: &JobStatus,
    owed: &Owed,
) -> Result<(), AllocError>
    ensures { OnOk result (Wrote (object (members_of (job_entries status.now owed.now))) writer.old writer.new) }
{
    writer.begin_object()?;
    write_members(writer, alloc, status, owed)
}

/// The body that tells the job and what is owed: an object of compact JSON (RFC 8259) with these members, in this order.
///
/// - `cause`, where the job failed alone: `disk`, `spawn SERVICE`, `render FILE`, `status SERVICE NUMBER` or `memory`
/// - `job`: `idle`, `failed` or `running`
/// - `owed`: `"all"` or a list of keys, printed and rising
///
/// The only error is out of memory. It takes the time of printing the owed keys.
pub fn job_text(alloc: Global, status: &JobStatus, owed: &Owed) -> Result<Text, AllocError>
    ensures { IfOk result (IsTextOf (JobIs status.now owed.now)) }
{
    let mut writer = Writer::new(Vec::new(alloc));
    write_job(&mut writer, alloc, status, owed)?;
    Ok(text_of(writer))
}
