//! What a run comes to, as its status and its text.
use crate::run::Seen;
use crate::trouble::{Trouble, differs, same};
use command_outcome::{Refusal, tell};
use disk_memory::MemorySink;
use key_names::Bytes;
use settings_machine::{Cause, Job};
use std::alloc::{AllocError, Global};

/// What a run comes to: what it prints, or why it is refused.
pub type Outcome = Result<Bytes, Refusal>;

/// The bytes of the text and a line feed.
pub fn line(alloc: Global, text: &str) -> Result<Bytes, AllocError> {
    let text = format!(in alloc; "{text}\n")?;
    Ok(Bytes::of(text.into_bytes()))
}

/// These bytes.
pub fn bytes(alloc: Global, bytes: &[u8]) -> Result<Bytes, AllocError> {
    Ok(Bytes::of(bytes.to_vec(alloc)?))
}

/// The run has to have ended so.
pub fn check_end(alloc: Global, seen: &Seen, outcome: &Outcome) -> Result<(), Trouble> {
    let mut out = MemorySink::new(alloc);
    let status = tell(alloc, &mut out, outcome);
    same(alloc, &seen.printed, out.written(), "printed")?;
    if status == seen.status {
        return Ok(());
    }
    let ended = seen.status;
    let text = format!(in alloc; "ended with {ended}, not {status}")?;
    Err(differs(alloc, text.as_str()))
}

/// Why a command is refused whose job has ended so; None where it didn't fail.
pub fn refusal_of(job: Job) -> Option<Refusal> {
    let Job::Failed(cause) = job else {
        return None;
    };
    Some(match cause {
        Cause::Disk => Refusal::Disk,
        Cause::Spawn { service } => Refusal::Spawn { name: service },
        Cause::Render { file, error } => Refusal::Render { file, error },
        Cause::Status { service, number } => Refusal::Status { service, number },
        Cause::Memory => Refusal::Memory,
    })
}
