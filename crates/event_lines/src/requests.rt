//! The lines of requests.
ghost use Rattle.std.specs.Prelude.{◌≡◌, ◌++◌, [], if◌then◌else◌, IfOk};
ghost use Rattle.std.specs.List.{flat_map};
ghost use Rattle.settings_machine.specs.Asked.{request_of};
ghost use Rattle.affected_apply.specs.Jobs.{job_of};
ghost use Rattle.event_lines.specs.Logfmt.{pair_text};
ghost use Rattle.event_lines.specs.Lines.{changes, deeds, is_of_success, request_line, job_lines};
ghost use Rattle.pending_tx.specs.Transactions.{changed_keys};

use crate::job_lines::with_job;
use crate::logfmt::Lines;
use crate::targets::{method_of, path_of, with_subject};
use crate::values::{keys_of, listed};
use affected_apply::JobState;
use key_names::Bytes;
use pending_tx::{CommitError, commit, set};
use settings_machine::Request;
use settings_tree::{Held, KeyList, TxName};
use std::alloc::{AllocError, Global};

// The keys whose live values a commit of the transaction changes; none where there is no such transaction.
fn changed_by_commit(alloc: Global, held: &Held, tx: &TxName) -> Result<KeyList, AllocError>
    ensures { IfOk result (λ keys. keys ≡ changed_keys held.now tx.now) }
{
    match commit(alloc, held, tx) {
        Ok(commit) => Ok(commit.changed),
        Err(CommitError::NoPending) => Ok(KeyList::new(alloc)),
        Err(CommitError::Memory) => Err(AllocError),
    }
}

/// The keys whose live values the request changes where it is answered with success, rising. The only error is out of memory. It takes
/// the time of planning the change.
pub fn changed_by(alloc: Global, held: &Held, request: &Request) -> Result<KeyList, AllocError>
    ensures { IfOk result (λ keys. keys ≡ changes held.now (request_of request.now)) }
{
    match request {
        Request::Commit { tx, .. } | Request::CommitAndApply { tx, .. } => {
            changed_by_commit(alloc, held, tx)
        }
        Request::Set { pairs, .. } => Ok(set(alloc, held, pairs)?.changed),
        _ => Ok(KeyList::new(alloc)),
    }
}

// Whether the status is one of success.
fn is_of_success(status: u16) -> bool
    ensures { result ≡ is_of_success status }
{
    200 <= status && status <= 299
}

// The pairs for what the request did.
fn with_deeds(
    alloc: Global,
    lines: Lines,
    request: &Request,
    changed: &KeyList,
) -> Result<Lines, AllocError>
    ensures { IfOk result (λ more. more ≡ lines ++ flat_map pair_text (deeds (request_of request.now) changed.now)) }
{
    match request {
        Request::Patch { pairs, .. } => {
            let keys = keys_of(alloc, pairs)?;
            lines.pair("keys", listed(alloc, &keys)?.as_str())
        }
        Request::Commit { .. } | Request::CommitAndApply { .. } | Request::Set { .. } => {
            lines.pair("changed", listed(alloc, changed.as_slice())?.as_str())
        }
        _ => Ok(lines),
    }
}

// The pairs for what the request did, where it was answered with success.
fn with_success(
    alloc: Global,
    lines: Lines,
    request: &Request,
    changed: &KeyList,
    status: u16,
) -> Result<Lines, AllocError>
    ensures { IfOk result (λ more. more ≡ lines
        ++ flat_map pair_text (if is_of_success status then deeds (request_of request.now) changed.now else [])) }
{
    if is_of_success(status) {
        with_deeds(alloc, lines, request, changed)
    } else {
        Ok(lines)
    }
}

// The line of the request.
fn with_request(
    alloc: Global,
    request: &Request,
    changed: &KeyList,
    status: u16,
) -> Result<Lines, AllocError>
    ensures { IfOk result (λ lines. lines ≡ request_line (request_of request.now) changed.now status) }
{
    let lines = Lines::new(alloc)
        .begin("request")?
        .pair("method", method_of(request))?
        .pair("path", path_of(request))?;
    let lines = with_subject(lines, request)?.number("status", u64::from(status))?;
    with_success(alloc, lines, request, changed, status)?.end()
}

/// The lines of a request: `request method=POST path=/tx/commit tx=mine status=200 changed=settings.motd`, with the status of its
/// reply; and what it made of the job, by whether one ran before it: `job-began files=1 commands=1`, `job-failed cause=disk`,
/// `job-ended`. The only error is out of memory. It costs the length of the lines.
pub fn request_lines(
    alloc: Global,
    request: &Request,
    changed: &KeyList,
    status: u16,
    was_running: bool,
    job: &JobState,
) -> Result<Bytes, AllocError>
    ensures { IfOk result (λ text. text ≡ request_line (request_of request.now) changed.now status ++ job_lines was_running (job_of job.now)) }
{
    let lines = with_request(alloc, request, changed, status)?;
    let lines = with_job(alloc, lines, was_running, job)?;
    Ok(lines.into_bytes())
}
