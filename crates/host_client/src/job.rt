//! What a reply tells of the job.
ghost use Rattle.std.specs.Prelude.{◌≡◌, IfOk, option_map};
ghost use Rattle.serde_json.specs.View.{view, items_view};
ghost use Rattle.host_client.specs.Jobs.{is_empty, owes_nothing, failed_in, in_state, job_in, job_of, cause_status};

use crate::members::{list_in, text_in};
use json_trees::json_of;
use key_names::Bytes;
use serde_json::Value;
use std::alloc::{AllocError, Global};

/// How a job goes.
#[derive(Debug, Drop)]
pub enum Job {
    /// It runs.
    Running,
    /// It doesn't, and nothing is owed.
    Done,
    /// It doesn't, and something is owed.
    Owed,
    /// It failed.
    Failed {
        /// Why, as `disk` or `status chronyd 1`.
        cause: Bytes,
    },
    /// It isn't told.
    Unknown,
}

/// Whether it is a list without items.
pub(crate) fn is_empty(list: Option<&Vec<Value>>) -> bool
    ensures { result ≡ is_empty (option_map (λ v. items_view v.now.items) list.entry) }
{
    match list {
        Some(list) => list.as_slice().is_empty(),
        None => false,
    }
}

// Whether nothing is owed.
fn owes_nothing(value: &Value) -> bool
    ensures { result ≡ owes_nothing (view value.now) }
{
    is_empty(list_in(value, "owed"))
}

// The job that failed.
fn failed_in(alloc: Global, value: &Value) -> Result<Job, AllocError>
    ensures { IfOk result (λ job. job ≡ failed_in (view value.now)) }
{
    match text_in(value, "cause") {
        Some(cause) => Ok(Job::Failed {
            cause: Bytes::of(cause.as_bytes().to_vec(alloc)?),
        }),
        None => Ok(Job::Unknown),
    }
}

// The job in this state.
fn in_state(alloc: Global, state: &str, value: &Value) -> Result<Job, AllocError>
    ensures { IfOk result (λ job. job ≡ in_state state.now (view value.now)) }
{
    match state {
        "running" => Ok(Job::Running),
        "idle" if owes_nothing(value) => Ok(Job::Done),
        "idle" => Ok(Job::Owed),
        "failed" => failed_in(alloc, value),
        _ => Ok(Job::Unknown),
    }
}

// The job that the value tells.
fn job_in(alloc: Global, value: &Value) -> Result<Job, AllocError>
    ensures { IfOk result (λ job. job ≡ job_in (view value.now)) }
{
    match text_in(value, "job") {
        Some(state) => in_state(alloc, state, value),
        None => Ok(Job::Unknown),
    }
}

/// The job that the body of a reply to `GET /job` tells: `Unknown` where it is no JSON object with a text `job` that is `running`,
/// `idle` or `failed`, the last with a text `cause`. The only error is out of memory.
pub(crate) fn job_of(alloc: Global, body: &[u8]) -> Result<Job, AllocError>
    ensures { IfOk result (λ job. job ≡ job_of body.now) }
{
    match json_of(alloc, body)? {
        Some(value) => job_in(alloc, &value),
        None => Ok(Job::Unknown),
    }
}

/// The exit status of a job that failed for this cause.
pub(crate) fn cause_status(cause: &[u8]) -> u8
    ensures { result ≡ cause_status cause.now }
{
    if cause == b"memory".as_slice() {
        1
    } else if cause == b"disk".as_slice() {
        3
    } else if cause.starts_with(b"spawn ") {
        5
    } else {
        10
    }
}
