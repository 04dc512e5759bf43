//! What the files are.
ghost use Rattle.std.specs.Prelude.{◌≡◌, ◌++◌, IfOk, OnOk};
ghost use Rattle.serde_json.specs.View.{view, members_view};
ghost use Rattle.host_client.specs.Lines.{state_line, state_lines, is_well, are_well, state_status};
ghost use Rattle.host_client.specs.Steps.{IsSound, files_of, states_told, by_states};

use crate::ending::{bad_reply, ended, is_success, refused_by};
use crate::lines::{push_end, push_spaced, push_spaced_if};
use crate::members::{member_text, text_in};
use crate::reply::Got;
use crate::step::Step;
use json_trees::json_of;
use serde_json::{Map, Value};
use std::alloc::{AllocError, Global};

// Adds the line of a file.
fn push_state(lines: &mut Vec<u8>, file: &str, value: &Value) -> Result<(), AllocError>
    ensures { OnOk result (lines.new.items ≡ lines.old.items ++ state_line file.now (view value.now)) }
{
    lines.extend_from_slice(file.as_bytes())?;
    push_spaced(lines, member_text(value, "state"))?;
    push_spaced_if(lines, text_in(value, "kind"))?;
    push_spaced_if(lines, text_in(value, "at"))?;
    push_end(lines)
}

// The lines of the files.
fn state_lines(alloc: Global, files: &Map<String, Value>) -> Result<Vec<u8>, AllocError>
    ensures { IfOk result (λ lines. lines.items ≡ state_lines (members_view files.now.entries)) }
{
    let mut lines = Vec::new(alloc);
    for (file, value) in files.iter() {
        push_state(&mut lines, file.as_str(), value)?;
    }
    Ok(lines)
}

fn is_well(value: &Value) -> bool
    ensures { result ≡ is_well (view value.now) }
{
    matches!(member_text(value, "state"), "current" | "owed")
}

fn are_well(files: &Map<String, Value>) -> bool
    ensures { result ≡ are_well (members_view files.now.entries) }
{
    for (_, value) in files.iter() {
        if !is_well(value) {
            return false;
        }
    }
    true
}

fn state_status(files: &Map<String, Value>) -> u8
    ensures { result ≡ state_status (members_view files.now.entries) }
{
    if are_well(files) { 0 } else { 19 }
}

fn states_told(alloc: Global, value: &Value) -> Result<Step, AllocError>
    ensures step { IfOk result (λ step. step ≡ states_told (files_of (view value.now))) }
    ensures sound { IfOk result IsSound }
{
    match value.get("files").and_then(Value::as_object) {
        Some(files) => {
            let lines = state_lines(alloc, files)?;
            Ok(ended(state_status(files), lines))
        }
        None => bad_reply(alloc),
    }
}

/// The end by a reply to `GET /verify`. The only error is out of memory.
pub(crate) fn by_states(alloc: Global, reply: &Got) -> Result<Step, AllocError>
    ensures step { IfOk result (λ step. step ≡ by_states reply.now) }
    ensures sound { IfOk result IsSound }
{
    if !is_success(reply) {
        return refused_by(alloc, &[], reply);
    }
    match json_of(alloc, reply.body.as_slice())? {
        Some(value) => states_told(alloc, &value),
        None => bad_reply(alloc),
    }
}
