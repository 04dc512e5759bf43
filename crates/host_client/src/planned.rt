//! What a plan comes to.
ghost use Rattle.std.specs.Prelude.{◌≡◌, IfOk};
ghost use Rattle.serde_json.specs.View.{view};
ghost use Rattle.host_client.specs.Lines.{is_plan, plan_lines, plan_status};
ghost use Rattle.host_client.specs.Steps.{IsSound, own_tx, plan_read, by_plan, ask_discard, ask_plan, ask_edit, after_plan, after_edit, after_drop, after_try};

use crate::asked::{OWN_TX, discard_question, edit_question, plan_question};
use crate::ending::{asking, bad_reply, ended, is_success, refused_by};
use crate::job::is_empty;
use crate::lines::{push_row_lines, push_text_lines};
use crate::members::{has_list, list_in};
use crate::reply::Got;
use crate::step::Step;
use json_trees::json_of;
use key_names::Text;
use serde_json::Value;
use std::alloc::{AllocError, Global};

fn is_plan(value: &Value) -> bool
    ensures { result ≡ is_plan (view value.now) }
{
    let changes = has_list(value, "changed") && has_list(value, "files");
    let runs = has_list(value, "commands") && has_list(value, "refused");
    changes && runs
}

fn plan_lines(alloc: Global, value: &Value) -> Result<Vec<u8>, AllocError>
    ensures { IfOk result (λ lines. lines.items ≡ plan_lines (view value.now)) }
{
    let mut lines = Vec::new(alloc);
    push_text_lines(&mut lines, "change", value, "changed")?;
    push_row_lines(&mut lines, "write", value, "files")?;
    push_row_lines(&mut lines, "run", value, "commands")?;
    push_row_lines(&mut lines, "refuse", value, "refused")?;
    Ok(lines)
}

fn plan_status(value: &Value) -> u8
    ensures { result ≡ plan_status (view value.now) }
{
    if is_empty(list_in(value, "refused")) {
        0
    } else {
        10
    }
}

// A value that was read, by its lines.
fn plan_read(alloc: Global, value: &Value) -> Result<Step, AllocError>
    ensures step { IfOk result (λ step. step ≡ plan_read (view value.now)) }
    ensures sound { IfOk result IsSound }
{
    if is_plan(value) {
        let lines = plan_lines(alloc, value)?;
        Ok(ended(plan_status(value), lines))
    } else {
        bad_reply(alloc)
    }
}

/// The end by a reply to `GET /plan`. The only error is out of memory.
pub(crate) fn by_plan(alloc: Global, reply: &Got) -> Result<Step, AllocError>
    ensures step { IfOk result (λ step. step ≡ by_plan reply.now) }
    ensures sound { IfOk result IsSound }
{
    if !is_success(reply) {
        return refused_by(alloc, &[], reply);
    }
    match json_of(alloc, reply.body.as_slice())? {
        Some(value) => plan_read(alloc, &value),
        None => bad_reply(alloc),
    }
}

// ---- changes that are tried out

fn ask_discard(alloc: Global) -> Result<Step, AllocError>
    ensures step { IfOk result (λ step. step ≡ ask_discard) }
    ensures sound { IfOk result IsSound }
{
    let question = discard_question(alloc, OWN_TX)?;
    asking(alloc, question)
}

fn ask_plan(alloc: Global) -> Result<Step, AllocError>
    ensures step { IfOk result (λ step. step ≡ ask_plan) }
    ensures sound { IfOk result IsSound }
{
    let question = plan_question(alloc, Some(OWN_TX))?;
    asking(alloc, question)
}

fn ask_edit(alloc: Global, body: &Text) -> Result<Step, AllocError>
    ensures step { IfOk result (λ step. step ≡ ask_edit body.now) }
    ensures sound { IfOk result IsSound }
{
    let question = edit_question(alloc, OWN_TX, body)?;
    asking(alloc, question)
}

fn after_plan(alloc: Global, planned: &Got, replies: &[Got]) -> Result<Step, AllocError>
    ensures step { IfOk result (λ step. step ≡ after_plan planned.now replies.now) }
    ensures sound { IfOk result IsSound }
{
    match replies {
        [] => ask_discard(alloc),
        [dropped, ..] if is_success(dropped) => by_plan(alloc, planned),
        [dropped, ..] => refused_by(alloc, &[], dropped),
    }
}

fn after_edit(alloc: Global, replies: &[Got]) -> Result<Step, AllocError>
    ensures step { IfOk result (λ step. step ≡ after_edit replies.now) }
    ensures sound { IfOk result IsSound }
{
    match replies {
        [] => ask_plan(alloc),
        [planned, rest @ ..] => after_plan(alloc, planned, rest),
    }
}

fn after_drop(alloc: Global, body: &Text, replies: &[Got]) -> Result<Step, AllocError>
    ensures step { IfOk result (λ step. step ≡ after_drop body.now replies.now) }
    ensures sound { IfOk result IsSound }
{
    match replies {
        [] => ask_edit(alloc, body),
        [edited, rest @ ..] if is_success(edited) => after_edit(alloc, rest),
        [edited, ..] => refused_by(alloc, &[], edited),
    }
}

/// What comes after a transaction that was left is dropped. The only error is out of memory.
pub(crate) fn after_try(
    alloc: Global,
    body: &Text,
    reply: &Got,
    replies: &[Got],
) -> Result<Step, AllocError>
    ensures step { IfOk result (λ step. step ≡ after_try body.now reply.now replies.now) }
    ensures sound { IfOk result IsSound }
{
    if is_success(reply) {
        after_drop(alloc, body, replies)
    } else {
        refused_by(alloc, &[], reply)
    }
}
