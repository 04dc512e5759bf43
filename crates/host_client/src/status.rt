//! The store and its job, for a person.
ghost use Rattle.std.specs.Prelude.{◌≡◌, ◌++◌, IfOk, OnOk, map};
ghost use Rattle.std.specs.List.{flat_map};
ghost use Rattle.serde_json.specs.View.{view};
ghost use Rattle.host_client.specs.Lines.{pending_line, tx_lines, pending_lines, owed_lines, job_line, is_status, status_lines};
ghost use Rattle.host_client.specs.Steps.{IsSound, asking, job_question, status_read, status_told, after_store, after_status};

use crate::asked::job_question;
use crate::ending::{asking, bad_reply, ended, is_success, refused_by};
use crate::lines::{push_end, push_spaced, push_spaced_if, push_text_lines, push_word};
use crate::members::{has_text, items_at, listed, member_text, text_at, text_in};
use crate::reply::Got;
use crate::step::Step;
use json_trees::json_of;
use serde_json::Value;
use std::alloc::{AllocError, Global};

// Adds the line of a key that is pending.
fn push_pending(lines: &mut Vec<u8>, tx: &str, pair: &Value) -> Result<(), AllocError>
    ensures { OnOk result (lines.new.items ≡ lines.old.items ++ pending_line tx.now (view pair.now)) }
{
    lines.extend_from_slice(b"pending")?;
    push_spaced(lines, tx)?;
    push_spaced(lines, text_at(pair, 0))?;
    push_end(lines)
}

// The lines of the keys that are pending in a transaction.
fn push_pairs(lines: &mut Vec<u8>, tx: &str, pairs: &[Value]) -> Result<(), AllocError>
    ensures { OnOk result (lines.new.items
        ≡ lines.old.items ++ flat_map (pending_line tx.now) (map view pairs.now)) }
{
    for pair in pairs {
        push_pending(lines, tx, pair)?;
    }
    Ok(())
}

// The lines of a transaction.
fn push_tx(lines: &mut Vec<u8>, row: &Value) -> Result<(), AllocError>
    ensures { OnOk result (lines.new.items ≡ lines.old.items ++ tx_lines (view row.now)) }
{
    push_pairs(lines, text_at(row, 0), items_at(row, 1))
}

// The lines of the transactions.
fn push_rows(lines: &mut Vec<u8>, rows: &[Value]) -> Result<(), AllocError>
    ensures { OnOk result (lines.new.items ≡ lines.old.items ++ flat_map tx_lines (map view rows.now)) }
{
    for row in rows {
        push_tx(lines, row)?;
    }
    Ok(())
}

// The lines of what is pending in the store.
fn push_all_pending(lines: &mut Vec<u8>, store: &Value) -> Result<(), AllocError>
    ensures { OnOk result (lines.new.items ≡ lines.old.items ++ pending_lines (view store.now)) }
{
    match store.get("held") {
        Some(held) => push_rows(lines, listed(held, "pending")),
        None => Ok(()),
    }
}

// The lines of what is owed.
fn push_owed(lines: &mut Vec<u8>, job: &Value) -> Result<(), AllocError>
    ensures { OnOk result (lines.new.items ≡ lines.old.items ++ owed_lines (view job.now)) }
{
    match text_in(job, "owed") {
        Some(all) => push_word(lines, "owed", all),
        None => push_text_lines(lines, "owed", job, "owed"),
    }
}

// Adds the line of the job.
fn push_job(lines: &mut Vec<u8>, job: &Value) -> Result<(), AllocError>
    ensures { OnOk result (lines.new.items ≡ lines.old.items ++ job_line (view job.now)) }
{
    lines.extend_from_slice(b"job")?;
    push_spaced(lines, member_text(job, "job"))?;
    push_spaced_if(lines, text_in(job, "cause"))?;
    push_end(lines)
}

fn status_lines(alloc: Global, store: &Value, job: &Value) -> Result<Vec<u8>, AllocError>
    ensures { IfOk result (λ lines. lines.items ≡ status_lines (view store.now) (view job.now)) }
{
    let mut lines = Vec::new(alloc);
    push_word(&mut lines, "version", member_text(store, "version"))?;
    push_job(&mut lines, job)?;
    push_owed(&mut lines, job)?;
    push_all_pending(&mut lines, store)?;
    Ok(lines)
}

// Both values were read.
fn status_read(alloc: Global, store: &Value, job: &Value) -> Result<Step, AllocError>
    ensures step { IfOk result (λ step. step ≡ status_read (view store.now) (view job.now)) }
    ensures sound { IfOk result IsSound }
{
    let told = has_text(store, "version") && has_text(job, "job");
    if told {
        let lines = status_lines(alloc, store, job)?;
        Ok(ended(0, lines))
    } else {
        bad_reply(alloc)
    }
}

fn status_told(alloc: Global, store: &Got, job: &Got) -> Result<Step, AllocError>
    ensures step { IfOk result (λ step. step ≡ status_told store.now job.now) }
    ensures sound { IfOk result IsSound }
{
    let Some(store) = json_of(alloc, store.body.as_slice())? else {
        return bad_reply(alloc);
    };
    match json_of(alloc, job.body.as_slice())? {
        Some(job) => status_read(alloc, &store, &job),
        None => bad_reply(alloc),
    }
}

fn ask_job(alloc: Global) -> Result<Step, AllocError>
    ensures step { IfOk result (λ step. step ≡ asking job_question) }
    ensures sound { IfOk result IsSound }
{
    let question = job_question(alloc)?;
    asking(alloc, question)
}

fn after_store(alloc: Global, store: &Got, replies: &[Got]) -> Result<Step, AllocError>
    ensures step { IfOk result (λ step. step ≡ after_store store.now replies.now) }
    ensures sound { IfOk result IsSound }
{
    match replies {
        [] => ask_job(alloc),
        [job, ..] if is_success(job) => status_told(alloc, store, job),
        [job, ..] => refused_by(alloc, &[], job),
    }
}

/// What comes after the reply to `GET /store`. The only error is out of memory.
pub(crate) fn after_status(alloc: Global, reply: &Got, replies: &[Got]) -> Result<Step, AllocError>
    ensures step { IfOk result (λ step. step ≡ after_status reply.now replies.now) }
    ensures sound { IfOk result IsSound }
{
    if is_success(reply) {
        after_store(alloc, reply, replies)
    } else {
        refused_by(alloc, &[], reply)
    }
}
