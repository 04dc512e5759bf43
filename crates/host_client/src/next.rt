//! What comes next, after the replies so far.
ghost use Rattle.std.specs.Prelude.{◌≡◌, ◌++◌, ◌∷◌, IfOk};
ghost use Rattle.std.specs.Option.{option_copied};
ghost use Rattle.host_client.specs.Orders.{order_of};
ghost use Rattle.host_client.specs.Steps.{IsSound, below_question, key_question, first_question, asking, by_job, by_last};
ghost use Rattle.host_client.specs.Steps.{is_nothing, next_below, after_nothing, after_each, after_missing, after_get, after_change, last_of, follow, next};
ghost use Rattle.outside.specs.Spawner.{texts};

use crate::asked::{below_question, first_question, job_question, key_question};
use crate::command::Command;
use crate::ending::{asking, body_line, ended, ended_by, is_success, joined, refused_by, shown_by};
use crate::job::{Job, cause_status, job_of};
use crate::planned::{after_try, by_plan};
use crate::reply::Got;
use crate::states::by_states;
use crate::status::after_status;
use crate::step::Step;
use crate::trees::{by_trees, settings_by};
use std::alloc::{AllocError, Global};

fn ask_below(alloc: Global, key: &[u8]) -> Result<Step, AllocError>
    ensures step { IfOk result (λ step. step ≡ asking (below_question key.now)) }
    ensures sound { IfOk result IsSound }
{
    let question = below_question(alloc, key)?;
    asking(alloc, question)
}

fn ask_alone(alloc: Global, key: &[u8]) -> Result<Step, AllocError>
    ensures step { IfOk result (λ step. step ≡ asking (key_question key.now)) }
    ensures sound { IfOk result IsSound }
{
    let question = key_question(alloc, key)?;
    asking(alloc, question)
}

// Whether nothing is at a key or below it.
fn is_nothing(below: &Got) -> bool
    ensures { result ≡ is_nothing below.now }
{
    is_success(below) && below.body.as_slice() == b"{}".as_slice()
}

fn next_below(alloc: Global, key: &[u8], reply: &Got, replies: &[Got]) -> Result<Step, AllocError>
    ensures step { IfOk result (λ step. step ≡ next_below key.now reply.now replies.now) }
    ensures sound { IfOk result IsSound }
{
    match replies {
        [] => ask_below(alloc, key),
        [below, ..] if is_nothing(below) => settings_by(alloc, reply),
        [below, ..] => settings_by(alloc, below),
    }
}

fn after_nothing(alloc: Global, key: &[u8], replies: &[Got]) -> Result<Step, AllocError>
    ensures step { IfOk result (λ step. step ≡ after_nothing key.now replies.now) }
    ensures sound { IfOk result IsSound }
{
    match replies {
        [] => ask_alone(alloc, key),
        [alone, ..] => settings_by(alloc, alone),
    }
}

// Several keys, each asked for with what is below it.
fn after_each(alloc: Global, keys: &[String], replies: &[Got]) -> Result<Step, AllocError>
    ensures step { IfOk result (λ step. step ≡ after_each (texts keys.now) replies.now replies.now) }
    ensures sound { IfOk result IsSound }
{
    let mut rest = replies;
    for key in keys {
        match rest {
            [] => return ask_below(alloc, key.as_bytes()),
            [below, later @ ..] if is_nothing(below) => {
                return after_nothing(alloc, key.as_bytes(), later);
            }
            [below, later @ ..] if is_success(below) => rest = later,
            [below, ..] => return refused_by(alloc, &[], below),
        }
    }
    by_trees(alloc, replies)
}

fn after_missing(
    alloc: Global,
    keys: &[String],
    reply: &Got,
    replies: &[Got],
) -> Result<Step, AllocError>
    ensures step { IfOk result (λ step. step ≡ after_missing (texts keys.now) reply.now replies.now) }
    ensures sound { IfOk result IsSound }
{
    match keys {
        [] => settings_by(alloc, reply),
        [key] => next_below(alloc, key.as_bytes(), reply, replies),
        [_, _, ..] => after_each(alloc, keys, replies),
    }
}

fn after_get(
    alloc: Global,
    keys: &[String],
    reply: &Got,
    replies: &[Got],
) -> Result<Step, AllocError>
    ensures step { IfOk result (λ step. step ≡ after_get (texts keys.now) reply.now replies.now) }
    ensures sound { IfOk result IsSound }
{
    if reply.status == 404 {
        after_missing(alloc, keys, reply, replies)
    } else {
        settings_by(alloc, reply)
    }
}

// How a job that failed is told.
fn failed(alloc: Global, front: &[u8], cause: &[u8]) -> Result<Step, AllocError>
    ensures step { IfOk result (λ step. step ≡ by_job front.now (Job.Failed cause.now)) }
    ensures sound { IfOk result IsSound }
{
    let mut line = joined(alloc, front, b"settingsctl: ")?;
    line.extend_from_slice(cause)?;
    line.extend_from_slice(b"\n")?;
    Ok(ended(cause_status(cause), line))
}

fn by_job(alloc: Global, front: &[u8], job: &Job) -> Result<Step, AllocError>
    ensures step { IfOk result (λ step. step ≡ by_job front.now job.now) }
    ensures sound { IfOk result IsSound }
{
    match job {
        Job::Running => {
            let question = job_question(alloc)?;
            asking(alloc, question)
        }
        Job::Done => Ok(ended(0, front.to_vec(alloc)?)),
        Job::Owed => Ok(ended(10, joined(alloc, front, b"settingsctl: owed\n")?)),
        Job::Failed { cause } => failed(alloc, front, cause.as_slice()),
        Job::Unknown => Ok(ended(21, joined(alloc, front, b"settingsctl: bad reply\n")?)),
    }
}

fn by_last(alloc: Global, front: &[u8], last: Option<&Got>) -> Result<Step, AllocError>
    ensures step { IfOk result (λ step. step ≡ by_last front.now (option_copied last.entry)) }
    ensures sound { IfOk result IsSound }
{
    match last {
        None => by_job(alloc, front, &Job::Running),
        Some(reply) if is_success(reply) => {
            let job = job_of(alloc, reply.body.as_slice())?;
            by_job(alloc, front, &job)
        }
        Some(reply) => refused_by(alloc, front, reply),
    }
}

fn after_change(alloc: Global, reply: &Got, replies: &[Got]) -> Result<Step, AllocError>
    ensures step { IfOk result (λ step. step ≡ after_change reply.now replies.now) }
    ensures sound { IfOk result IsSound }
{
    if !is_success(reply) {
        return refused_by(alloc, &[], reply);
    }
    let front = body_line(alloc, reply.body.as_slice())?;
    by_last(alloc, &front, replies.last())
}

fn first_step(alloc: Global, command: &Command<'_>) -> Result<Step, AllocError>
    ensures step { IfOk result (λ step. step ≡ asking (first_question (order_of command.now))) }
    ensures sound { IfOk result IsSound }
{
    let question = first_question(alloc, command)?;
    asking(alloc, question)
}

// What comes after the first reply and the others, of which this is the last.
fn follow(
    alloc: Global,
    command: &Command<'_>,
    reply: &Got,
    replies: &[Got],
    last: Option<&Got>,
) -> Result<Step, AllocError>
    requires { option_copied last ≡ last_of (reply.now ∷ replies.now) }
    ensures step { IfOk result (λ step. step ≡ follow (order_of command.now) reply.now replies.now) }
    ensures sound { IfOk result IsSound }
{
    match command {
        Command::Get { keys } => after_get(alloc, keys, reply, replies),
        Command::Set { .. } | Command::Commit { .. } | Command::Apply { .. } => after_change(
            alloc, reply, replies,
        ),
        Command::Plan { .. } => by_plan(alloc, reply),
        Command::TryOut { body } => after_try(alloc, body, reply, replies),
        Command::Show { .. } => shown_by(alloc, reply),
        Command::Wait { .. } => by_last(alloc, &[], last),
        Command::Status => after_status(alloc, reply, replies),
        Command::Verify => by_states(alloc, reply),
        _ => ended_by(alloc, reply),
    }
}

/// What comes after these replies. The only error is out of memory.
pub(crate) fn next_of(
    alloc: Global,
    command: &Command<'_>,
    replies: &[Got],
) -> Result<Step, AllocError>
    ensures step { IfOk result (λ step. step ≡ next (order_of command.now) replies.now) }
    ensures sound { IfOk result IsSound }
{
    match replies {
        [] => first_step(alloc, command),
        [reply, rest @ ..] => follow(alloc, command, reply, rest, replies.last()),
    }
}
