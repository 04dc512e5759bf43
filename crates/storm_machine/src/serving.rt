//! The events of `serve`.
use crate::log_lines::refused;
use crate::log_words::word_of;
use crate::outcomes::{Outcome, bytes};
use crate::replay::Replay;
use crate::run::Run;
use crate::trouble::{Trouble, differs, same};
use api_http::{Reading, Reply, print_refusal, read_request};
use command_outcome::Refusal;
use machine_replies::Told;
use settings_machine::Request;
use std::alloc::{AllocError, Global};
use storm_steps::{Sent, Serving, Step};

// The reply to `told`; None represents a disk that failed.
fn printed(alloc: Global, told: Option<Told>) -> Result<Reply, AllocError> {
    match told {
        Some(told) => told.reply(alloc),
        None => Ok(Reply::disk()),
    }
}

// The reply to what a client sends; None where no request comes.
fn reply_to(alloc: Global, replay: &mut Replay, sent: &Sent) -> Result<Option<Reply>, AllocError> {
    if sent.read_fails {
        return Ok(None);
    }
    match read_request(alloc, &sent.bytes)? {
        Reading::NotYet => Ok(None),
        Reading::Refused { refusal } => {
            refused(&mut replay.log, refusal.status(), word_of(&refusal))?;
            Ok(Some(print_refusal(alloc, &refusal)?))
        }
        Reading::Whole { request, .. } => {
            let told = replay.ask(alloc, &request)?;
            Ok(Some(printed(alloc, told)?))
        }
    }
}

// The bytes of the reply that reach the client.
fn written<'a>(reply: &'a Option<Reply>, sent: &Sent) -> &'a [u8] {
    match reply {
        Some(reply) if !sent.write_fails => reply.bytes(),
        _ => &[],
    }
}

// One connection, to which this was written, and a slice of turns.
fn connection(
    alloc: Global,
    replay: &mut Replay,
    sent: &Sent,
    seen: &[u8],
    slice: Option<u32>,
) -> Result<(), Trouble> {
    let reply = reply_to(alloc, replay, sent)?;
    same(alloc, seen, written(&reply, sent), "a reply")?;
    Ok(replay.turns(alloc, slice)?)
}

// The turns before an accept, one for each look that finds no client.
fn idle(alloc: Global, replay: &mut Replay, serving: &Serving) -> Result<(), AllocError> {
    if serving.while_idle {
        replay.turns(alloc, Some(serving.away))?;
    }
    Ok(())
}

fn connections(
    alloc: Global,
    replay: &mut Replay,
    sent: &[Sent],
    replies: &[Vec<u8>],
    serving: &Serving,
) -> Result<(), Trouble> {
    if sent.len() != replies.len() {
        return Err(differs(alloc, "other connections were accepted"));
    }
    for (one, seen) in sent.iter().zip(replies) {
        idle(alloc, replay, serving)?;
        connection(alloc, replay, one, seen, serving.slice)?;
    }
    Ok(())
}

// The clients that are accepted: those that come, up to the number that is served and up to the accept that fails.
fn accepted<'a>(step: &'a Step, serving: &Serving) -> &'a [Sent] {
    let most = serving.connections.map_or(usize::MAX, |most| most as usize);
    let before = step
        .accept_fails
        .map_or(u64::MAX, |number| number.saturating_sub(1));
    let count = step.sent.len().min(most).min(before as usize);
    step.sent.as_slice().get(..count).unwrap_or(&[])
}

// Whether the accept after so many connections is asked for and fails.
fn door_fails(step: &Step, serving: &Serving, count: usize) -> bool {
    let number = (count as u64).saturating_add(1);
    let is_asked = serving.connections.is_none_or(|most| count < most as usize);
    is_asked && step.accept_fails == Some(number)
}

/// The machine serves as the run did, and each reply is the same. It answers what the run comes to.
pub fn serve(
    alloc: Global,
    replay: &mut Replay,
    run: &Run,
    serving: &Serving,
) -> Result<Outcome, Trouble> {
    if !replay.open(alloc, serving.boot)? {
        return Ok(Err(Refusal::Disk));
    }
    if serving.boot {
        replay.ask(alloc, &Request::Apply)?;
        replay.turns(alloc, serving.slice)?;
    }
    let sent = accepted(run.step, serving);
    connections(alloc, replay, sent, &run.seen.replies, serving)?;
    if door_fails(run.step, serving, sent.len()) {
        idle(alloc, replay, serving)?;
        return Ok(Err(Refusal::Door));
    }
    replay.turns(alloc, None)?;
    Ok(Ok(bytes(alloc, b"")?))
}
