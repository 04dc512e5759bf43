//! The events of the commands other than `serve`.
use crate::moves::moved;
use crate::outcomes::{Outcome, bytes, line, refusal_of};
use crate::replay::Replay;
use crate::trouble::{Trouble, differs};
use api_http::{Reading, read_request};
use command_outcome::Refusal;
use machine_answers::{job_text, states_text};
use machine_replies::{Host, Told, settings_text};
use settings_machine::{Job, JobStatus, Request};
use std::alloc::{AllocError, Global};
use std::mem;
use storm_steps::{Order, Sent, Step};
use version_links::Version;

// Why a command ends at `told`, if it does; None represents a disk that failed.
fn refused(told: Option<Told>) -> Option<Refusal> {
    match told {
        Some(Told::Refused(refusal)) => Some(Refusal::Refused(refusal)),
        Some(_) => None,
        None => Some(Refusal::Disk),
    }
}

// One request of a command. It answers why the command ends there, if it does.
fn ask(alloc: Global, replay: &mut Replay, sent: &Sent) -> Result<Option<Refusal>, Trouble> {
    match read_request(alloc, &sent.bytes)? {
        Reading::Whole { request, .. } => Ok(refused(replay.ask(alloc, &request)?)),
        _ => Err(differs(alloc, "a command asks for nothing")),
    }
}

// The requests of a command, up to the first at which it ends.
fn ask_each(alloc: Global, replay: &mut Replay, sent: &[Sent]) -> Result<Option<Refusal>, Trouble> {
    for one in sent {
        if let Some(refusal) = ask(alloc, replay, one)? {
            return Ok(Some(refusal));
        }
    }
    Ok(None)
}

// Takes the job, which is at rest.
fn take_job(host: &mut Host) -> Job {
    mem::replace(&mut host.machine.job, Job::Idle)
}

// The machine makes the opening, the requests of the command, and turns until no job runs. It answers why the command is refused, if it is.
fn carry(alloc: Global, replay: &mut Replay, asks: &[Sent]) -> Result<Option<Refusal>, Trouble> {
    if !replay.open(alloc, false)? {
        return Ok(Some(Refusal::Disk));
    }
    if let Some(refusal) = ask_each(alloc, replay, asks)? {
        return Ok(Some(refusal));
    }
    replay.turns(alloc, None)?;
    if replay.faults.is_faulted() {
        return Ok(Some(Refusal::Disk));
    }
    Ok(refusal_of(take_job(&mut replay.host)))
}

// The states of the files, as lines.
fn states(alloc: Global, host: &Host) -> Result<Outcome, AllocError> {
    let files = host.machine.verify(alloc, &host.image)?;
    let lines = states_text(alloc, &files)?;
    if files.iter().all(|file| file.state.is_kept()) {
        return Ok(Ok(lines));
    }
    Ok(Err(Refusal::NotCurrent { lines }))
}

/// What `verify` comes to.
pub fn verifies(alloc: Global, replay: &mut Replay) -> Result<Outcome, AllocError> {
    if !replay.open(alloc, false)? || replay.ask(alloc, &Request::Verify)?.is_none() {
        return Ok(Err(Refusal::Disk));
    }
    states(alloc, &replay.host)
}

// The line that the command prints.
fn told(alloc: Global, host: &Host, order: &Order) -> Result<Outcome, AllocError> {
    let machine = &host.machine;
    let text = match order {
        Order::Apply => job_text(alloc, &JobStatus::Idle, &machine.held.owed)?,
        _ => settings_text(alloc, machine)?,
    };
    Ok(Ok(line(alloc, text.as_str())?))
}

/// What `set`, `apply` or `get` comes to.
pub fn carried(alloc: Global, replay: &mut Replay, step: &Step) -> Result<Outcome, Trouble> {
    match carry(alloc, replay, &step.sent)? {
        Some(refusal) => Ok(Err(refusal)),
        None => Ok(told(alloc, &replay.host, &step.order)?),
    }
}

/// What a command comes to that changes nothing and prints this, unless the disk fails it.
pub fn prints(alloc: Global, replay: &mut Replay, printed: &[u8]) -> Result<Outcome, AllocError> {
    if replay.faults.strikes() {
        return Ok(Err(Refusal::Disk));
    }
    Ok(Ok(bytes(alloc, printed)?))
}

/// What `init` comes to over a store.
pub fn begins(replay: &mut Replay) -> Outcome {
    if replay.faults.strikes() {
        return Err(Refusal::Disk);
    }
    let host = &replay.host;
    let version = host.machine.version;
    Err(Refusal::AlreadyThere { version })
}

// It notes what the move to this version makes of the store, where there is one.
fn note_move(alloc: Global, replay: &mut Replay, version: Version) -> Result<(), Trouble> {
    let host = &replay.host;
    if version != host.machine.version {
        let held = moved(alloc, &replay.release, &host.machine, &version)?;
        replay.moved = Some((version, held));
    }
    Ok(())
}

/// What `migrate` comes to. It notes what the move makes of the store; the machine stays.
pub fn migrates(alloc: Global, replay: &mut Replay, to: &str) -> Result<Outcome, Trouble> {
    let Some(version) = Version::read(alloc, to)? else {
        return Err(differs(alloc, "no version"));
    };
    let fails = replay.faults.strikes();
    if !fails || replay.faults.is_taken() {
        note_move(alloc, replay, version)?;
    }
    if fails {
        return Ok(Err(Refusal::Disk));
    }
    Ok(Ok(line(alloc, to)?))
}
