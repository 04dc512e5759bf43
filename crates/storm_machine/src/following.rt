//! The machine follows a run: in each way that the disk may have failed it, until one agrees with all that was seen.
use crate::commands::{begins, carried, migrates, prints, verifies};
use crate::faults::Strike;
use crate::found::{check_files, check_programs, check_store};
use crate::outcomes::{Outcome, check_end};
use crate::replay::Replay;
use crate::run::{Run, Seen};
use crate::serving::serve;
use crate::stores::{dumps, forgets, restores};
use crate::trouble::{Trouble, differs, same};
use std::alloc::Global;
use storm_steps::Order;

// What `check` prints.
const COVERED: &[u8] = b"chrony covered\nmotd covered\nsysctl covered\n";

// What `prune` comes to. How many files it removes is not asked of the machine.
fn prunes(alloc: Global, replay: &mut Replay, seen: &Seen) -> Result<Outcome, Trouble> {
    if !seen.struck && !seen.printed.starts_with(b"pruned ") {
        return Err(differs(alloc, "prune prints something else"));
    }
    Ok(prints(alloc, replay, &seen.printed)?)
}

// What the run comes to by the machine.
fn outcome(alloc: Global, replay: &mut Replay, run: &Run) -> Result<Outcome, Trouble> {
    match &run.step.order {
        Order::Init => Ok(begins(replay)),
        Order::Serve(serving) => serve(alloc, replay, run, serving),
        Order::Set | Order::Apply | Order::Get => carried(alloc, replay, run.step),
        Order::Check => Ok(prints(alloc, replay, COVERED)?),
        Order::Verify => Ok(verifies(alloc, replay)?),
        Order::Prune => prunes(alloc, replay, run.seen),
        Order::Migrate(to) => migrates(alloc, replay, to),
        Order::Forget => forgets(alloc, replay, &run.step.words),
        Order::Dump => Ok(dumps(alloc, replay)?),
        Order::Restore => Ok(restores(alloc, replay)?),
    }
}

// What a server logged has to be the lines of its events, unless it was to be quiet. Other runs log nothing.
fn check_log(alloc: Global, replay: &Replay, run: &Run) -> Result<(), Trouble> {
    let lines = match &run.step.order {
        Order::Serve(serving) if !serving.quiet => replay.log.as_str(),
        _ => "",
    };
    same(alloc, &run.seen.logged, lines.as_bytes(), "the log")
}

// What was seen, and the disk, have to be what the machine has come to.
fn check_run(alloc: Global, replay: &Replay, run: &Run, outcome: &Outcome) -> Result<(), Trouble> {
    check_end(alloc, run.seen, outcome)?;
    check_log(alloc, replay, run)?;
    let host = &replay.host;
    match &replay.moved {
        Some((version, held)) => check_store(alloc, run.disk, version, held)?,
        None => check_store(alloc, run.disk, &host.machine.version, &host.machine.held)?,
    }
    check_programs(alloc, &host.machine, run.seen)?;
    check_files(alloc, replay, run.disk, run.step.crash)
}

// The machine goes through the run, with a disk that fails so, and agrees with it, unless the run has no event that the strike names.
fn go_through(
    alloc: Global,
    replay: &mut Replay,
    run: &Run,
    strike: Option<Strike>,
) -> Result<(), Trouble> {
    replay.begin(alloc, &run.step.statuses, strike)?;
    let outcome = outcome(alloc, replay, run)?;
    if replay.faults.is_complete() {
        check_run(alloc, replay, run, &outcome)?;
    }
    Ok(())
}

// The same where the disk failed at this event, in whichever of two ways agrees: what the event was to store was stored or not.
fn go_either(alloc: Global, replay: &mut Replay, run: &Run, at: u64) -> Result<(), Trouble> {
    let mut strike = Strike {
        at,
        taken: false,
        ever: run.step.fault.is_lasting(),
    };
    match go_through(alloc, replay, run, Some(strike)) {
        Err(Trouble::Differs(_)) => {
            strike.taken = true;
            go_through(alloc, replay, run, Some(strike))
        }
        other => other,
    }
}

// No run has more events.
const MOST_EVENTS: u64 = 1000;

// The machine goes through a run that the disk failed.
fn follow_struck(alloc: Global, replay: &mut Replay, run: &Run) -> Result<(), Trouble> {
    let mut last = differs(alloc, "the disk failed no event");
    for at in 0..MOST_EVENTS {
        match go_either(alloc, replay, run, at) {
            Ok(()) if replay.faults.is_complete() => return Ok(()),
            Ok(()) => return Err(last),
            Err(Trouble::Memory) => return Err(Trouble::Memory),
            Err(trouble) => last = trouble,
        }
    }
    Err(last)
}

/// The machine goes through the run, from what was kept of the host, in a way that agrees with all that was seen and with the disk.
pub fn follow(alloc: Global, replay: &mut Replay, run: &Run) -> Result<(), Trouble> {
    if run.seen.struck {
        return follow_struck(alloc, replay, run);
    }
    go_through(alloc, replay, run, None)
}
