//! The steps of a seed.
use crate::host::{begin_again, disk_with_dump};
use crate::running::run_step;
use crate::tally::Tally;
use disk_memory::{Bytes, MemoryDisk, Pick};
use std::alloc::{AllocError, Global};
use storm_machine::{
    Planned, Replay, Run, Seen, Trouble, check_planned, check_verified, follow, go_on,
    left_no_store, move_to,
};
use storm_steps::{Dice, Order, Step, step_of};

fn pick(alloc: Global, dice: &mut Dice) -> Result<Pick, AllocError> {
    Ok(match dice.below(4) {
        0 => Pick::Old,
        1 => Pick::Gone,
        2 => {
            let size = dice.below(12) as usize;
            Pick::Torn(Bytes::of(vec![in alloc; b'x'; size]?))
        }
        _ => Pick::New,
    })
}

// How many paths may be touched between two syncs; what is beyond stays as it is.
const MOST_PATHS: u32 = 60;

// What a crash leaves of each path that was touched since the last sync.
fn picks(alloc: Global, dice: &mut Dice) -> Result<Vec<Pick>, AllocError> {
    let mut all = Vec::new(alloc);
    for _ in 0..MOST_PATHS {
        all.push(pick(alloc, dice)?)?;
    }
    Ok(all)
}

// The power fails.
fn crash(alloc: Global, disk: &mut MemoryDisk, dice: &mut Dice) -> Result<(), AllocError> {
    let picks = picks(alloc, dice)?;
    *disk = disk.crash(&picks)?;
    Ok(())
}

// The step is run. What was planned in it has to have come.
fn run_planned(
    alloc: Global,
    replay: &Replay,
    disk: &mut MemoryDisk,
    step: &Step,
    tally: &mut Tally,
) -> Result<Seen, Trouble> {
    if !step.is_planned {
        return Ok(run_step(alloc, disk, step)?);
    }
    let before = disk.crash(&[])?;
    let seen = run_step(alloc, disk, step)?;
    let planned = Planned {
        step,
        seen: &seen,
        before: &before,
        after: disk,
    };
    tally.add_plan(check_planned(alloc, &replay.host.image, &planned)?);
    Ok(seen)
}

// `verify` is run over a copy of the disk.
fn verify(alloc: Global, disk: &MemoryDisk) -> Result<(), Trouble> {
    let mut copy = disk.crash(&[])?;
    let seen = run_step(alloc, &mut copy, &Step::verify(alloc)?)?;
    check_verified(alloc, &seen)
}

// The store is dumped, and the storm goes over to a new host, which has the image and this dump, and nothing else.
fn lose_host(alloc: Global, replay: &mut Replay, disk: &mut MemoryDisk) -> Result<(), Trouble> {
    let dump = Step::dump(alloc)?;
    let seen = run_step(alloc, disk, &dump)?;
    let run = Run {
        step: &dump,
        seen: &seen,
        disk,
    };
    follow(alloc, replay, &run)?;
    *disk = disk_with_dump(alloc, &seen.printed)?;
    Ok(move_to(alloc, replay, disk)?)
}

// The step is run, and the power fails after it or not.
fn run_through(
    alloc: Global,
    replay: &Replay,
    disk: &mut MemoryDisk,
    dice: &mut Dice,
    step: &Step,
    tally: &mut Tally,
) -> Result<Seen, Trouble> {
    let seen = run_planned(alloc, replay, disk, step, tally)?;
    if step.crash {
        crash(alloc, disk, dice)?;
    }
    Ok(seen)
}

// The same. A restore is run on a new host, and again, with nothing that fails, where it left no store.
fn make(
    alloc: Global,
    replay: &mut Replay,
    disk: &mut MemoryDisk,
    dice: &mut Dice,
    step: &Step,
    tally: &mut Tally,
) -> Result<Seen, Trouble> {
    if !matches!(step.order, Order::Restore) {
        return run_through(alloc, replay, disk, dice, step, tally);
    }
    lose_host(alloc, replay, disk)?;
    let seen = run_through(alloc, replay, disk, dice, step, tally)?;
    if left_no_store(alloc, &seen, disk)? {
        return Ok(run_step(alloc, disk, &Step::restore(alloc)?)?);
    }
    Ok(seen)
}

// One step: it is made, the machine follows, and becomes the one with which the next step goes on.
fn go_step(
    alloc: Global,
    replay: &mut Replay,
    disk: &mut MemoryDisk,
    dice: &mut Dice,
    tally: &mut Tally,
) -> Result<(), Trouble> {
    let step = step_of(alloc, dice)?;
    let seen = make(alloc, replay, disk, dice, &step, tally)?;
    if step.crash {
        verify(alloc, disk)?;
    }
    let run = Run {
        step: &step,
        seen: &seen,
        disk,
    };
    follow(alloc, replay, &run)?;
    tally.add(&run, replay);
    go_on(alloc, replay, disk, dice.chance(30))
}

/// All steps of a seed, over a copy of the disk. They are counted.
pub fn storm(
    alloc: Global,
    replay: &mut Replay,
    disk: &MemoryDisk,
    seed: u64,
    tally: &mut Tally,
) -> Result<(), Trouble> {
    let mut dice = Dice::of(seed);
    let mut disk = disk.crash(&[])?;
    begin_again(alloc, &mut replay.host)?;
    for _ in 0..dice.below(14).saturating_add(8) {
        go_step(alloc, replay, &mut disk, &mut dice, tally)?;
    }
    tally.seeds = tally.seeds.saturating_add(1);
    Ok(())
}
