//! A step over devices in memory.
ghost use Rattle.std.specs.Prelude.{◌≡◌, false};
ghost use Rattle.disk_memory.specs.Door.{state};

use disk_memory::{Input, MemoryDisk, MemoryDoor, MemorySink, MemorySpawner};
use settings_run::run;
use std::alloc::{AllocError, Global};
use storm_machine::{Seen, spawned_lines};
use storm_steps::{Fault, Order, Sent, Step};

fn input(alloc: Global, sent: &Sent) -> Result<Input, AllocError> {
    let (first, second) = sent.bytes.split_at(sent.cut.min(sent.bytes.len()));
    Ok(Input {
        pieces: vec![in alloc; first.to_vec(alloc)?, second.to_vec(alloc)?]?,
        read_fails: sent.read_fails.then_some(1),
        write_fails: sent.write_fails.then_some(1),
    })
}

// What comes from the clients of the step, one connection after another.
fn inputs(alloc: Global, step: &Step) -> Result<Vec<Input>, AllocError> {
    let mut inputs = Vec::new(alloc);
    for sent in &step.sent {
        inputs.push(input(alloc, sent)?)?;
    }
    Ok(inputs)
}

// No run accepts so often.
const NEVER: u64 = u64::MAX;

// What was written to each connection that was accepted, of at most so many.
fn replies(alloc: Global, door: &MemoryDoor, most: usize) -> Result<Vec<Vec<u8>>, AllocError> {
    let mut all = Vec::new(alloc);
    for number in 0..most {
        if let Some(written) = door.output(number) {
            all.push(written.to_vec(alloc)?)?;
        }
    }
    Ok(all)
}

// Names the calls of the disk that are to fail. It answers the first of them.
fn set_fault(alloc: Global, disk: &mut MemoryDisk, fault: Fault) -> Result<u64, AllocError> {
    let made = disk.calls();
    match fault {
        Fault::Never => Ok(NEVER),
        Fault::Once(behind) => {
            let call = made.saturating_add(behind).saturating_add(1);
            disk.fail_calls(vec![in alloc; call]?);
            Ok(call)
        }
        Fault::Ever(behind) => {
            let calls = made.saturating_add(behind);
            disk.stop_after(calls);
            Ok(calls.saturating_add(1))
        }
    }
}

// What is seen of the step over these devices.
fn run_over(
    alloc: Global,
    disk: &mut MemoryDisk,
    spawner: &mut MemorySpawner,
    door: &mut MemoryDoor,
    out: &mut MemorySink,
    log: &mut MemorySink,
    step: &Step,
) -> Result<Seen, AllocError>
    requires idle { (state door.old).busy ≡ false }
    requires unused { (state door.old).accepted ≡ 0 }
{
    let first = set_fault(alloc, disk, step.fault)?;
    let status = run(alloc, &step.words, disk, spawner, door, out, log);
    disk.fail_calls(Vec::new(alloc));
    Ok(Seen {
        status,
        printed: out.written().to_vec(alloc)?,
        logged: log.written().to_vec(alloc)?,
        replies: replies(alloc, door, step.sent.len())?,
        programs: spawned_lines(alloc, spawner)?,
        struck: disk.calls() >= first,
    })
}

// How many looks before each accept find no client.
fn away(step: &Step) -> u64 {
    match &step.order {
        Order::Serve(serving) => u64::from(serving.away),
        _ => 0,
    }
}

/// Makes the step, but for the failing of the power after it. A disk whose calls fail ever serves again only after a crash.
pub fn run_step(alloc: Global, disk: &mut MemoryDisk, step: &Step) -> Result<Seen, AllocError> {
    let statuses = step.statuses.to_vec(alloc)?;
    let inputs = inputs(alloc, step)?;
    let mut spawner = MemorySpawner::of_statuses(alloc, statuses);
    let mut door = MemoryDoor::of_inputs(alloc, inputs);
    door.fail_accept(step.accept_fails.unwrap_or(NEVER));
    door.keep_away(away(step));
    let (mut out, mut log) = (MemorySink::new(alloc), MemorySink::new(alloc));
    run_over(
        alloc,
        disk,
        &mut spawner,
        &mut door,
        &mut out,
        &mut log,
        step,
    )
}
