//! `storm FIRST COUNT`: deterministic simulation of the program `settings` over devices in memory, each run next to the reference model.
//!
//! It goes through so many seeds from the first on. A seed makes the same steps whenever it is run. Where the program and the machine
//! differ, the seed is printed with the first difference, and the run ends with exit status 1; else it says how much was done.
#![tactic(auto)]

mod host;
mod running;
mod storming;
mod tally;

use crate::host::begun;
use crate::storming::storm;
use crate::tally::Tally;
use std::alloc::Global;
use std::process::ExitCode;
use std::{env, io};
use storm_machine::Trouble;

// The two numbers of the words.
fn numbers(rt: &HostRuntime) -> io::Result<Option<(u64, u64)>> {
    let mut words = env::args(rt)?.skip(1);
    let (first, count, more) = (words.next(), words.next(), words.next());
    let (Some(first), Some(count), None) = (first, count, more) else {
        return Ok(None);
    };
    match (first.as_str().parse::<u64>(), count.as_str().parse::<u64>()) {
        (Ok(first), Ok(count)) => Ok(Some((first, count))),
        _ => Ok(None),
    }
}

// Goes through the seeds. Where one fails it answers which, and why.
fn storms(alloc: Global, first: u64, count: u64, tally: &mut Tally) -> Result<(), (u64, Trouble)> {
    let (mut replay, disk) = begun(alloc).map_err(|trouble| (first, trouble))?;
    for number in 0..count {
        let seed = first.saturating_add(number);
        storm(alloc, &mut replay, &disk, seed, tally).map_err(|trouble| (seed, trouble))?;
    }
    Ok(())
}

fn main(rt: HostRuntime) -> io::Result<ExitCode> {
    let Some((first, count)) = numbers(&rt)? else {
        println!(rt; "storm FIRST COUNT")?;
        return Ok(ExitCode::from(2));
    };
    let mut tally = Tally::NOTHING;
    match storms(rt.alloc(), first, count, &mut tally) {
        Ok(()) => {
            println!(rt; "{tally}")?;
            Ok(ExitCode::SUCCESS)
        }
        Err((seed, Trouble::Memory)) => {
            println!(rt; "seed {seed}: memory")?;
            Ok(ExitCode::FAILURE)
        }
        Err((seed, Trouble::Differs(text))) => {
            println!(rt; "seed {seed}: {text}")?;
            Ok(ExitCode::FAILURE)
        }
    }
}
