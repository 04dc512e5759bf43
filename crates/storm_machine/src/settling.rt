//! The store is opened between two steps, and the machine takes over a store that was moved.
use crate::found::{same_held, take_files};
use crate::rebuilding::go_over;
use crate::replay::Replay;
use crate::trouble::{Trouble, differs};
use disk_memory::MemoryDisk;
use machine_replies::Host;
use plain_machine::OpeningAnswer;
use std::alloc::Global;
use store_open::open_store;

// The store is opened, on the disk and by the machine, and both have to hold the same then.
fn settle(alloc: Global, host: &mut Host, disk: &mut MemoryDisk) -> Result<(), Trouble> {
    host.open(alloc, false, OpeningAnswer::Succeeded)?;
    match open_store(alloc, disk, false) {
        Ok(opened) => same_held(alloc, &opened.held, &host.machine.held, "the open store"),
        Err(_) => Err(differs(alloc, "the store can't be opened")),
    }
}

/// The machine after the run becomes one with which the next step goes on: that of the moved store, where the store was moved, and
/// with the files of the disk. Where it is asked for, or the store was moved or the disk failed, the store is opened. The host is kept.
pub fn go_on(
    alloc: Global,
    replay: &mut Replay,
    disk: &mut MemoryDisk,
    opens: bool,
) -> Result<(), Trouble> {
    if let Some((version, held)) = &replay.moved {
        go_over(alloc, &mut replay.host, *version, held)?;
    }
    take_files(alloc, &mut replay.host, disk)?;
    if opens || replay.moved.is_some() || replay.faults.has_struck() {
        settle(alloc, &mut replay.host, disk)?;
    }
    Ok(replay.host.keep(alloc)?)
}
