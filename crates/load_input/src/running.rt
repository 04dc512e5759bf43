//! A load run.
ghost use Rattle.std.specs.Prelude.{◌≡◌, ◌≤◌, false, IfOk, IfErr};
ghost use Rattle.outside.specs.Told.{Moves};
ghost use Rattle.settings_machine.specs.World.{Idle};
ghost use Rattle.api_core.specs.Cores.{core_state, IsSound};
ghost use Rattle.load_input.specs.Loads.{Tells, Loads};

use crate::counts::Counts;
use crate::image_disk::image_disk;
use crate::lines::lines;
use crate::opening::open_first;
use crate::requests;
use crate::serving::serve;
use api_core::Core;
use command_outcome::Refusal;
use disk_memory::MemorySpawner;
use key_names::Bytes;
use outside::Disk;
use std::alloc::{AllocError, Global};

// The lines of the requests for so many settings, from this core on.
fn tell<D: Disk>(
    alloc: Global,
    count: u32,
    core: &mut Core,
    disk: &mut D,
) -> Result<Bytes, AllocError>
    requires some { 1 ≤ count }
    requires most { count ≤ 10000 }
    requires sound { IsSound core.old }
    requires calm { (core_state core.old).faulted ≡ false }
    requires idle { (core_state core.old).job ≡ Idle }
    ensures { IfOk result (λ text. Moves (D.told disk.old) (D.told disk.new) (Tells count core.old core.new text)) }
{
    let requests = requests(alloc, count)?;
    let mut spawner = MemorySpawner::of_statuses(alloc, Vec::new(alloc));
    let mut counts = Counts::none();
    serve(
        alloc,
        core,
        &mut counts,
        requests.as_slice(),
        disk,
        &mut spawner,
    )?;
    lines(alloc, &counts, core)
}

// The lines of the run for so many settings.
fn run(alloc: Global, count: u32) -> Result<Bytes, AllocError>
    requires some { 1 ≤ count }
    requires most { count ≤ 10000 }
    ensures { IfOk result (Loads count) }
{
    let mut disk = image_disk(alloc, count)?;
    let mut core = open_first(alloc, &mut disk)?;
    tell(alloc, count, &mut core, &mut disk)
}

/// Makes a generated run for so many settings, over devices in memory, and answers its seven lines: how many requests there were,
/// how many of them were answered with success and how many were refused, how many settings are live at the end, how many
/// configuration files the image has, how many turns wrote a file, and how many programs were run.
///
/// The image and the requests are those of `load_input`. The store is begun at 1.0.0 and opened without boot, and after each
/// request all turns of the job are made. The only error is out of memory: no call of the devices is set to fail, and each
/// program ends well.
///
/// The disk keeps each change, so the memory is in proportion to all that was written. Each job renders all files, so with the
/// number of settings the time grows faster than they do.
pub fn load(alloc: Global, count: u32) -> Result<Bytes, Refusal>
    requires some { 1 ≤ count }
    requires most { count ≤ 10000 }
    ensures loads { IfOk result (Loads count) }
    ensures memory { IfErr result (λ refusal. refusal ≡ Refusal.Memory) }
{
    Ok(run(alloc, count)?)
}
