//! Requests over a store that is opened, and the job's end.
ghost use Rattle.std.specs.Prelude.{◌≡◌, All, Ok, false};
ghost use Rattle.std.specs.Result.{result_and};
ghost use Rattle.outside.specs.Told.{Moves};
ghost use Rattle.outside.specs.Faults.{HasCauseOf};
ghost use Rattle.settings_machine.specs.Asked.{request_of};
ghost use Rattle.store_open.specs.Opening.{IsSoundOpened};
ghost use Rattle.api_core.specs.Cores.{core_state, IsSound};
ghost use Rattle.core_commands.specs.Asking.{IsPlannable, requests};
ghost use Rattle.core_commands.specs.Carried.{CarriesOut, GoesOn, HoldsAll, IsOver};
ghost use Rattle.core_commands.specs.Handing.{HasSpawnCause};

use crate::asking::ask_each;
use crate::driving::drive;
use crate::handing::not_opened;
use api_core::Core;
use command_outcome::Refusal;
use outside::{Disk, Spawner};
use settings_machine::Request;
use std::alloc::Global;
use store_open::{Opened, open_store};

// Asks the requests of a core over a store that was just opened, and makes turns until no job runs.
fn ask_and_drive<D: Disk, S: Spawner>(
    alloc: Global,
    core: &mut Core,
    asks: &[Request],
    disk: &mut D,
    spawner: &mut S,
) -> Result<(), Refusal>
    requires sound { IsSound core.old }
    requires calm { (core_state core.old).faulted ≡ false }
    requires plannable { All (λ ask. IsPlannable (request_of ask)) asks.now }
    ensures goes { (store : Opened) → IsOver core.old store → Moves (D.told disk.old) (D.told disk.new)
        (GoesOn (requests asks.now) (λ W done. HoldsAll W core.new) store result (S.runs spawner.old) (S.runs spawner.new)) }
    ensures cause { HasCauseOf Refusal.Disk (D.faults disk.old) (D.faults disk.new) result }
    ensures spawn { HasSpawnCause (S.faults spawner.old) (S.faults spawner.new) result }
    ensures asked { S.asked spawner.new ≡ S.asked spawner.old }
{
    ask_each(alloc, core, asks, disk)?;
    drive(alloc, core, disk, spawner)
}

// The value, where the work before it is done, or else why it is not.
fn once_done<T: Drop>(done: Result<(), Refusal>, value: T) -> Result<T, Refusal>
    ensures { result ≡ result_and done (Ok value) }
{
    done.and(Ok(value))
}

// The core over a store that was just opened, after the requests and the turns.
fn go_on<D: Disk, S: Spawner>(
    alloc: Global,
    store: Opened,
    asks: &[Request],
    disk: &mut D,
    spawner: &mut S,
) -> Result<Core, Refusal>
    requires opened { IsSoundOpened store }
    requires plannable { All (λ ask. IsPlannable (request_of ask)) asks.now }
    ensures goes { Moves (D.told disk.old) (D.told disk.new)
        (GoesOn (requests asks.now) HoldsAll store result (S.runs spawner.old) (S.runs spawner.new)) }
    ensures cause { HasCauseOf Refusal.Disk (D.faults disk.old) (D.faults disk.new) result }
    ensures spawn { HasSpawnCause (S.faults spawner.old) (S.faults spawner.new) result }
    ensures asked { S.asked spawner.new ≡ S.asked spawner.old }
{
    let mut core = Core::new(store);
    let done = ask_and_drive(alloc, &mut core, asks, disk, spawner);
    once_done(done, core)
}

/// Opens the store, without boot, asks the requests one after another, and makes turns until no job runs. It answers the core, which
/// holds what the world holds, and whose job is idle.
///
/// Why the store can't be opened comes first; then `Refused` where the machine refuses a request, and none is asked after it; then
/// `Spawn`, `Render` or `Status` where the job failed so. `Disk` where the disk failed; `Memory` where it runs out of memory.
pub(crate) fn carry<D: Disk, S: Spawner>(
    alloc: Global,
    asks: &[Request],
    disk: &mut D,
    spawner: &mut S,
) -> Result<Core, Refusal>
    requires plannable { All (λ ask. IsPlannable (request_of ask)) asks.now }
    ensures carries { CarriesOut (requests asks.now) HoldsAll result
        (S.runs spawner.old) (S.runs spawner.new) (D.told disk.old) (D.told disk.new) }
    ensures cause { HasCauseOf Refusal.Disk (D.faults disk.old) (D.faults disk.new) result }
    ensures spawn { HasSpawnCause (S.faults spawner.old) (S.faults spawner.new) result }
    ensures asked { S.asked spawner.new ≡ S.asked spawner.old }
{
    match open_store(alloc, disk, false) {
        Ok(store) => go_on(alloc, store, asks, disk, spawner),
        Err(error) => Err(not_opened(error)),
    }
}
