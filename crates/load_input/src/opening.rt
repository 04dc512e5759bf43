//! The store that a load run begins and opens.
ghost use Rattle.std.specs.Prelude.{◌≡◌, false, Ok, IfOk, OnOk};
ghost use Rattle.outside.specs.Told.{Moves};
ghost use Rattle.settings_machine.specs.Events.{new_held};
ghost use Rattle.settings_machine.specs.World.{Idle};
ghost use Rattle.store_open.specs.Beginning.{Begins};
ghost use Rattle.api_core.specs.Cores.{core_state, IsSound};
ghost use Rattle.load_input.specs.Starting.{first_version, IsOver, Starts};

use api_core::Core;
use outside::Disk;
use std::alloc::{AllocError, Global};
use store_open::{init, open_store};
use version_links::Version;

// The version at which the store is begun.
const FIRST: Version = Version {
    major: 1,
    minor: 0,
    patch: 0,
};

// Begins a store.
fn begin<D: Disk>(alloc: Global, disk: &mut D) -> Result<(), AllocError>
    ensures { OnOk result (Moves (D.told disk.old) (D.told disk.new) (Begins first_version new_held (Ok tt))) }
{
    match init(alloc, disk, &FIRST) {
        Ok(()) => Ok(()),
        Err(_) => Err(AllocError),
    }
}

// Opens the store, without boot.
fn open<D: Disk>(alloc: Global, disk: &mut D) -> Result<Core, AllocError>
    ensures over { IfOk result (λ core. Moves (D.told disk.old) (D.told disk.new) (IsOver core)) }
    ensures sound { IfOk result IsSound }
    ensures state { IfOk result (λ core. ((core_state core).job ≡ Idle) × ((core_state core).faulted ≡ false)) }
{
    match open_store(alloc, disk, false) {
        Ok(store) => Ok(Core::new(store)),
        Err(_) => Err(AllocError),
    }
}

/// Begins a store and opens it, without boot. The only error is out of memory: a disk in memory fails for nothing else, and a
/// generated image is one.
pub(crate) fn open_first<D: Disk>(alloc: Global, disk: &mut D) -> Result<Core, AllocError>
    ensures starts { IfOk result (λ core. Moves (D.told disk.old) (D.told disk.new) (Starts core)) }
    ensures sound { IfOk result IsSound }
    ensures state { IfOk result (λ core. ((core_state core).job ≡ Idle) × ((core_state core).faulted ≡ false)) }
{
    begin(alloc, disk)?;
    open(alloc, disk)
}
