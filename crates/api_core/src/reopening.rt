//! A store is opened again.
ghost use Rattle.std.specs.Prelude.{◌≡◌, true, false, Err, OnOk};
ghost use Rattle.outside.specs.Told.{Moves};
ghost use Rattle.outside.specs.Faults.{HasCauseOf};
ghost use Rattle.settings_machine.specs.World.{is_running};
ghost use Rattle.store_open.specs.Opening.{IsSoundOpened};
ghost use Rattle.affected_apply.specs.Jobs.{job_of};
ghost use Rattle.api_core.specs.Cores.{IsSound, core_state};
ghost use Rattle.api_core.specs.Reopened.{Reopens};

use crate::Core;
use outside::Disk;
use std::alloc::Global;
use store_open::{OpenError, Opened, open_store};

impl Core {
    // Holds what was opened, while no job runs. It takes no memory.
    fn reopen_with(&mut self, store: Opened)
        requires opened { IsSoundOpened store }
        requires still { is_running (job_of self.old.job) ≡ false }
        ensures state { core_state self.new
            ≡ record (core_state self.old) { place = store.place; held = store.held; faulted = false } }
        ensures image { self.new.image ≡ store.image }
        ensures sound { IsSound self.new }
    {
        let Opened { place, held, image } = store;
        self.place = place;
        self.held = held;
        self.image = image;
        self.faulted = false;
    }

    /// Opens the store again, without boot, after a call of the disk has failed: then no job runs. The core holds what was opened, or
    /// is as before where the opening failed or was refused, for the same causes as `open_store`, in its time.
    pub fn reopen<D: Disk>(&mut self, alloc: Global, disk: &mut D) -> Result<(), OpenError>
        requires sound { IsSound self.old }
        requires faulted { self.old.faulted ≡ true }
        ensures reopens { Moves (D.told disk.old) (D.told disk.new) (Reopens self.old result self.new) }
        ensures sound { IsSound self.new }
        ensures calm { OnOk result (self.new.faulted ≡ false) }
        ensures cause { HasCauseOf OpenError.Failed (D.faults disk.old) (D.faults disk.new) result }
    {
        let store = open_store(alloc, disk, false)?;
        self.reopen_with(store);
        Ok(())
    }
}
