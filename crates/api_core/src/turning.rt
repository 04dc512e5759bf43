//! Turns of the job.
ghost use Rattle.std.specs.Prelude.{◌≡◌, ◌<◌, ◌&&◌, ◌||◌, None, Some, true, false};
ghost use Rattle.outside.specs.Told.{Moves};
ghost use Rattle.outside.specs.Faults.{HasCause};
ghost use Rattle.settings_machine.specs.World.{is_running, KeepsAllButOwed};
ghost use Rattle.affected_apply.specs.Jobs.{job_of, left_to_do, failed_with_disk, failed_to_spawn, answer_of};
ghost use Rattle.api_core.specs.Cores.{IsSound, core_state};
ghost use Rattle.api_core.specs.Turned.{Turns};

use crate::Core;
use affected_apply::{Store, turn, turns};
use outside::{Disk, Spawner};
use std::alloc::Global;

impl Core {
    // Turns of a running job.
    fn run_on<D: Disk, S: Spawner>(
        &mut self,
        alloc: Global,
        slice: Option<u32>,
        disk: &mut D,
        spawner: &mut S,
    )
        requires sound { IsSound self.old }
        requires running { is_running (job_of self.old.job) ≡ true }
        ensures turns { Moves (D.told disk.old) (D.told disk.new)
            (Turns self.old slice self.new (S.runs spawner.old) (S.runs spawner.new)) }
        ensures sound { IsSound self.new }
        ensures image { self.new.image ≡ self.old.image }
        ensures held { KeepsAllButOwed self.old.held self.new.held }
        ensures ended { slice ≡ None → is_running (job_of self.new.job) ≡ false }
        ensures faulted { self.new.faulted ≡ failed_with_disk (job_of self.new.job) }
        ensures disk_faults { HasCause (D.faults disk.old) (D.faults disk.new)
            (answer_of (failed_with_disk (job_of self.new.job))) }
        ensures spawner_faults { HasCause (S.faults spawner.old) (S.faults spawner.new)
            (answer_of (failed_to_spawn (job_of self.new.job))) }
        ensures asked { S.asked spawner.new ≡ S.asked spawner.old }
    {
        let store = Store {
            place: &self.place,
            image: &self.image,
        };
        self.faulted = turns(
            alloc,
            &store,
            &mut self.held,
            &mut self.job,
            slice,
            disk,
            spawner,
        );
    }

    /// One turn of a running job, the next of those that [`turns`](Core::turns) makes.
    pub fn turn<D: Disk, S: Spawner>(&mut self, alloc: Global, disk: &mut D, spawner: &mut S)
        requires sound { IsSound self.old }
        requires running { is_running (core_state self.old).job ≡ true }
        ensures turns { Moves (D.told disk.old) (D.told disk.new)
            (Turns self.old (Some 1) self.new (S.runs spawner.old) (S.runs spawner.new)) }
        ensures sound { IsSound self.new }
        ensures image { self.new.image ≡ self.old.image }
        ensures held { KeepsAllButOwed (core_state self.old).held (core_state self.new).held }
        ensures less { left_to_do self.new.image.manifest (core_state self.new).job < left_to_do self.old.image.manifest (core_state self.old).job }
        ensures faulted { (core_state self.new).faulted ≡ failed_with_disk (core_state self.new).job }
        ensures disk_faults { HasCause (D.faults disk.old) (D.faults disk.new)
            (answer_of (failed_with_disk (core_state self.new).job)) }
        ensures spawner_faults { HasCause (S.faults spawner.old) (S.faults spawner.new)
            (answer_of (failed_to_spawn (core_state self.new).job)) }
        ensures asked { S.asked spawner.new ≡ S.asked spawner.old }
    {
        let store = Store {
            place: &self.place,
            image: &self.image,
        };
        self.faulted = turn(alloc, &store, &mut self.held, &mut self.job, disk, spawner);
    }

    /// Turns of the job until so many were made or no job runs; without a number, until no job runs. Each writes the next
    /// file or runs the next command, or ends the job: then the noted keys are stored as what is owed, and the job is idle,
    /// or begins again with these keys where it was asked for again and there are some.
    ///
    /// A turn that fails counts, and is the last: what is owed stays, and the job has failed for the cause. A failed call
    /// of the disk is one, after which the store is opened again before the next request. A turn takes the time of
    /// rendering a file and of one write, of one run, or of a batch of one entry and the beginning of a job.
    pub fn turns<D: Disk, S: Spawner>(
        &mut self,
        alloc: Global,
        slice: Option<u32>,
        disk: &mut D,
        spawner: &mut S,
    )
        requires sound { IsSound self.old }

        // It is a slice of the machine's turns, on the disk, in the core and with the programs that were run, crash included.
        ensures turns { Moves (D.told disk.old) (D.told disk.new)
            (Turns self.old slice self.new (S.runs spawner.old) (S.runs spawner.new)) }
        ensures sound { IsSound self.new }
        ensures image { self.new.image ≡ self.old.image }
        ensures held { KeepsAllButOwed (core_state self.old).held (core_state self.new).held }
        ensures ended { slice ≡ None → is_running (core_state self.new).job ≡ false }
        ensures faulted { (core_state self.new).faulted ≡ ((core_state self.old).faulted
            || (is_running (core_state self.old).job && failed_with_disk (core_state self.new).job)) }

        // A job that ran fails with Disk only where the disk's count rose, and with Spawn only where the spawner's did.
        ensures disk_faults { HasCause (D.faults disk.old) (D.faults disk.new)
            (answer_of (is_running (core_state self.old).job && failed_with_disk (core_state self.new).job)) }
        ensures spawner_faults { HasCause (S.faults spawner.old) (S.faults spawner.new)
            (answer_of (is_running (core_state self.old).job && failed_to_spawn (core_state self.new).job)) }
        ensures asked { S.asked spawner.new ≡ S.asked spawner.old }
    {
        if self.job.is_running() {
            self.run_on(alloc, slice, disk, spawner);
        }
    }
}
