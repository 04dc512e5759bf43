//! What a request does to a core is written down.
ghost use Rattle.std.specs.Prelude.{◌≡◌, ◌≢◌, [], false, Err};
ghost use Rattle.outside.specs.Told.{Moves};
ghost use Rattle.outside.specs.Faults.{HasCauseOf};
ghost use Rattle.settings_machine.specs.Requests.{Request};
ghost use Rattle.machine_answers.specs.declared.answer.Answer.{Answer};
ghost use Rattle.api_core.specs.Cores.{IsSound, Commits, core_state};
ghost use Rattle.api_core.specs.Jobs.{HasRoom};
ghost use Rattle.api_core.specs.Plans.{MayCommit, Plans};
ghost use Rattle.api_core.specs.Carried.{Carries};

use crate::Core;
use crate::next_job::{fail, go, reserve};
use crate::planned::Effect;
use commit_journal::change;
use outside::{Disk, DiskErr};
use std::alloc::Global;
use store_open::lay_change;

impl Core {
    // Commits the effect, where a running job has room for the keys that it notes.
    fn write<D: Disk>(&mut self, alloc: Global, disk: &mut D, effect: Effect) -> Result<(), DiskErr>
        requires calm { self.old.faulted ≡ false }
        requires sound { IsSound self.old }
        requires room { HasRoom effect.next self.old.job }
        requires may { MayCommit self.old effect }
        ensures carried { Moves (D.told disk.old) (D.told disk.new)
            (Carries (core_state self.old) effect result (core_state self.new)) }
        ensures sound { IsSound self.new }
        ensures image { self.new.image ≡ self.old.image }
        ensures calm { result ≢ Err DiskErr.Failed → self.new.faulted ≡ false }
        ensures cause { HasCauseOf DiskErr.Failed (D.faults disk.old) (D.faults disk.new) result }
        ensures untouched { result ≡ Err DiskErr.Memory → D.told disk.new ≡ D.told disk.old }
        ensures quiet { effect.change ≡ [] → D.told disk.new ≡ D.told disk.old }
    {
        let Effect {
            change: changes,
            next,
        } = effect;
        if changes.as_slice().is_empty() {
            go(&mut self.job, next);
            return Ok(());
        }
        let batch = lay_change(alloc, &self.place.directory, &mut self.held, changes)?;
        if change(disk, &batch).is_err() {
            fail(&mut self.job);
            self.faulted = true;
            return Err(DiskErr::Failed);
        }
        go(&mut self.job, next);
        Ok(())
    }

    /// Makes a planned request so: a running job gets room for the keys that it notes; where the request changes what is held, the
    /// change is laid, and one batch of it is written; and then the job goes on as it was planned. The effect is that of a plan of this
    /// core as it is, and no call of the disk has failed since the last opening.
    ///
    /// - `Memory`: out of memory. It comes before the first call of the disk, and nothing has changed.
    /// - `Failed`: a call of the disk failed. The request was taken wholly or not at all, it began no job, and a running one has failed.
    ///   The store is to be opened again before the next request.
    ///
    /// Where anything is changed it takes a logarithmic step or two for each changed value, and the time of one batch.
    pub fn commit<D: Disk>(
        &mut self,
        alloc: Global,
        disk: &mut D,
        effect: Effect,
    ) -> Result<(), DiskErr>
        requires calm { self.old.faulted ≡ false }
        requires sound { IsSound self.old }
        requires may { MayCommit self.old effect }

        // It is one request of the machine, on the disk and in the core, crash included.
        ensures commits { (q : Request) (answer : Answer) → Plans self.old q answer effect
            → Moves (D.told disk.old) (D.told disk.new) (Commits self.old q result self.new) }
        ensures sound { IsSound self.new }
        ensures image { self.new.image ≡ self.old.image }
        ensures calm { result ≢ Err DiskErr.Failed → self.new.faulted ≡ false }
        ensures cause { HasCauseOf DiskErr.Failed (D.faults disk.old) (D.faults disk.new) result }
        ensures untouched { result ≡ Err DiskErr.Memory → D.told disk.new ≡ D.told disk.old }
        ensures quiet { effect.change ≡ [] → D.told disk.new ≡ D.told disk.old }
    {
        reserve(&mut self.job, &effect.next)?;
        self.write(alloc, disk, effect)
    }
}
