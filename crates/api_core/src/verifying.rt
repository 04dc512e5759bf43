//! The states of configuration files.
ghost use Rattle.std.specs.Prelude.{◌≡◌, ◌≢◌, false, Err, IfOk};
ghost use Rattle.json_trees.specs.Collected.{result_map};
ghost use Rattle.outside.specs.Told.{Moves, WhereTold};
ghost use Rattle.outside.specs.Faults.{HasCauseOf};
ghost use Rattle.api_core.specs.Cores.{IsSound};
ghost use Rattle.api_core.specs.Verifying.{Verifies, IsVerified, AreVerified};

use crate::Core;
use crate::next_job::fail;
use key_names::Text;
use outside::{Disk, DiskErr};
use settings_machine::{VerifiedFile, file_state, marked_files, path_of};
use settings_tree::LiveView;
use std::alloc::Global;

impl Core {
    // The file with its path and its state. It reads the disk once, and renders the file.
    fn verified<D: Disk>(
        &self,
        alloc: Global,
        disk: &mut D,
        file: Text,
        is_due: bool,
    ) -> Result<VerifiedFile, DiskErr>
        ensures same { D.told disk.new ≡ D.told disk.old }
        ensures verified { IfOk result (λ verified. WhereTold (D.told disk.old) (IsVerified self.now (file, is_due) verified)) }
        ensures cause { HasCauseOf DiskErr.Failed (D.faults disk.old) (D.faults disk.new) result }
    {
        let image = &self.image;
        let path = path_of(alloc, &image.manifest, &file)?;
        let found = disk.read(alloc, &path)?;
        let state = file_state(
            alloc,
            &image.templates,
            &image.model.os,
            &LiveView::of(&self.held.live),
            &file,
            found.as_deref(),
            is_due,
        )?;
        Ok(VerifiedFile {
            name: file,
            path,
            state,
        })
    }

    // The files of the manifest by name, each with its path and its state.
    fn all_verified<D: Disk>(
        &self,
        alloc: Global,
        disk: &mut D,
    ) -> Result<Vec<VerifiedFile>, DiskErr>
        ensures same { D.told disk.new ≡ D.told disk.old }
        ensures verified { IfOk result (λ files. WhereTold (D.told disk.old) (AreVerified self.now files.items)) }
        ensures cause { HasCauseOf DiskErr.Failed (D.faults disk.old) (D.faults disk.new) result }
    {
        let mut files = Vec::new(alloc);
        for (file, is_due) in marked_files(alloc, &self.image.manifest, &self.held.owed)? {
            let verified = self.verified(alloc, disk, file, is_due)?;
            files.push(verified)?;
        }
        Ok(files)
    }

    /// The state of each configuration file, by name. It reads each file once and renders it, one at a time, and changes nothing on the
    /// disk. No call of the disk has failed since the last opening.
    ///
    /// - `Memory`: out of memory. Nothing has changed.
    /// - `Failed`: a call of the disk failed, and a running job has failed. The store is to be opened again before the next request.
    ///
    /// It takes the time of reading and of rendering each file, and the memory of one file at a time.
    pub fn verify<D: Disk>(
        &mut self,
        alloc: Global,
        disk: &mut D,
    ) -> Result<Vec<VerifiedFile>, DiskErr>
        requires calm { self.old.faulted ≡ false }
        requires sound { IsSound self.old }

        // It is one request of the machine, in the core and on the disk, which tells as before.
        ensures verifies { Moves (D.told disk.old) (D.told disk.new) (Verifies self.old (result_map (λ files. files.items) result) self.new) }
        ensures same { D.told disk.new ≡ D.told disk.old }
        ensures unchanged { result ≢ Err DiskErr.Failed → self.new ≡ self.old }
        ensures sound { IsSound self.new }
        ensures image { self.new.image ≡ self.old.image }
        ensures calm { result ≢ Err DiskErr.Failed → self.new.faulted ≡ false }
        ensures cause { HasCauseOf DiskErr.Failed (D.faults disk.old) (D.faults disk.new) result }
    {
        match self.all_verified(alloc, disk) {
            Ok(files) => Ok(files),
            Err(DiskErr::Memory) => Err(DiskErr::Memory),
            Err(DiskErr::Failed) => {
                fail(&mut self.job);
                self.faulted = true;
                Err(DiskErr::Failed)
            }
        }
    }
}
