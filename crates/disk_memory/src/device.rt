//! The calls of a disk in memory.
ghost use Rattle.std.specs.Prelude.{◌≡◌, None, Some, option_map, IfOk, OnErr};
ghost use Rattle.outside.specs.Tree.{file, link, node_at, file_in, link_in, paths_below};
ghost use Rattle.outside.specs.History.{tree_of};
ghost use Rattle.outside.specs.DiskCalls.{Writes, Puts, Syncs};
ghost use Rattle.outside.specs.Told.{Moves, WhereTold};
ghost use Rattle.outside.specs.Faults.{HasCause, HasCauseOf};
ghost use Rattle.disk_memory.specs.Crash.{MayTear};
ghost use Rattle.disk_memory.specs.Plan.{CountsRead, CountsWrite};
ghost use Rattle.disk_memory.specs.Disk.{history_of, plan_of, told, faults};

use crate::{MemoryDisk, Node};
use outside::{Disk, DiskErr, Failed, Path};
use std::alloc::Global;

#[tactic(auto, using(crate::proofs::Calls::torn_write))]
impl Disk for MemoryDisk {
    ghost faults = { faults };

    ghost told = { told };

    fn read(&mut self, alloc: Global, path: &Path) -> Result<Option<Vec<u8>>, DiskErr>
        ensures same { told self.new ≡ told self.old }
        ensures bytes { IfOk result (λ found. WhereTold (told self.old)
            (λ h. option_map (λ v. v.items) found ≡ file_in (node_at (tree_of h) path.now))) }
        ensures cause { HasCauseOf DiskErr.Failed (faults self.old) (faults self.new) result }
        ensures counted { CountsRead (plan_of self.old) (plan_of self.new) result }
    {
        if self.plan.begin() {
            return Err(DiskErr::Failed);
        }
        match self.record.node(path) {
            Some(Node::File(bytes)) => Ok(Some(bytes.as_slice().to_vec(alloc)?)),
            _ => Ok(None),
        }
    }

    fn read_link(&mut self, alloc: Global, path: &Path) -> Result<Option<Vec<u8>>, DiskErr>
        ensures same { told self.new ≡ told self.old }
        ensures text { IfOk result (λ found. WhereTold (told self.old)
            (λ h. option_map (λ v. v.items) found ≡ link_in (node_at (tree_of h) path.now))) }
        ensures cause { HasCauseOf DiskErr.Failed (faults self.old) (faults self.new) result }
        ensures counted { CountsRead (plan_of self.old) (plan_of self.new) result }
    {
        if self.plan.begin() {
            return Err(DiskErr::Failed);
        }
        match self.record.node(path) {
            Some(Node::Link(text)) => Ok(Some(text.as_slice().to_vec(alloc)?)),
            _ => Ok(None),
        }
    }

    fn list(&mut self, alloc: Global, path: &Path) -> Result<Vec<Path>, DiskErr>
        ensures same { told self.new ≡ told self.old }
        ensures paths { IfOk result (λ found. WhereTold (told self.old)
            (λ h. found.items ≡ paths_below path.now (tree_of h))) }
        ensures cause { HasCauseOf DiskErr.Failed (faults self.old) (faults self.new) result }
        ensures counted { CountsRead (plan_of self.old) (plan_of self.new) result }
    {
        if self.plan.begin() {
            return Err(DiskErr::Failed);
        }
        Ok(self.record.paths_below(alloc, path)?)
    }

    fn write(&mut self, path: &Path, bytes: &[u8]) -> Result<(), Failed>
        ensures written { Moves (told self.old) (told self.new) (Writes path.now bytes.now result) }
        ensures cause { HasCause (faults self.old) (faults self.new) result }
        ensures counted { CountsWrite (plan_of self.old) (plan_of self.new) result }
        ensures failed { OnErr result (MayTear path.now (history_of self.old) (history_of self.new)) }
    {
        if self.plan.begin() {
            self.record.tear(path);
            return Err(Failed);
        }
        match self.record.put_file(path, bytes, true) {
            Ok(()) => Ok(()),
            Err(_) => {
                self.plan.fault();
                Err(Failed)
            }
        }
    }

    fn remove(&mut self, path: &Path) -> Result<(), Failed>
        ensures removed { Moves (told self.old) (told self.new) (Puts path.now None result) }
        ensures cause { HasCause (faults self.old) (faults self.new) result }
        ensures counted { CountsWrite (plan_of self.old) (plan_of self.new) result }
        ensures failed { OnErr result (history_of self.new ≡ history_of self.old) }
    {
        if self.plan.begin() {
            return Err(Failed);
        }
        match self.record.put(path, None, false) {
            Ok(()) => Ok(()),
            Err(_) => {
                self.plan.fault();
                Err(Failed)
            }
        }
    }

    fn replace(&mut self, path: &Path, bytes: &[u8]) -> Result<(), Failed>
        ensures replaced { Moves (told self.old) (told self.new) (Puts path.now (Some (file bytes.now)) result) }
        ensures cause { HasCause (faults self.old) (faults self.new) result }
        ensures counted { CountsWrite (plan_of self.old) (plan_of self.new) result }
        ensures failed { OnErr result (history_of self.new ≡ history_of self.old) }
    {
        if self.plan.begin() {
            return Err(Failed);
        }
        match self.record.put_file(path, bytes, false) {
            Ok(()) => Ok(()),
            Err(_) => {
                self.plan.fault();
                Err(Failed)
            }
        }
    }

    fn relink(&mut self, path: &Path, target: &[u8]) -> Result<(), Failed>
        ensures relinked { Moves (told self.old) (told self.new) (Puts path.now (Some (link target.now)) result) }
        ensures cause { HasCause (faults self.old) (faults self.new) result }
        ensures counted { CountsWrite (plan_of self.old) (plan_of self.new) result }
        ensures failed { OnErr result (history_of self.new ≡ history_of self.old) }
    {
        if self.plan.begin() {
            return Err(Failed);
        }
        match self.record.put_link(path, target) {
            Ok(()) => Ok(()),
            Err(_) => {
                self.plan.fault();
                Err(Failed)
            }
        }
    }

    fn sync(&mut self) -> Result<(), Failed>
        ensures synced { Moves (told self.old) (told self.new) (Syncs result) }
        ensures cause { HasCause (faults self.old) (faults self.new) result }
        ensures counted { CountsWrite (plan_of self.old) (plan_of self.new) result }
    {
        if self.plan.begin() {
            return Err(Failed);
        }
        match self.record.sync() {
            Ok(()) => Ok(()),
            Err(_) => {
                self.plan.fault();
                Err(Failed)
            }
        }
    }
}
