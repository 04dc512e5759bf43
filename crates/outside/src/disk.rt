//! A disk: files and links by their paths, and what a crash may leave of them.
ghost use Rattle.std.specs.Prelude.{◌≡◌, ℕ, Option, Some, None, option_map, IfOk};
ghost use Rattle.outside.specs.Tree.{file, link, node_at, file_in, link_in, paths_below};
ghost use Rattle.outside.specs.History.{History, tree_of};
ghost use Rattle.outside.specs.DiskCalls.{Writes, Puts, Syncs};
ghost use Rattle.outside.specs.Told.{Moves, WhereTold};
ghost use Rattle.outside.specs.Faults.{HasCause, HasCauseOf};

use crate::{DiskErr, Failed, Path};
use std::alloc::Global;

/// A disk. It fails only where its count of faults rises, and its writing calls take none of the caller's memory.
///
/// Where it tells, it tells its history: every change so far, over a tree that is on the disk. The tree as it
/// reads, the present moment, and the trees that a crash may leave are functions and relations of that history.
/// Between two successful syncs a path that `write` touched may be left with any bytes or nothing; a path that
/// only `replace`, `relink` and `remove` touched is left with one of the nodes that it had since the last sync;
/// other paths stay, and paths are independent of each other. After a sync that answered Ok the tree is what is left.
pub trait Disk {
    /// How often it has failed. The count begins at 0, never falls, and stays at the greatest `u64`.
    ghost faults: { Self → ℕ };

    /// What it went through, where it tells and keeps to the rules of a crash.
    ghost told: { Self → Option History };

    /// The bytes of the file at the path, or None where no file is there.
    ///
    /// `Failed` where the disk fails, `Memory` where it runs out of memory.
    fn read(&mut self, alloc: Global, path: &Path) -> Result<Option<Vec<u8>>, DiskErr>
        ensures same { told self.new ≡ told self.old }
        ensures bytes { IfOk result (λ found. WhereTold (told self.old)
            (λ h. option_map (λ v. v.items) found ≡ file_in (node_at (tree_of h) path.now))) }
        ensures cause { HasCauseOf DiskErr.Failed (faults self.old) (faults self.new) result };

    /// The text of the link at the path, or None where no link is there.
    ///
    /// `Failed` where the disk fails, `Memory` where it runs out of memory.
    fn read_link(&mut self, alloc: Global, path: &Path) -> Result<Option<Vec<u8>>, DiskErr>
        ensures same { told self.new ≡ told self.old }
        ensures text { IfOk result (λ found. WhereTold (told self.old)
            (λ h. option_map (λ v. v.items) found ≡ link_in (node_at (tree_of h) path.now))) }
        ensures cause { HasCauseOf DiskErr.Failed (faults self.old) (faults self.new) result };

    /// The paths of all nodes strictly below the path, rising. Folders are no nodes.
    ///
    /// `Failed` where the disk fails, `Memory` where it runs out of memory.
    fn list(&mut self, alloc: Global, path: &Path) -> Result<Vec<Path>, DiskErr>
        ensures same { told self.new ≡ told self.old }
        ensures paths { IfOk result (λ found. WhereTold (told self.old)
            (λ h. found.items ≡ paths_below path.now (tree_of h))) }
        ensures cause { HasCauseOf DiskErr.Failed (faults self.old) (faults self.new) result };

    /// Makes the path a file with these bytes, in place. Until a sync a crash may leave any bytes there, or nothing.
    ///
    /// After `Failed` the path has any bytes, nothing, or the old node, and every other path is as before.
    fn write(&mut self, path: &Path, bytes: &[u8]) -> Result<(), Failed>
        ensures written { Moves (told self.old) (told self.new) (Writes path.now bytes.now result) }
        ensures cause { HasCause (faults self.old) (faults self.new) result };

    /// Takes the node away, if there is one.
    ///
    /// After `Failed` the path has the old node or none, and every other path is as before.
    fn remove(&mut self, path: &Path) -> Result<(), Failed>
        ensures removed { Moves (told self.old) (told self.new) (Puts path.now None result) }
        ensures cause { HasCause (faults self.old) (faults self.new) result };

    /// Makes the path a file with these bytes, at once: a crash leaves them or what was there.
    ///
    /// After `Failed` the path has the old node or the new one, and every other path is as before.
    fn replace(&mut self, path: &Path, bytes: &[u8]) -> Result<(), Failed>
        ensures replaced { Moves (told self.old) (told self.new) (Puts path.now (Some (file bytes.now)) result) }
        ensures cause { HasCause (faults self.old) (faults self.new) result };

    /// Makes the path a link with this text, at once.
    ///
    /// After `Failed` the path has the old node or the new one, and every other path is as before.
    fn relink(&mut self, path: &Path, target: &[u8]) -> Result<(), Failed>
        ensures relinked { Moves (told self.old) (told self.new) (Puts path.now (Some (link target.now)) result) }
        ensures cause { HasCause (faults self.old) (faults self.new) result };

    /// Puts what is there on the disk: after it a crash leaves the tree as it reads.
    ///
    /// After `Failed` a crash leaves what it might have left before.
    fn sync(&mut self) -> Result<(), Failed>
        ensures synced { Moves (told self.old) (told self.new) (Syncs result) }
        ensures cause { HasCause (faults self.old) (faults self.new) result };
}
