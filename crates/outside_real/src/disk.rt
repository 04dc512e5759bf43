//! Files below a folder of the real file system, as a disk.
use crate::failure::On;
use crate::faults::Faults;
use crate::folder::Folder;
use crate::places::Kind;
use crate::work::Lock;
use outside::{Disk, DiskErr, Failed, Path};
use std::alloc::{AllocError, Global};
use std::rt::Files;

/// A disk over the files below a folder, to which nobody else writes.
///
/// A file lies at its own path, and a link as a file at the same path below `.links`. A new file is made in `.work`,
/// synced, and renamed over the old one; a file that is there is written over by `write`, without losing its blocks. A folder is no node: one
/// without files gives way to a file, below `.links` a folder goes with the last file in it, and below `store` up to 64 stay until `tidy`.
///
/// A file that is removed from `store` is kept in `.work`, at most 128 of 64 KiB at most. Once a sync has put its removal on the disk it serves for
/// the next new file of `store`.
///
/// The first call takes the lock on the folder, which is held as long as the disk lives. Where another program holds it,
/// each call is a fault and nothing is read or changed; `wait_for_lock` lets the first one wait for it. On a file system that is
/// read-only the lock is taken without being made.
///
/// `sync` flushes each file that was written in place and each folder whose entries changed since the last sync that
/// answered Ok, each once. While something isn't flushed, `.work/unsettled` is there. Where an earlier program has left it, the first sync
/// flushes all files and folders of `store`, `etc` and `.links` too. The bytes of a file that was written in place are kept until it is on the disk:
/// where its sync fails, reads answer them and the next sync writes them anew. Where the sync of a folder fails, or of a
/// file whose bytes aren't kept, each later call is a fault.
///
/// No symbolic link is followed below the folder. At a path that is named it is a fault, and so is all that is neither a
/// file nor a folder, and a path below `.work`, `.links` or `api.sock`. Each error is a fault, and so is running out of
/// memory in a writing call.
#[derive(Drop)]
pub struct RealDisk<R: Files + AllocGlobal + Clone + Drop> {
    folder: Folder<R>,
    faults: Faults,
}

impl<R: Files + AllocGlobal + Clone + Drop> RealDisk<R>
where
    R::File: Lock,
{
    /// A disk over the files below this folder, which is there; `.` is the working folder. Or out of memory.
    pub fn new(rt: R, root: &str) -> Result<RealDisk<R>, AllocError> {
        let faults = Faults::new(rt.alloc());
        let folder = Folder::new(rt, root)?;
        Ok(RealDisk { folder, faults })
    }

    /// The first call waits for a command that holds the lock on the folder, ten seconds at most. A server is not waited for.
    pub fn wait_for_lock(&mut self) {
        self.folder.hold.wait();
    }

    /// Takes the lock on the folder now, as the first call would, and answers whether it is held. Where it isn't, nothing is a fault yet: the first call
    /// tries again, without a wait.
    pub fn hold(&mut self) -> bool {
        self.folder.take_hold().is_ok()
    }

    /// No call takes the lock on the folder: for who reads alone what no program writes.
    pub fn take_no_lock(&mut self) {
        self.folder.hold.take_none();
    }

    /// Removes the empty folders below `store`, as far as it can: for the end of a program, since until then they stay.
    pub fn tidy(&mut self) {
        let _ = self.folder.prune_left(0);
    }

    /// Whether another program held the lock on the folder at the last call.
    pub fn is_locked_out(&self) -> bool {
        self.folder.hold.is_locked_out()
    }

    /// What the last failure was, in a line for a person without a line feed, as `read image/model.toml: permission denied (13)` or
    /// `image is a symbolic link`; none where no call has failed. Or out of memory.
    pub fn last_failure(&self) -> Result<Option<String>, AllocError> {
        match self.faults.last() {
            Some(failure) => Ok(Some(self.folder.explain(failure)?)),
            None => Ok(None),
        }
    }
}

impl<R: Files + AllocGlobal + Clone + Drop> Disk for RealDisk<R>
where
    R::File: Lock,
{
    ghost use Rattle.std.specs.Prelude.{None};

    ghost faults = { λ d. d.faults.count };

    ghost told = { λ _. None };

    fn read(&mut self, _alloc: Global, path: &Path) -> Result<Option<Vec<u8>>, DiskErr> {
        let answer = self.folder.file(path);
        self.faults.counted_read("read", On::Path(path), answer)
    }

    fn read_link(&mut self, _alloc: Global, path: &Path) -> Result<Option<Vec<u8>>, DiskErr> {
        let answer = self.folder.link(path);
        self.faults.counted_read("read", On::Path(path), answer)
    }

    fn list(&mut self, _alloc: Global, path: &Path) -> Result<Vec<Path>, DiskErr> {
        let answer = self.folder.list(path);
        self.faults.counted_read("list", On::Path(path), answer)
    }

    fn write(&mut self, path: &Path, bytes: &[u8]) -> Result<(), Failed> {
        let answer = self.folder.write(path, bytes);
        self.faults.counted("write", On::Path(path), answer)
    }

    fn remove(&mut self, path: &Path) -> Result<(), Failed> {
        let answer = self.folder.remove(path);
        self.faults.counted("remove", On::Path(path), answer)
    }

    fn replace(&mut self, path: &Path, bytes: &[u8]) -> Result<(), Failed> {
        let answer = self.folder.put(Kind::File, path, bytes);
        self.faults.counted("replace", On::Path(path), answer)
    }

    fn relink(&mut self, path: &Path, target: &[u8]) -> Result<(), Failed> {
        let answer = self.folder.put(Kind::Link, path, target);
        self.faults.counted("relink", On::Path(path), answer)
    }

    fn sync(&mut self) -> Result<(), Failed> {
        let answer = self.folder.sync();
        self.faults
            .counted("fsync", On::Name("what was written"), answer)
    }
}
