//! Folders of the real system in which nothing is left.
use crate::folder::Folder;
use crate::places::{Kind, LINKS, STORE};
use crate::work::Lock;
use outside::Path;
use std::alloc::AllocError;
use std::io;
use std::rt::Files;

impl<R: Files + AllocGlobal + Clone + Drop> Folder<R>
where
    R::File: Lock,
{
    // Removes the folder at the place and those that it lies in, as long as nothing is left in them, up to the one that is last. The folder
    // above such a one is to be synced.
    fn prune(&mut self, place: String, last: &str) -> io::Result<()> {
        let mut folder = place;
        for _ in 0..usize::MAX {
            let above = match folder.as_str().rsplit_once('/') {
                Some((above, _)) if folder.as_str() != last => String::from_str(
                    self.rt.alloc(),
                    above,
                )?,
                _ => break,
            };
            let copy = String::from_str(self.rt.alloc(), above.as_str())?;
            let is_new = self.unsynced.note(copy)?;
            if !self.folders.remove_empty(&self.rt, folder)? {
                if is_new {
                    self.unsynced.forget(&above);
                }
                break;
            }
            folder = above;
        }
        Ok(())
    }

    // The place of this name below the root.
    fn below(&self, name: &str) -> Result<String, AllocError> {
        format!(in self.rt.alloc(); "{}{name}", self.root)
    }

    // A node of this kind was removed from the folder that the path lies in. Below `store` the folder stays for the next file, and below
    // `.links` it goes with the last one.
    pub(crate) fn leave(&mut self, kind: Kind, path: &Path) -> io::Result<()> {
        let folder = self.folder(kind, path)?;
        if kind.is_stored(path) {
            self.folders.leave(folder)?;
        } else if kind == Kind::Link {
            let last = self.below(LINKS)?;
            self.prune(folder, last.as_str())?;
        }
        Ok(())
    }

    /// Removes what is empty of the folders below `store` from which a file was removed, until so many are left. What a crash brings back of
    /// these is no node.
    pub fn prune_left(&mut self, most: usize) -> io::Result<()> {
        let last = self.below(STORE)?;
        for _ in 0..usize::MAX {
            let Some(folder) = self.folders.next_left(most) else {
                break;
            };
            self.prune(folder, last.as_str())?;
        }
        Ok(())
    }
}
