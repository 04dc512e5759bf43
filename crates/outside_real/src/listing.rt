//! The nodes below a folder of the real system, listed.
use crate::folder::Folder;
use crate::nodes::Nodes;
use crate::places::Kind;
use crate::work::Lock;
use outside::Path;
use std::io;
use std::rt::Files;

impl<R: Files + AllocGlobal + Clone + Drop> Folder<R>
where
    R::File: Lock,
{
    // Whether there is a folder where a node of this kind at the path would be. A symbolic link there is an error.
    fn is_folder(&mut self, kind: Kind, path: &Path) -> io::Result<bool> {
        let place = self.place(kind, path)?;
        if !self.has_folders(kind, path)? {
            return Ok(false);
        }
        self.folders.stands(&self.rt, place)
    }

    // Adds what lies directly in the folder. One of the store that is empty may go, as those do that this program leaves so.
    fn list_folder(&mut self, kind: Kind, folder: &Path, nodes: &mut Nodes) -> io::Result<()> {
        let place = self.first_names(kind, folder, folder.names().len())?;
        if !nodes.add_entries(&self.rt, folder, place.as_str())? && kind.is_stored(folder) {
            let copy = String::from_str(self.rt.alloc(), place.as_str())?;
            self.folders.leave(copy)?;
        }
        self.folders.set(place)?;
        Ok(())
    }

    // Adds the nodes of this kind below the path.
    fn list_kind(&mut self, kind: Kind, path: &Path, nodes: &mut Nodes) -> io::Result<()> {
        if !self.is_folder(kind, path)? {
            return Ok(());
        }
        nodes.add_folder(path.copy()?)?;
        // A folder that others fill meanwhile may never be listed to its end.
        for _ in 0..u64::MAX {
            let Some(folder) = nodes.next_folder() else {
                break;
            };
            self.list_folder(kind, &folder, nodes)?;
        }
        Ok(())
    }

    // Adds the nodes of both kinds below the path.
    fn list_kinds(&mut self, path: &Path, nodes: &mut Nodes) -> io::Result<()> {
        self.list_kind(Kind::File, path, nodes)?;
        self.list_kind(Kind::Link, path, nodes)
    }

    /// The paths of all nodes strictly below the path, rising. A name that is none of a path is an error.
    pub fn list(&mut self, path: &Path) -> io::Result<Vec<Path>> {
        self.begin()?;
        let mut nodes = Nodes::new(self.rt.alloc());
        if let Err(e) = self.list_kinds(path, &mut nodes) {
            self.stray("list", nodes.failed.take());
            return Err(e);
        }
        Ok(nodes.rising(self.rt.alloc())?)
    }
}
