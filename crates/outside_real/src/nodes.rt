//! The nodes of a disk, as they are listed.
use crate::places::{Standing, is_own, what_stands};
use outside::{Path, PathError};
use std::alloc::{AllocError, Global};
use std::collections::BTreeSet;
use std::fs;
use std::io::{self, ErrorKind};
use std::rt::Files;

/// The nodes that were found so far.
#[derive(Drop)]
pub struct Nodes {
    paths: BTreeSet<Path>,
    // The folders that are still to be listed.
    folders: Vec<Path>,
    /// The place at which a call failed: of a name, or of the folder where it couldn't be listed to its end.
    pub failed: Option<String>,
}

// The path of this name in the folder. A name that is none of a path is an error.
fn child(folder: &Path, name: &[u8]) -> io::Result<Path> {
    match folder.child(name) {
        Ok(path) => Ok(path),
        Err(PathError::Memory) => Err(io::Error::from(ErrorKind::OutOfMemory)),
        Err(_) => Err(io::Error::from(ErrorKind::InvalidFilename)),
    }
}

impl Nodes {
    /// None yet.
    pub fn new(alloc: Global) -> Nodes {
        Nodes {
            paths: BTreeSet::new(alloc),
            folders: Vec::new(alloc),
            failed: None,
        }
    }

    /// The folder is still to be listed.
    pub fn add_folder(&mut self, path: Path) -> Result<(), AllocError> {
        self.folders.push(path)?;
        Ok(())
    }

    /// A folder that is still to be listed, which is listed now.
    pub fn next_folder(&mut self) -> Option<Path> {
        self.folders.pop()
    }

    // Adds the path, at which this is.
    fn add(&mut self, path: Path, standing: Standing) -> Result<(), AllocError> {
        if standing == Standing::Folder {
            return self.add_folder(path);
        }
        self.paths.insert(path)?;
        Ok(())
    }

    // Adds what has this name in the folder, and is at the place. A name that is none of a path is an error.
    fn add_named(
        &mut self,
        files: &impl Files,
        folder: &Path,
        name: &[u8],
        place: &str,
    ) -> io::Result<()> {
        let path = child(folder, name)?;
        let standing = what_stands(files, place)?;
        Ok(self.add(path, standing)?)
    }

    // The same, unless the name is the adapters' own.
    fn add_entry<R: Files + AllocGlobal>(
        &mut self,
        rt: &R,
        folder: &Path,
        name: &[u8],
        place: &str,
    ) -> io::Result<()> {
        if folder.names().is_empty() && is_own(name) {
            return Ok(());
        }
        let answer = self.add_named(rt, folder, name, place);
        if answer.is_err() {
            self.failed = String::from_str(rt.alloc(), place).ok();
        }
        answer
    }

    // Adds each of the folder, which is at the place, and answers whether there is any.
    fn add_each<R: Files + AllocGlobal + Clone + Drop>(
        &mut self,
        rt: &R,
        folder: &Path,
        place: &str,
    ) -> io::Result<bool> {
        let mut is_empty = true;
        for entry in fs::read_dir(rt, place)? {
            let entry = entry?;
            let name = entry.file_name().as_bytes();
            self.add_entry(rt, folder, name, entry.path().as_str())?;
            is_empty = false;
        }
        Ok(!is_empty)
    }

    /// Adds what lies directly in the folder, which is at the place, and answers whether there is anything.
    pub fn add_entries<R: Files + AllocGlobal + Clone + Drop>(
        &mut self,
        rt: &R,
        folder: &Path,
        place: &str,
    ) -> io::Result<bool> {
        let answer = self.add_each(rt, folder, place);
        if answer.is_err() && self.failed.is_none() {
            self.failed = String::from_str(rt.alloc(), place).ok();
        }
        answer
    }

    /// Their paths, rising.
    pub fn rising(self, alloc: Global) -> Result<Vec<Path>, AllocError> {
        self.paths.into_iter().collect(alloc)
    }
}
