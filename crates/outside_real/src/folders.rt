//! Which real folders are there, as far as is known.
use crate::places::{Standing, remove_empty, what_stands};
use crate::walk::Walk;
use std::alloc::{AllocError, Global};
use std::collections::{BTreeMap, BTreeSet};
use std::fs;
use std::io::{self, ErrorKind};
use std::rt::Files;

/// The places that were looked at, each with whether a folder is there. As nobody else makes or removes any, each is
/// looked at once.
#[derive(Drop)]
pub struct Folders {
    seen: BTreeMap<String, bool>,
    // Those from which a file was removed, and which stay for the next one.
    left: BTreeSet<String>,
}

impl Folders {
    /// Nothing is known.
    pub fn new(alloc: Global) -> Folders {
        Folders {
            seen: BTreeMap::new(alloc),
            left: BTreeSet::new(alloc),
        }
    }

    /// Whether a folder is known to be at the place.
    pub fn is_known(&self, place: &String) -> bool {
        matches!(self.seen.get(place), Some(true))
    }

    /// There is a folder at the place.
    pub fn set(&mut self, place: String) -> Result<(), AllocError> {
        self.seen.insert(place, true)?;
        Ok(())
    }

    /// What is at the place changes now.
    pub fn forget(&mut self, place: &String) {
        self.seen.remove(place);
        self.left.remove(place);
    }

    /// The folder at the place, from which a file was removed, stays for the next one.
    pub fn leave(&mut self, place: String) -> Result<(), AllocError> {
        self.left.insert(place)?;
        Ok(())
    }

    /// One of those that stay, if there are more of them than so many. It counts as one no more.
    pub fn next_left(&mut self, most: usize) -> Option<String> {
        if self.left.len() <= most {
            return None;
        }
        self.left.pop_first()
    }

    /// Whether there is a folder at the place. A symbolic link there is an error.
    pub fn stands(&mut self, files: &impl Files, place: String) -> io::Result<bool> {
        if let Some(stands) = self.seen.get(&place) {
            return Ok(*stands);
        }
        let stands = what_stands(files, place.as_str())? == Standing::Folder;
        self.seen.insert(place, stands).map_err(AllocError::from)?;
        Ok(stands)
    }

    /// Removes the folder at the place and those below it. An error where there is more in them.
    pub fn remove_all<R: Files + AllocGlobal + Clone + Drop>(
        &mut self,
        rt: &R,
        place: String,
    ) -> io::Result<()> {
        let mut walk = Walk::new(rt.alloc());
        walk.add(rt, place)?;
        walk.go(rt)?;
        if walk.has_others || !walk.files.is_empty() {
            return Err(io::Error::from(ErrorKind::IsADirectory));
        }
        for _ in 0..usize::MAX {
            let Some(folder) = walk.folders.pop() else {
                break;
            };
            self.forget(&folder);
            fs::remove_dir(rt, folder.as_str())?;
        }
        Ok(())
    }

    /// Removes the folder at the place, if there is one, and answers whether it could. False where something is in it.
    pub fn remove_empty(&mut self, files: &impl Files, place: String) -> io::Result<bool> {
        self.forget(&place);
        let is_gone = remove_empty(files, place.as_str())?;
        if !is_gone {
            self.set(place)?;
        }
        Ok(is_gone)
    }
}
