//! What lies below real folders.
use crate::places::{KEPT, Standing, look};
use std::alloc::{AllocError, Global};
use std::fs;
use std::io::{self, ErrorKind};
use std::rt::Files;

/// The places below some folders.
#[derive(Drop)]
pub struct Walk {
    /// The folders themselves and those below them, each after the one that it lies in.
    pub folders: Vec<String>,
    /// The files in them.
    pub files: Vec<String>,
    /// Whether there is anything else in them.
    pub has_others: bool,
    /// The folder that couldn't be listed.
    pub failed: Option<String>,
}

impl Walk {
    /// Below no folder.
    pub fn new(alloc: Global) -> Walk {
        Walk {
            folders: Vec::new(alloc),
            files: Vec::new(alloc),
            has_others: false,
            failed: None,
        }
    }

    /// Adds what is at the place.
    pub fn add(&mut self, files: &impl Files, place: String) -> io::Result<()> {
        match look(files, place.as_str())? {
            Standing::Nothing => {}
            Standing::File => self.files.push(place).map_err(AllocError::from)?,
            Standing::Folder => self.folders.push(place).map_err(AllocError::from)?,
            Standing::Other => self.has_others = true,
        }
        Ok(())
    }

    // Adds what lies directly in the folder.
    fn add_entries<R: Files + AllocGlobal + Clone + Drop>(
        &mut self,
        rt: &R,
        folder: &str,
    ) -> io::Result<()> {
        for entry in fs::read_dir(rt, folder)? {
            match entry {
                Ok(entry) => {
                    let place = String::from_str(rt.alloc(), entry.path().as_str())?;
                    self.add(rt, place)?;
                }
                // no name of a path, so no program of this kind has made it
                Err(e) if e.kind() == ErrorKind::InvalidFilename => self.has_others = true,
                Err(e) => return Err(e),
            }
        }
        Ok(())
    }

    /// Adds all that lies below its folders.
    pub fn go<R: Files + AllocGlobal + Clone + Drop>(&mut self, rt: &R) -> io::Result<()> {
        for next in 0..usize::MAX {
            let Some(folder) = self.folders.get(next) else {
                break;
            };
            let folder = String::from_str(rt.alloc(), folder.as_str())?;
            if let Err(e) = self.add_entries(rt, folder.as_str()) {
                self.failed = Some(folder);
                return Err(e);
            }
        }
        Ok(())
    }

    // Adds what is at this place below the root.
    fn add_below<R: Files + AllocGlobal>(
        &mut self,
        rt: &R,
        root: &str,
        below: &str,
    ) -> io::Result<()> {
        let mut place = String::from_str(rt.alloc(), root)?;
        place.push_str(below)?;
        self.add(rt, place)
    }

    /// Adds all that earlier programs may have left below the root, and the root itself.
    pub fn go_kept<R: Files + AllocGlobal + Clone + Drop>(
        &mut self,
        rt: &R,
        root: &str,
    ) -> io::Result<()> {
        for below in KEPT {
            self.add_below(rt, root, below)?;
        }
        self.go(rt)?;
        let root = String::from_str(rt.alloc(), root)?;
        self.folders.push(root).map_err(AllocError::from)?;
        Ok(())
    }
}
