//! Files that were removed, kept for the next ones.
use crate::places::{remove_file, write_over};
use crate::work::{make_new, place_in_work};
use std::alloc::{AllocError, Global};
use std::fs::{self, Metadata, OpenFile};
use std::io::{self, ErrorKind};
use std::os::unix::fs::MetadataExt;
use std::rt::Files;

/// How many are kept at most.
const MOST: u32 = 128;

/// How many bytes one has at most.
const LARGEST: u64 = 65_536;

/// Files that were removed by a rename into `.work`, where they are `spare-0` to `spare-127`. So the system frees no block for them, and the
/// files that follow need none.
///
/// One is written only once the removal of its name is on the disk: until then a crash may bring the name back, which would show what was
/// written. One that an earlier program left is never written, as after a crash its file may have another name too.
#[derive(Drop)]
pub struct Spares {
    // How a new file is made: its mode, once one was.
    mode: Option<u32>,
    // How many of the names were used.
    used: u32,
    // The numbers of the used names at which nothing is.
    free: Vec<u32>,
    // The numbers of the spares, of which so many of the first may be written.
    kept: Vec<u32>,
    ready: usize,
}

// The place of the spare of this number.
fn place_of(alloc: Global, root: &str, number: u32) -> Result<String, AllocError> {
    let name = format!(in alloc; "spare-{number}")?;
    place_in_work(alloc, root, name.as_str())
}

impl Spares {
    /// None yet.
    pub fn new(alloc: Global) -> Spares {
        Spares {
            mode: None,
            used: 0,
            free: Vec::new(alloc),
            kept: Vec::new(alloc),
            ready: 0,
        }
    }

    // Whether the file is as a new one of this program, so that nobody can tell the two apart: small, with one name, of this user and with the
    // modes of new files. (One with another name may be a spare too, after a crash, and a rename of a file to itself does nothing.)
    fn fits(&self, data: &Metadata) -> bool {
        data.is_file()
            && data.len() <= LARGEST
            && data.nlink() == 1
            && data.uid() == libc::geteuid()
            && self.mode == Some(data.mode())
    }

    // A number whose name may be used.
    fn free_number(&mut self) -> Option<u32> {
        if let Some(number) = self.free.pop() {
            return Some(number);
        }
        if MOST <= self.used {
            return None;
        }
        let number = self.used;
        self.used = number + 1;
        Some(number)
    }

    // Removes the file at the place, which becomes the spare of this number. False where the disk has no room for the name.
    fn keep<R: Files + AllocGlobal>(
        &mut self,
        rt: &R,
        root: &str,
        place: &str,
        number: u32,
    ) -> io::Result<bool> {
        let spare = place_of(rt.alloc(), root, number)?;
        self.kept.push(number).map_err(AllocError::from)?;
        match fs::rename(rt, place, spare.as_str()) {
            Ok(()) => Ok(true),
            Err(e) => {
                self.kept.pop();
                if e.kind() == ErrorKind::StorageFull {
                    Ok(false)
                } else {
                    Err(e)
                }
            }
        }
    }

    /// Removes the file at the place, and keeps it where it fits.
    pub fn remove<R: Files + AllocGlobal>(
        &mut self,
        rt: &R,
        root: &str,
        place: &str,
    ) -> io::Result<()> {
        let data = fs::symlink_metadata(rt, place)?;
        if self.fits(&data) {
            if let Some(number) = self.free_number() {
                if self.keep(rt, root, place, number)? {
                    return Ok(());
                }
            }
        }
        remove_file(rt, place)
    }

    /// The removals of all that are kept are on the disk.
    pub fn settle(&mut self) {
        self.ready = self.kept.len();
    }

    // One that may be written, and that is the caller's from now on: its place.
    fn take(&mut self, alloc: Global, root: &str) -> Result<Option<String>, AllocError> {
        if self.ready == 0 || self.kept.len() < self.ready {
            return Ok(None);
        }
        self.ready -= 1;
        let number = self.kept.remove(self.ready);
        self.free.push(number)?;
        Ok(Some(place_of(alloc, root, number)?))
    }

    /// A file in `.work` with these bytes, on the disk: a spare, or a new one. Answers its place.
    pub fn make<R: Files + AllocGlobal>(
        &mut self,
        rt: &R,
        root: &str,
        bytes: &[u8],
    ) -> io::Result<String> {
        match self.take(rt.alloc(), root)? {
            Some(spare) => {
                let file = write_over(rt, spare.as_str(), bytes)?;
                file.sync_all()?;
                Ok(spare)
            }
            None => {
                let (place, mode) = make_new(rt, root, bytes)?;
                self.mode = Some(mode);
                Ok(place)
            }
        }
    }

    /// Lays a spare at the place, at which nothing is, if there is one. It has any bytes.
    pub fn lay<R: Files + AllocGlobal>(
        &mut self,
        rt: &R,
        root: &str,
        place: &str,
    ) -> io::Result<()> {
        match self.take(rt.alloc(), root)? {
            Some(spare) => fs::rename(rt, spare.as_str(), place),
            None => Ok(()),
        }
    }
}
