//! A file system that writes down what it is asked to change or to put on the disk, and fails where it is set to.
use outside_real::{Lock, RealDisk};
use std::alloc::{Alloc, AllocError, Allocator, Global};
use std::cell::Cell;
use std::fs::{self, File, Metadata, OpenFile, OpenOptions};
use std::io::{self, ErrorKind, Read, Seek, SeekFrom, Write};
use std::rc::Rc;
use std::rt::Files;
use std::test::Fail;
use test_support::new_folder;

/// The calls to the system below a folder.
#[derive(Drop)]
pub struct Watched {
    /// The runtime, whose calls are not written down.
    pub rt: HostRuntime,
    root: String,
    // What was written down.
    log: Rc<Cell<String>>,
    // How many more calls there are up to the one that fails; none fails for 0.
    left: Rc<Cell<u64>>,
}

/// A file that was opened there.
#[derive(Drop)]
pub struct WatchedFile {
    file: File,
    place: String,
    watched: Watched,
}

impl Watched {
    /// Those below a new folder.
    pub fn new(rt: &HostRuntime, name: &str) -> io::Result<Watched> {
        let alloc = rt.alloc();
        Ok(Watched {
            rt: rt.clone()?,
            root: new_folder(rt, name)?,
            log: Rc::new(alloc, Cell::new(String::new(alloc)))?,
            left: Rc::new(alloc, Cell::new(0))?,
        })
    }

    /// A disk below the folder.
    pub fn disk(&self) -> Result<RealDisk<Watched>, AllocError> {
        RealDisk::new(self.clone()?, self.root.as_str())
    }

    /// The place of what lies there below the folder.
    pub fn place(&self, below: &str) -> Result<String, AllocError> {
        format!(in self.rt.alloc(); "{}/{below}", self.root)
    }

    /// Makes the k-th of the next calls fail; none for 0.
    pub fn fail(&self, k: u64) {
        self.left.set(k);
    }

    /// What was written down since the last time.
    pub fn trace(&self) -> String {
        self.log.replace(String::new(self.rt.alloc()))
    }

    /// Removes the folder.
    pub fn end(&self) -> Result<(), Fail> {
        Ok(fs::remove_dir_all(&self.rt, self.root.as_str())?)
    }

    // Writes the call down, unless it only serves the lock.
    fn note(&self, call: &str, place: &str) -> io::Result<()> {
        if place.ends_with("/lock") || place.ends_with("/owner") {
            return Ok(());
        }
        let below = place.strip_prefix(self.root.as_str()).unwrap_or(place);
        let below = if below.is_empty() { "/" } else { below };
        let mut log = self.trace();
        writeln!(log, "{call} {below}")?;
        self.log.set(log);
        let left = self.left.get();
        self.left.set(left.saturating_sub(1));
        if left == 1 {
            return Err(io::Error::from(ErrorKind::Other));
        }
        Ok(())
    }
}

impl Clone for Watched {
    fn clone(&self) -> Result<Watched, AllocError> {
        Ok(Watched {
            rt: self.rt.clone()?,
            root: self.root.clone()?,
            log: self.log.clone()?,
            left: self.left.clone()?,
        })
    }
}

impl Alloc for Watched {
    type A = Global;

    fn alloc(&self) -> Global {
        self.rt.alloc()
    }
}

impl Files for Watched {
    type File = WatchedFile;

    type Dir = <HostRuntime as Files>::Dir;

    fn open_file(&self, how: &OpenOptions, path: &str) -> io::Result<WatchedFile> {
        if how.asks_write() {
            self.note("write", path)?;
        }
        Ok(WatchedFile {
            file: self.rt.open_file(how, path)?,
            place: String::from_str(self.alloc(), path)?,
            watched: self.clone()?,
        })
    }

    fn open_dir(&self, path: &str) -> io::Result<<HostRuntime as Files>::Dir> {
        self.rt.open_dir(path)
    }

    fn metadata(&self, path: &str) -> io::Result<Metadata> {
        self.rt.metadata(path)
    }

    fn symlink_metadata(&self, path: &str) -> io::Result<Metadata> {
        self.rt.symlink_metadata(path)
    }

    fn copy(&self, from: &str, to: &str) -> io::Result<u64> {
        self.rt.copy(from, to)
    }

    fn rename(&self, from: &str, to: &str) -> io::Result<()> {
        self.note("rename", to)?;
        self.rt.rename(from, to)
    }

    fn remove_file(&self, path: &str) -> io::Result<()> {
        self.note("remove", path)?;
        self.rt.remove_file(path)
    }

    fn create_dir(&self, path: &str) -> io::Result<()> {
        self.note("mkdir", path)?;
        self.rt.create_dir(path)
    }

    fn create_dir_with_mode(&self, path: &str, mode: u32) -> io::Result<()> {
        self.note("mkdir", path)?;
        self.rt.create_dir_with_mode(path, mode)
    }

    fn remove_dir(&self, path: &str) -> io::Result<()> {
        self.note("rmdir", path)?;
        self.rt.remove_dir(path)
    }

    fn remove_dir_all<B: Allocator>(&self, alloc: B, path: &str) -> io::Result<()> {
        self.rt.remove_dir_all(alloc, path)
    }
}

impl OpenFile for WatchedFile {
    fn metadata(&self) -> io::Result<Metadata> {
        self.file.metadata()
    }

    fn set_len(&self, size: u64) -> io::Result<()> {
        self.file.set_len(size)
    }

    fn sync_all(&self) -> io::Result<()> {
        self.watched.note("sync", self.place.as_str())?;
        self.file.sync_all()
    }

    fn sync_data(&self) -> io::Result<()> {
        self.file.sync_data()
    }
}

impl Lock for WatchedFile {
    fn lock_now(&self) -> io::Result<()> {
        self.file.lock_now()
    }

    fn share_now(&self) -> io::Result<()> {
        self.file.share_now()
    }
}

impl Read for WatchedFile {
    fn read(&mut self, room: &mut [u8]) -> io::Result<usize> {
        self.file.read(room)
    }
}

impl Write for WatchedFile {
    fn write(&mut self, piece: &[u8]) -> io::Result<usize> {
        self.file.write(piece)
    }

    fn flush(&mut self) -> io::Result<()> {
        self.file.flush()
    }
}

impl Seek for WatchedFile {
    fn seek(&mut self, to: SeekFrom) -> io::Result<u64> {
        self.file.seek(to)
    }
}
