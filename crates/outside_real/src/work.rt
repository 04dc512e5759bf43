//! The folder `.work`, and the locks in it.
use crate::places::{Standing, look, remove_file};
use std::alloc::{AllocError, Global};
use std::fs::{self, DirBuilder, File, OpenFile, OpenOptions};
use std::io::{self, ErrorKind, Write};
use std::os::unix::fs::{DirBuilderExt, MetadataExt};
use std::rt::Files;

/// A file that can be locked against other programs.
pub trait Lock {
    /// Locks the file until it is closed. `WouldBlock` where another program has locked or shared it.
    fn lock_now(&self) -> io::Result<()>;

    /// Shares the file until it is closed, so that none locks it. `WouldBlock` where another program has locked it.
    fn share_now(&self) -> io::Result<()>;
}

impl Lock for File {
    fn lock_now(&self) -> io::Result<()> {
        match self.try_lock() {
            Ok(()) => Ok(()),
            Err(e) => Err(io::Error::from(e)),
        }
    }

    fn share_now(&self) -> io::Result<()> {
        match self.try_lock_shared() {
            Ok(()) => Ok(()),
            Err(e) => Err(io::Error::from(e)),
        }
    }
}

/// Something in `.work` that isn't as these adapters make it.
pub fn refused() -> io::Error {
    io::Error::from(ErrorKind::PermissionDenied)
}

/// The place of a file of this name in the folder `.work` below the root.
pub fn place_in_work(alloc: Global, root: &str, name: &str) -> Result<String, AllocError> {
    format!(in alloc; "{root}/.work/{name}")
}

// Makes the folder, unless another program makes it meanwhile.
fn make_work(files: &impl Files, folder: &str) -> io::Result<()> {
    match DirBuilder::new().mode(0o700).create(files, folder) {
        Err(e) if e.kind() == ErrorKind::AlreadyExists => Ok(()),
        answer => answer,
    }
}

// The folder `.work` below the root is there, and this program's user alone may enter it: it is made where it is missing, and one of another
// user, or that others may enter, is refused.
fn check_work<R: Files + AllocGlobal>(rt: &R, root: &str) -> io::Result<()> {
    let folder = format!(in rt.alloc(); "{root}/.work")?;
    if look(rt, folder.as_str())? == Standing::Nothing {
        make_work(rt, folder.as_str())?;
    }
    let data = fs::symlink_metadata(rt, folder.as_str())?;
    if data.is_dir() && data.mode() & 0o077 == 0 && data.uid() == libc::geteuid() {
        Ok(())
    } else {
        Err(refused())
    }
}

/// The place of a file of this name in the folder `.work` below the root. This program's user alone may enter that folder, which
/// is made where it is missing. It need not last: what is made there is renamed or let go.
pub fn work_place<R: Files + AllocGlobal>(rt: &R, root: &str, name: &str) -> io::Result<String> {
    check_work(rt, root)?;
    Ok(place_in_work(rt.alloc(), root, name)?)
}

// A new file at the place, where none is left.
fn create_anew<R: Files>(files: &R, place: &str) -> io::Result<R::File> {
    remove_file(files, place)?;
    OpenOptions::new()
        .write(true)
        .create_new(true)
        .open(files, place)
}

/// A new file in `.work` with these bytes, on the disk. Answers its place and its mode.
pub fn make_new<R: Files + AllocGlobal>(
    rt: &R,
    root: &str,
    bytes: &[u8],
) -> io::Result<(String, u32)> {
    let place = place_in_work(rt.alloc(), root, "new")?;
    let mut file = create_anew(rt, place.as_str())?;
    file.write_all(bytes)?;
    file.sync_all()?;
    Ok((place, file.metadata()?.mode()))
}

// The file of the lock of this name in `.work`, which is made where it is missing.
fn open_lock<R: Files + AllocGlobal>(rt: &R, root: &str, name: &str) -> io::Result<R::File> {
    let place = work_place(rt, root, name)?;
    if !matches!(
        look(rt, place.as_str())?,
        Standing::Nothing | Standing::File
    ) {
        return Err(refused());
    }
    OpenOptions::new()
        .write(true)
        .create(true)
        .open(rt, place.as_str())
}

/// The lock of this name in `.work`, which is held until the file is closed. `WouldBlock` where another program holds
/// it; `PermissionDenied`, with nothing made, where `.work` is not this user's alone or no file is there; each other error is the system's.
pub fn take_lock<R: Files + AllocGlobal>(rt: &R, root: &str, name: &str) -> io::Result<R::File>
where
    R::File: Lock,
{
    let file = open_lock(rt, root, name)?;
    file.lock_now()?;
    Ok(file)
}

// The file of the lock as it is; where it is missing, nobody holds it, and the root takes its place.
fn open_unwritten<R: Files + AllocGlobal>(rt: &R, root: &str, name: &str) -> io::Result<R::File> {
    let place = place_in_work(rt.alloc(), root, name)?;
    match look(rt, place.as_str())? {
        Standing::File => fs::open(rt, place.as_str()),
        _ => fs::open(rt, root),
    }
}

/// The lock, as by `take_lock`; on a file system that is read-only it is not made.
pub fn take_lock_unwritten<R: Files + AllocGlobal>(
    rt: &R,
    root: &str,
    name: &str,
) -> io::Result<R::File>
where
    R::File: Lock,
{
    match take_lock(rt, root, name) {
        Err(e) if e.kind() == ErrorKind::ReadOnlyFilesystem => {
            let file = open_unwritten(rt, root, name)?;
            file.lock_now()?;
            Ok(file)
        }
        answer => answer,
    }
}

// A tenth of a second.
const PAUSE: i64 = 100_000_000;

/// Waits for a tenth of a second, or until a signal comes.
pub fn pause() {
    let asked = libc::types::timespec {
        tv_sec: 0,
        tv_nsec: PAUSE,
    };
    let mut left = libc::types::timespec {
        tv_sec: 0,
        tv_nsec: 0,
    };
    libc::nanosleep(&asked, &mut left);
}

/// The lock, as by `take_lock`; one that another program holds is waited for, so many tenths of a second at most.
pub fn take_lock_within<R: Files + AllocGlobal>(
    rt: &R,
    root: &str,
    name: &str,
    tenths: u32,
) -> io::Result<R::File>
where
    R::File: Lock,
{
    for _ in 0..tenths {
        match take_lock(rt, root, name) {
            Err(e) if e.kind() == ErrorKind::WouldBlock => pause(),
            answer => return answer,
        }
    }
    take_lock(rt, root, name)
}

/// Whether another program holds the lock of this name in `.work`, as far as can be seen. It is shared for a moment, so that those who look see
/// only who has locked it.
pub fn is_held<R: Files + AllocGlobal>(rt: &R, root: &str, name: &str) -> bool
where
    R::File: Lock,
{
    let Ok(place) = place_in_work(rt.alloc(), root, name) else {
        return false;
    };
    if !matches!(look(rt, place.as_str()), Ok(Standing::File)) {
        return false;
    }
    match fs::open(rt, place.as_str()) {
        Ok(file) => matches!(file.share_now(), Err(e) if e.kind() == ErrorKind::WouldBlock),
        Err(_) => false,
    }
}
