//! Where the nodes of a disk lie below a real folder.
use outside::Path;
use std::alloc::{AllocError, Global};
use std::fs::{self, OpenFile, OpenOptions};
use std::io::{self, ErrorKind, Write};
use std::rt::Files;

/// Files lie at their own paths, and links as files at the same paths below a folder of their own.
#[derive(Clone, Copy, Debug, PartialEq, Eq)]
pub enum Kind {
    /// A file of the disk.
    File,
    /// A link of the disk, kept as a file that holds its text.
    Link,
}

impl Kind {
    /// The folder below the root where such nodes lie, empty for the root itself.
    fn folder(self) -> &'static str {
        match self {
            Kind::File => "",
            Kind::Link => LINKS,
        }
    }

    /// The other kind.
    pub fn other(self) -> Kind {
        match self {
            Kind::File => Kind::Link,
            Kind::Link => Kind::File,
        }
    }

    /// Whether the node is one of the store itself: a file below `store`.
    pub fn is_stored(self, path: &Path) -> bool {
        self == Kind::File
            && matches!(path.names().first(), Some(name) if name.as_slice() == b"store".as_slice())
    }
}

/// The socket below the root.
pub const SOCKET: &str = "/api.sock";

/// The folders below the root from which empty folders are removed.
pub const STORE: &str = "/store";

/// The same, of links.
pub const LINKS: &str = "/.links";

/// The folders below the root in which an earlier program may have left what is not on the disk yet.
pub const KEPT: [&str; 3] = [STORE, "/etc", LINKS];

/// Whether the name of something directly below the root is the adapters' own, so that no node lies there.
pub fn is_own(name: &[u8]) -> bool {
    matches!(name, b".work" | b".links" | b"api.sock")
}

// Adds the name after a slash.
fn push_name(place: &mut String, name: &[u8]) -> Result<(), AllocError> {
    place.push('/')?;
    for byte in name {
        place.push(char::from(*byte))?;
    }
    Ok(())
}

/// The place of the path's first `count` names, below the root and the kind's folder.
pub fn place_of(
    alloc: Global,
    root: &str,
    kind: Kind,
    path: &Path,
    count: usize,
) -> Result<String, AllocError> {
    let mut place = String::from_str(alloc, root)?;
    place.push_str(kind.folder())?;
    for name in path.names().iter().take(count) {
        push_name(&mut place, name.as_slice())?;
    }
    Ok(place)
}

/// What is at a place.
#[derive(Clone, Copy, Debug, PartialEq, Eq)]
pub enum Standing {
    /// Nothing.
    Nothing,
    /// A regular file.
    File,
    /// A folder.
    Folder,
    /// Anything else, as a symbolic link.
    Other,
}

/// What is at the place, with no symbolic link followed at its end.
pub fn look(files: &impl Files, place: &str) -> io::Result<Standing> {
    match fs::symlink_metadata(files, place) {
        Ok(data) if data.is_file() => Ok(Standing::File),
        Ok(data) if data.is_dir() => Ok(Standing::Folder),
        Ok(_) => Ok(Standing::Other),
        Err(e) if e.kind() == ErrorKind::NotFound => Ok(Standing::Nothing),
        Err(e) => Err(e),
    }
}

/// The same, where anything but a file or a folder is an error.
pub fn what_stands(files: &impl Files, place: &str) -> io::Result<Standing> {
    match look(files, place)? {
        Standing::Other => Err(io::Error::from(ErrorKind::InvalidData)),
        standing => Ok(standing),
    }
}

/// Writes the bytes into the file at the place, which is made where it is missing, and answers the open file. Its blocks are written over, so that
/// the system frees none: what is left of a longer file is cut off last.
pub fn write_over<R: Files>(files: &R, place: &str, bytes: &[u8]) -> io::Result<R::File> {
    let mut file = OpenOptions::new()
        .write(true)
        .create(true)
        .open(files, place)?;
    file.write_all(bytes)?;
    let count = bytes.len() as u64;
    if count < file.metadata()?.len() {
        file.set_len(count)?;
    }
    Ok(file)
}

/// Removes the file at the place, if there is one.
pub fn remove_file(files: &impl Files, place: &str) -> io::Result<()> {
    match fs::remove_file(files, place) {
        Err(e) if e.kind() == ErrorKind::NotFound => Ok(()),
        answer => answer,
    }
}

/// Removes the folder at the place, if there is one, and answers whether it could. False where something is in it, or
/// where another file system begins there, or the file system is read-only.
pub fn remove_empty(files: &impl Files, place: &str) -> io::Result<bool> {
    match fs::remove_dir(files, place) {
        Ok(()) => Ok(true),
        Err(e) if e.kind() == ErrorKind::NotFound => Ok(true),
        Err(e)
            if matches!(
                e.kind(),
                ErrorKind::DirectoryNotEmpty
                    | ErrorKind::AlreadyExists
                    | ErrorKind::ResourceBusy
                    | ErrorKind::ReadOnlyFilesystem
            ) => { Ok(false) }
        Err(e) => Err(e),
    }
}

/// The file or folder at the place, or None where it was removed.
pub fn open_place<R: Files>(files: &R, place: &str) -> io::Result<Option<R::File>> {
    match fs::open(files, place) {
        Ok(file) => Ok(Some(file)),
        Err(e) if matches!(e.kind(), ErrorKind::NotFound | ErrorKind::NotADirectory) => Ok(None),
        Err(e) => Err(e),
    }
}
