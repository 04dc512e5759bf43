//! What is in the way of a call, for a person.
use crate::failure::Failure;
use crate::quoting::plain;
use std::alloc::AllocError;
use std::fs;
use std::io::{self, ErrorKind};
use std::os::unix::fs::MetadataExt;
use std::rt::Files;

// What the place is, where it is neither a file nor a folder; the place is reported by its name below the root.
fn odd_at(
    files: &(impl Files + AllocGlobal),
    root: &str,
    below: &str,
) -> Result<Option<String>, AllocError> {
    let alloc = files.alloc();
    let place = format!(in alloc; "{root}/{below}")?;
    let Ok(data) = fs::symlink_metadata(files, place.as_str()) else {
        return Ok(None);
    };
    if data.file_type().is_symlink() {
        return Ok(Some(format!(in alloc; "{below} is a symbolic link")?));
    }
    if data.is_file() || data.is_dir() {
        return Ok(None);
    }
    Ok(Some(format!(in alloc; "{below} is neither a file nor a folder")?))
}

// The first of the names of a path below the root at which there is something other than a file or a folder, in words. Or out of memory.
fn first_odd(
    files: &(impl Files + AllocGlobal),
    root: &str,
    path: &str,
) -> Result<Option<String>, AllocError> {
    let mut below = String::new(files.alloc());
    for name in path.split('/') {
        if !below.is_empty() {
            below.push('/')?;
        }
        below.push_str(name)?;
        let odd = odd_at(files, root, below.as_str())?;
        if odd.is_some() {
            return Ok(odd);
        }
    }
    Ok(None)
}

// The first of the folders of a path below the root where there is a file, in words. Or out of memory.
fn first_file(
    files: &(impl Files + AllocGlobal),
    root: &str,
    path: &str,
) -> Result<Option<String>, AllocError> {
    let alloc = files.alloc();
    let mut below = String::new(alloc);
    for name in path.split('/') {
        if !below.is_empty() {
            let place = below.as_str();
            let whole = format!(in alloc; "{root}/{place}")?;
            if matches!(fs::symlink_metadata(files, whole.as_str()), Ok(data) if data.is_file()) {
                return Ok(Some(format!(in alloc; "{place} is a file")?));
            }
            below.push('/')?;
        }
        below.push_str(name)?;
    }
    Ok(None)
}

// Whether there is a folder at the place, its mode, and its owner.
fn facts_of(files: &impl Files, place: &str) -> Option<(bool, u32, u32)> {
    let data = fs::symlink_metadata(files, place).ok()?;
    Some((data.is_dir(), data.mode() & 0o777, data.uid()))
}

/// Why the folder `.work` below the root is refused, in words. Or out of memory.
pub fn why_refused(files: &(impl Files + AllocGlobal), root: &str) -> Result<String, AllocError> {
    let alloc = files.alloc();
    let facts = facts_of(files, format!(in alloc; "{root}/.work")?.as_str());
    let user = libc::geteuid();
    match facts {
        Some((false, ..)) => String::from_str(alloc, ".work is no folder"),
        Some((_, _, owner)) if owner != user => {
            format!(in alloc; ".work belongs to user {owner}, and this is user {user}")
        }
        Some((_, mode, _)) if mode & 0o077 != 0 => {
            format!(in alloc; ".work has mode {mode:04o}, wants 0700")
        }
        _ => String::from_str(alloc, "a lock in .work is no file"),
    }
}

/// By what a call failed, where it isn't at its own path.
#[derive(Drop)]
pub struct Strayed {
    /// Another call.
    pub call: &'static str,
    /// The place at which it failed.
    pub place: String,
}

// The place as it is named below the root.
fn below<'a>(root: &str, place: &'a str) -> &'a str {
    let below = place.strip_prefix(root).unwrap_or(place);
    match below.strip_prefix('/').unwrap_or(below) {
        "" => ".",
        below => below,
    }
}

// What is in the way of a call at this path below the root, in words, where it can be seen.
fn obstacle(
    files: &(impl Files + AllocGlobal),
    root: &str,
    error: &io::Error,
    path: &str,
) -> Result<Option<String>, AllocError> {
    match (error.raw_os_error(), error.kind()) {
        (None, ErrorKind::PermissionDenied) => Ok(Some(why_refused(files, root)?)),
        (None, ErrorKind::InvalidData) => first_odd(files, root, path),
        (Some(_), ErrorKind::AlreadyExists | ErrorKind::NotADirectory) => {
            first_file(files, root, path)
        }
        _ => Ok(None),
    }
}

// Why the call failed at this path below the root, in words.
fn explain_at(
    files: &(impl Files + AllocGlobal),
    root: &str,
    failure: &Failure,
    call: &str,
    path: &str,
) -> Result<String, AllocError> {
    match obstacle(files, root, failure.error(), path)? {
        Some(words) => Ok(words),
        None => failure.print_at(files.alloc(), call, path),
    }
}

// Whether the error is that of a name that is none of a path.
fn is_of_name(error: &io::Error) -> bool {
    error.raw_os_error().is_none() && error.kind() == ErrorKind::InvalidFilename
}

/// Why a call failed below the root, in words: what is in the way, where that can be seen, and else the words of the error. Or out of memory.
pub fn explain(
    files: &(impl Files + AllocGlobal),
    root: &str,
    failure: &Failure,
    strayed: Option<&Strayed>,
) -> Result<String, AllocError> {
    let Some(strayed) = strayed else {
        return explain_at(files, root, failure, failure.call(), failure.on());
    };
    let path = below(root, strayed.place.as_str());
    if is_of_name(failure.error()) {
        let path = plain(files.alloc(), path)?;
        let path = path.as_str();
        return format!(in files.alloc(); "{path}: a name outside the rules of the store");
    }
    explain_at(files, root, failure, strayed.call, path)
}
