//! Calls of a disk and of the folder that it is in, as texts, and what they come to.
use crate::watched::Watched;
use outside::{Disk, DiskErr, Failed, Path};
use outside_real::RealDisk;
use std::alloc::Alloc;
use std::fs::{self, Permissions};
use std::os::unix::fs::{PermissionsExt, symlink};
use std::test::Fail;

// Tells that a change failed.
fn change(told: &mut String, done: Result<(), Failed>) -> Result<(), Fail> {
    match done {
        Ok(()) => Ok(()),
        Err(_) => Ok(told.push_str("failed\n")?),
    }
}

// Tells the bytes, or that they are none or the call failed.
fn bytes(told: &mut String, read: Result<Option<Vec<u8>>, DiskErr>) -> Result<(), Fail> {
    match read {
        Ok(Some(bytes)) => {
            let text = String::from_utf8_lossy(*told.allocator(), &bytes)?;
            Ok(writeln!(told, "{text}")?)
        }
        Ok(None) => Ok(told.push_str("none\n")?),
        Err(_) => Ok(told.push_str("failed\n")?),
    }
}

// Makes what is no call of the disk: someone else changes or looks at what is in the folder, or a call of the file system is to fail.
fn apart(
    watched: &Watched,
    told: &mut String,
    word: &str,
    place: &str,
    text: &str,
) -> Result<(), Fail> {
    let (rt, path) = (&watched.rt, watched.place(place)?);
    match word {
        "mkdir" => fs::create_dir(rt, path.as_str())?,
        "enter" => fs::set_permissions(rt, path.as_str(), Permissions::from_mode(0o710))?,
        "symlink" => symlink(rt, text, path.as_str())?,
        "hard_link" => fs::hard_link(rt, path.as_str(), watched.place(text)?.as_str())?,
        "spoil" => fs::write(rt, path.as_str(), b"?")?,
        "fail" => watched.fail(place.parse::<u64>()?),
        "stat" if fs::metadata(rt, path.as_str()).is_ok() => told.push_str("there\n")?,
        "stat" => told.push_str("none\n")?,
        _ => return Err("no such call")?,
    }
    Ok(())
}

/// Makes the call, of a word, a place and a text with spaces between. It tells what was read, or that it failed, each on a line; of a change that succeeded
/// nothing, and of `locked` only that the disk is locked out.
pub fn call(
    disk: &mut RealDisk<Watched>,
    watched: &Watched,
    told: &mut String,
    call: &str,
) -> Result<(), Fail> {
    let alloc = watched.alloc();
    let (word, rest) = call.split_once(' ').unwrap_or((call, ""));
    let (place, text) = rest.split_once(' ').unwrap_or((rest, ""));
    let path = Path::read(alloc, place.as_bytes())?;
    match word {
        "write" => change(told, disk.write(&path, text.as_bytes())),
        "replace" => change(told, disk.replace(&path, text.as_bytes())),
        "relink" => change(told, disk.relink(&path, text.as_bytes())),
        "remove" => change(told, disk.remove(&path)),
        "sync" => change(told, disk.sync()),
        "read" => bytes(told, disk.read(alloc, &path)),
        "read_link" => bytes(told, disk.read_link(alloc, &path)),
        "list" => match disk.list(alloc, &path) {
            Ok(nodes) => Ok(writeln!(told, "{} nodes", nodes.len())?),
            Err(_) => Ok(told.push_str("failed\n")?),
        },
        "locked" if disk.is_locked_out() => Ok(told.push_str("locked out\n")?),
        "locked" => Ok(()),
        "tidy" => {
            disk.tidy();
            Ok(())
        }
        _ => apart(watched, told, word, place, text),
    }
}
