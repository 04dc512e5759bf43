//! Versions, data directories, and the links that lead to them.
use disk_memory::MemoryDisk;
use outside::Disk;
use row_disks::done;
use row_files::{at, bad, good, line};
use std::alloc::Global;
use std::io::{self, Write};
use version_links::{LinkError, Names, Version, directory_of, flip, fresh_dir, resolve};

// Tells where the links lead, and the version that this tells.
fn leads(out: &mut Vec<u8>, disk: &mut MemoryDisk) -> io::Result<()> {
    let alloc = *out.allocator();
    match resolve(alloc, disk) {
        Ok(Some(place)) => {
            let version = format!(in alloc; "{}", place.version)?;
            at(out, version.as_str(), &place.directory)
        }
        Ok(None) => line(out, &["no store"]),
        Err(LinkError::BadLink { path }) => at(out, "bad link", &path),
        Err(LinkError::Failed) => line(out, &["failed"]),
        Err(LinkError::Memory) => line(out, &["memory"]),
    }
}

// The names of the data directory of the version with this id, made on a disk of its own where each lesser id, at most 32, is taken: only `fresh_dir` does.
fn names_of(alloc: Global, version: &Version, id: u64) -> io::Result<Names> {
    let mut disk = MemoryDisk::new(alloc)?;
    for _ in 0..id.min(32) {
        let taken = good(fresh_dir(alloc, &mut disk, version))?;
        good(disk.replace(taken.directory(), b""))?;
    }
    good(fresh_dir(alloc, &mut disk, version))
}

/// Tells what a step of a word for links comes to.
pub fn tell(out: &mut Vec<u8>, disk: &mut MemoryDisk, word: &str, text: &str) -> io::Result<()> {
    let alloc = *out.allocator();
    match (word, directory_of(text.as_bytes())) {
        ("version", _) => match Version::read(alloc, text)? {
            Some(version) => writeln!(out, "{version}"),
            None => line(out, &["none"]),
        },
        ("directory", Some((version, id))) => writeln!(out, "{version} {id}"),
        ("directory", None) => line(out, &["none"]),
        ("leads", _) if text.is_empty() => leads(out, disk),
        ("fresh", _) => {
            let version = Version::read(alloc, text)?.ok_or(bad())?;
            let Ok(names) = fresh_dir(alloc, disk, &version) else {
                return line(out, &["failed"]);
            };
            out.extend_from_slice(&names.directory().print()?)?;
            line(out, &[])
        }
        ("flip", Some((version, id))) => {
            let names = names_of(alloc, &version, id)?;
            done(out, "done", flip(disk, &names))
        }
        _ => Err(bad()),
    }
}
