//! Calls of the disk, a line each, and what each answers.
use crate::telling::done;
use disk_memory::MemoryDisk;
use outside::{Disk, DiskErr, Path};
use row_files::{bad, line, parts, path_of, text_of};
use std::io;

// Tells what a call found.
fn found(out: &mut Vec<u8>, answer: Result<Option<Vec<u8>>, DiskErr>) -> io::Result<()> {
    match answer {
        Ok(Some(bytes)) => line(out, &[text_of(&bytes)?]),
        Ok(None) => line(out, &["none"]),
        Err(DiskErr::Failed) => line(out, &["failed"]),
        Err(DiskErr::Memory) => Err(bad()),
    }
}

// Tells the paths, with spaces between them.
fn listed(out: &mut Vec<u8>, answer: Result<Vec<Path>, DiskErr>) -> io::Result<()> {
    let mut printed = Vec::new(*out.allocator());
    match answer {
        Ok(paths) => {
            for path in &paths {
                printed.extend_from_slice(if printed.is_empty() { b"" } else { b" " })?;
                printed.extend_from_slice(&path.print()?)?;
            }
            found(out, Ok(Some(printed)))
        }
        Err(error) => found(out, Err(error)),
    }
}

// Makes the call of the line, its word, a path and a text, and tells what it answers.
fn call(out: &mut Vec<u8>, disk: &mut MemoryDisk, text: &str) -> io::Result<()> {
    let alloc = *out.allocator();
    let (word, rest) = parts(text);
    let (path, bytes) = parts(rest);
    let (path, bytes) = (path_of(alloc, path.as_bytes())?, bytes.as_bytes());
    match word {
        "sync" => done(out, "done", disk.sync()),
        "write" => done(out, "done", disk.write(&path, bytes)),
        "replace" => done(out, "done", disk.replace(&path, bytes)),
        "relink" => done(out, "done", disk.relink(&path, bytes)),
        "remove" => done(out, "done", disk.remove(&path)),
        "read" => found(out, disk.read(alloc, &path)),
        "read_link" => found(out, disk.read_link(alloc, &path)),
        "list" => listed(out, disk.list(alloc, &path)),
        _ => Err(bad()),
    }
}

/// Tells what the calls of these lines answer, a line each.
pub fn answers(out: &mut Vec<u8>, disk: &mut MemoryDisk, lines: &str) -> io::Result<()> {
    for text in lines.lines() {
        call(out, disk, text)?;
    }
    Ok(())
}
