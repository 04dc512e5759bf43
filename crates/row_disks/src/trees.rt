//! What is on a disk.
use crate::crashes::copy_of;
use disk_memory::{MemoryDisk, Node};
use outside::{Disk, Path};
use row_files::{good, path_of};
use std::alloc::Global;
use std::io;

/// Tells what the file at the path holds.
pub fn file(out: &mut Vec<u8>, disk: &MemoryDisk, text: &[u8]) -> io::Result<()> {
    let bytes = match disk.node(&path_of(*out.allocator(), text)?) {
        Some(Node::File(bytes)) => bytes.as_slice(),
        _ => b"no file\n",
    };
    Ok(out.extend_from_slice(bytes)?)
}

// Tells the path and what is there in a line, with `\n` for each line feed and `\\` for each backslash.
fn push_node(out: &mut Vec<u8>, disk: &MemoryDisk, path: &Path) -> io::Result<()> {
    out.extend_from_slice(&path.print()?)?;
    let (mark, bytes) = match disk.node(path) {
        Some(Node::Link(text)) => (" -> ", text.as_slice()),
        Some(Node::File(bytes)) => (" = ", bytes.as_slice()),
        None => ("", b"".as_slice()),
    };
    out.extend_from_slice(mark.as_bytes())?;
    for byte in bytes {
        match byte {
            b'\n' => out.extend_from_slice(b"\\n")?,
            b'\\' => out.extend_from_slice(b"\\\\")?,
            _ => out.push(*byte)?,
        }
    }
    Ok(out.push(b'\n')?)
}

// The path to which a link of this text at the path leads: the text takes the place of its last name.
fn beside(alloc: Global, path: &Path, text: &[u8]) -> io::Result<Path> {
    let mut whole = path.print()?;
    let last = path.names().last().map_or(0, |name| name.as_slice().len());
    whole.truncate(whole.len().saturating_sub(last));
    whole.extend_from_slice(text)?;
    path_of(alloc, &whole)
}

// The path itself, or what the links there lead to, of which there are at most eight.
fn led(alloc: Global, disk: &MemoryDisk, text: &[u8]) -> io::Result<Path> {
    let mut path = path_of(alloc, text)?;
    for _ in 0..8u32 {
        let Some(Node::Link(text)) = disk.node(&path) else {
            break;
        };
        path = beside(alloc, &path, text.as_slice())?;
    }
    Ok(path)
}

/// Tells a line for each path below this one, or below what the links there lead to.
pub fn tree(out: &mut Vec<u8>, disk: &MemoryDisk, text: &[u8]) -> io::Result<()> {
    let alloc = *out.allocator();
    let path = led(alloc, disk, text)?;
    // a copy, of which no call fails, and on which none is counted
    let found = copy_of(alloc, disk)?.list(alloc, &path);
    for path in &good(found)? {
        push_node(out, disk, path)?;
    }
    Ok(())
}
