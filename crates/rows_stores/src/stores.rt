//! Stores that are begun and opened.
use crate::held::loaded;
use disk_memory::MemoryDisk;
use held_text::HeldText;
use row_disks::directory_of;
use row_files::{at, bad, line};
use std::io::{self, Write};
use store_open::{InitError, OpenError, Opened, init, open_store, peek_store};
use version_links::Version;

fn begun(out: &mut Vec<u8>, disk: &mut MemoryDisk, version: &Version) -> io::Result<()> {
    match init(*out.allocator(), disk, version) {
        Ok(()) => line(out, &["begun"]),
        Err(InitError::AlreadyThere { version }) => writeln!(out, "already there {version}"),
        Err(InitError::BadLink { path }) => at(out, "bad link", &path),
        Err(InitError::Failed) => line(out, &["failed"]),
        Err(InitError::Memory) => line(out, &["memory"]),
    }
}

fn refused(out: &mut Vec<u8>, error: &OpenError) -> io::Result<()> {
    match error {
        OpenError::NoStore => line(out, &["no store"]),
        OpenError::BadLink { path } => at(out, "bad link", path),
        OpenError::BadJournal { path } => at(out, "bad journal", path),
        OpenError::Damaged { path } => at(out, "damaged", path),
        OpenError::OldFormat { directory } => at(out, "old format", directory),
        OpenError::BadImage { file, kind, at } => {
            line(
                out,
                &["bad image", file.as_str(), kind.as_str(), at.as_str()],
            )
        }
        OpenError::IllTyped { key } => {
            let key = key.print()?;
            line(out, &["ill typed", key.as_str()])
        }
        OpenError::Failed => line(out, &["failed"]),
        OpenError::Memory => line(out, &["memory"]),
    }
}

// Tells the version, the data directory, and whether what is held is there, read on a copy of the disk, and has the text of the image that was read.
fn told(out: &mut Vec<u8>, disk: &MemoryDisk, opened: &Opened) -> io::Result<()> {
    let (alloc, directory) = (*out.allocator(), &opened.place.directory);
    let version = format!(in alloc; "open {}", opened.place.version)?;
    at(out, version.as_str(), directory)?;
    let held = opened.held.print()?;
    let held = format!(in alloc; "format 2\n{}\n", held.as_str())?;
    let directory = directory_of(alloc, &directory.print()?)?;
    let mut on_disk = Vec::new(alloc);
    loaded(&mut on_disk, &mut disk.crash(&[])?, &directory)?;
    if on_disk.as_slice() != held.as_str().as_bytes() {
        line(out, &["held otherwise"])?;
    }
    if opened.held.image.as_slice() != opened.image.text.as_slice() {
        line(out, &["another image"])?;
    }
    Ok(())
}

/// Tells what a step of a word for stores comes to: of a store that is peeked at the version, the data directory, and what is held.
pub fn tell(out: &mut Vec<u8>, disk: &mut MemoryDisk, word: &str, text: &str) -> io::Result<()> {
    let alloc = *out.allocator();
    match (word, text) {
        ("init", _) => begun(out, disk, &Version::read(alloc, text)?.ok_or(bad())?),
        ("open", "" | "boot") => match open_store(alloc, disk, text == "boot") {
            Ok(opened) => told(out, disk, &opened),
            Err(error) => refused(out, &error),
        },
        ("peek", "") => match peek_store(alloc, disk) {
            Ok(stored) => {
                let version = format!(in alloc; "holds {}", stored.place.version)?;
                at(out, version.as_str(), &stored.place.directory)?;
                line(out, &[stored.held.print()?.as_str()])
            }
            Err(error) => refused(out, &error),
        },
        _ => Err(bad()),
    }
}
