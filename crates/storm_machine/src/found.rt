//! What is on a disk, next to the machine.
ghost use Rattle.std.specs.Prelude.{◌≡◌, length};

use crate::programs::machine_lines;
use crate::replay::Replay;
use crate::run::Seen;
use crate::trouble::{Trouble, differs, same};
use commit_journal::recover;
use disk_memory::{MemoryDisk, Node};
use fs_datastore::load;
use held_text::HeldText;
use key_names::{Bytes, Text};
use machine_replies::Host;
use plain_machine::{PlainImage, PlainMachine};
use settings_machine::file_bytes;
use settings_tree::{Held, LiveView, Owed};
use std::alloc::{AllocError, Global};
use version_links::{Place, Version, resolve};

/// What is held there has to be what the machine holds.
pub fn same_held(alloc: Global, shown: &Held, wanted: &Held, at: &str) -> Result<(), Trouble> {
    let shown = shown.print()?;
    let wanted = wanted.print()?;
    same(
        alloc,
        shown.as_str().as_bytes(),
        wanted.as_str().as_bytes(),
        at,
    )
}

// The data directory, its journal carried out, has to be a store of this version that holds this.
fn check_place(
    alloc: Global,
    disk: &mut MemoryDisk,
    place: &Place,
    version: &Version,
    held: &Held,
) -> Result<(), Trouble>
    requires { length place.now.directory ≡ 2 }
{
    if recover(alloc, disk, &place.directory).is_err() {
        return Err(differs(alloc, "the journal is bad"));
    }
    let Ok(loaded) = load(alloc, disk, &place.directory) else {
        return Err(differs(alloc, "the store is damaged"));
    };
    if place.version != *version || loaded.format != 2 {
        return Err(differs(alloc, "the store has another version"));
    }
    same_held(alloc, &loaded.held, held, "the store")
}

/// The disk has to have a store of this version that holds this.
pub fn check_store(
    alloc: Global,
    disk: &MemoryDisk,
    version: &Version,
    held: &Held,
) -> Result<(), Trouble> {
    let mut copy = disk.crash(&[])?;
    match resolve(alloc, &mut copy) {
        Ok(Some(place)) => check_place(alloc, &mut copy, &place, version, held),
        _ => Err(differs(alloc, "the links lead nowhere")),
    }
}

/// The programs that were run have to be those of the machine.
pub fn check_programs(alloc: Global, machine: &PlainMachine, seen: &Seen) -> Result<(), Trouble> {
    let wanted = machine_lines(alloc, machine)?;
    same(
        alloc,
        seen.programs.as_bytes(),
        wanted.as_bytes(),
        "the programs",
    )
}

/// The bytes of the configuration file on the disk; none where it isn't there.
pub fn bytes_on<'a>(disk: &'a MemoryDisk, image: &PlainImage, name: &str) -> Option<&'a [u8]> {
    let row = image.manifest.file(name.as_bytes())?;
    match disk.node(&row.path) {
        Some(Node::File(bytes)) => Some(bytes.as_slice()),
        _ => None,
    }
}

// The same of the machine.
fn bytes_in<'a>(host: &'a Host, name: &Text) -> Option<&'a [u8]> {
    let row = host.image.manifest.file(name.as_str().as_bytes())?;
    match host.machine.etc.get(&row.path) {
        Some(bytes) => Some(bytes.as_slice()),
        None => None,
    }
}

// The files that are due: all that what is owed affects, and all where the store was opened with another image.
fn due_files(host: &Host, owed: &Owed) -> Result<Vec<Text>, AllocError> {
    if host.machine.held.image.as_slice() == host.image.text.as_slice() {
        return host.image.manifest.files_of(owed);
    }
    host.image.manifest.files_of(&Owed::All)
}

// The file on the disk has to be what its template renders to now.
fn check_current(
    alloc: Global,
    host: &Host,
    disk: &MemoryDisk,
    name: &Text,
) -> Result<(), Trouble> {
    let image = &host.image;
    let live = LiveView::of(&host.machine.held.live);
    match file_bytes(alloc, &image.templates, &image.os, &live, name) {
        Ok(wanted) => {
            let shown = bytes_on(disk, image, name.as_str()).unwrap_or(b"no file");
            same(alloc, shown, &wanted, "what is rendered")
        }
        Err(_) => Err(differs(alloc, "a file that isn't owed is refused")),
    }
}

// The file on the disk has to be the machine's.
fn check_file(alloc: Global, host: &Host, disk: &MemoryDisk, name: &Text) -> Result<(), Trouble> {
    let (shown, wanted) = (
        bytes_on(disk, &host.image, name.as_str()),
        bytes_in(host, name),
    );
    let shown = shown.unwrap_or(b"no file");
    let wanted = wanted.unwrap_or(b"no file");
    let at = name.as_str();
    same(alloc, shown, wanted, at)
}

/// Each file that isn't due has to be current, and each file the machine's; but after a crash those that are due may be anything.
pub fn check_files(
    alloc: Global,
    replay: &Replay,
    disk: &MemoryDisk,
    crash: bool,
) -> Result<(), Trouble> {
    let host = &replay.host;
    let owed = match &replay.moved {
        Some((_, held)) => &held.owed,
        None => &host.machine.held.owed,
    };
    let due = due_files(host, owed)?;
    for name in &host.image.manifest.file_names()? {
        let is_due = due.contains(name);
        if !is_due {
            check_current(alloc, host, disk, name)?;
        }
        if !is_due || !crash {
            check_file(alloc, host, disk, name)?;
        }
    }
    Ok(())
}

// Takes what is on the disk for the file.
fn take_file(
    alloc: Global,
    host: &mut Host,
    disk: &MemoryDisk,
    name: &Text,
) -> Result<(), AllocError> {
    let Some(row) = host.image.manifest.file(name.as_str().as_bytes()) else {
        return Ok(());
    };
    let path = row.path.copy()?;
    host.machine.etc.remove(&path);
    if let Some(bytes) = bytes_on(disk, &host.image, name.as_str()) {
        host.machine
            .etc
            .insert(path, Bytes::of(bytes.to_vec(alloc)?))?;
    }
    Ok(())
}

/// The machine takes the configuration files of the disk for its own.
pub fn take_files(alloc: Global, host: &mut Host, disk: &MemoryDisk) -> Result<(), AllocError> {
    let names = host.image.manifest.file_names()?;
    for name in &names {
        take_file(alloc, host, disk, name)?;
    }
    Ok(())
}
