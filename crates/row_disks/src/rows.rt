//! Rows over a disk: the words of a driver with those for the disk.
use crate::crashes::{copy_of, crashed};
use crate::disks::Disks;
use disk_memory::MemoryDisk;
use row_files::{Fault, Given, Subject, bad};
use std::alloc::Global;
use std::io;
use std::process::ExitCode;

/// The words of a driver. What they keep goes with the disk: a loop makes its steps again from a copy of both.
pub trait Words: Clone + Drop {
    /// What they keep at the start of a file.
    fn new(alloc: Global) -> Self;

    /// Tells what the step comes to; `bad()` where what it is given makes no step. A word of no driver is one of the disk.
    fn make(&mut self, out: &mut Vec<u8>, disks: &mut Disks, given: Given<'_>) -> io::Result<()>;
}

// What files are gone through with: the disks, what the words keep, and the states to which loops go back.
#[derive(Drop)]
struct Rows<W: Words> {
    disks: Disks,
    words: W,
    saved: Vec<(Box<MemoryDisk>, W)>,
}

impl<W: Words> Subject for Rows<W> {
    fn new(alloc: Global) -> io::Result<Rows<W>> {
        Ok(Rows {
            disks: Disks::new(alloc)?,
            words: W::new(alloc),
            saved: Vec::new(alloc),
        })
    }

    fn begin(&mut self, alloc: Global) -> io::Result<()> {
        self.words = W::new(alloc);
        self.disks.host(alloc, b"empty")
    }

    fn make(&mut self, out: &mut Vec<u8>, given: Given<'_>) -> io::Result<()> {
        let began = self.disks.disk.calls();
        let made = self.words.make(out, &mut self.disks, given);
        self.disks.end_step(*out.allocator(), given.word, began);
        made
    }

    fn save(&mut self, alloc: Global) -> io::Result<()> {
        let disk = copy_of(alloc, &self.disks.disk)?;
        self.saved.push((disk, self.words.clone()?))?;
        Ok(())
    }

    fn restore(&mut self, alloc: Global) -> io::Result<()> {
        if let Some((disk, words)) = self.saved.last() {
            self.disks.disk = copy_of(alloc, disk)?;
            self.words = words.clone()?;
        }
        Ok(())
    }

    fn forget(&mut self) {
        self.saved.pop();
    }

    fn arm(&mut self, device: &str, fault: Fault, number: u64) -> io::Result<()> {
        match device {
            "disk" => self.disks.arm(fault, number),
            _ => Err(bad()),
        }
    }

    fn crash(&mut self, alloc: Global, kind: &str) -> io::Result<()> {
        self.disks.disk = crashed(alloc, &self.disks.disk, kind)?;
        Ok(())
    }

    fn calls(&self, _device: &str) -> u64 {
        self.disks.disk.calls()
    }
}

/// Goes through the files that the words of the program name, with these words besides those for a disk, as `row_files::all_go`.
pub fn all_go<W: Words>(rt: &HostRuntime) -> io::Result<ExitCode> {
    row_files::all_go::<Rows<W>>(rt)
}
