//! The disk of a driver, the disks that are kept by name, and the calls that fail.
use crate::crashes::copy_of;
use disk_memory::MemoryDisk;
use row_files::{Fault, bad};
use std::alloc::{AllocError, Global};
use std::io;

/// A disk, and the disks that are kept by name.
#[derive(Drop)]
pub struct Disks {
    /// The disk.
    pub disk: Box<MemoryDisk>,
    /// How many calls of it the last step made.
    pub last: u64,
    kept: Vec<(Vec<u8>, Box<MemoryDisk>)>,
    // The calls that are to fail in the next step.
    failing: Vec<u64>,
}

impl Disks {
    /// An empty disk, and none that is kept. The only error is out of memory.
    pub fn new(alloc: Global) -> Result<Disks, AllocError> {
        Ok(Disks {
            disk: Box::new(alloc, MemoryDisk::new(alloc)?)?,
            last: 0,
            kept: Vec::new(alloc),
            failing: Vec::new(alloc),
        })
    }

    /// Keeps a copy of the disk by name.
    pub fn keep(&mut self, alloc: Global, name: &[u8]) -> Result<(), AllocError> {
        let disk = copy_of(alloc, &self.disk)?;
        self.kept.push((name.to_vec(alloc)?, disk))?;
        Ok(())
    }

    /// Goes on with a copy of the disk that was kept last by this name, or with an empty one where the name is `empty`.
    pub fn host(&mut self, alloc: Global, name: &[u8]) -> io::Result<()> {
        if name == b"empty".as_slice() {
            self.disk = Box::new(alloc, MemoryDisk::new(alloc)?)?;
            return Ok(());
        }
        let mut kept = self.kept.iter().rev();
        let (_, disk) = kept.find(|it| it.0.as_slice() == name).ok_or(bad())?;
        self.disk = copy_of(alloc, disk)?;
        Ok(())
    }

    /// Lets a call of the next step fail, or all after so many.
    pub fn arm(&mut self, fault: Fault, number: u64) -> io::Result<()> {
        let call = self.disk.calls().saturating_add(number);
        match fault {
            Fault::Fail => {
                self.failing.push(call)?;
                self.disk.fail_calls(self.failing.clone()?);
            }
            Fault::Stop => self.disk.stop_after(call),
        }
        Ok(())
    }

    /// Ends a step of this word that began at so many calls: none fails from here on, unless the word is about the next step or tells of the one before.
    pub fn end_step(&mut self, alloc: Global, word: &str, began: u64) {
        if matches!(word, "fail" | "stop" | "program" | "absent" | "calls") {
            return;
        }
        self.last = self.disk.calls().saturating_sub(began);
        self.failing.clear();
        self.disk.fail_calls(Vec::new(alloc));
        self.disk.stop_after(u64::MAX);
    }
}
