//! The words of rows for a disk.
use crate::asking::answers;
use crate::crashes::crashed;
use crate::disks::Disks;
use crate::trees::{file, tree};
use outside::Disk;
use row_files::{Fault, Given, bad, good, number_of, path_of};
use std::alloc::Global;
use std::io::{self, Write};

impl Disks {
    // Lays what is given at a path, or takes it away, or makes an fsync.
    fn lay(&mut self, alloc: Global, given: Given<'_>) -> io::Result<()> {
        let (path, bytes) = (path_of(alloc, given.text)?, given.below());
        good(match given.word {
            "put" => self.disk.replace(&path, bytes),
            "write" => self.disk.write(&path, bytes),
            "link" => self.disk.relink(&path, bytes),
            "remove" => self.disk.remove(&path),
            "sync" if given.text.is_empty() => self.disk.sync(),
            _ => return Err(bad()),
        })
    }

    // Lets a call of the disk fail in the next step.
    fn fail(&mut self, fault: Fault, text: &str) -> io::Result<()> {
        let number = text.strip_prefix("disk ").ok_or(bad())?;
        self.arm(fault, number_of(number)?)
    }

    /// Tells what the step of a word for the disk comes to. It is refused where there is no such word, or what it is given makes no step.
    pub fn make(&mut self, out: &mut Vec<u8>, given: Given<'_>) -> io::Result<()> {
        let alloc = *out.allocator();
        match given.word {
            "cat" => file(out, &self.disk, given.text),
            "tree" => tree(out, &self.disk, given.text),
            "leaves" => {
                let left = crashed(alloc, &self.disk, given.words()?)?;
                tree(out, &left, b"")
            }
            "disk" => answers(out, &mut self.disk, given.input_text()?),
            "calls" if given.text.is_empty() => writeln!(out, "{}", self.last),
            "host" => self.host(alloc, given.text),
            "keep" => Ok(self.keep(alloc, given.text)?),
            "crash" => {
                self.disk = crashed(alloc, &self.disk, given.words()?)?;
                Ok(())
            }
            "fail" => self.fail(Fault::Fail, given.words()?),
            "stop" => self.fail(Fault::Stop, given.words()?),
            _ => self.lay(alloc, given),
        }
    }
}
