//! `rows_machine FILE ..`: rows of the reference model, which answers requests and makes turns as the product does.
//!
//! - `put PATH` puts a file of the image, of the lines below. `boot` reads the image, and begins a machine of the version 1.5.2 whose store was opened at a
//!   boot, so that all is owed.
//! - `GET PATH`, `PATCH PATH BODY`, `POST PATH [BODY]` and `DELETE PATH` come to the status of the reply and its body, and `whole REQUEST` to all its bytes.
//! - `turn HOW` makes a turn, and `turns HOW` nine of them: a program ends with the status HOW, or it is `no-room`, `no-spawn`, `file-fault`, `sync-fault`
//!   or `owed-fault`.
//! - `open HOW` opens the store again, `at-boot` or `later`, or the disk fails the opening, which is `taken` or `untaken`.
//! - `write PATH` writes a configuration file as someone else would, of the lines below, and `take PATH` takes it away.
//! - `file PATH` tells a configuration file, `weak` the weak keys, and `runs` the programs that were run since it told them last.
//! - `values KEY JSON` and `pairs JSON` come to the replies of the server's own with these values below the key, and this patch of the settings.
#![tactic(auto)]

mod replies;
mod steps;

use crate::steps::{booted, put_file, tell};
use disk_memory::MemoryDisk;
use machine_replies::Host;
use outside::Disk;
use row_files::{Given, Subject, all_go, bad, good, path_of};
use std::alloc::Global;
use std::io;
use std::process::ExitCode;

// A disk with an image, and the host that was booted of it.
#[derive(Drop)]
struct Rows {
    disk: MemoryDisk,
    host: Option<Box<Host>>,
}

impl Subject for Rows {
    fn new(alloc: Global) -> io::Result<Rows> {
        Ok(Rows {
            disk: MemoryDisk::new(alloc)?,
            host: None,
        })
    }

    fn make(&mut self, out: &mut Vec<u8>, given: Given<'_>) -> io::Result<()> {
        let (alloc, text) = (*out.allocator(), given.words()?);
        match given.word {
            "put" => {
                let path = path_of(alloc, given.text)?;
                good(self.disk.replace(&path, given.below()))
            }
            "boot" => {
                self.host = None;
                self.host = Some(booted(alloc, &mut self.disk)?);
                Ok(())
            }
            "write" | "take" => put_file(alloc, self.host.as_mut().ok_or(bad())?, given),
            "values" => replies::values(out, text),
            "pairs" => replies::pending(out, text),
            _ => tell(out, self.host.as_mut().ok_or(bad())?, given.word, text),
        }
    }
}

fn main(rt: HostRuntime) -> io::Result<ExitCode> {
    all_go::<Rows>(&rt)
}
