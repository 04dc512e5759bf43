//! `rows_runs FILE ..`: rows of whole runs of the program over devices in memory.
//!
//! A run: `$ WORDS`, to which the requests below it come, a line each: `METHOD TARGET BODY`, as curl sends it, or `[FIELD] METHOD TARGET`. It comes to what
//! is printed, `< STATUS BODY` for each reply, `! WORDS` for each program that is run, `? WORDS` for each that is asked, and the exit status in brackets where
//! that is not 0. `given` tells what the programs were given that the last run asked, `log` what the last run logged, and `load-sends N PLACE` a request of the
//! run `load N`.
//!
//! What comes to the next run: `program ends N` and `program fails` for one program that is run after another, `program answers N`, with what it says
//! below, and `program is missing` for those that are asked; `fail accept|read|write N`, `fail output BYTE` and `fail log BYTE` for a call that fails;
//! `absent N` for so many looks before each accept that find no client. `log-takes` lets the log fail behind as many bytes as it is given, and `log-took`
//! tells whether it took just these in the last run. The disk has `row_disks`' words.
#![tactic(auto)]

mod coming;
mod requests;
mod runs;
mod shown;

use crate::coming::Coming;
use crate::requests::load_sends;
use row_disks::{Disks, Words};
use row_files::{Given, line, number_of};
use std::alloc::Global;
use std::io;
use std::process::ExitCode;

// What comes to the next run, and what the last run left.
#[derive(Clone, Drop)]
struct RunWords {
    coming: Coming,
    // What the programs were given that the last run asked, with a line feed after each.
    given: Vec<u8>,
    // What the last run logged.
    log: Vec<u8>,
    // The bytes of the log that `log-takes` was given.
    room: Vec<u8>,
}

impl Words for RunWords {
    fn new(alloc: Global) -> RunWords {
        RunWords {
            coming: Coming::nothing(alloc),
            given: Vec::new(alloc),
            log: Vec::new(alloc),
            room: Vec::new(alloc),
        }
    }

    fn make(&mut self, out: &mut Vec<u8>, disks: &mut Disks, given: Given<'_>) -> io::Result<()> {
        let (alloc, text) = (*out.allocator(), given.words()?);
        match given.word {
            "$" => self.run(out, &mut disks.disk, given)?,
            "given" => out.extend_from_slice(&self.given)?,
            "log" => out.extend_from_slice(&self.log)?,
            "log-took" if self.log == self.room => line(out, &["just these"])?,
            "log-took" => out.extend_from_slice(&self.log)?,
            "log-takes" => {
                self.room = given.below().to_vec(alloc)?;
                self.coming.log = self.room.len() as u64;
            }
            "load-sends" => load_sends(out, text)?,
            "program" => self.coming.program(alloc, given)?,
            "absent" => self.coming.absent = number_of(text)?,
            "fail" if !text.starts_with("disk ") => self.coming.fail(text)?,
            _ => disks.make(out, given)?,
        }
        Ok(())
    }
}

fn main(rt: HostRuntime) -> io::Result<ExitCode> {
    row_disks::all_go::<RunWords>(&rt)
}
