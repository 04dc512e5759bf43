//! `rows_stores FILE ..`: rows of the store on the disk, over a disk in memory.
//!
//! Journals: `journal DIRECTORY` tells the text of a change of the lines below it, `change DIRECTORY` makes it there, and `recover DIRECTORY` carries out
//! what was cut off. Links: `version TEXT` and `directory NAME` read names, `leads` tells where the links lead, `fresh VERSION` the next data directory, and
//! `flip NAME` lets the links lead to the one of this name. Data directories: `stands PATH` tells whether a file may be alone, `load DIRECTORY` what is held
//! there, `save DIRECTORY` lays what is held, and `commit TX` tells the journal of a commit. Stores: `init VERSION` begins one, `open` and `open boot` open it,
//! and `peek` tells what it holds. The words for the disk are those of `row_disks`.
#![tactic(auto)]

mod held;
mod journals;
mod links;
mod stores;

use row_disks::{Disks, Words};
use row_files::Given;
use std::alloc::Global;
use std::io;
use std::process::ExitCode;

#[derive(Clone, Copy)]
struct StoreWords;

impl Words for StoreWords {
    fn new(_alloc: Global) -> StoreWords {
        StoreWords
    }

    fn make(&mut self, out: &mut Vec<u8>, disks: &mut Disks, given: Given<'_>) -> io::Result<()> {
        let disk = &mut disks.disk;
        match given.word {
            "journal" | "change" | "recover" => journals::tell(out, disk, given),
            "version" | "directory" | "leads" | "fresh" | "flip" => {
                links::tell(out, disk, given.word, given.words()?)
            }
            "stands" | "load" | "save" | "commit" => held::tell(out, disk, given),
            "init" | "open" | "peek" => stores::tell(out, disk, given.word, given.words()?),
            _ => disks.make(out, given),
        }
    }
}

fn main(rt: HostRuntime) -> io::Result<ExitCode> {
    row_disks::all_go::<StoreWords>(&rt)
}
