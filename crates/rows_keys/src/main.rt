//! `rows_keys FILE ..`: rows of keys, of lists of keys, of names of files, and of paths.
//!
//! Of keys: `key TEXT` is the key as it is printed, or its fault and place; `segments TEXT` its segments, one on a line; `below TEXT` the fault of the key,
//! or what its child `b` is; `segment TEXT` the key of the one segment, and the child of `settings` with it; `stands KEY KEY` how the first relates to the
//! second; `list TEXT` a list of keys. `file-name SEGMENT` is the name of a file and the segment that it is of, and `of-file-name NAME` the segment alone.
//! `bytes BYTES` are owned bytes, copied, and `bare TEXT` says whether a segment needs no quotes.
//!
//! Of paths: `path TEXT` is the number of names and the path as it is printed, or its fault; `child PATH NAME` the path with one name more; `joined PATH`
//! the path with its last name once more; `paths PATH PATH` how the first relates to the second, and how it is ordered.
#![tactic(auto)]

mod keys;
mod paths;

use row_files::{Given, Subject, all_go};
use std::alloc::Global;
use std::io;
use std::process::ExitCode;

#[derive(Drop)]
struct Rows;

impl Subject for Rows {
    fn new(_alloc: Global) -> io::Result<Rows> {
        Ok(Rows)
    }

    fn make(&mut self, out: &mut Vec<u8>, given: Given<'_>) -> io::Result<()> {
        match given.word {
            "path" | "child" | "joined" | "paths" => paths::tell(out, given.word, given.input()),
            _ => keys::tell(out, given.word, given.input()),
        }
    }
}

fn main(rt: HostRuntime) -> io::Result<ExitCode> {
    all_go::<Rows>(&rt)
}
