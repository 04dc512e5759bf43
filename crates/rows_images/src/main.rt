//! `rows_images FILE ..`: rows of what an image says, and of images over a disk in memory.
//!
//! Types: `types` takes the rows of a table, a pattern and a word on each line; `fits KEY JSON` tells whether the value may be at the key, and
//! `finds KEY` whether a row is for the key and for one below it. Models: `model` tells what a model file says, or its first fault. Links: `links` takes a
//! model file and tells its files, commands and lists of services, or why they are refused; `near KEY` and `below KEY` tell lists, and `affected KEYS`,
//! `files KEYS` and `commands KEYS` what a change of these keys affects (`all` for all of them), `steps KEYS` also by how many look-ups. Templates: `reads`
//! tells the paths that a template reads, and `covers FILE` whether the file with this template is covered. Images: `image` tells the text of the image on
//! the disk, or why there is none, and `coverage` the report of its files. The words for the disk are those of `row_disks`.
#![tactic(auto)]

mod images;
mod links;
mod models;
mod table;
mod templates;

use row_disks::{Disks, Words};
use row_files::Given;
use std::alloc::Global;
use std::io;
use std::process::ExitCode;

// The rows of a table of types, and the model file whose links are printed.
#[derive(Clone, Drop)]
struct ImageWords {
    types: Vec<u8>,
    model: Vec<u8>,
}

impl Words for ImageWords {
    fn new(alloc: Global) -> ImageWords {
        let (types, model) = (Vec::new(alloc), Vec::new(alloc));
        ImageWords { types, model }
    }

    fn make(&mut self, out: &mut Vec<u8>, disks: &mut Disks, given: Given<'_>) -> io::Result<()> {
        match given.word {
            "types" => {
                self.types = given.input().to_vec(*out.allocator())?;
                table::told(out, &self.types)
            }
            "fits" | "finds" => table::tell(out, &self.types, given.word, given.words()?),
            "model" => models::tell(out, given.input()),
            "links" => {
                self.model = given.input().to_vec(*out.allocator())?;
                links::told(out, &self.model)
            }
            "near" | "below" | "affected" | "files" | "commands" | "steps" => {
                links::tell(out, &self.model, given.word, given.words()?)
            }
            "reads" => templates::read_by(out, given.input()),
            "covers" => templates::cover(out, &self.model, given),
            "image" | "coverage" if given.text.is_empty() => {
                images::tell(out, &mut disks.disk, given.word)
            }
            _ => disks.make(out, given),
        }
    }
}

fn main(rt: HostRuntime) -> io::Result<ExitCode> {
    row_disks::all_go::<ImageWords>(&rt)
}
