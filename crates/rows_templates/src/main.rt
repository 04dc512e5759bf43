//! `rows_templates FILE ..`: rows of templates.
//!
//! `read SOURCE` is the tree of a source or its first fault with the place, `spans SOURCE` the same with the places of texts in place of the texts, and
//! `is-read SOURCE` says only whether it is a template. `value KEY JSON` puts a setting and `os NAME TEXT` names the operating system, for what comes
//! after it; `unset` takes both away. `render SOURCE` is the text that they make of a template, or a line with the refusal and its path. `keep FILE` keeps
//! the source in the lines below it, or is its fault, and `kept FILE` is how many nodes the kept template has, and then its source.
#![tactic(auto)]

mod rendering;
mod trees;

use key_names::{Bytes, Text};
use row_files::{Given, Subject, all_go, bad, line};
use settings_tree::{Content, Os};
use std::alloc::Global;
use std::io::{self, Write};
use std::process::ExitCode;
use template_reader::{Templates, read};

// What templates are rendered over, and those that are kept.
#[derive(Drop)]
struct Texts {
    content: Box<Content>,
    os: Os,
    kept: Templates,
}

// Keeps the source for the file, which has none, or tells its fault.
fn keep(out: &mut Vec<u8>, kept: &mut Templates, given: Given<'_>) -> io::Result<()> {
    let file = Text::from_str(*out.allocator(), given.words()?)?;
    let source = given.lines.ok_or(bad())?.to_vec(*out.allocator())?;
    if kept.source(file.as_str().as_bytes()).is_some() {
        return Err(bad());
    }
    match kept.add(file, Bytes::of(source)) {
        Ok(()) => Ok(()),
        Err(error) => trees::fault(out, error),
    }
}

// Tells how many nodes the template of the file has, and its source; or that none is kept.
fn kept(out: &mut Vec<u8>, kept: &Templates, file: &[u8]) -> io::Result<()> {
    match (kept.source(file), kept.parsed(file)) {
        (Some(source), Some(parsed)) => {
            writeln!(out, "{}", parsed.template.nodes.as_slice().len())?;
            Ok(out.extend_from_slice(source)?)
        }
        (None, None) => line(out, &["none"]),
        _ => Err(bad()),
    }
}

impl Subject for Texts {
    fn new(alloc: Global) -> io::Result<Texts> {
        Ok(Texts {
            content: Box::new(alloc, Content::new(alloc))?,
            os: rendering::no_names(alloc),
            kept: Templates::new(alloc),
        })
    }

    fn make(&mut self, out: &mut Vec<u8>, given: Given<'_>) -> io::Result<()> {
        let (alloc, input) = (*out.allocator(), given.input());
        match given.word {
            "read" => trees::tell(out, input, false)?,
            "spans" => trees::tell(out, input, true)?,
            "is-read" if read(alloc, input).is_ok() => line(out, &["yes"])?,
            "is-read" => line(out, &["no"])?,
            "render" => rendering::tell(out, &self.content, &self.os, input)?,
            "keep" => keep(out, &mut self.kept, given)?,
            "kept" => kept(out, &self.kept, input)?,
            "value" => rendering::put(alloc, &mut self.content, given.input_text()?)?,
            "os" => self.os = rendering::os_of(alloc, given.input_text()?)?,
            "unset" => {
                self.content = Box::new(alloc, Content::new(alloc))?;
                self.os = rendering::no_names(alloc);
            }
            _ => return Err(bad()),
        }
        Ok(())
    }
}

fn main(rt: HostRuntime) -> io::Result<ExitCode> {
    all_go::<Texts>(&rt)
}
