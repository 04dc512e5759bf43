//! `rows_requests FILE ..`: rows of requests and replies as bytes, and of the connections that they come and go by.
//!
//! `http LINES` is what the head of these lines is read as: the word of what is asked with its values, that of a refusal, or `not yet`, and how many bytes
//! are left after a whole request. `wire BYTES` is the same of bytes as they come. `patch BODY` is the same of a whole patch without its last byte, as it
//! is, and with three bytes after it, and `set BODY` of what is set at once. `wants BYTES` is how many bytes there have to be before they can be anything
//! else, and `times SIZE` how often the bytes in the lines below it are read, of which so many come at a time.
//!
//! `reply ANSWER` is the status and the bytes of a reply. `hear SIZE` is what comes of a connection on which the lines below it come in pieces of so many
//! bytes, and how many bytes of them are left; `say TEXT` is what is written to a connection. `read` and `write` are the devices whose calls can fail.
#![tactic(auto)]

mod asks;
mod doors;
mod replies;

use api_http::bytes_wanted;
use doors::Calls;
use row_files::{Fault, Given, Subject, all_go, bad, number_of};
use std::alloc::Global;
use std::io::{self, Write};
use std::mem;
use std::process::ExitCode;

// Which calls of the next connection fail, and how many the last one had.
#[derive(Clone, Copy)]
struct Rows {
    fails: Calls,
    calls: Calls,
}

// The size of pieces that the step says, and the bytes in the lines below it.
fn pieces(given: Given<'_>) -> io::Result<(usize, &[u8])> {
    match (number_of::<usize>(given.words()?)?, given.lines) {
        (size, Some(bytes)) if size > 0 => Ok((size, bytes)),
        _ => Err(bad()),
    }
}

impl Subject for Rows {
    fn new(_alloc: Global) -> io::Result<Rows> {
        Ok(Rows {
            fails: Calls::NONE,
            calls: Calls::NONE,
        })
    }

    fn make(&mut self, out: &mut Vec<u8>, given: Given<'_>) -> io::Result<()> {
        let (fails, input) = (mem::replace(&mut self.fails, Calls::NONE), given.input());
        match given.word {
            "reply" => replies::tell(out, given.input_text()?),
            "hear" => {
                let (size, bytes) = pieces(given)?;
                self.calls = doors::heard(out, bytes, size, fails)?;
                Ok(())
            }
            "say" => {
                self.calls = doors::said(out, input, fails)?;
                Ok(())
            }
            "http" => asks::head(out, input),
            "wire" => asks::read(out, input),
            "patch" => asks::bodies(out, "PATCH /settings?tx=t", input),
            "set" => asks::bodies(out, "POST /set", input),
            "wants" => writeln!(out, "{}", bytes_wanted(input)),
            "times" => {
                let (size, bytes) = pieces(given)?;
                asks::times(out, bytes, size)
            }
            _ => Err(bad()),
        }
    }

    fn arm(&mut self, device: &str, fault: Fault, number: u64) -> io::Result<()> {
        match (device, fault) {
            ("read", Fault::Fail) => self.fails.reads = number,
            ("write", Fault::Fail) => self.fails.writes = number,
            _ => return Err(bad()),
        }
        Ok(())
    }

    fn calls(&self, device: &str) -> u64 {
        match device {
            "read" => self.calls.reads,
            _ => self.calls.writes,
        }
    }
}

fn main(rt: HostRuntime) -> io::Result<ExitCode> {
    all_go::<Rows>(&rt)
}
