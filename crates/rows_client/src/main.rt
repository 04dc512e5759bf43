//! `rows_client FILE ..`: rows of the client of the server, over a link and an output in memory.
//!
//! - `server` lets the server answer what it is given, from here on.
//! - `$ A|B` runs the client with the words between the bars, over that server or one that answers what the lines below give: its status in brackets, where
//!   that is not 0, the line `nothing sent`, where that is so, and what it printed. `sent` tells what the last run sent.
//! - `then` lets the server answer what it is given to one more question of the next run.
//! - `fail connect N`, `fail read N` and `fail write N` let the call of the first link with this number fail in the next run, with `N LINK` that of another
//!   link, and `fail output N` lets the output take so many bytes and then fail.
//! - `reply` tells the status and the body of the reply that it is given, or that it is none.
#![tactic(auto)]

mod runs;

use crate::runs::{Client, Faults};
use host_client::{ReplyError, read_reply};
use row_files::{Given, Subject, all_go, bad, line};
use std::alloc::Global;
use std::io::{self, Write};
use std::process::ExitCode;

// Tells the status and the body of the reply, or that it is none.
fn reply(out: &mut Vec<u8>, bytes: &[u8]) -> io::Result<()> {
    match read_reply(*out.allocator(), bytes) {
        Ok(got) => {
            writeln!(out, "{}", got.status)?;
            Ok(out.extend_from_slice(got.body.as_slice())?)
        }
        Err(ReplyError::BadReply) => line(out, &["bad reply"]),
        Err(ReplyError::Memory) => line(out, &["memory"]),
    }
}

impl Subject for Client {
    fn new(alloc: Global) -> io::Result<Client> {
        Ok(Client {
            answer: Vec::new(alloc),
            further: Vec::new(alloc),
            sent: Vec::new(alloc),
            faults: Faults::NONE,
        })
    }

    fn make(&mut self, out: &mut Vec<u8>, given: Given<'_>) -> io::Result<()> {
        let alloc = *out.allocator();
        match given.word {
            "reply" => reply(out, given.input())?,
            "server" => self.answer = given.input().to_vec(alloc)?,
            "then" => self.further.push(given.input().to_vec(alloc)?)?,
            "sent" => out.extend_from_slice(&self.sent)?,
            "fail" => self.faults.set(given.words()?)?,
            "$" => self.run(out, given.words()?, given.lines)?,
            _ => return Err(bad()),
        }
        Ok(())
    }
}

fn main(rt: HostRuntime) -> io::Result<ExitCode> {
    all_go::<Client>(&rt)
}
