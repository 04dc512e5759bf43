//! Steps of a host.
use crate::replies::said;
use api_http::Reply;
use disk_memory::MemoryDisk;
use key_names::Bytes;
use machine_replies::Host;
use plain_machine::{OpeningAnswer, Ran, TurnAnswer};
use row_files::{Given, bad, good, line, number_of, parts, path_of};
use std::alloc::Global;
use std::io::{self, Write};
use version_links::Version;

const VERSION: Version = Version {
    major: 1,
    minor: 5,
    patch: 2,
};

/// The host of the image on the disk, whose store was opened at a boot. `bad()` where there is no image that can be read.
pub fn booted(alloc: Global, disk: &mut MemoryDisk) -> io::Result<Box<Host>> {
    let mut host = Box::new(alloc, good(Host::read(alloc, disk, VERSION))?)?;
    host.open(alloc, true, OpeningAnswer::Succeeded)?;
    Ok(host)
}

// What the disk lets an opening come to, of its word.
fn opening_of(how: &str) -> io::Result<OpeningAnswer> {
    match how {
        "taken" => Ok(OpeningAnswer::Failing { taken: true }),
        "untaken" => Ok(OpeningAnswer::Failing { taken: false }),
        "at-boot" | "later" => Ok(OpeningAnswer::Succeeded),
        _ => Err(bad()),
    }
}

// What the outside lets a turn come to, of its word.
fn answer_of(how: &str) -> io::Result<TurnAnswer> {
    Ok(match how {
        "no-room" => TurnAnswer::NoRoom,
        "no-spawn" => TurnAnswer::NoSpawn,
        "file-fault" => TurnAnswer::FileFault { left: None },
        "sync-fault" => TurnAnswer::SyncFault,
        "owed-fault" => TurnAnswer::OwedFault { stored: false },
        _ => TurnAnswer::Fine {
            status: number_of(how)?,
        },
    })
}

// Makes so many turns of a job, each of which comes to the same.
fn turns(alloc: Global, host: &mut Host, how: &str, count: u32) -> io::Result<()> {
    for _ in 0..count {
        host.turn(alloc, answer_of(how)?)?;
    }
    Ok(())
}

// What is replied to the request with this method, and the path and the body after it. `bad()` where it is not whole.
fn replied(alloc: Global, host: &mut Host, method: &str, rest: &str) -> io::Result<Reply> {
    let (path, body) = parts(rest);
    let length = body.len();
    let text = format!(in alloc;
        "{method} {path} HTTP/1.1\r\nHost: localhost\r\nContent-Length: {length}\r\n\r\n{body}"
    )?;
    host.reply_to(alloc, text.as_str().as_bytes())?.ok_or(bad())
}

/// The configuration file has the bytes that are given from then on; without any it is taken away.
pub fn put_file(alloc: Global, host: &mut Host, given: Given<'_>) -> io::Result<()> {
    let path = path_of(alloc, given.text)?;
    if let Some(bytes) = given.lines {
        let bytes = Bytes::of(bytes.to_vec(alloc)?);
        host.machine.etc.insert(path, bytes)?;
    } else {
        host.machine.etc.remove(&path);
    }
    Ok(())
}

// Tells the keys that are weak, each on a line.
fn weak(out: &mut Vec<u8>, host: &Host) -> io::Result<()> {
    for key in host.machine.held.live.weak().as_slice() {
        line(out, &[key.print()?.as_str()])?;
    }
    Ok(())
}

// Tells the words of a program on a line.
fn run(out: &mut Vec<u8>, ran: &Ran) -> io::Result<()> {
    write!(out, "!")?;
    for word in &ran.words {
        write!(out, " {}", word.as_str())?;
    }
    line(out, &[])
}

// Tells each program that was run. They are forgotten.
fn runs(out: &mut Vec<u8>, host: &mut Host) -> io::Result<()> {
    for ran in &host.machine.runs {
        run(out, ran)?;
    }
    host.machine.runs.clear();
    Ok(())
}

/// Tells what the step comes to. No job of the rows takes more than nine turns.
pub fn tell(out: &mut Vec<u8>, host: &mut Host, word: &str, text: &str) -> io::Result<()> {
    let alloc = *out.allocator();
    match word {
        "GET" | "PATCH" | "POST" | "DELETE" => said(out, &replied(alloc, host, word, text)?),
        "whole" => {
            let (method, rest) = parts(text);
            let reply = replied(alloc, host, method, rest)?;
            Ok(out.extend_from_slice(reply.bytes())?)
        }
        "turn" => turns(alloc, host, text, 1),
        "turns" => turns(alloc, host, text, 9),
        "open" => Ok(host.open(alloc, text == "at-boot", opening_of(text)?)?),
        "weak" => weak(out, host),
        "file" => {
            let file = host.machine.etc.get(&path_of(alloc, text.as_bytes())?);
            let bytes = file.map_or(b"no file\n".as_slice(), |it| it.as_slice());
            Ok(out.extend_from_slice(bytes)?)
        }
        "runs" => runs(out, host),
        _ => Err(bad()),
    }
}
