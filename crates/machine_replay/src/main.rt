//! `machine_replay`: what the reference model replies to requests, as a server that serves nobody else would.
//!
//! Standard input has a line `file PATH HEX` for each file of an image, then the line `boot VERSION`, and then a line for each
//! connection: the bytes that come on it, in hexadecimal digits. For each connection a line is printed: the bytes of the reply in such
//! digits, none where nothing is replied.
//!
//! The store has begun at the version, and was opened at a boot and applied. After each request all turns of the job are made, and
//! each program ends with 0.
#![tactic(auto)]

use disk_memory::MemoryDisk;
use machine_replies::Host;
use outside::{Disk, Path};
use plain_machine::{OpeningAnswer, TurnAnswer};
use settings_machine::{Job, Request};
use std::alloc::{AllocError, Global};
use std::io::{self, BufRead, BufReader, ErrorKind};
use std::process::ExitCode;
use version_links::Version;

// No image has more files.
const MOST_FILES: u32 = 10_000;

// No jobs that follow one another take more turns.
const MOST_TURNS: u32 = 100_000;

// The error where what is read has not its form.
fn bad() -> io::Error {
    io::Error::from(ErrorKind::InvalidData)
}

// The bytes that the hexadecimal digits are.
fn bytes_of(alloc: Global, digits: &str) -> io::Result<Vec<u8>> {
    hex::decode(alloc, digits).ok().ok_or(bad())
}

// Puts the file that the line tells on the disk.
fn put(alloc: Global, disk: &mut MemoryDisk, line: &str) -> io::Result<()> {
    let rest = line.strip_prefix("file ").ok_or(bad())?;
    let (path, digits) = rest.split_once(' ').unwrap_or((rest, ""));
    let bytes = bytes_of(alloc, digits)?;
    let path = Path::read(alloc, path.as_bytes()).ok().ok_or(bad())?;
    disk.replace(&path, &bytes).ok().ok_or(bad())
}

// Reads the lines of the files, which it puts on the disk, and the version after them.
fn read_head(rt: &HostRuntime, disk: &mut MemoryDisk) -> io::Result<Version> {
    let alloc = rt.alloc();
    for _ in 0..MOST_FILES {
        let mut line = String::new(alloc);
        rt.read_line(&mut line)?;
        let line = line.as_str().trim_end();
        if let Some(version) = line.strip_prefix("boot ") {
            return Version::read(alloc, version)?.ok_or(bad());
        }
        put(alloc, disk, line)?;
    }
    Err(bad())
}

// Turns that go well, until no job runs.
fn turns(alloc: Global, host: &mut Host) -> Result<(), AllocError> {
    for _ in 0..MOST_TURNS {
        let Job::Running(_) = &host.machine.job else {
            return Ok(());
        };
        host.turn(alloc, TurnAnswer::Fine { status: 0 })?;
    }
    Ok(())
}

// The host of the image on the disk, whose store has begun at the version, and was opened at a boot and applied.
fn booted(alloc: Global, disk: &mut MemoryDisk, version: Version) -> io::Result<Box<Host>> {
    let host = Host::read(alloc, disk, version).ok().ok_or(bad())?;
    let mut host = Box::new(alloc, host)?;
    host.open(alloc, true, OpeningAnswer::Succeeded)?;
    host.ask(alloc, &Request::Apply)?;
    turns(alloc, &mut host)?;
    Ok(host)
}

// The reply to the request whose bytes these hexadecimal digits are, as such digits. All turns of the job are made after it.
fn reply_to(alloc: Global, host: &mut Host, digits: &str) -> io::Result<String> {
    let bytes = bytes_of(alloc, digits)?;
    let reply = host.reply_to(alloc, &bytes)?;
    turns(alloc, host)?;
    host.machine.runs.clear();
    match &reply {
        Some(reply) => Ok(hex::encode(alloc, reply.bytes())?),
        None => Ok(String::new(alloc)),
    }
}

fn main(rt: HostRuntime) -> io::Result<ExitCode> {
    let alloc = rt.alloc();
    let mut disk = MemoryDisk::new(alloc)?;
    let version = read_head(&rt, &mut disk)?;
    let mut host = booted(alloc, &mut disk, version)?;
    for line in BufReader::new(alloc, rt.reader())?.lines(alloc) {
        let reply = reply_to(alloc, &mut host, line?.as_str())?;
        println!(rt; "{reply}")?;
    }
    Ok(ExitCode::SUCCESS)
}
