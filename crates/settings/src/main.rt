//! The program `settings`: it makes the real devices in the working folder and runs the command of its words.
#![tactic(auto)]

ghost use Rattle.std.specs.Prelude.{◌≡◌, false};

mod faults;
mod misuse;
mod usage;

use crate::usage::PAGE;
use api_http::WholeRequests;
use command_words::Command;
use event_lines::Discard;
use outside::{Asker, Disk, Door, Sink};
use outside_real::{
    LimitedWriter, RealDisk, RealDoor, RealSink, RealSpawner, Stream, tell, tell_misuse, words_of,
};
use program_version::VERSION;
use settings_run::run;
use std::alloc::{AllocError, Global};
use std::io::{self, Stderr, Write};
use std::process::ExitCode;

/// What standard error calls the program.
const PROGRAM: &str = "settings";

/// The exit status of a program that ran out of memory in making its devices, as that of a command.
const OUT_OF_MEMORY: u8 = 1;

/// The exit status of words that spell no command.
const MISUSED: u8 = 2;

/// The exit statuses of a command that found a fault in the image, or in user data.
const BAD_IMAGE: u8 = 8;

const USER_DATA: u8 = 17;

/// The exit statuses of a command whose disk, door, spawner or output failed.
const DISK: u8 = 3;

const DOOR: u8 = 4;

const SPAWN: u8 = 5;

const OUTPUT: u8 = 12;

fn main(rt: HostRuntime) -> ExitCode {
    match status_of(&rt) {
        Ok(status) => ExitCode::from(status),
        Err(_) => {
            let _ = rt.stdout().write_all(b"settings: memory\n");
            ExitCode::from(OUT_OF_MEMORY)
        }
    }
}

// What is printed besides what the commands print: the page, or the version. None where the words ask for neither. Or out of memory.
fn asked_of(alloc: Global, words: &[String]) -> Result<Option<String>, AllocError> {
    let [word] = words else {
        return Ok(None);
    };
    match word.as_str() {
        "-h" | "--help" => Ok(Some(String::from_str(alloc, PAGE)?)),
        "--version" => Ok(Some(format!(in alloc; "settings {VERSION}\n")?)),
        _ => Ok(None),
    }
}

// Whether the command reads the image alone, which no program writes: it needs no lock.
fn reads_alone(words: &[String]) -> bool {
    matches!(words, [word] if word.as_str() == "check")
}

// The disk of the command. It waits for the lock, or takes none.
fn disk_for(rt: &HostRuntime, words: &[String]) -> io::Result<RealDisk<HostRuntime>> {
    let mut disk = RealDisk::new(rt.clone()?, ".")?;
    if reads_alone(words) {
        disk.take_no_lock();
    } else {
        disk.wait_for_lock();
    }
    Ok(disk)
}

// Whether the words are those of a server.
fn serves(alloc: Global, words: &[String]) -> bool {
    matches!(Command::read(alloc, words), Ok(Command::Serve { .. }))
}

// Runs the command, with this log, or without one where nobody can hear it.
fn run_heard<D: Disk, S: Asker, N: Door, O: Sink, L: Sink>(
    alloc: Global,
    words: &[String],
    disk: &mut D,
    spawner: &mut S,
    door: &mut N,
    out: &mut O,
    log: &mut L,
    is_heard: bool,
) -> u8
    requires idle { (N.state door.old).busy ≡ false }
    requires unused { (N.state door.old).accepted ≡ 0 }
{
    if is_heard {
        return run(alloc, words, disk, spawner, door, out, log);
    }
    run(alloc, words, disk, spawner, door, out, &mut Discard)
}

// The log, which is written to standard error.
fn log_of(rt: &HostRuntime) -> io::Result<RealSink<LimitedWriter<HostRuntime, Stderr>>> {
    let writer = LimitedWriter::new(rt.clone()?, Stream::Error, rt.stderr());
    Ok(RealSink::new(rt.alloc(), writer))
}

// What failed, in words, where it was a device.
fn failure_of<W: Write + Drop>(
    status: u8,
    disk: &RealDisk<HostRuntime>,
    door: &RealDoor<HostRuntime, WholeRequests>,
    spawner: &RealSpawner<HostRuntime>,
    out: &RealSink<W>,
) -> Result<Option<String>, AllocError> {
    match status {
        DISK => disk.last_failure(),
        DOOR => door.last_failure(),
        SPAWN => spawner.last_failure(),
        OUTPUT => out.last_failure(),
        _ => Ok(None),
    }
}

// The status of the command of these words. Standard error gets the log, says what failed, and where the words spell no command, how they
// are spelled.
fn carried_out<W: Write + Drop>(
    rt: &HostRuntime,
    words: &[String],
    out: &mut RealSink<W>,
) -> io::Result<u8> {
    let alloc = rt.alloc();
    // where standard error is closed, the first file that is opened takes its place, and is not to get the log
    let mut log = log_of(rt)?;
    let is_heard = !log.is_closed();
    let mut disk = disk_for(rt, words)?;
    // a server has both locks from its start, so that others see at once that it is at work, at the job of its boot too
    let is_server = serves(alloc, words) && disk.hold();
    let mut spawner = RealSpawner::new(rt.clone()?, ".")?;
    // the socket is bound by the first accept, which `serve` alone asks for
    let mut door = RealDoor::new(rt.clone()?, ".", WholeRequests::new(alloc))?;
    door.claim(is_server);
    let status = run_heard(
        alloc,
        words,
        &mut disk,
        &mut spawner,
        &mut door,
        out,
        &mut log,
        is_heard,
    );
    disk.tidy();
    door.drain();
    if status == MISUSED {
        tell_misuse(rt, PROGRAM, misuse::fault_of(alloc, words), PAGE);
    }
    let failure = match status {
        BAD_IMAGE | USER_DATA => faults::fault_of(alloc, &mut disk, words, out.first_bytes()),
        _ => failure_of(status, &disk, &door, &spawner, out),
    };
    tell(rt, PROGRAM, failure);
    Ok(status)
}

// Prints the text that was asked for, and answers the status.
fn print_asked(out: &mut impl Write, text: &str) -> u8 {
    if out.write_all(text.as_bytes()).is_ok() {
        0
    } else {
        OUTPUT
    }
}

// The status of the run. Where standard output is closed nothing is done: the lock would take its place, and get what is printed.
fn status_of(rt: &HostRuntime) -> io::Result<u8> {
    let mut writer = LimitedWriter::new(rt.clone()?, Stream::Output, rt.stdout());
    let words = words_of(rt)?;
    if let Some(text) = asked_of(rt.alloc(), &words)? {
        return Ok(print_asked(&mut writer, text.as_str()));
    }
    let mut out = RealSink::new(rt.alloc(), writer);
    if out.is_closed() {
        return Ok(OUTPUT);
    }
    carried_out(rt, &words, &mut out)
}
