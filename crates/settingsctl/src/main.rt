//! The program `settingsctl`: it asks the server in a folder one question, METHOD TARGET [BODY], or what a verb says, and
//! prints the answer.
#![tactic(auto)]

mod misuse;
mod paced;
mod usage;

use crate::paced::PacedLink;
use crate::usage::PAGE;
use host_client::{Pace, is_verb, pace_in, run_client};
use outside_real::{LimitedWriter, RealLink, RealSink, Stream, tell, tell_misuse, words_of};
use program_version::VERSION;
use std::alloc::{AllocError, Global};
use std::fs;
use std::io::{self, Write};
use std::process::ExitCode;
use std::time::Duration;

/// What standard error calls the program.
const PROGRAM: &str = "settingsctl";

/// The exit status of a program that ran out of memory in making its devices, as that of a run.
const OUT_OF_MEMORY: u8 = 1;

/// The exit status of words that ask no question.
const MISUSED: u8 = 2;

/// The exit statuses of a run whose link or output failed.
const LINK: u8 = 4;

const OUTPUT: u8 = 12;

/// The folder of a host's server.
const USUAL: &str = "/var/lib/settings";

/// The links of a run, one for each question.
type Links = Vec<PacedLink<HostRuntime, RealLink<HostRuntime>>>;

fn main(rt: HostRuntime) -> ExitCode {
    match status_of(&rt) {
        Ok(status) => ExitCode::from(status),
        Err(_) => {
            let _ = rt.stdout().write_all(b"settingsctl: memory\n");
            ExitCode::from(OUT_OF_MEMORY)
        }
    }
}

// What is printed besides the answer to a question: the page, or the version. None where the words ask for neither. Or out of memory.
fn asked_of(alloc: Global, words: &[String]) -> Result<Option<String>, AllocError> {
    let [word] = words else {
        return Ok(None);
    };
    match word.as_str() {
        "-h" | "--help" => Ok(Some(String::from_str(alloc, PAGE)?)),
        "--version" => Ok(Some(format!(in alloc; "settingsctl {VERSION}\n")?)),
        _ => Ok(None),
    }
}

// The folder that is asked, and the words after it: DIR where the words begin with `-C DIR`. By default it is the working folder;
// for a verb, where that has no socket, the folder of a host's server.
fn folder_of<'a>(rt: &HostRuntime, words: &'a [String]) -> (&'a str, &'a [String]) {
    match words {
        [word, folder, rest @ ..] if word.as_str() == "-C" => (folder.as_str(), rest),
        [word, ..] if is_verb(word.as_str()) && fs::metadata(rt, "api.sock").is_err() => {
            (USUAL, words)
        }
        _ => (".", words),
    }
}

// As many links as the words may ask questions, with a second before each but the first ones.
fn links_of(rt: &HostRuntime, folder: &str, pace: Pace) -> io::Result<Links> {
    let mut links = Vec::new(rt.alloc());
    for i in 0..pace.most {
        let pause = Duration::from_secs(if i < pace.at_once { 0 } else { 1 });
        let link = RealLink::new(rt.clone()?, folder)?;
        links.push(PacedLink::new(rt.clone()?, link, pause))?;
    }
    Ok(links)
}

// Prints the text that was asked for, and answers the status.
fn print_asked(out: &mut impl Write, text: &str) -> u8 {
    if out.write_all(text.as_bytes()).is_ok() {
        0
    } else {
        OUTPUT
    }
}

// The status of the questions of these words. Standard error says what failed, and where they ask nothing, how they are spelled.
fn answered<W: Write + Drop>(
    rt: &HostRuntime,
    words: &[String],
    out: &mut RealSink<W>,
) -> io::Result<u8> {
    let alloc = rt.alloc();
    let (folder, words) = folder_of(rt, words);
    let mut links = links_of(rt, folder, pace_in(alloc, words)?)?;
    let status = run_client(alloc, words, &mut links, out);
    match status {
        MISUSED => tell_misuse(rt, PROGRAM, misuse::fault_of(alloc, words), PAGE),
        LINK => {
            for paced in &links {
                tell(rt, PROGRAM, paced.link().last_failure());
            }
        }
        OUTPUT => tell(rt, PROGRAM, out.last_failure()),
        _ => {}
    }
    Ok(status)
}

// The status of the run. Where standard output is closed nothing is asked: the socket would take its place, and get what is printed.
fn status_of(rt: &HostRuntime) -> io::Result<u8> {
    let mut writer = LimitedWriter::new(rt.clone()?, Stream::Output, rt.stdout());
    let words = words_of(rt)?;
    if let Some(text) = asked_of(rt.alloc(), &words)? {
        return Ok(print_asked(&mut writer, text.as_str()));
    }
    let mut out = RealSink::new(rt.alloc(), writer);
    if out.is_closed() {
        return Ok(OUTPUT);
    }
    answered(rt, &words, &mut out)
}
