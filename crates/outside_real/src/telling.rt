//! What a program says to a person, on standard error.
use crate::limited::{LimitedWriter, Stream};
use std::alloc::{AllocError, Global};
use std::io::Write;

/// Writes the text to standard error, as far as that takes it. Where it is closed, full or at the limit of the size of files, the rest is lost.
pub fn say(rt: &HostRuntime, text: &str) {
    if let Ok(files) = rt.clone() {
        let _ = LimitedWriter::new(files, Stream::Error, rt.stderr()).write_all(text.as_bytes());
    }
}

/// Says the line after the name of the program, as `settings: read image/model.toml: permission denied (13)`: for what a device answers as its
/// last failure. Nothing is said where there is no line, or memory is out.
pub fn tell(rt: &HostRuntime, program: &str, line: Result<Option<String>, AllocError>) {
    if let Ok(Some(line)) = line {
        let line = line.as_str();
        if let Ok(line) = format!(in rt.alloc(); "{program}: {line}\n") {
            say(rt, line.as_str());
        }
    }
}

// The line that tells which word is at fault; None where there is no word. Or out of memory.
fn misuse_line(
    alloc: Global,
    fault: Result<Option<String>, AllocError>,
) -> Result<Option<String>, AllocError> {
    match fault? {
        Some(fault) => {
            let fault = fault.as_str();
            Ok(Some(format!(in alloc; "usage: {fault}")?))
        }
        None => Ok(None),
    }
}

/// Says what is at fault with the words of the program, as `settings: usage: x: no KEY=JSON`, where it is known, and then the page, which has how
/// they are spelled.
pub fn tell_misuse(
    rt: &HostRuntime,
    program: &str,
    fault: Result<Option<String>, AllocError>,
    page: &str,
) {
    tell(rt, program, misuse_line(rt.alloc(), fault));
    say(rt, page);
}
