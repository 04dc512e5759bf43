//! What a device says of its last failure, for a person.
use crate::quoting::plain;
use outside::Path;
use std::alloc::{AllocError, Global};
use std::io;

/// What a call was made on.
#[derive(Clone, Copy)]
pub enum On<'a> {
    /// A node of the disk.
    Path(&'a Path),
    /// What is named so.
    Name(&'a str),
    /// The program of these words.
    Program(&'a [String]),
}

/// The last failure of a device: the call, what it was made on, and the error.
#[derive(Debug, Drop)]
pub struct Failure {
    call: &'static str,
    on: Option<String>,
    error: io::Error,
}

// The name of what a call was made on.
fn name_of(alloc: Global, on: On<'_>) -> Result<String, AllocError> {
    match on {
        On::Path(path) => String::from_utf8_lossy(alloc, path.print()?.as_slice()),
        On::Name(name) => String::from_str(alloc, name),
        On::Program(words) => {
            String::from_str(alloc, words.first().map_or("", |word| word.as_str()))
        }
    }
}

/// The words of an error and its number, as `permission denied (13)`; of one that isn't the system's its words alone. Or out of memory.
pub fn words_of(alloc: Global, error: &io::Error) -> Result<String, AllocError> {
    let text = format!(in alloc; "{error}")?;
    let Some(code) = error.raw_os_error() else {
        return Ok(text);
    };
    let words = text
        .as_str()
        .split_once(" (os error")
        .map_or(text.as_str(), |parts| parts.0);
    let mut line = String::new(alloc);
    for byte in words.as_bytes() {
        let byte = if line.is_empty() {
            byte.to_ascii_lowercase()
        } else {
            *byte
        };
        line.push(char::from(byte))?;
    }
    line.push_str(format!(in alloc; " ({code})")?.as_str())?;
    Ok(line)
}

impl Failure {
    /// That of this call. Where memory is out, what it was made on has no name.
    pub fn new(alloc: Global, call: &'static str, on: On<'_>, error: io::Error) -> Failure {
        let on = name_of(alloc, on).ok();
        Failure { call, on, error }
    }

    /// The call.
    pub fn call(&self) -> &'static str {
        self.call
    }

    /// The error.
    pub fn error(&self) -> &io::Error {
        &self.error
    }

    /// The name of what the call was made on; empty where there was no memory for it.
    pub fn on(&self) -> &str {
        self.on.as_deref().unwrap_or("")
    }

    /// The call, what it was made on, and the words of the error, as `read image/model.toml: permission denied (13)`. Or out of memory.
    pub fn print(&self, alloc: Global) -> Result<String, AllocError> {
        self.print_at(alloc, self.call, self.on())
    }

    /// The same of another call, at another place: that by which it failed. Or out of memory.
    pub fn print_at(&self, alloc: Global, call: &str, on: &str) -> Result<String, AllocError> {
        let (on, words) = (plain(alloc, on)?, words_of(alloc, &self.error)?);
        let (on, words) = (on.as_str(), words.as_str());
        format!(in alloc; "{call} {on}: {words}")
    }
}
