//! The words that a program is called with.
use std::env;
use std::io::{self, ErrorKind};
use std::rt::Env;

/// The words after the program's name. Where one isn't UTF-8 there are none: such words spell no command and no
/// question, and so do no words. The only error is out of memory.
pub fn words_of(rt: &(impl Env + AllocGlobal)) -> io::Result<Vec<String>> {
    match env::args(rt) {
        Ok(words) => Ok(words.skip(1).collect(rt.alloc())?),
        Err(e) if e.kind() == ErrorKind::InvalidData => Ok(Vec::new(rt.alloc())),
        Err(e) => Err(e),
    }
}
