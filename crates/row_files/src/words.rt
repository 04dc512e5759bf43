//! Words of steps, as drivers read them, and lines, as they tell them.
ghost use Rattle.std.specs.Prelude.{◌≡◌, Ok, IfOk};

use key_names::{Key, read_list};
use outside::Path;
use std::alloc::{AllocError, Global};
use std::io::{self, ErrorKind};
use std::str::FromStr;

/// The error where what a step is given makes no step: its row fails.
pub fn bad() -> io::Error {
    io::Error::from(ErrorKind::InvalidInput)
}

/// The value, or `bad()` in place of any error.
pub fn good<T: Drop, E: Drop>(answer: Result<T, E>) -> io::Result<T>
    ensures { IfOk result (λ value. answer ≡ Ok value) }
{
    answer.ok().ok_or(bad())
}

/// The bytes as a text.
pub fn text_of(bytes: &[u8]) -> io::Result<&str> {
    good(str::from_utf8(bytes))
}

/// The number that the text spells.
pub fn number_of<N: FromStr<Err: Drop> + Drop>(text: &str) -> io::Result<N> {
    good(text.parse::<N>())
}

/// The key that the text spells.
pub fn key_of(alloc: Global, text: &str) -> io::Result<Key> {
    good(Key::read(alloc, text.as_bytes()))
}

/// The keys that the text lists.
pub fn keys_of(alloc: Global, text: &str) -> io::Result<Vec<Key>> {
    good(read_list(alloc, text.as_bytes()))
}

/// The path that the text spells.
pub fn path_of(alloc: Global, text: &[u8]) -> io::Result<Path> {
    good(Path::read(alloc, text))
}

/// The first word of the text, and what is after it.
pub fn parts(text: &str) -> (&str, &str) {
    text.split_once(' ').unwrap_or((text, ""))
}

/// What is before the first space of the bytes, and what is after it. The only error is `bad()`, where there is no space.
pub fn halves(bytes: &[u8]) -> io::Result<(&[u8], &[u8])> {
    let at = bytes.iter().position(|byte| *byte == b' ').ok_or(bad())?;
    let (first, rest) = (bytes.get(..at), bytes.get(at.saturating_add(1)..));
    Ok((first.unwrap_or(b""), rest.unwrap_or(b"")))
}

/// The words of the text with this mark between them; none of an empty text. The only error is out of memory.
pub fn words_of(alloc: Global, text: &str, mark: char) -> Result<Vec<String>, AllocError> {
    let mut words = Vec::new(alloc);
    for word in text.split(mark) {
        if !text.is_empty() {
            words.push(String::from_str(alloc, word)?)?;
        }
    }
    Ok(words)
}

/// Tells a line of the words, with spaces between.
pub fn line(out: &mut Vec<u8>, words: &[&str]) -> io::Result<()> {
    let line = words.join(*out.allocator(), " ")?;
    out.extend_from_slice(line.as_str().as_bytes())?;
    Ok(out.push(b'\n')?)
}

/// Tells a line of a word and a path.
pub fn at(out: &mut Vec<u8>, word: &str, path: &Path) -> io::Result<()> {
    line(out, &[word, text_of(&path.print()?)?])
}
