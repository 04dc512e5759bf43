//! Held texts.
use held_text::{DumpError, HeldText, dump_text, read_dump};
use key_names::Bytes;
use row_files::{good, line, parts};
use settings_tree::{Content, Held, KeyList, Owed, PendMaps};
use std::alloc::{AllocError, Global};
use std::io;

/// What a store holds that holds nothing.
pub fn nothing(alloc: Global) -> Held {
    Held {
        live: Content::new(alloc),
        pending: PendMaps::new(alloc),
        owed: Owed::Keys(KeyList::new(alloc)),
        image: Bytes::of(Vec::new(alloc)),
    }
}

// The value of the member: an empty list, where it is left out.
fn value_of<'a>(members: &'a str, member: &str) -> &'a str {
    let (_, rest) = members.split_once(member).unwrap_or(("", "[]"));
    parts(rest.trim_end()).0
}

/// The held text of the members, which have spaces between them and none inside. The image text is `hello`.
pub fn text_of(alloc: Global, members: &str) -> Result<String, AllocError> {
    let live = value_of(members, "live:");
    let meta = value_of(members, "meta:");
    let owed = value_of(members, "owed:");
    let pending = value_of(members, "pending:");
    let weak = value_of(members, "weak:");
    format!(in alloc;
        "{{\"image\":\"aGVsbG8=\",\"live\":{live},\"meta\":{meta},\"owed\":{owed},\"pending\":{pending},\"weak\":{weak}}}"
    )
}

/// What is held of the members.
pub fn held_of(alloc: Global, members: &str) -> io::Result<Held> {
    let text = text_of(alloc, members)?;
    good(Held::read(alloc, text.as_str().as_bytes()))
}

/// Tells what is held.
pub fn print(out: &mut Vec<u8>, held: &Held) -> io::Result<()> {
    line(out, &[held.print()?.as_str()])
}

/// Tells the dump that the text is, printed, or why it is none.
pub fn dump(out: &mut Vec<u8>, text: &[u8]) -> io::Result<()> {
    let alloc = *out.allocator();
    match read_dump(alloc, text) {
        Ok(dump) => line(out, &[dump_text(alloc, dump.version, &dump.held)?.as_str()]),
        Err(DumpError::NotJson) => line(out, &["not-json"]),
        Err(DumpError::BadHeld) => line(out, &["bad-held"]),
        Err(DumpError::BadVersion) => line(out, &["bad-version"]),
        Err(DumpError::Memory) => line(out, &["memory"]),
    }
}

/// Holds the text, and tells a copy of it if `is_told`, or tells that it is none.
pub fn hold(out: &mut Vec<u8>, held: &mut Held, text: &str, is_told: bool) -> io::Result<()> {
    let Ok(read) = Held::read(*out.allocator(), text.as_bytes()) else {
        return line(out, &["bad"]);
    };
    *held = read.copy()?;
    if is_told {
        print(out, held)?;
    }
    Ok(())
}
