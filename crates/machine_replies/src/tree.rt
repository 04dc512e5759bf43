//! Trees as JSON.
use key_names::{Key, Text};
use std::alloc::{AllocError, Global};

/// A key, and the JSON text of what is there.
pub(crate) type Entry = (Key, Text);

// Whether both keys have the same segment at this level.
fn meet_at(one: &Key, other: &Key, level: usize) -> bool {
    level < one.len() && level < other.len() && one.segment(level) == other.segment(level)
}

// How many segments both keys begin with.
fn shared(one: &Key, other: &Key) -> usize {
    for level in 0..one.len() {
        if !meet_at(one, other, level) {
            return level;
        }
    }
    one.len()
}

// The segment as a name of JSON. Its bytes are printed ASCII without quotes, so only a backslash is escaped.
fn push_name(out: &mut String, segment: &[u8]) -> Result<(), AllocError> {
    out.push('"')?;
    for byte in segment {
        if *byte == b'\\' {
            out.push('\\')?;
        }
        out.push(char::from(*byte))?;
    }
    out.push_str("\":")
}

// The names of a key from this level on, each but the last one with an object.
fn push_names(out: &mut String, key: &Key, first: usize) -> Result<(), AllocError> {
    for level in first..key.len() {
        if level > first {
            out.push('{')?;
        }
        push_name(out, key.segment(level))?;
    }
    Ok(())
}

// Ends the objects of the key before, but for those of so many first segments.
fn close(out: &mut String, before: &Key, common: usize) -> Result<(), AllocError> {
    for _ in common.saturating_add(1)..before.len() {
        out.push('}')?;
    }
    Ok(())
}

fn push_entry(
    out: &mut String,
    before: Option<&Key>,
    entry: &Entry,
    skip: usize,
) -> Result<(), AllocError> {
    let (key, value) = entry;
    let mut common = skip;
    if let Some(before) = before {
        common = shared(before, key);
        close(out, before, common)?;
        out.push(',')?;
    }
    push_names(out, key, common)?;
    out.push_str(value.as_str())
}

/// The object of these entries, which rise and none of whose keys begins another, without so many first segments, which all keys
/// share. The only error is out of memory.
pub(crate) fn tree_text(alloc: Global, entries: &[Entry], skip: usize) -> Result<Text, AllocError> {
    let mut out = String::from_str(alloc, "{")?;
    let mut before = None;
    for entry in entries {
        push_entry(&mut out, before, entry, skip)?;
        before = Some(&entry.0);
    }
    if let Some(before) = before {
        close(&mut out, before, skip)?;
    }
    out.push('}')?;
    Ok(Text::of(out))
}
