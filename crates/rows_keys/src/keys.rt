//! Keys, lists of keys and names of files.
use key_names::{Bytes, Key, KeyError, are_bare, file_name, of_file_name, read_list};
use row_files::{bad, halves, key_of, text_of};
use std::io::{self, Write};

/// Tells the bytes as a line.
pub fn line(out: &mut Vec<u8>, bytes: &[u8]) -> io::Result<()> {
    out.extend_from_slice(bytes)?;
    Ok(out.push(b'\n')?)
}

// Tells the fault, and where it is.
fn fault(out: &mut Vec<u8>, error: KeyError) -> io::Result<()> {
    let KeyError { kind, place } = error;
    writeln!(out, "{kind:?} {place}")
}

// Tells a copy of the key as it is printed, or why there is none.
fn told(out: &mut Vec<u8>, read: Result<Key, KeyError>) -> io::Result<()> {
    match read {
        Ok(key) => line(out, key.copy()?.print()?.as_str().as_bytes()),
        Err(error) => fault(out, error),
    }
}

// Tells the segments of the key, each on a line.
fn segments(out: &mut Vec<u8>, key: &Key) -> io::Result<()> {
    for index in 0..key.len() {
        line(out, key.segment(index))?;
    }
    Ok(())
}

// Tells the keys in their order, each with a comma after it, or why there is no list.
fn list(out: &mut Vec<u8>, read: Result<Vec<Key>, KeyError>) -> io::Result<()> {
    match read {
        Ok(keys) => {
            for key in &keys {
                write!(out, "{},", key.print()?.as_str())?;
            }
            line(out, b"")
        }
        Err(error) => fault(out, error),
    }
}

// How the first key relates to the second.
fn place_of(one: &Key, two: &Key) -> &'static [u8] {
    if one == two {
        b"the same"
    } else if one.is_prefix(two) {
        b"above"
    } else if one.overlaps(two) {
        b"below"
    } else if one < two {
        b"before"
    } else {
        b"after"
    }
}

// Tells the segment of which this is the name of the file.
fn named(out: &mut Vec<u8>, name: &[u8]) -> io::Result<()> {
    let Some(segment) = of_file_name(*out.allocator(), name)? else {
        return line(out, b"none");
    };
    out.extend_from_slice(b"of ")?;
    line(out, segment.as_slice())
}

// Tells what the row of this word comes to, of names of files and bytes.
fn tell_name(out: &mut Vec<u8>, word: &str, input: &[u8]) -> io::Result<()> {
    let alloc = *out.allocator();
    match word {
        "file-name" => {
            let name = file_name(alloc, input)?;
            line(out, name.as_slice())?;
            named(out, name.as_slice())
        }
        "of-file-name" => named(out, input),
        "bytes" => {
            let bytes = Bytes::of(input.to_vec(alloc)?);
            let copy = bytes.copy()?;
            let is_same = copy == bytes;
            line(out, if is_same { copy.as_slice() } else { b"another" })
        }
        "bare" if are_bare(input) => line(out, b"bare"),
        "bare" => line(out, b"to be quoted"),
        _ => Err(bad()),
    }
}

/// Tells what the row of this word comes to. The errors are `bad()`, where it is no row of keys, and out of memory.
pub fn tell(out: &mut Vec<u8>, word: &str, input: &[u8]) -> io::Result<()> {
    let alloc = *out.allocator();
    match word {
        "key" => told(out, Key::read(alloc, input)),
        "segments" | "below" => match Key::read(alloc, input) {
            Ok(key) if word == "below" => told(out, key.child(b"b")),
            Ok(key) => segments(out, &key),
            Err(error) => fault(out, error),
        },
        "segment" => {
            told(out, Key::of_segment(alloc, input))?;
            told(out, key_of(alloc, "settings")?.child(input))
        }
        "stands" => {
            let (one, two) = halves(input)?;
            let (one, two) = (key_of(alloc, text_of(one)?)?, key_of(alloc, text_of(two)?)?);
            line(out, place_of(&one, &two))
        }
        "list" => list(out, read_list(alloc, input)),
        _ => tell_name(out, word, input),
    }
}
