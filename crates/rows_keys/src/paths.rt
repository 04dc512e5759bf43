//! Paths of files, as they are kept on a disk.
use crate::keys::line;
use outside::{Path, PathError};
use row_files::{bad, halves, path_of};
use std::io::{self, Write};

// Tells the number of names, and the path as it is printed, if it has any. It is that of a copy, where this equals the path.
fn path(out: &mut Vec<u8>, path: &Path) -> io::Result<()> {
    let copy = path.copy()?;
    if copy != *path {
        return line(out, b"another");
    }
    let (count, printed) = (copy.names().len(), copy.print()?);
    let mark = if printed.is_empty() { "" } else { " " };
    write!(out, "{count}{mark}")?;
    line(out, &printed)
}

// Tells the path, or why there is none.
fn told(out: &mut Vec<u8>, read: Result<Path, PathError>) -> io::Result<()> {
    match read {
        Ok(read) => path(out, &read),
        Err(error) => writeln!(out, "{error:?}"),
    }
}

// Tells the path with its last name once more.
fn joined(out: &mut Vec<u8>, one: &Path) -> io::Result<()> {
    match one.names().last() {
        Some(name) if one.names().len() < Path::MAX_NAMES => path(out, &one.join(name)?),
        _ => Err(bad()),
    }
}

// Tells each word that is true of the two, on a line.
fn stands(out: &mut Vec<u8>, one: &Path, two: &Path) -> io::Result<()> {
    let words = [
        ("the same", one == two),
        ("above", one.is_above(two)),
        ("below", two.is_above(one)),
        ("before", one < two),
        ("after", one > two),
    ];
    for (word, is_true) in &words {
        if *is_true {
            line(out, word.as_bytes())?;
        }
    }
    Ok(())
}

/// Tells what the row of this word comes to. The errors are `bad()`, where it is no row of paths, and out of memory.
pub fn tell(out: &mut Vec<u8>, word: &str, input: &[u8]) -> io::Result<()> {
    let alloc = *out.allocator();
    match word {
        "path" => return told(out, Path::read(alloc, input)),
        "joined" => return joined(out, &path_of(alloc, input)?),
        _ => {}
    }
    let (one, two) = halves(input)?;
    let one = path_of(alloc, one)?;
    match word {
        "child" => told(out, one.child(two)),
        _ => stands(out, &one, &path_of(alloc, two)?),
    }
}
