//! Tables of types: their rows, the values that they take, and the keys that they reach.
use json_trees::Scalar;
use key_names::Text;
use row_files::{good, key_of, line, parts, text_of};
use std::alloc::Global;
use std::io::{self, Write};
use typed_settings::{RowsError, TypeError, Types};

// The rows of these lines, of a pattern, a space and a word.
fn rows_of(alloc: Global, lines: &[u8]) -> io::Result<Vec<(Text, Text)>> {
    let mut rows = Vec::new(alloc);
    for text in text_of(lines)?.lines() {
        let (pattern, word) = parts(text);
        let pattern = Text::from_str(alloc, pattern)?;
        rows.push((pattern, Text::from_str(alloc, word)?))?;
    }
    Ok(rows)
}

/// Tells how many rows the table of these lines has, with those that are built in, or why it is refused.
pub fn told(out: &mut Vec<u8>, lines: &[u8]) -> io::Result<()> {
    let alloc = *out.allocator();
    match Types::of_rows(alloc, &rows_of(alloc, lines)?) {
        Ok(types) => writeln!(out, "rows {}", types.len()),
        Err(RowsError::BadRow { index }) => writeln!(out, "bad row {index}"),
        Err(RowsError::Meet { first, second }) => writeln!(out, "{first} meets {second}"),
        Err(RowsError::Memory) => line(out, &["memory"]),
    }
}

/// Tells what a step of a word comes to that asks the table of these lines.
pub fn tell(out: &mut Vec<u8>, lines: &[u8], word: &str, text: &str) -> io::Result<()> {
    let alloc = *out.allocator();
    let types = good(Types::of_rows(alloc, &rows_of(alloc, lines)?))?;
    let (key, json) = parts(text);
    let key = key_of(alloc, key)?;
    if word == "finds" && json.is_empty() {
        let (matches, reaches) = (types.matches(&key), types.reaches(&key));
        return writeln!(out, "matches {matches}, reaches {reaches}");
    }
    match types.check(&key, &good(Scalar::of_json(alloc, json.as_bytes()))?) {
        Ok(()) => line(out, &["typed"]),
        Err(TypeError::Unknown { key }) => {
            let key = key.print()?;
            line(out, &["unknown", key.as_str()])
        }
        Err(TypeError::Wrong { key, wanted }) => {
            let key = key.print()?;
            line(out, &["wrong", key.as_str(), wanted.as_str()])
        }
        Err(TypeError::Memory) => line(out, &["memory"]),
    }
}
