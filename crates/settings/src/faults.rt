//! What is wrong with a file, and where, for a person: what a line of the program leaves out.
use json_trees::Scalar;
use key_names::{Key, Text};
use outside::{Disk, Path};
use std::alloc::{AllocError, Global};
use store_image::read_image;
use toml::{Table, Value};
use typed_settings::{TypeError, Types};

// The line and the column, both from 1, of a place of the text. A column counts characters.
fn line_and_column(text: &[u8], place: usize) -> (usize, usize) {
    let mut line = 1usize;
    let mut column = 1usize;
    for byte in text.iter().take(place) {
        if *byte == b'\n' {
            line = line.saturating_add(1);
            column = 1;
        } else if *byte & 0xC0 != 0x80 {
            column = column.saturating_add(1);
        }
    }
    (line, column)
}

// The line that tells of a place of the file.
fn told_at(
    alloc: Global,
    file: &str,
    text: &[u8],
    place: usize,
    words: &str,
) -> Result<String, AllocError> {
    let (line, column) = line_and_column(text, place);
    format!(in alloc; "{file}:{line}:{column}: {words}")
}

// Why the text is no TOML; None where it is.
fn toml_fault(alloc: Global, file: &str, text: &[u8]) -> Result<Option<String>, AllocError> {
    match toml::table_from_slice(alloc, text) {
        Ok(_) => Ok(None),
        Err(error) => match error.span() {
            Some(span) => Ok(Some(told_at(alloc, file, text, span.start, error.message())?)),
            None => Err(AllocError),
        },
    }
}

// What is before the first line that is `+++`, or the whole text.
fn front_of(text: &[u8]) -> &[u8] {
    let mut count = 0usize;
    for line in text.split(|byte| *byte == b'\n') {
        if line == b"+++".as_slice() {
            return text.get(..count).unwrap_or(text);
        }
        count = count.saturating_add(line.len()).saturating_add(1);
    }
    text
}

// The words for a fault of a template at its place; None of another kind.
fn template_words(kind: &str) -> Option<&'static str> {
    match kind {
        "escape" => Some("a backslash before a tag"),
        "unclosed" => Some("a tag without an end"),
        "bad-tag" => Some("no tag of a template"),
        "not-begun" => Some("no such block is begun"),
        "two-else" => Some("a second else"),
        "not-in-each" => Some("outside every each"),
        "too-deep" => Some("a block within 32 blocks"),
        "never-closed" => Some("never closed"),
        _ => None,
    }
}

// The rows of the types of a model, as they are written.
fn rows_of(alloc: Global, table: &Table) -> Result<Vec<(Text, Text)>, AllocError> {
    let mut rows = Vec::new(alloc);
    if let Some(Value::Table(types)) = table.get("types") {
        for (name, value) in types.iter() {
            if let Value::String(word) = value {
                let pattern = Text::from_str(alloc, name.as_str())?;
                rows.push((pattern, Text::from_str(alloc, word.as_str())?))?;
            }
        }
    }
    Ok(rows)
}

// Whether the text is a pattern of keys.
fn is_pattern(alloc: Global, text: &str) -> Result<bool, AllocError> {
    let mut rows = Vec::new(alloc);
    rows.push((Text::from_str(alloc, text)?, Text::from_str(alloc, "text")?))?;
    Ok(Types::of_rows(alloc, &rows).is_ok())
}

// What is wrong with a row of the types, of this name.
fn row_fault(alloc: Global, text: &[u8], at: &str) -> Result<Option<String>, AllocError> {
    let Some(name) = at.strip_prefix("types/") else {
        return Ok(None);
    };
    if !is_pattern(alloc, name)? {
        return Ok(Some(format!(in alloc; "{at}: no pattern of a setting's key")?));
    }
    let Ok(table) = toml::table_from_slice(alloc, text) else {
        return Ok(None);
    };
    let Some(Value::Table(types)) = table.get("types") else {
        return Ok(None);
    };
    match types.get(name) {
        Some(Value::String(word)) => {
            let word = word.as_str();
            Ok(Some(format!(in alloc; "{at}: {word:?} is no type word")?))
        }
        _ => Ok(Some(format!(in alloc; "{at}: no text with a type word")?)),
    }
}

// The type word that the types want at the key: that which refuses a truth value, or else a text.
fn wanted_at(alloc: Global, types: &Types, key: &Key) -> Result<Option<Text>, AllocError> {
    let text = Scalar::Text(Text::from_str(alloc, "")?);
    for value in [Scalar::Bool(true), text] {
        match types.check(key, &value) {
            Ok(()) => {}
            Err(TypeError::Wrong { wanted, .. }) => return Ok(Some(wanted)),
            Err(TypeError::Unknown { .. }) => return Ok(Some(Text::from_str(
                alloc,
                "nothing, as no type has this key",
            )?)),
            Err(TypeError::Memory) => return Err(AllocError),
        }
    }
    Ok(None)
}

// What is wanted at a value of the model that its types refuse; the names lead to it.
fn model_wants(alloc: Global, text: &[u8], at: &str) -> Result<Option<String>, AllocError> {
    let Ok(table) = toml::table_from_slice(alloc, text) else {
        return Ok(None);
    };
    let Ok(types) = Types::of_rows(alloc, &rows_of(alloc, &table)?) else {
        return Ok(None);
    };
    let mut names = at.split('/');
    let Some(first) = names.next() else {
        return Ok(None);
    };
    let Ok(mut key) = Key::of_segment(alloc, first.as_bytes()) else {
        return Ok(None);
    };
    for name in names {
        key = match key.child(name.as_bytes()) {
            Ok(child) => child,
            Err(_) => return Ok(None),
        };
    }
    match wanted_at(alloc, &types, &key)? {
        Some(wanted) => {
            let wanted = wanted.as_str();
            Ok(Some(format!(in alloc; "{at}: wants {wanted}")?))
        }
        None => Ok(None),
    }
}

// What is wrong with the file, whose text this is.
fn fault_in(
    alloc: Global,
    file: &str,
    text: &[u8],
    kind: &str,
    at: &str,
) -> Result<Option<String>, AllocError> {
    match (kind, template_words(kind), at.parse::<usize>()) {
        ("not-toml", ..) => toml_fault(alloc, file, text),
        ("bad-front", ..) => toml_fault(alloc, file, front_of(text)),
        ("bad-row", ..) => row_fault(alloc, text, at),
        ("ill-typed", ..) if file == "image/model.toml" => model_wants(alloc, text, at),
        ("ill-typed", ..) => Ok(Some(format!(in alloc; "{at}: no type has this key")?)),
        (_, Some(words), Ok(place)) => Ok(Some(told_at(alloc, file, text, place, words)?)),
        _ => Ok(None),
    }
}

// The bytes of the file; None where there is none, or the disk failed.
fn text_at<D: Disk>(alloc: Global, disk: &mut D, file: &str) -> Option<Vec<u8>> {
    match Path::read(alloc, file.as_bytes()) {
        Ok(path) => match disk.read(alloc, &path) {
            Ok(text) => text,
            Err(_) => None,
        },
        Err(_) => None,
    }
}

// What is wanted at the key, of which the program says that it is ill typed.
fn stored_wants<D: Disk>(
    alloc: Global,
    disk: &mut D,
    key: &str,
) -> Result<Option<String>, AllocError> {
    let (Ok(read), Ok(image)) = (Key::read(alloc, key.as_bytes()), read_image(alloc, disk)) else {
        return Ok(None);
    };
    match wanted_at(alloc, &image.model.types, &read)? {
        Some(wanted) => {
            let wanted = wanted.as_str();
            Ok(Some(format!(in alloc; "{key}: the image wants {wanted}")?))
        }
        None => Ok(None),
    }
}

/// What is wrong with the file of which the printed line tells, and where, as `image/model.toml:41:7: expected a newline`; None where the line says all
/// there is to say. The file is read once more. Or out of memory.
pub fn fault_of<D: Disk>(
    alloc: Global,
    disk: &mut D,
    words: &[String],
    printed: &[u8],
) -> Result<Option<String>, AllocError> {
    let printed = String::from_utf8_lossy(alloc, printed)?;
    let line = printed.as_str().trim_end_matches('\n');
    if let Some(key) = line.strip_prefix("settings: ill typed ") {
        return stored_wants(alloc, disk, key);
    }
    let (file, fault) = match (
        line.strip_prefix("settings: bad image "),
        line.strip_prefix("settings: user data "),
        words,
    ) {
        (Some(rest), ..) => match rest.split_once(' ') {
            Some((file, fault)) => (format!(in alloc; "image/{file}")?, fault),
            None => return Ok(None),
        },
        (_, Some(fault), [_, path]) => (path.clone()?, fault),
        _ => return Ok(None),
    };
    let (Some((kind, at)), Some(text)) = (
        fault.split_once(' '),
        text_at(alloc, disk, file.as_str()),
    ) else {
        return Ok(None);
    };
    fault_in(alloc, file.as_str(), &text, kind, at)
}
