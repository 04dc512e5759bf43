//! Values that are read, and lines that tell of keys and values.
use json_trees::{Pending, Scalar};
use key_names::{Key, Text};
use row_files::good;
use std::alloc::Global;
use std::fmt::Debug;
use std::io::{self, Write};

/// The scalar that the JSON text is.
pub fn scalar_of(alloc: Global, json: &str) -> io::Result<Scalar> {
    good(Scalar::of_json(alloc, json.as_bytes()))
}

/// Tells a word, and the key with its value after a `=`.
pub fn pair(out: &mut Vec<u8>, word: &str, key: &Key, value: &Scalar) -> io::Result<()> {
    let (key, value) = (key.print()?, value.print(*out.allocator())?);
    write!(out, "{word}{}={}", key.as_str(), value.as_str())
}

/// Tells a word and the same of what is pending, on a line; a removal is `null`.
pub fn change(out: &mut Vec<u8>, word: &str, key: &Key, value: &Pending) -> io::Result<()> {
    match value {
        Pending::Put(value) => pair(out, word, key, value)?,
        Pending::Gone => write!(out, "{word}{}=null", key.print()?.as_str())?,
    }
    Ok(out.push(b'\n')?)
}

/// Tells each pair on a line.
pub fn pairs(out: &mut Vec<u8>, pairs: &[(Key, Scalar)]) -> io::Result<()> {
    for (key, value) in pairs {
        pair(out, "", key, value)?;
        out.push(b'\n')?;
    }
    Ok(())
}

/// Tells a word and the keys, a space before each.
pub fn keys(out: &mut Vec<u8>, word: &str, keys: &[Key]) -> io::Result<()> {
    write!(out, "{word}")?;
    for key in keys {
        write!(out, " {}", key.print()?.as_str())?;
    }
    Ok(out.push(b'\n')?)
}

/// Tells a fault, and where it is.
pub fn fault<K: Debug + Drop>(out: &mut Vec<u8>, kind: K, at: &Text) -> io::Result<()> {
    writeln!(out, "{kind:?} {}", at.as_str())
}
