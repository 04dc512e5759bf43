//! Names, and rising lists of keys as sets.
use crate::lines::keys;
use row_files::{bad, key_of, keys_of, line, parts};
use settings_maps::{KeyList, TxName, is_meta_name};
use std::alloc::Global;
use std::io::{self, Write};

/// Tells what the bytes may name.
pub fn names(out: &mut Vec<u8>, name: &[u8]) -> io::Result<()> {
    let tx = TxName::read(*out.allocator(), name)?;
    let is_tx = tx.is_some_and(|tx| tx.as_str().as_bytes() == name);
    let tx = if is_tx { "a" } else { "no" };
    let meta = if is_meta_name(name) { "" } else { "no " };
    writeln!(out, "{tx} transaction, {meta}metadata")
}

// The set of the keys that the text lists: an empty one where they do not rise.
fn set_of(alloc: Global, text: &str) -> io::Result<KeyList> {
    let keys = keys_of(alloc, text)?;
    if KeyList::rise(&keys) {
        return Ok(KeyList::of(keys));
    }
    Ok(KeyList::new(alloc))
}

// Tells a copy of the set.
fn told(out: &mut Vec<u8>, set: &KeyList) -> io::Result<()> {
    keys(out, "keys", &set.copy()?.into_keys())
}

/// Tells what the row of this word comes to: of a key that is removed whether the set had and has it, and what is left.
pub fn tell(out: &mut Vec<u8>, word: &str, text: &str) -> io::Result<()> {
    let alloc = *out.allocator();
    let (one, two) = parts(text);
    let mut set = set_of(alloc, one)?;
    match word {
        "joined" => told(out, &set.joined(&set_of(alloc, two)?)?),
        "without" => told(out, &set.without(&set_of(alloc, two)?)?),
        "shares" => {
            let asked = keys_of(alloc, two)?;
            let share = match (set.contains_all(&asked), set.contains_any(&asked)) {
                (true, _) => "all",
                (_, true) => "some",
                _ => "none",
            };
            line(out, &[share])
        }
        "removed" => {
            let key = key_of(alloc, two)?;
            write!(out, "{} ", set.contains(&key))?;
            set.remove(&key);
            write!(out, "{}", set.contains(&key))?;
            keys(out, "", &set.copy()?.into_keys())
        }
        _ => Err(bad()),
    }
}
