//! What migrations of their words make of what is held.
use crate::held::{held_of, print};
use crate::lines::scalar_of;
use key_names::{Key, Text};
use migrate_helpers::{MapError, Mapping, Migration};
use row_files::{Given, bad, key_of, keys_of, line, text_of};
use std::alloc::{AllocError, Global};
use std::io;

// The text as the only name.
fn name(alloc: Global, name: &str) -> Result<Vec<Text>, AllocError> {
    Ok(vec![in alloc; Text::from_str(alloc, name)?]?)
}

// The pairs of keys, one key after another.
fn pairs(alloc: Global, words: &[&str]) -> io::Result<Vec<(Key, Key)>> {
    let mut pairs = Vec::new(alloc);
    for pair in words.chunks(2) {
        let [from, to] = pair else {
            return Err(bad());
        };
        pairs.push((key_of(alloc, from)?, key_of(alloc, to)?))?;
    }
    Ok(pairs)
}

// The migration of one key, of its kind and the words after the key.
fn of_key(alloc: Global, kind: &str, key: Key, words: &[&str]) -> io::Result<Migration> {
    Ok(match (kind, words) {
        ("replace-string", [old, new]) => Migration::ReplaceString {
            setting: key,
            old: Text::from_str(alloc, old)?,
            new: Text::from_str(alloc, new)?,
        },
        ("add-metadata", [one]) => Migration::AddMetadata {
            key,
            names: name(alloc, one)?,
        },
        ("remove-metadata", [one]) => Migration::RemoveMetadata {
            key,
            names: name(alloc, one)?,
        },
        ("replace-metadata", [one, old, new]) => Migration::ReplaceMetadata {
            key,
            name: Text::from_str(alloc, one)?,
            old: scalar_of(alloc, old)?,
            new: scalar_of(alloc, new)?,
        },
        _ => return Err(bad()),
    })
}

// The migration of the kind and the words that it has.
fn migration_of(alloc: Global, kind: &str, words: &[&str]) -> io::Result<Migration> {
    match (kind, words) {
        ("no-op", []) => Ok(Migration::NoOp),
        ("remove-weak", []) => Ok(Migration::RemoveWeak),
        ("rename-settings", words) => Ok(Migration::RenameSettings {
            pairs: pairs(alloc, words)?,
        }),
        ("add-settings", [list]) => Ok(Migration::AddSettings {
            settings: keys_of(alloc, list)?,
        }),
        ("add-prefixes", [list]) => Ok(Migration::AddPrefixes {
            prefixes: keys_of(alloc, list)?,
        }),
        ("remove-settings", [list]) => Ok(Migration::RemoveSettings {
            settings: keys_of(alloc, list)?,
        }),
        (kind, words) => {
            let (key, words) = words.split_first().ok_or(bad())?;
            of_key(alloc, kind, key_of(alloc, key)?, words)
        }
    }
}

// The migration that the words spell.
fn read(alloc: Global, text: &str) -> io::Result<Migration> {
    let mut words = Vec::new(alloc);
    for word in text.split(' ') {
        words.push(word)?;
    }
    let (kind, words) = words.split_first().ok_or(bad())?;
    migration_of(alloc, kind, words)
}

/// Tells what the migration of the words makes of what is held, on the way that the word names. The way back is gone by a copy.
pub fn tell(out: &mut Vec<u8>, given: Given<'_>) -> io::Result<()> {
    let alloc = *out.allocator();
    let migration = read(alloc, given.words()?)?;
    let held = held_of(alloc, text_of(given.below())?)?;
    let made = match given.word {
        "forward" => migration.forward(&held),
        _ => migration.copy()?.backward(&held),
    };
    match made {
        Ok(held) => print(out, &held),
        Err(MapError::Conflict { key }) => {
            let key = key.print()?;
            line(out, &["conflict", key.as_str()])
        }
        Err(MapError::Memory) => line(out, &["memory"]),
    }
}
