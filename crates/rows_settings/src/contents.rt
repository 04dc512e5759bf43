//! Contents: what is where, and what may be put there.
use crate::lines::{pairs, scalar_of};
use key_names::Text;
use row_files::{key_of, keys_of, line, parts};
use settings_maps::is_meta_name;
use settings_tree::{Content, Scalar};
use std::io::{self, Write};

/// Tells what the content says: what is below a key, or whether keys may be weak.
pub fn tell(out: &mut Vec<u8>, content: &Content, word: &str, text: &str) -> io::Result<()> {
    let alloc = *out.allocator();
    match word {
        "below" => pairs(out, &content.below(&key_of(alloc, text)?)?),
        _ if content.may_be_weak(&keys_of(alloc, text)?) => line(out, &["may"]),
        _ => line(out, &["may not"]),
    }
}

// Tells what was taken, and whether something is there then.
fn told(out: &mut Vec<u8>, taken: Option<Scalar>, is_left: bool) -> io::Result<()> {
    match taken {
        Some(taken) => {
            let taken = taken.print(*out.allocator())?;
            writeln!(out, "{}, then {is_left}", taken.as_str())
        }
        None => line(out, &["none"]),
    }
}

/// Changes the content, where it may be changed so.
pub fn change(out: &mut Vec<u8>, content: &mut Content, word: &str, text: &str) -> io::Result<()> {
    let alloc = *out.allocator();
    let (key, rest) = parts(text);
    let (key, (name, json)) = (key_of(alloc, key)?, parts(rest));
    match word {
        "take" => {
            let taken = content.take(&key);
            told(out, taken, content.value(&key).is_some())
        }
        "take-meta" => {
            let taken = content.take_meta(&key, rest.as_bytes());
            told(out, taken, content.meta(&key, rest.as_bytes()).is_some())
        }
        "put-meta" if is_meta_name(name.as_bytes()) => {
            let (name, value) = (Text::from_str(alloc, name)?, scalar_of(alloc, json)?);
            Ok(content.put_meta(key, name, value)?)
        }
        "put-meta" => line(out, &["no name"]),
        _ if content.fits(&key) => Ok(content.put(key, scalar_of(alloc, rest)?)?),
        _ => line(out, &["no fit"]),
    }
}
