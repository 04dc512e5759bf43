//! The words of a tag.
ghost use Rattle.std.specs.Prelude.{◌≡◌, ◌≤◌, ◌&&◌, ◌++◌, ◌∷◌, [], length, map, filter, not, false, IfOk, OnOk};
ghost use Rattle.std.specs.Str.{bytes_eq};
ghost use Rattle.template_reader.specs.Bytes.{is_space};
ghost use Rattle.template_reader.specs.Words.{words, has_bytes, part_length};

use crate::scan::is_quoted_after;
use key_names::behind_first;
use std::alloc::{AllocError, Global};

/// Space, tab, LF or CR.
pub fn is_space(byte: u8) -> bool
    ensures { result ≡ is_space byte }
{
    byte == b' ' || byte == b'\t' || byte == b'\n' || byte == b'\r'
}

/// The word is this text.
pub fn is_same(word: &[u8], text: &[u8]) -> bool
    ensures { result ≡ bytes_eq word.now text.now }
{
    word == text
}

fn ends_word(byte: u8, quoted: bool) -> bool
    ensures { result ≡ (is_space byte && not quoted) }
{
    is_space(byte) && !quoted
}

// How many bytes are before the first white space outside double quotes.
fn word_length(bytes: &[u8]) -> usize
    ensures value { result ≡ part_length is_space false bytes.now }
    ensures bound { result ≤ length bytes.now }
{
    let mut quoted = false;
    for i in 0..bytes.len() {
        if ends_word(bytes[i], quoted) {
            return i;
        }
        quoted = is_quoted_after(quoted, bytes[i]);
    }
    bytes.len()
}

fn push_word<'a>(found: &mut Vec<&'a [u8]>, word: &'a [u8]) -> Result<(), AllocError>
    ensures { OnOk result (map (λ word. word.now) found.new.items ≡ map (λ word. word.now) found.old.items ++ filter has_bytes (word.now ∷ [])) }
{
    if word.is_empty() {
        return Ok(());
    }
    found.push(word)?;
    Ok(())
}

/// The words, which white space outside double quotes separates. The only error is out of memory.
pub fn words<'a>(alloc: Global, bytes: &'a [u8]) -> Result<Vec<&'a [u8]>, AllocError>
    ensures { IfOk result (λ v. map (λ word. word.now) v.items ≡ words bytes.now) }
{
    let mut found = Vec::new(alloc);
    let mut rest = bytes;
    while !rest.is_empty() {
        let (word, behind) = rest.split_at(word_length(rest));
        push_word(&mut found, word)?;
        rest = behind_first(behind);
    }
    Ok(found)
}
