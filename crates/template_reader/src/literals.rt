//! Texts and literals, read from words.
ghost use Rattle.std.specs.Prelude.{◌≡◌, ◌≤◌, ◌&&◌, nat_le, length, codes, IsTrue, IfOk, string_bytes};
ghost use Rattle.std.specs.List.{list_all};
ghost use Rattle.key_names.specs.Segment.{is_quotable};
ghost use Rattle.template_reader.specs.Bytes.{begins, ends};
ghost use Rattle.template_reader.specs.Says.{text_of, integer_of, literal_of, fails_of};

use crate::Literal;
use crate::scan::tail;
use crate::words::is_same;
use key_names::{Text, are_quotable};
use std::alloc::{AllocError, Global};

// Double quotes are at both ends.
fn is_quoted(word: &[u8]) -> bool
    ensures value { result ≡ (nat_le 2 (length word.now) && begins word.now (codes "\"") && ends word.now (codes "\"")) }
    ensures bound { IsTrue result → 2 ≤ length word.now }
{
    word.len() >= 2 && word.starts_with(b"\"") && word.ends_with(b"\"")
}

// Quotable bytes are ASCII, so they are text.
fn quotable_text(alloc: Global, bytes: &[u8]) -> Result<Text, AllocError>
    requires { IsTrue (list_all is_quotable bytes.now) }
    ensures { IfOk result (λ text. text ≡ bytes.now) }
{
    Text::from_str(alloc, str::from_utf8(bytes).unwrap())
}

/// The text that the word is, if it is one: printable ASCII in double quotes. The only error is out of
/// memory.
#[tactic(auto, unfolding(crate::specs::Says::text_of))]
pub fn read_text(alloc: Global, word: &[u8]) -> Result<Option<Text>, AllocError>
    ensures { IfOk result (λ o. o ≡ text_of word.now) }
{
    if !is_quoted(word) {
        return Ok(None);
    }
    let inner = tail(word, 1).split_at(word.len() - 2).0;
    if !are_quotable(inner) {
        return Ok(None);
    }
    Ok(Some(quotable_text(alloc, inner)?))
}

// The integer that the word is, if it is one: digits, maybe after a `-`.
fn read_integer(word: &[u8]) -> Option<i64>
    ensures { result ≡ integer_of word.now }
{
    if word.starts_with(b"+") {
        return None;
    }
    match str::from_utf8(word) {
        Ok(text) => text.parse::<i64>().ok(),
        Err(_) => None,
    }
}

/// The literal that the word is, if it is one. The only error is out of memory.
#[tactic(auto, unfolding(crate::specs::Says::literal_of))]
pub fn read_literal(alloc: Global, word: &[u8]) -> Result<Option<Literal>, AllocError>
    ensures { IfOk result (λ o. o ≡ literal_of word.now) }
{
    if is_same(word, b"true") {
        return Ok(Some(Literal::Bool(true)));
    }
    if is_same(word, b"false") {
        return Ok(Some(Literal::Bool(false)));
    }
    if let Some(number) = read_integer(word) {
        return Ok(Some(Literal::Int(number)));
    }
    match read_text(alloc, word)? {
        Some(text) => Ok(Some(Literal::Text(text))),
        None => Ok(None),
    }
}

/// Whether the word says that something must be at the path, or that nothing need.
pub fn read_fails(word: &[u8]) -> Option<bool>
    ensures { result ≡ fails_of word.now }
{
    if is_same(word, b"\"fail-if-missing\"") {
        Some(true)
    } else if is_same(word, b"\"no-fail-if-missing\"") {
        Some(false)
    } else {
        None
    }
}
