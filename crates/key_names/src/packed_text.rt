//! Segments as one text, with a zero byte between two, which no segment has. As that byte is below all others, lists of
//! segments are ordered as their texts.
ghost use Rattle.std.specs.Prelude.{◌≡◌, ◌<◌, ◌≤◌, ◌==◌, slice_index_or, ◌++◌, ◌∷◌, [], length, string_bytes, IfOk, IfSome, OnOk, MatchOption, IsTrue};
ghost use Rattle.std.specs.List.{count_by, position};
ghost use Rattle.key_names.specs.Segment.{is_segment};
ghost use Rattle.key_names.specs.Packed.{parts, segments_of, longer};

use crate::Text;
use std::alloc::{AllocError, Global};

// The place of the first zero byte.
fn zero_in(bytes: &[u8]) -> Option<usize>
    ensures value { result ≡ position (λ b. b == 0) bytes.now }
    ensures bound { IfSome result (λ at. at < length bytes.now) }
{
    bytes.iter().position(|b| *b == 0)
}

/// The first part of a text, and what comes after the zero byte at its end; None of a text of one part. It takes no
/// memory.
pub fn cut(text: &str) -> Option<(&str, &str)>
    ensures parts { MatchOption result (parts text.now ≡ text.now ∷ [])
        (λ p. parts text.now ≡ p.0.now ∷ parts p.1.now) }
    ensures shorter { IfSome result (λ p. length p.1.now < length text.now) }
{
    let at = zero_in(text.as_bytes())?;
    // a zero byte is a character of its own, so the text may be cut on both its sides
    Some((&text[..at], &text[at + 1..]))
}

fn zeros(text: &str) -> usize
    ensures value { result ≡ count_by (λ b. b == 0) text.now }
    ensures bound { result ≤ length text.now }
{
    text.as_bytes().iter().filter(|b| **b == 0).count()
}

/// How many segments the text has. It takes one pass and no memory.
pub fn count(text: &str) -> usize
    ensures { result ≡ length (segments_of text.now) }
{
    if text.is_empty() {
        return 0;
    }
    zeros(text) + 1
}

/// The segment at this index, counted from 0. It costs the text before it, and no memory.
pub fn segment_at(text: &str, index: usize) -> &str
    requires { index < length (segments_of text.now) }
    ensures { result.now ≡ slice_index_or (segments_of text.now) index [] }
{
    let mut left = index;
    let mut rest = text;
    while let Some((front, back)) = cut(rest) {
        if left == 0 {
            return front;
        }
        left -= 1;
        rest = back;
    }
    rest
}

// A segment's bytes are ASCII, so they are text.
fn text_of(segment: &[u8]) -> &str
    requires { IsTrue (is_segment segment.now) }
    ensures { result.now ≡ segment.now }
{
    std::str::from_utf8(segment).unwrap()
}

fn push_longer(text: &mut String, segment: &str) -> Result<(), AllocError>
    ensures { OnOk result (string_bytes text.new ≡ longer (string_bytes text.old) segment.now) }
{
    if !text.is_empty() {
        text.push('\0')?;
    }
    text.push_str(segment)
}

/// Adds the segment after those of the text. The only error is out of memory.
pub fn push(text: &mut String, segment: &[u8]) -> Result<(), AllocError>
    requires { IsTrue (is_segment segment.now) }
    ensures { OnOk result (string_bytes text.new ≡ longer (string_bytes text.old) segment.now) }
{
    push_longer(text, text_of(segment))
}

/// The segments of the text and one after them. The only error is out of memory.
pub fn with_segment(alloc: Global, text: &str, segment: &[u8]) -> Result<Text, AllocError>
    requires { IsTrue (is_segment segment.now) }
    ensures { IfOk result (λ more. segments_of more ≡ segments_of text.now ++ segment.now ∷ []) }
{
    let capacity = text.len().saturating_add(segment.len()).saturating_add(1);
    let mut more = String::with_capacity(alloc, capacity)?;
    more.push_str(text)?;
    push(&mut more, segment)?;
    Ok(Text::of(more))
}
