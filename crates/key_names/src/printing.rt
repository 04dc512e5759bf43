//! The printed text of segments.
ghost use Rattle.std.specs.Prelude.{◌≡◌, ◌≤◌, ◌<◌, ◌+◌, ◌*◌, ◌++◌, ◌∷◌, IfOk, OnOk, IsTrue, length, string_bytes};
ghost use Rattle.std.specs.List.{list_all, flat_map, sum_by};
ghost use Rattle.key_names.specs.Segment.{is_quotable, is_segment, printed_segment, has_short_name};
ghost use Rattle.key_names.specs.Packed.{parts, segments_of, has_bare_parts, dotted};
ghost use Rattle.key_names.specs.Key.{fits, printed};

use crate::characters::{are_bare, is_bare};
use crate::packed_text::cut;
use std::alloc::{AllocError, Global};

fn push_segment(text: &mut String, segment: &str) -> Result<(), AllocError>
    ensures { OnOk result (string_bytes text.new ≡ string_bytes text.old ++ printed_segment segment.now) }
{
    if are_bare(segment.as_bytes()) {
        text.push_str(segment)
    } else {
        text.push('"')?;
        text.push_str(segment)?;
        text.push('"')
    }
}

// A dot for a zero byte, and else the byte itself.
fn dotted(b: u8) -> u8
    ensures { result ≡ dotted b }
{
    if b == 0 { b'.' } else { b }
}

// Whether the text has no other bytes than bare characters, and zero bytes between its parts.
fn has_bare_parts(text: &str) -> bool
    ensures { result ≡ has_bare_parts text.now }
{
    text.as_bytes().iter().all(|b| *b == 0 || is_bare(*b))
}

// The bare parts of a text, joined by dots: its bytes with a dot for each zero byte.
fn bare_printed(alloc: Global, text: &str) -> Result<String, AllocError>
    requires { IsTrue (has_bare_parts text.now) }
    ensures { IfOk result (λ out. string_bytes out ≡ printed (parts text.now)) }
{
    let mut bytes = text.as_bytes().to_vec(alloc)?;
    for b in bytes.iter_mut() {
        *b = dotted(*b);
    }
    // bare characters and dots are ASCII
    Ok(String::from_utf8(bytes).unwrap())
}

// The printed parts of a text, joined by dots, one after another.
fn each_printed(alloc: Global, text: &str) -> Result<String, AllocError>
    ensures { IfOk result (λ out. string_bytes out ≡ printed (parts text.now)) }
{
    // so long, where none is in quotes
    let mut out = String::with_capacity(alloc, text.len())?;
    let mut rest = text;
    while let Some((front, back)) = cut(rest) {
        push_segment(&mut out, front)?;
        out.push('.')?;
        rest = back;
    }
    push_segment(&mut out, rest)?;
    Ok(out)
}

/// The printed parts of a text, joined by dots. The only error is out of memory.
pub fn printed(alloc: Global, text: &str) -> Result<String, AllocError>
    ensures { IfOk result (λ out. string_bytes out ≡ printed (parts text.now)) }
{
    if has_bare_parts(text) {
        bare_printed(alloc, text)
    } else {
        each_printed(alloc, text)
    }
}

/// The length of the printed segment.
pub fn printed_segment_len(segment: &[u8]) -> usize
    ensures { result ≡ length (printed_segment segment.now) }
{
    if are_bare(segment) {
        segment.len()
    } else {
        segment.len() + 2
    }
}

// The length of the printed segment and a dot, where the segment is short enough.
fn dotted_segment_len(segment: &str) -> usize
    requires { IsTrue (has_short_name segment.now) }
    ensures value { result ≡ length (printed_segment segment.now) + 1 }
    ensures bound { result ≤ 130 }
{
    printed_segment_len(segment.as_bytes()) + 1
}

fn dotted_parts_len(text: &str) -> usize
    requires few { length (parts text.now) ≤ 32 }
    requires short { IsTrue (list_all has_short_name (parts text.now)) }
    ensures value { result ≡ sum_by (λ s. length (printed_segment s) + 1) (parts text.now) }
    ensures bound { result ≤ 130 * 32 }
{
    let mut len = 0;
    let mut rest = text;
    while let Some((front, back)) = cut(rest) {
        len += dotted_segment_len(front);
        rest = back;
    }
    len + dotted_segment_len(rest)
}

/// The length of the printed segments of a text with a dot after each, where they are few and short enough.
pub fn dotted_len(text: &str) -> usize
    requires few { length (segments_of text.now) ≤ 32 }
    requires short { IsTrue (list_all has_short_name (segments_of text.now)) }
    ensures value { result ≡ sum_by (λ s. length (printed_segment s) + 1) (segments_of text.now) }
    ensures bound { result ≤ 130 * 32 }
{
    if text.is_empty() {
        return 0;
    }
    dotted_parts_len(text)
}

/// The length of the printed text of segments that are few and short enough.
pub fn printed_len(text: &str) -> usize
    requires some { 0 < length (segments_of text.now) }
    requires few { length (segments_of text.now) ≤ 32 }
    requires short { IsTrue (list_all has_short_name (segments_of text.now)) }
    ensures { result ≡ length (printed (segments_of text.now)) }
{
    // without the last dot
    dotted_len(text) - 1
}
