//! The bytes of the texts next to a tag that the tag takes.
ghost use Rattle.std.specs.Prelude.{◌≡◌, ◌≤◌, ◌==◌, ◌||◌, ◌∷◌, [], length, IfSome, Some};
ghost use Rattle.std.specs.List.{prefix_len, suffix_len};
ghost use Rattle.template_reader.specs.Bytes.{is_space, is_blank, ends};
ghost use Rattle.template_reader.specs.Taken.{line_front, line_end, line_rest, may_be_alone, alone, tag_takes_before, tag_takes_after};

use crate::scan::{more, tail};
use crate::tag::{Form, Tag};
use crate::words::is_space;

fn is_blank(byte: u8) -> bool
    ensures { result ≡ is_blank byte }
{
    byte == b' ' || byte == b'\t'
}

fn blanks_first(bytes: &[u8]) -> usize
    ensures value { result ≡ prefix_len is_blank bytes.now }
    ensures bound { result ≤ length bytes.now }
{
    let mut n = 0;
    while n < bytes.len() && is_blank(bytes[n]) {
        n += 1;
    }
    n
}

fn spaces_first(bytes: &[u8]) -> usize
    ensures value { result ≡ prefix_len is_space bytes.now }
    ensures bound { result ≤ length bytes.now }
{
    let mut n = 0;
    while n < bytes.len() && is_space(bytes[n]) {
        n += 1;
    }
    n
}

fn blanks_last(bytes: &[u8]) -> usize
    ensures value { result ≡ suffix_len is_blank bytes.now }
    ensures bound { result ≤ length bytes.now }
{
    let mut n = bytes.len();
    while n > 0 && is_blank(bytes[n - 1]) {
        n -= 1;
    }
    bytes.len() - n
}

fn spaces_last(bytes: &[u8]) -> usize
    ensures value { result ≡ suffix_len is_space bytes.now }
    ensures bound { result ≤ length bytes.now }
{
    let mut n = bytes.len();
    while n > 0 && is_space(bytes[n - 1]) {
        n -= 1;
    }
    bytes.len() - n
}

// How many bytes the line's end at the start has.
#[tactic(auto, unfolding(crate::specs::Taken::line_end))]
fn line_end(bytes: &[u8]) -> Option<usize>
    ensures value { result ≡ line_end bytes.now }
    ensures bound { IfSome result (λ n. n ≤ length bytes.now) }
{
    if bytes.is_empty() {
        Some(0)
    } else if bytes.starts_with(b"\n") {
        Some(1)
    } else if bytes.starts_with(b"\r\n") {
        Some(2)
    } else {
        None
    }
}

// The spaces and tabs at the start, and the line's end after them.
#[tactic(auto, unfolding(crate::specs::Taken::line_rest))]
fn line_rest(after: &[u8]) -> Option<usize>
    ensures value { result ≡ line_rest after.now }
    ensures bound { IfSome result (λ n. n ≤ length after.now) }
{
    let n = blanks_first(after);
    more(n, line_end(tail(after, n)))
}

// No byte is before the line, or an LF is.
fn starts_line(front: &[u8]) -> bool
    ensures { result ≡ (length front.now == 0 || ends front.now (10 ∷ [])) }
{
    front.is_empty() || front.ends_with(b"\n")
}

// The spaces and tabs from the start of the line on, where nothing else is there. It looks no
// farther back than they go, so that many tags of one line are read in one pass.
fn line_front(before: &[u8]) -> Option<usize>
    ensures value { result ≡ line_front before.now }
    ensures bound { IfSome result (λ n. n ≤ length before.now) }
{
    let n = blanks_last(before);
    let front = before.split_at(before.len() - n).0;
    if starts_line(front) { Some(n) } else { None }
}

fn may_be_alone(form: &Form) -> bool
    ensures { result ≡ may_be_alone form.now }
{
    match form {
        Form::Comment => true,
        Form::Print { .. } => false,
        Form::Begin { .. } => true,
        Form::Otherwise => true,
        Form::Finish { .. } => true,
    }
}

// What a tag takes before it and after it where it is alone on its line.
#[tactic(auto, unfolding(crate::specs::Taken::alone))]
fn alone(tag: &Tag, before: &[u8], after: &[u8]) -> Option<(usize, usize)>
    ensures value { result ≡ alone tag.now before.now after.now }
    ensures bound { IfSome result (λ n. (n.0 ≤ length before.now) × (n.1 ≤ length after.now)) }
{
    if !may_be_alone(&tag.form) {
        return None;
    }
    let front = line_front(before)?;
    let rest = line_rest(after)?;
    Some((front, rest))
}

/// How many bytes a tag takes before it, and how many after it.
#[tactic(auto, unfolding(crate::specs::Taken::tag_takes_before, crate::specs::Taken::tag_takes_after))]
pub fn taken(tag: &Tag, before: &[u8], after: &[u8]) -> (usize, usize)
    ensures before { result.0 ≡ tag_takes_before (Some tag.now) before.now after.now }
    ensures after { result.1 ≡ tag_takes_after (Some tag.now) before.now after.now }
    ensures in_before { result.0 ≤ length before.now }
    ensures in_after { result.1 ≤ length after.now }
{
    let (front, rest) = alone(tag, before, after).unwrap_or((0, 0));
    let trimmed = if tag.front { spaces_last(before) } else { 0 };
    let trimmed_after = if tag.back { spaces_first(after) } else { 0 };
    (front.max(trimmed), rest.max(trimmed_after))
}
