//! The file names under which segments are stored.
ghost use Rattle.std.specs.Prelude.{◌≡◌, ◌<◌, ◌≤◌, ◌⊎◌, ℕ, List, Ok, Some, None, IfOk, IfSome, sum_by, length};
ghost use Rattle.key_names.specs.Segment.{glyph, file_name, has_short_name, IsFileNameOf};

use crate::Bytes;
use crate::characters::{is_bare, is_segment};
use percent_encoding::{AsciiSet, NON_ALPHANUMERIC, ascii_set, percent_decode, percent_encode};
use std::alloc::{AllocError, Global};

/// The bytes that are escaped, of those in ASCII: all but bare characters.
const ESCAPED: AsciiSet = ascii_set!(NON_ALPHANUMERIC.remove(b'_').remove(b'-'));

/// The most bytes that a file name may have.
const MAX_NAME: usize = 127;

fn encoded(alloc: Global, segment: &[u8]) -> Result<Vec<u8>, AllocError>
    ensures { IfOk result (λ name. name.items ≡ file_name segment.now) }
{
    let mut text = String::new(alloc);
    percent_encode(segment, ESCAPED).append_to(&mut text)?;
    Ok(text.into_bytes())
}

/// The file name of a segment: each byte other than a bare character becomes `%` and two upper-case
/// hexadecimal digits, as in RFC 3986. The only error is out of memory.
pub fn file_name(alloc: Global, segment: &[u8]) -> Result<Bytes, AllocError>
    ensures { IfOk result (λ name. name ≡ file_name segment.now) }
{
    let name = encoded(alloc, segment)?;
    Ok(Bytes::of(name))
}

// The segment whose file name this is, if any.
fn segment_named(alloc: Global, name: &[u8]) -> Result<Option<Bytes>, AllocError>
    ensures some { IfOk result (λ o. IfSome o (IsFileNameOf name.now)) }
    ensures none { result ≡ Ok None → (segment : List ℕ) → ¬ IsFileNameOf name.now segment }
    ensures refused { (length name.now ≡ 0) ⊎ (127 < length name.now) → result ≡ Ok None }
{
    if name.is_empty() || name.len() > MAX_NAME {
        return Ok(None);
    }
    let mut segment = Vec::new(alloc);
    percent_decode(name).append_to(&mut segment)?;
    if !is_segment(segment.as_slice()) {
        return Ok(None);
    }
    let again = encoded(alloc, segment.as_slice())?;
    if again.as_slice() == name {
        Ok(Some(Bytes::of(segment)))
    } else {
        Ok(None)
    }
}

/// The segment whose file name this is, or `None` where the name has no or more than 127 bytes or is
/// no segment's file name: so where it has a broken escape, one in lower case, or one of a bare
/// character. The only error is out of memory.
pub fn of_file_name(alloc: Global, name: &[u8]) -> Result<Option<Bytes>, AllocError>
    ensures some { IfOk result (λ o. IfSome o (IsFileNameOf name.now)) }

    // So `Some` of exactly this segment, and `None` where there is none.
    ensures exact { (segment : List ℕ) → IsFileNameOf name.now segment
        → IfOk result (λ o. o ≡ Some segment) }

    // A name of a length that none has is refused before any memory is asked for.
    ensures refused { (length name.now ≡ 0) ⊎ (127 < length name.now) → result ≡ Ok None }
{
    segment_named(alloc, name)
}

#[tactic(auto, using(crate::proofs::FileNames::lengths))]
fn glyph_len(b: u8) -> usize
    ensures value { result ≡ length (glyph b) }
    ensures bound { result ≤ 3 }
{
    if is_bare(b) { 1 } else { 3 }
}

/// The length of the file name of a segment that is short enough.
fn name_len(segment: &[u8]) -> usize
    requires { length segment.now ≤ 127 }
    ensures { result ≡ sum_by (λ b. length (glyph b)) segment.now }
{
    segment.iter().map(|b| glyph_len(*b)).sum()
}

/// Whether the segment's file name has at most 127 bytes.
#[tactic(auto, using(crate::proofs::FileNames::lengths))]
pub fn has_short_name(segment: &[u8]) -> bool
    ensures { result ≡ has_short_name segment.now }
{
    segment.len() <= MAX_NAME && name_len(segment) <= MAX_NAME
}
