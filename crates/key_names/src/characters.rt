//! The bytes of which segments are made.
ghost use Rattle.std.specs.Prelude.{◌≡◌, ◌≤◌, length, IsTrue, MatchOption};
ghost use Rattle.std.specs.List.{list_all, prefix_len};
ghost use Rattle.key_names.specs.Segment.{is_bare, is_quotable, is_segment};
ghost use Rattle.key_names.specs.Faults.{SegmentFault};

use crate::{KeyError, KeyFault};

/// Whether the byte is a bare character: an ASCII letter or digit, `_` or `-`.
pub(crate) fn is_bare(b: u8) -> bool
    ensures { result ≡ is_bare b }
{
    b.is_ascii_alphanumeric() || b == b'_' || b == b'-'
}

/// Whether the byte is allowed in quotes: 0x20 to 0x7E other than `"`.
pub fn is_quotable(b: u8) -> bool
    ensures { result ≡ is_quotable b }
{
    32 <= b && b <= 126 && b != b'"'
}

/// Whether all of the bytes are bare characters.
pub fn are_bare(bytes: &[u8]) -> bool
    ensures { result ≡ list_all is_bare bytes.now }
{
    bytes.iter().all(|b| is_bare(*b))
}

/// How many bytes at the front are bare characters.
pub fn bare_len(bytes: &[u8]) -> usize
    ensures value { result ≡ prefix_len is_bare bytes.now }
    ensures bound { result ≤ length bytes.now }
{
    bytes.iter().take_while(|b| is_bare(**b)).count()
}

/// How many bytes at the front are allowed in quotes.
pub fn quotable_len(bytes: &[u8]) -> usize
    ensures value { result ≡ prefix_len is_quotable bytes.now }
    ensures bound { result ≤ length bytes.now }
{
    bytes.iter().take_while(|b| is_quotable(**b)).count()
}

/// Whether the bytes are a segment.
pub fn is_segment(bytes: &[u8]) -> bool
    ensures { result ≡ is_segment bytes.now }
{
    !bytes.is_empty() && are_quotable(bytes)
}

/// Whether each byte is allowed in a quoted segment. It takes no memory.
pub fn are_quotable(bytes: &[u8]) -> bool
    ensures { result ≡ list_all is_quotable bytes.now }
{
    bytes.iter().all(|b| is_quotable(*b))
}

/// Why the bytes are no segment, if they aren't: they are empty, or one is not allowed in quotes.
pub fn segment_fault(bytes: &[u8]) -> Option<KeyError>
    ensures { MatchOption result (IsTrue (is_segment bytes.now))
        (λ e. SegmentFault bytes.now e.kind e.place) }
{
    let len = quotable_len(bytes);
    if len < bytes.len() {
        Some(KeyError {
            kind: KeyFault::BadByte,
            place: len,
        })
    } else if bytes.is_empty() {
        Some(KeyError {
            kind: KeyFault::Empty,
            place: 0,
        })
    } else {
        None
    }
}
