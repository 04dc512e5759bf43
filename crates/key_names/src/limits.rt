//! The limits of keys.
ghost use Rattle.std.specs.Prelude.{◌≡◌, ◌∷◌, ◌++◌, [], IsTrue, MatchOption};
ghost use Rattle.key_names.specs.Segment.{is_segment};
ghost use Rattle.key_names.specs.Key.{fits};
ghost use Rattle.key_names.specs.Faults.{Breaks, RefusesChild};
ghost use Rattle.key_names.specs.Packed.{segments_of};

use crate::characters::segment_fault;
use crate::file_names::has_short_name;
use crate::packed_text::count;
use crate::printing::{dotted_len, printed_segment_len};
use crate::{KeyError, KeyFault};

/// The most segments of a key.
pub const MAX_SEGMENTS: usize = 32;

/// The most bytes of a key's printed text.
pub const MAX_PRINTED: usize = 1024;

/// The first limit that the segments of the text would break with one more, if any.
fn child_limit(text: &str, segment: &[u8]) -> Option<KeyFault>
    requires { IsTrue (fits (segments_of text.now)) }
    ensures { MatchOption result (IsTrue (fits (segments_of text.now ++ segment.now ∷ [])))
        (Breaks (segments_of text.now ++ segment.now ∷ [])) }
{
    if count(text) >= MAX_SEGMENTS {
        return Some(KeyFault::TooMany);
    }
    if !has_short_name(segment) {
        return Some(KeyFault::SegmentTooLong);
    }
    if dotted_len(text) + printed_segment_len(segment) > MAX_PRINTED {
        return Some(KeyFault::TooLong);
    }
    None
}

/// Why the segments of the text, which fit, are no key with one more, if so.
pub fn child_fault(text: &str, segment: &[u8]) -> Option<KeyError>
    requires { IsTrue (fits (segments_of text.now)) }
    ensures { MatchOption result
        (IsTrue (is_segment segment.now) × IsTrue (fits (segments_of text.now ++ segment.now ∷ [])))
        (λ e. RefusesChild (segments_of text.now) segment.now e.kind e.place) }
{
    if let Some(fault) = segment_fault(segment) {
        return Some(fault);
    }
    match child_limit(text, segment) {
        Some(kind) => Some(KeyError { kind, place: 0 }),
        None => None,
    }
}
