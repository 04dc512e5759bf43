//! The segment at the head of a text.
ghost use Rattle.std.specs.Prelude.{◌≡◌, ◌≢◌, ◌<◌, ◌≤◌, ◌+◌, ◌∷◌, ◌↔◌, length, slice_index, IsTrue, IfOk, IfErr};
ghost use Rattle.key_names.specs.Faults.{FaultAt};
ghost use Rattle.key_names.specs.Joined.{Ends};
ghost use Rattle.key_names.specs.Reading.{IsHead};

use crate::characters::{bare_len, quotable_len};
use crate::{KeyError, KeyFault};

/// A segment, and the length of its spelling at the head of a text.
#[derive(Clone, Copy)]
pub struct Head<'a> {
    /// The segment's bytes, a part of the text.
    pub segment: &'a [u8],
    /// The length of its spelling: of the segment, and of the quotes where it has them.
    pub len: usize,
}

// Whether a segment ends here.
fn ends(text: &[u8]) -> bool
    ensures { IsTrue result ↔ Ends 46 text.now }
{
    match text.first() {
        None => true,
        Some(b) => *b == b'.',
    }
}

// The bare segment at the head of a text that does not begin with a quote.
fn bare_head(text: &[u8]) -> Result<Head<'_>, KeyError>
    requires { slice_index text.now 0 ≢ 34 }
    ensures ok { IfOk result (λ head. IsHead text.now head.segment.now head.len) }
    ensures within { IfOk result (λ head. head.len ≤ length text.now) }
    ensures refused { IfErr result (λ e. FaultAt text.now e.kind e.place) }
    ensures place { IfErr result (λ e. e.place ≤ length text.now) }
{
    let len = bare_len(text);
    let (segment, rest) = text.split_at(len);
    if !ends(rest) {
        return Err(KeyError {
            kind: KeyFault::BadByte,
            place: len,
        });
    }
    if len == 0 {
        return Err(KeyError {
            kind: KeyFault::Empty,
            place: 0,
        });
    }
    Ok(Head { segment, len })
}

// The segment after an opening quote.
fn quoted_head(inside: &[u8]) -> Result<Head<'_>, KeyError>
    ensures ok { IfOk result (λ head. IsHead (34 ∷ inside.now) head.segment.now head.len) }
    ensures within { IfOk result (λ head. head.len ≤ length inside.now + 1) }
    ensures refused { IfErr result (λ e. FaultAt (34 ∷ inside.now) e.kind e.place) }
    ensures place { IfErr result (λ e. e.place ≤ length inside.now + 1) }
{
    let len = quotable_len(inside);
    let (segment, rest) = inside.split_at(len);
    let Some((closing, behind)) = rest.split_first() else {
        return Err(KeyError {
            kind: KeyFault::Unclosed,
            place: 0,
        });
    };
    if *closing != b'"' {
        return Err(KeyError {
            kind: KeyFault::BadByte,
            place: len + 1,
        });
    }
    if len == 0 {
        return Err(KeyError {
            kind: KeyFault::Empty,
            place: 0,
        });
    }
    if !ends(behind) {
        return Err(KeyError {
            kind: KeyFault::BadByte,
            place: len + 2,
        });
    }
    Ok(Head {
        segment,
        len: len + 2,
    })
}

/// The segment at the head of a text, up to a dot or the text's end, or why none is there.
pub fn head_of(text: &[u8]) -> Result<Head<'_>, KeyError>
    ensures ok { IfOk result (λ head. IsHead text.now head.segment.now head.len) }
    ensures within { IfOk result (λ head. head.len ≤ length text.now) }
    ensures refused { IfErr result (λ e. FaultAt text.now e.kind e.place) }
    ensures place { IfErr result (λ e. e.place ≤ length text.now) }
{
    let Some((first, inside)) = text.split_first() else {
        return Err(KeyError {
            kind: KeyFault::Empty,
            place: 0,
        });
    };
    if *first == b'"' {
        quoted_head(inside)
    } else {
        bare_head(text)
    }
}
