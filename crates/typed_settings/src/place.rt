//! The places of a pattern.
ghost use Rattle.std.specs.Prelude.{◌≡◌, ◌↔◌, IsTrue, length};
ghost use Rattle.typed_settings.specs.Order.{rank, cell, place_to, plain_cmp};
ghost use Rattle.typed_settings.specs.Pattern.{Fits, Agree, printed_place};

use key_names::{Bytes, are_bare};
use std::cmp::Ordering;

/// A place of a pattern.
#[derive(Debug, Drop)]
pub enum Place {
    /// A bare `*`: it fits any segment.
    Any,
    /// A segment: it fits this one alone.
    Plain(Bytes),
}

impl Place {
    /// Whether the segment may be here. It takes no memory.
    pub(crate) fn fits(&self, segment: &[u8]) -> bool
        ensures { IsTrue result ↔ Fits self.now segment.now }
    {
        match self {
            Place::Any => true,
            Place::Plain(own) => own.as_slice() == segment,
        }
    }

    /// Whether some segment may be at both places. It takes no memory.
    pub(crate) fn agrees(&self, other: &Place) -> bool
        ensures { IsTrue result ↔ Agree self.now other.now }
    {
        match (self, other) {
            (Place::Plain(own), Place::Plain(others)) => own.as_slice() == others.as_slice(),
            _ => true,
        }
    }

    /// The length of the place as it is printed. It takes no memory.
    pub(crate) fn printed_len(&self) -> usize
        ensures { result ≡ length (printed_place self.now) }
    {
        match self {
            Place::Any => 1,
            Place::Plain(segment) if are_bare(segment.as_slice()) => segment.as_slice().len(),
            Place::Plain(segment) => segment.as_slice().len() + 2,
        }
    }

    /// 0 for a `*` and 1 for a segment. It takes no memory.
    pub(crate) fn rank(&self) -> u8
        ensures { result ≡ rank self.now }
    {
        match self {
            Place::Any => 0,
            Place::Plain(_) => 1,
        }
    }

    /// The bytes of a segment, and none of a `*`. It takes no memory.
    pub(crate) fn cell(&self) -> &[u8]
        ensures { result.now ≡ cell self.now }
    {
        match self {
            Place::Any => b"".as_slice(),
            Place::Plain(own) => own.as_slice(),
        }
    }

    /// How the place compares to the segment by its bytes: a `*` fits it. It takes no memory.
    pub(crate) fn order_to(&self, segment: &[u8]) -> Ordering
        ensures { result ≡ place_to self.now segment.now }
    {
        match self {
            Place::Any => Ordering::Equal,
            Place::Plain(own) => own.as_slice().cmp(segment),
        }
    }

    /// Compares two segments, or two `*`s, which are the same; `None` where one is a `*` alone. It takes
    /// no memory.
    pub(crate) fn plain_cmp(&self, other: &Place) -> Option<Ordering>
        ensures { result ≡ plain_cmp self.now other.now }
    {
        match (self, other) {
            (Place::Any, Place::Any) => Some(Ordering::Equal),
            (Place::Plain(own), Place::Plain(others)) => Some(
                own.as_slice().cmp(others.as_slice()),
            ),
            _ => None,
        }
    }
}
