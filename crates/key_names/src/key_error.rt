//! Why a text or a segment is no key.

use std::alloc::{AllocError, AllocFailed};

/// What is wrong.
#[derive(Clone, Copy, Debug, PartialEq, Eq)]
pub enum KeyFault {
    /// A segment is wanted where the text ends, or where a dot or `""` is.
    Empty,
    /// A byte that can't be at its place.
    BadByte,
    /// A quote that is never closed.
    Unclosed,
    /// More than 32 segments.
    TooMany,
    /// A segment whose file name has more than 127 bytes.
    SegmentTooLong,
    /// A key whose printed text has more than 1,024 bytes.
    TooLong,
    /// Out of memory. It says nothing of the text, and nor does its place.
    Memory,
}

/// A fault, and the place of the byte in the text at which it is, counted from 0.
#[derive(Clone, Copy, Debug, PartialEq, Eq)]
pub struct KeyError {
    /// What is wrong.
    pub kind: KeyFault,
    /// Where it is wrong.
    pub place: usize,
}

impl From<AllocError> for KeyError {
    ghost use Rattle.std.specs.Prelude.{◌≡◌};
    ghost use Rattle.key_names.specs.KeyError.{want_of_memory};

    ghost from_gives = { λ _ e. e ≡ want_of_memory };

    fn from(_: AllocError) -> Self {
        KeyError {
            kind: KeyFault::Memory,
            place: 0,
        }
    }
}

impl<T: Drop> From<AllocFailed<T>> for KeyError {
    ghost use Rattle.std.specs.Prelude.{◌≡◌};
    ghost use Rattle.key_names.specs.KeyError.{want_of_memory};

    ghost from_gives = { λ _ e. e ≡ want_of_memory };

    fn from(_: AllocFailed<T>) -> Self {
        KeyError {
            kind: KeyFault::Memory,
            place: 0,
        }
    }
}
