//! What reading bytes as a request answers.

use crate::Refusal;
use settings_machine::Request;

/// What some bytes are, read as a request.
#[derive(Debug, Drop)]
pub enum Reading {
    /// The bytes begin with a whole request.
    Whole {
        /// Which it is.
        request: Request,
        /// How many bytes it has; the bytes after them are no part of it.
        length: usize,
    },
    /// More bytes may make a whole request, or show why it is refused.
    NotYet,
    /// Neither these bytes nor any that begin with them are a whole request.
    Refused {
        /// The first cause that the bytes show.
        refusal: Refusal,
    },
}
