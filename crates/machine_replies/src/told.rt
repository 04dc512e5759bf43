//! What is replied.
use api_http::{Reply, print_answer, print_text};
use key_names::{Bytes, Text};
use machine_answers::Answer;
use settings_machine::Refusal;
use std::alloc::{AllocError, Global};

/// What is replied where the disk serves.
#[derive(Debug, Drop)]
pub enum Told {
    /// This text.
    Said(Text),
    /// A file with these bytes.
    File(Bytes),
    /// It was done, and there is nothing to tell.
    Empty,
    /// It was refused.
    Refused(Refusal),
}

impl Told {
    /// The reply, as the server prints it. The only error is out of memory.
    pub fn reply(self, alloc: Global) -> Result<Reply, AllocError> {
        match self {
            Told::Said(text) => print_text(alloc, &text),
            Told::File(bytes) => print_answer(alloc, &Answer::File(bytes)),
            Told::Empty => print_answer(alloc, &Answer::Empty),
            Told::Refused(refusal) => print_answer(alloc, &Answer::Refused(refusal)),
        }
    }
}
