//! What comes next: a question, or the end.
use key_names::Bytes;

/// A question to the server.
#[derive(Debug, Drop)]
pub struct Question {
    /// Its method, as `GET`.
    pub method: Bytes,
    /// Its target, as `/settings`.
    pub target: Bytes,
    /// Its body, if it has one.
    pub body: Option<Bytes>,
}

/// How it ends.
#[derive(Debug, Drop)]
pub struct Ending {
    /// The exit status.
    pub status: u8,
    /// What is printed.
    pub line: Bytes,
}

/// What comes next.
#[derive(Debug, Drop)]
pub enum Step {
    /// This is asked.
    Ask {
        /// The question.
        question: Question,
    },
    /// It ends.
    End {
        /// How.
        ending: Ending,
    },
}
