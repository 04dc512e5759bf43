//! Type words that are no lists.
ghost use Rattle.std.specs.Prelude.{◌≡◌, IfOk};
ghost use Rattle.typed_settings.specs.Takes.{takes_bool, takes_int, takes_text};

use crate::choices::Choices;
use crate::texts::{is_base64, is_identifier, is_line, is_version};
use std::alloc::{AllocError, Global};

/// What a single value is to be.
#[derive(Debug, Drop)]
pub enum ItemWord {
    /// `bool`: a truth value.
    Bool,
    /// `int LOW HIGH`: a number from the first bound to the second, both included.
    Int(i64, i64),
    /// `text`: any text.
    Text,
    /// `line`: a text without line feed and carriage return.
    Line,
    /// `identifier`: a text of the form of a metadata name, which is 1 to 127 bare characters.
    Identifier,
    /// `base64`: padded standard base64 of RFC 4648.
    Base64,
    /// `version`: three numbers, as SemVer 2.0.0 reads them.
    Version,
    /// `choice a|b|c`: one of the names.
    Choice(Choices),
}

impl ItemWord {
    /// Whether the word takes truth values. It takes no memory.
    pub(crate) fn takes_bool(&self) -> bool
        ensures { result ≡ takes_bool self.now }
    {
        match self {
            ItemWord::Bool => true,
            _ => false,
        }
    }

    /// Whether the word takes this number. It takes no memory.
    pub(crate) fn takes_int(&self, n: i64) -> bool
        ensures { result ≡ takes_int self.now n }
    {
        match self {
            ItemWord::Int(low, high) => *low <= n && n <= *high,
            _ => false,
        }
    }

    /// Whether the word takes this text. The only error is out of memory, at `base64` alone. It takes
    /// time linear in the text, and at `choice` in the number of names.
    pub(crate) fn takes_text(&self, alloc: Global, text: &str) -> Result<bool, AllocError>
        ensures { IfOk result (λ answer. answer ≡ takes_text self.now text.now) }
    {
        match self {
            ItemWord::Text => Ok(true),
            ItemWord::Line => Ok(is_line(text.as_bytes())),
            ItemWord::Identifier => Ok(is_identifier(text.as_bytes())),
            ItemWord::Base64 => is_base64(alloc, text.as_bytes()),
            ItemWord::Version => Ok(is_version(alloc, text)),
            ItemWord::Choice(names) => Ok(names.contains(text)),
            _ => Ok(false),
        }
    }
}
