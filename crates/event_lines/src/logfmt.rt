//! Lines of a word and pairs, one after another.
ghost use Rattle.std.specs.Prelude.{◌≡◌, ◌++◌, ◌∷◌, [], true, false, IfOk, decimal};
ghost use Rattle.std.specs.List.{list_all};
ghost use Rattle.serde_json.specs.Data.{string};
ghost use Rattle.serde_json.specs.Written.{compact_text};
ghost use Rattle.event_lines.specs.Logfmt.{is_plain, value_text, pair_text};

use itoa::Buffer;
use json::Writer;
use key_names::Bytes;
use std::alloc::{AllocError, Global};
use std::marker::Model;

// Whether the byte may stand in a value without quotes.
fn is_plain(b: u8) -> bool
    ensures { result ≡ is_plain b }
{
    b.is_ascii_alphanumeric() || b == b'_' || b == b'-' || b == b'.' || b == b'/' || b == b':'
}

// Whether each byte is such.
fn are_plain(bytes: &[u8]) -> bool
    ensures { result ≡ list_all is_plain bytes.now }
{
    bytes.iter().all(|b| is_plain(*b))
}

// Whether the value stands without quotes.
fn stands(value: &str) -> bool
    ensures plain { result ≡ true → value_text value.now ≡ value.now }
    ensures quoted { result ≡ false → value_text value.now ≡ compact_text (string value.now) }
{
    !value.is_empty() && are_plain(value.as_bytes())
}

// Puts the value in quotes at the end, as a JSON text.
fn with_quoted(text: Vec<u8>, value: &str) -> Result<Vec<u8>, AllocError>
    ensures { IfOk result (λ more. more.items ≡ text.items ++ compact_text (string value.now)) }
{
    let mut writer = Writer::new(text);
    writer.string(value)?;
    Ok(writer.into_inner())
}

// Puts the value at the end, in quotes where it needs them.
fn with_value(text: Vec<u8>, value: &str) -> Result<Vec<u8>, AllocError>
    ensures { IfOk result (λ more. more.items ≡ text.items ++ value_text value.now) }
{
    if !stands(value) {
        return with_quoted(text, value);
    }
    let mut text = text;
    text.extend_from_slice(value.as_bytes())?;
    Ok(text)
}

/// Lines, as far as they are written. The only error of each call is out of memory.
#[derive(Drop)]
pub struct Lines {
    text: Vec<u8>,
}

impl Model for Lines {
    ghost use Rattle.std.specs.Prelude.{List, ℕ};

    ghost Value = { List ℕ };

    ghost view = { λ l. l.text.items };
}

impl Lines {
    /// No line so far. It takes no memory.
    pub fn new(alloc: Global) -> Lines
        ensures { result ≡ [] }
    {
        Lines {
            text: Vec::new(alloc),
        }
    }

    /// A line begins, with its word.
    pub fn begin(self, word: &str) -> Result<Lines, AllocError>
        ensures { IfOk result (λ lines. lines ≡ self ++ word.now) }
    {
        let mut text = self.text;
        text.extend_from_slice(word.as_bytes())?;
        Ok(Lines { text })
    }

    /// A pair of the line.
    pub fn pair(self, name: &str, value: &str) -> Result<Lines, AllocError>
        ensures { IfOk result (λ lines. lines ≡ self ++ pair_text (name.now, value.now)) }
    {
        let mut text = self.text;
        text.push(b' ')?;
        text.extend_from_slice(name.as_bytes())?;
        text.push(b'=')?;
        let text = with_value(text, value)?;
        Ok(Lines { text })
    }

    /// A pair of the line whose value is a number.
    pub fn number(self, name: &str, number: u64) -> Result<Lines, AllocError>
        ensures { IfOk result (λ lines. lines ≡ self ++ pair_text (name.now, decimal number)) }
    {
        let mut buffer = Buffer::new();
        self.pair(name, buffer.format(number))
    }

    /// The line ends.
    pub fn end(self) -> Result<Lines, AllocError>
        ensures { IfOk result (λ lines. lines ≡ self ++ 10 ∷ []) }
    {
        let mut text = self.text;
        text.push(b'\n')?;
        Ok(Lines { text })
    }

    /// The lines. It takes no memory.
    pub fn into_bytes(self) -> Bytes
        ensures { result ≡ self }
    {
        Bytes::of(self.text)
    }
}
