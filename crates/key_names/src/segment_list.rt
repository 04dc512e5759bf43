//! Segments that are read one after the other.
ghost use Rattle.std.specs.Prelude.{◌≡◌, ◌++◌, ◌∷◌, [], length, IfOk, IsTrue};
ghost use Rattle.std.specs.List.{list_all};
ghost use Rattle.key_names.specs.Segment.{is_segment};
ghost use Rattle.key_names.specs.Packed.{segments_of};

use crate::Text;
use crate::packed_text::push;
use std::alloc::{AllocError, Global};
use std::marker::Model;

/// Segments as one text (`packed_text`), counted.
#[derive(Drop)]
pub struct Segments {
    text: String,
    count: usize,
}

impl Model for Segments {
    ghost use Rattle.std.specs.Prelude.{List, ℕ, IsTrue, string_bytes};
    ghost use Rattle.key_names.specs.Packed.{segments_of, are_packed};

    ghost Value = { List (List ℕ) };

    ghost view = { λ s. segments_of (string_bytes s.text) };

    ghost invariant = { λ s. IsTrue (are_packed s.count (string_bytes s.text)) };
}

impl Segments {
    /// No segments. It takes no memory.
    pub fn new(alloc: Global) -> Segments
        ensures { result ≡ [] }
    {
        Segments {
            text: String::new(alloc),
            count: 0,
        }
    }

    /// These segments, and one after them. The only error is out of memory.
    pub fn with(self, segment: &[u8]) -> Result<Segments, AllocError>
        requires { IsTrue (is_segment segment.now) }
        ensures { IfOk result (λ more. more ≡ self ++ segment.now ∷ []) }
    {
        let Segments { text, count } = self;
        let mut text = text;
        push(&mut text, segment)?;
        Ok(Segments {
            text,
            count: count + 1,
        })
    }

    /// How many segments there are. It takes no memory.
    pub fn len(&self) -> usize
        ensures { result ≡ length self.now }
    {
        self.count
    }

    /// Their text. It takes no memory.
    pub fn as_str(&self) -> &str
        ensures text { segments_of result.now ≡ self.now }
        ensures valid { IsTrue (list_all is_segment self.now) }
    {
        &self.text
    }

    /// Their text, with no room for more.
    pub fn into_text(self) -> Text
        ensures { segments_of result ≡ self }
    {
        let mut text = self.text;
        text.shrink_to_fit();
        Text::of(text)
    }
}
