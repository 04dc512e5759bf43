//! A text that contracts see as the list of its bytes.
ghost use Rattle.std.specs.Prelude.{◌≡◌, ◌↔◌, IfOk, IsTrue, string_bytes};
ghost use Rattle.std.specs.Ordering.{eq_by_cmp};
ghost use Rattle.key_names.specs.Order.{bytes_cmp};

use std::alloc::{AllocError, Global};
use std::cmp::Ordering;
use std::marker::Model;

/// A text. It keeps the allocator of the `String` that it was made of.
#[derive(Debug, Drop)]
pub struct Text {
    text: String,
}

impl Model for Text {
    ghost use Rattle.std.specs.Prelude.{List, ℕ, string_bytes};

    ghost Value = { List ℕ };

    ghost view = { λ t. string_bytes t.text };
}

impl Text {
    /// The text with the bytes of this `String`. It takes no memory.
    pub fn of(text: String) -> Text
        ensures { result ≡ string_bytes text }
    {
        Text { text }
    }

    /// A copy of this text. It costs its length. The only error is out of memory.
    pub fn from_str(alloc: Global, text: &str) -> Result<Text, AllocError>
        ensures { IfOk result (λ copy. copy ≡ text.now) }
    {
        let text = String::from_str(alloc, text)?;
        Ok(Text { text })
    }

    /// The text, borrowed.
    pub fn as_str(&self) -> &str
        ensures { result.now ≡ self.now }
    {
        self.text.as_str()
    }

    /// The allocator that the text keeps.
    pub(crate) fn allocator(&self) -> Global {
        *self.text.allocator()
    }

    /// A copy with the same bytes. The only error is out of memory.
    pub fn copy(&self) -> Result<Text, AllocError>
        ensures { IfOk result (λ text. text ≡ self.now) }
    {
        let text = self.text.clone()?;
        Ok(Text { text })
    }
}

/// Copies of the texts, in their order. It costs the texts' length. The only error is out of memory.
pub fn copy_texts(alloc: Global, texts: &[Text]) -> Result<Vec<Text>, AllocError>
    ensures { IfOk result (λ copies. copies.items ≡ texts.now) }
{
    let mut copies = Vec::new(alloc);
    for text in texts {
        copies.push(text.copy()?)?;
    }
    Ok(copies)
}

impl PartialEq for Text {
    ghost use Rattle.std.specs.Ordering.{eq_by_cmp};
    ghost use Rattle.key_names.specs.Order.{bytes_cmp, bytes_equal_partly};

    ghost eq = { eq_by_cmp bytes_cmp };

    ghost laws = { bytes_equal_partly };

    fn eq(&self, other: &Text) -> bool
        ensures gives { result ≡ eq_by_cmp bytes_cmp self.now other.now }
        ensures exact { IsTrue result ↔ (self.now ≡ other.now) }
    {
        self.cmp(other).is_eq()
    }
}

impl Eq for Text {
    ghost use Rattle.key_names.specs.Order.{bytes_equal};

    ghost laws = { bytes_equal };
}

impl PartialOrd for Text {
    ghost use Rattle.std.specs.Ordering.{as_partial_cmp};
    ghost use Rattle.key_names.specs.Order.{bytes_cmp, bytes_ordered};

    ghost partial_cmp = { as_partial_cmp bytes_cmp };

    ghost laws = { bytes_ordered };

    fn partial_cmp(&self, other: &Text) -> Option<Ordering> {
        Some(self.cmp(other))
    }
}

impl Ord for Text {
    ghost use Rattle.std.proofs.Common.{rules};
    ghost use Rattle.std.specs.Cmp.Rules.{comparing};
    ghost use Rattle.key_names.specs.Order.{bytes_cmp, bytes_total};

    ghost cmp = { bytes_cmp };

    ghost total = { bytes_total };

    ghost matches_partial_cmp = { Prim.search (comparing, rules) };

    ghost matches_eq = { Prim.search (comparing, rules) };

    fn cmp(&self, other: &Text) -> Ordering {
        self.text.as_bytes().cmp(other.text.as_bytes())
    }
}
