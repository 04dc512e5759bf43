//! Scalars.
ghost use Rattle.std.specs.Prelude.{◌≡◌, ◌≢◌, ◌↔◌, IfOk, IfErr, Ok, Err, IsTrue};

use crate::items::Items;
use crate::json_value::json_of;
use crate::reading::scalar_of;
use crate::scalar_error::ScalarError;
use crate::writing::{text_of, write_scalar};
use json::Writer;
use key_names::Text;
use std::alloc::{AllocError, Global};

/// The value of a setting: a truth value, a whole number of 64 bits, a text, or a list of these.
#[derive(Debug, Drop)]
pub enum Scalar {
    /// `true` or `false`.
    Bool(bool),
    /// A whole number.
    Int(i64),
    /// A text.
    Text(Text),
    /// A list, which doesn't nest.
    List(Items),
}

impl Scalar {
    ghost use Rattle.json_trees.specs.Scalar.{scalar_read, json_text};
    ghost use Rattle.json_trees.specs.declared.scalar_error.ScalarError.TheVariants.{Memory};

    /// The scalar that a JSON text is, in any spelling of JSON. `NotJson` is answered where
    /// `serde_json` doesn't read the bytes, `Null` and `Object` where the whole value is `null` or
    /// an object. A number that isn't held as an `i64` is `NotInt`. In a list `null` is `Null`,
    /// and a list or an object is `Nested`; the first fault in a list is answered. It takes time
    /// linear in the text.
    pub fn of_json(alloc: Global, text: &[u8]) -> Result<Scalar, ScalarError>
        ensures ok { IfOk result (λ scalar. scalar_read text.now ≡ Ok scalar) }
        ensures err { IfErr result (λ e. e ≢ Memory → scalar_read text.now ≡ Err e) }
    {
        match json_of(alloc, text)? {
            Some(value) => scalar_of(alloc, value),
            None => Err(ScalarError::NotJson),
        }
    }

    /// The compact JSON text of the scalar, which reads back as it. The only error is out of
    /// memory.
    pub fn print(&self, alloc: Global) -> Result<Text, AllocError>
        ensures text { IfOk result (λ text. text ≡ json_text self.now) }
        ensures reads_back { IfOk result (λ text. scalar_read text ≡ Ok self.now) }
    {
        let mut writer = Writer::new(Vec::new(alloc));
        write_scalar(&mut writer, self)?;
        Ok(text_of(writer))
    }

    /// A copy of the scalar. The only error is out of memory.
    pub fn copy(&self) -> Result<Scalar, AllocError>
        ensures { IfOk result (λ scalar. scalar ≡ self.now) }
    {
        match self {
            Scalar::Bool(b) => Ok(Scalar::Bool(*b)),
            Scalar::Int(n) => Ok(Scalar::Int(*n)),
            Scalar::Text(text) => Ok(Scalar::Text(text.copy()?)),
            Scalar::List(items) => Ok(Scalar::List(items.copy()?)),
        }
    }
}

impl PartialEq for Scalar {
    ghost use Rattle.json_trees.specs.Equal.{scalar_eq};
    ghost use Rattle.json_trees.specs.EqualLaws.{scalars_equal_partly};

    ghost eq = { scalar_eq };

    ghost laws = { scalars_equal_partly };

    fn eq(&self, other: &Scalar) -> bool
        ensures gives { result ≡ scalar_eq self.now other.now }
        ensures exact { IsTrue result ↔ (self.now ≡ other.now) }
    {
        match (self, other) {
            (Scalar::Bool(a), Scalar::Bool(b)) => a == b,
            (Scalar::Int(a), Scalar::Int(b)) => a == b,
            (Scalar::Text(a), Scalar::Text(b)) => a == b,
            (Scalar::List(a), Scalar::List(b)) => a == b,
            _ => false,
        }
    }
}

impl Eq for Scalar {
    ghost use Rattle.json_trees.specs.EqualLaws.{scalars_equal};

    ghost laws = { scalars_equal };
}
