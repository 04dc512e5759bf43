//! What is found at an entry.
ghost use Rattle.std.specs.Prelude.{◌≡◌, IfOk};
ghost use Rattle.toml.specs.View.{view};
ghost use Rattle.model_file.specs.Entries.{found_of};

use json_trees::Scalar;
use std::alloc::{AllocError, Global};
use toml::Value;
use toml_values::scalar_of;

/// What is found at an entry.
#[derive(Debug, Drop)]
pub enum Found {
    /// A table.
    Table,
    /// A scalar.
    Value(Scalar),
    /// Another value: a float, a date or a time, or an array that holds one of these, an array or a table.
    Other,
}

/// What a value is. The only error is out of memory.
pub fn found_of(alloc: Global, value: &Value) -> Result<Found, AllocError>
    ensures { IfOk result (λ found. found ≡ found_of (view value.now)) }
{
    match value {
        Value::Table(_) => Ok(Found::Table),
        value => match scalar_of(alloc, value)? {
            Some(scalar) => Ok(Found::Value(scalar)),
            None => Ok(Found::Other),
        },
    }
}
