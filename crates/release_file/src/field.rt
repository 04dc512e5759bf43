//! The fields of a table.
ghost use Rattle.std.specs.Prelude.{◌≡◌, IfOk, option_map};
ghost use Rattle.toml.specs.Data.{get_member};
ghost use Rattle.toml.specs.View.{view, items_view, table_view};
ghost use Rattle.release_file.specs.Fields.{scalar_at, text_at, texts_at, texts_in, texts_of};

use json_trees::Scalar;
use key_names::Text;
use std::alloc::{AllocError, Global};
use toml::{Table, Value};
use toml_values::{scalar_of, text_of};

/// The value of a field, None exactly where it is missing.
pub fn field<'a>(table: &'a Table, name: &str) -> Option<&'a Value>
    ensures { option_map (λ value. view value.now) result ≡ get_member name.now (table_view table.now) }
{
    table.get(name)
}

/// The text of a field, None exactly where the field is missing or no text. The only error is out of memory.
pub fn text_field(table: &Table, name: &str) -> Result<Option<Text>, AllocError>
    ensures { IfOk result (λ text. text ≡ text_at name.now (table_view table.now)) }
{
    match field(table, name) {
        Some(value) => text_of(value),
        None => Ok(None),
    }
}

// The texts of the values, where each is one.
fn texts_in(alloc: Global, values: &[Value]) -> Result<Option<Vec<Text>>, AllocError>
    ensures { IfOk result (λ texts. option_map (λ v. v.items) texts ≡ texts_in (items_view values.now)) }
{
    let mut texts = Vec::new(alloc);
    for value in values {
        match text_of(value)? {
            Some(text) => texts.push(text)?,
            None => return Ok(None),
        }
    }
    Ok(Some(texts))
}

/// The texts that the value is a list of, None exactly where it is none. The only error is out of memory.
pub fn texts_of(alloc: Global, value: &Value) -> Result<Option<Vec<Text>>, AllocError>
    ensures { IfOk result (λ texts. option_map (λ v. v.items) texts ≡ texts_of (view value.now)) }
{
    match value {
        Value::Array(values) => texts_in(alloc, values),
        _ => Ok(None),
    }
}

/// The texts of a field, None exactly where the field is missing or no list of texts. The only error is out of memory.
pub fn texts_field(
    alloc: Global,
    table: &Table,
    name: &str,
) -> Result<Option<Vec<Text>>, AllocError>
    ensures { IfOk result (λ texts. option_map (λ v. v.items) texts ≡ texts_at name.now (table_view table.now)) }
{
    match field(table, name) {
        Some(value) => texts_of(alloc, value),
        None => Ok(None),
    }
}

/// The scalar of a field, None exactly where the field is missing or no scalar. The only error is out of memory.
pub fn scalar_field(alloc: Global, table: &Table, name: &str) -> Result<Option<Scalar>, AllocError>
    ensures { IfOk result (λ scalar. scalar ≡ scalar_at name.now (table_view table.now)) }
{
    match field(table, name) {
        Some(value) => scalar_of(alloc, value),
        None => Ok(None),
    }
}
