//! What TOML values are as values of settings.
ghost use Rattle.std.specs.Prelude.{◌≡◌, IfOk, None, Some, option_map};
ghost use Rattle.toml.specs.View.{view, items_view};
ghost use Rattle.toml_values.specs.Values.{item_of, items_of, scalar_of, text_of};

use json_trees::{Item, Items, Scalar};
use key_names::Text;
use std::alloc::{AllocError, Global};
use toml::Value;

/// The text that the value is, None exactly where it is of another type. The only error is out of memory.
pub fn text_of(value: &Value) -> Result<Option<Text>, AllocError>
    ensures { IfOk result (λ text. text ≡ text_of (view value.now)) }
{
    match value {
        Value::String(text) => Ok(Some(Text::of(text.clone()?))),
        _ => Ok(None),
    }
}

/// The scalar that the value is: a truth value, an integer, a text, or a list of these; None exactly where it is a float,
/// a date or a time, a table, or an array that holds one of these or an array. The only error is out of memory. It takes
/// time linear in the value.
pub fn scalar_of(alloc: Global, value: &Value) -> Result<Option<Scalar>, AllocError>
    ensures { IfOk result (λ scalar. scalar ≡ scalar_of (view value.now)) }
{
    match value {
        Value::String(text) => Ok(Some(Scalar::Text(Text::of(text.clone()?)))),
        Value::Integer(n) => Ok(Some(Scalar::Int(*n))),
        Value::Boolean(b) => Ok(Some(Scalar::Bool(*b))),
        Value::Array(values) => match items_of(alloc, values)? {
            Some(items) => Ok(Some(Scalar::List(items))),
            None => Ok(None),
        },
        _ => Ok(None),
    }
}

/// The items that the values of an array are: truth values, integers and texts; None exactly where one is none of these.
/// The only error is out of memory. It takes time linear in the values.
pub fn items_of(alloc: Global, values: &[Value]) -> Result<Option<Items>, AllocError>
    ensures { IfOk result (λ items. items ≡ items_of (items_view values.now)) }
{
    let mut items = Vec::new(alloc);
    for value in values {
        match item_of(value)? {
            Some(item) => items.push(item)?,
            None => return Ok(None),
        }
    }
    Ok(Some(Items::of(items)))
}

fn item_of(value: &Value) -> Result<Option<Item>, AllocError>
    ensures { IfOk result (λ item. item ≡ item_of (view value.now)) }
{
    match value {
        Value::String(text) => Ok(Some(Item::Text(Text::of(text.clone()?)))),
        Value::Integer(n) => Ok(Some(Item::Int(*n))),
        Value::Boolean(b) => Ok(Some(Item::Bool(*b))),
        _ => Ok(None),
    }
}
