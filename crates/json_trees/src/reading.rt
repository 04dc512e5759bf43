//! Scalars read from JSON values.
ghost use Rattle.std.specs.Prelude.{◌≡◌, ◌≢◌, IfOk, IfErr, Ok, Err, map};
ghost use Rattle.serde_json.specs.View.{view, number_view};
ghost use Rattle.json_trees.specs.Collected.{collected};
ghost use Rattle.json_trees.specs.Scalar.{integer_of, item_of, scalar_of};
ghost use Rattle.json_trees.specs.declared.scalar_error.ScalarError.TheVariants.{Memory};

use crate::{Item, Items, Scalar, ScalarError};
use key_names::Text;
use serde_json::{Number, Value};
use std::alloc::Global;

/// The scalar that a JSON value is, or why it is none.
pub fn scalar_of(alloc: Global, value: Value) -> Result<Scalar, ScalarError>
    ensures ok { IfOk result (λ scalar. scalar_of (view value) ≡ Ok scalar) }
    ensures err { IfErr result (λ e. e ≢ Memory → scalar_of (view value) ≡ Err e) }
{
    match value {
        Value::Null => Err(ScalarError::Null),
        Value::Bool(b) => Ok(Scalar::Bool(b)),
        Value::Number(n) => Ok(Scalar::Int(integer_of(&n)?)),
        Value::String(text) => Ok(Scalar::Text(Text::of(text))),
        Value::Array(values) => Ok(Scalar::List(items_of(alloc, values)?)),
        Value::Object(_) => Err(ScalarError::Object),
    }
}

// The items that the values of a list are, or the first fault.
fn items_of(alloc: Global, values: Vec<Value>) -> Result<Items, ScalarError>
    ensures ok { IfOk result (λ items. collected item_of (map view values.items) ≡ Ok items) }
    ensures err { IfErr result
        (λ e. e ≢ Memory → collected item_of (map view values.items) ≡ Err e) }
{
    let mut items = Vec::new(alloc);
    for value in values {
        items.push(item_of(value)?)?;
    }
    Ok(Items::of(items))
}

fn item_of(value: Value) -> Result<Item, ScalarError>
    ensures ok { IfOk result (λ item. item_of (view value) ≡ Ok item) }
    ensures err { IfErr result (λ e. item_of (view value) ≡ Err e) }
{
    match value {
        Value::Null => Err(ScalarError::Null),
        Value::Bool(b) => Ok(Item::Bool(b)),
        Value::Number(n) => Ok(Item::Int(integer_of(&n)?)),
        Value::String(text) => Ok(Item::Text(Text::of(text))),
        Value::Array(_) | Value::Object(_) => Err(ScalarError::Nested),
    }
}

// The number as an `i64`, if it is held as one.
fn integer_of(n: &Number) -> Result<i64, ScalarError>
    ensures { result ≡ integer_of (number_view n.now) }
{
    n.as_i64().ok_or(ScalarError::NotInt)
}
