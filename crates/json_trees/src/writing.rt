//! Scalars written as JSON, a token at a time.
ghost use Rattle.std.specs.Prelude.{◌≡◌, ◌∷◌, [], ◌++◌, OnOk, flat_map};
ghost use Rattle.std.specs.List.{AllByRecursion};
ghost use Rattle.std.specs.Str.{IsUtf8};
ghost use Rattle.json.specs.Lex.{tokens};
ghost use Rattle.json.specs.Print.{print};
ghost use Rattle.json.specs.Token.{begin_array, end_array};
ghost use Rattle.json_trees.specs.Scalar.{item_data, scalar_data};
ghost use Rattle.json_trees.specs.Written.{data_tokens, ItemInRange, ScalarInRange};

use crate::{Item, Scalar};
use json::Writer;
use key_names::Text;
use std::alloc::AllocError;

/// The text of the tokens written.
pub fn text_of(writer: Writer) -> Text
    requires { writer.before ≡ [] }
    ensures text { result ≡ print writer.tokens }
    ensures reads_back { tokens result ≡ writer.tokens }
    ensures utf8 { IsUtf8 result }
{
    let text = String::from_utf8(writer.into_inner());
    Text::of(text.unwrap())
}

fn write_item(writer: &mut Writer, item: &Item) -> Result<(), AllocError>
    ensures tokens { OnOk result
        (writer.new.tokens ≡ writer.old.tokens ++ data_tokens (item_data item.now)) }
    ensures in_range { OnOk result (ItemInRange item.now) }
    ensures before { writer.new.before ≡ writer.old.before }
{
    match item {
        Item::Bool(b) => writer.boolean(*b),
        Item::Int(n) => writer.i64(*n),
        Item::Text(text) => writer.string(text.as_str()),
    }
}

fn write_items(writer: &mut Writer, items: &[Item]) -> Result<(), AllocError>
    ensures tokens { OnOk result
        (writer.new.tokens
        ≡ writer.old.tokens ++ flat_map (λ item. data_tokens (item_data item)) items.now) }
    ensures in_range { OnOk result (AllByRecursion ItemInRange items.now) }
    ensures before { writer.new.before ≡ writer.old.before }
{
    for item in items {
        write_item(writer, item)?;
    }
    Ok(())
}

/// Writes the tokens of a scalar.
pub fn write_scalar(writer: &mut Writer, scalar: &Scalar) -> Result<(), AllocError>
    ensures tokens { OnOk result
        (writer.new.tokens ≡ writer.old.tokens ++ data_tokens (scalar_data scalar.now)) }
    ensures in_range { OnOk result (ScalarInRange scalar.now) }
    ensures before { writer.new.before ≡ writer.old.before }
{
    match scalar {
        Scalar::Bool(b) => writer.boolean(*b),
        Scalar::Int(n) => writer.i64(*n),
        Scalar::Text(text) => writer.string(text.as_str()),
        Scalar::List(items) => {
            writer.begin_array()?;
            write_items(writer, items.as_slice())?;
            writer.end_array()
        }
    }
}
