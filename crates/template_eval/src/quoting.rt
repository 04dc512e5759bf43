//! Scalars and lists as JSON.
ghost use Rattle.std.specs.Prelude.{◌≡◌, ◌++◌, [], OnOk, flat_map};
ghost use Rattle.json.specs.Print.{print};
ghost use Rattle.json_trees.specs.Scalar.{item_data, scalar_data};
ghost use Rattle.json_trees.specs.Written.{data_tokens};
ghost use Rattle.json_trees.specs.declared.scalar.Scalar.TheVariants as scalar;
ghost use Rattle.template_eval.specs.Quoting.{escaped, scalar_json};
ghost use Rattle.template_eval.specs.Views.{atom_value};

use crate::node::Atom;
use json::Writer;
use settings_tree::Item;
use std::alloc::{AllocError, Global};

fn write_atom(writer: &mut Writer, atom: Atom<'_>) -> Result<(), AllocError>
    ensures tokens { OnOk result
        (writer.new.tokens ≡ writer.old.tokens ++ data_tokens (scalar_data (atom_value atom.entry))) }
    ensures before { writer.new.before ≡ writer.old.before }
{
    match atom {
        Atom::Bool(b) => writer.boolean(b),
        Atom::Int(n) => writer.i64(n),
        Atom::Text(text) => writer.string(text.as_str()),
        Atom::Index(n) => writer.u64(n as u64),
        Atom::Name(name) => writer.string(name),
    }
}

fn write_item(writer: &mut Writer, item: &Item) -> Result<(), AllocError>
    ensures tokens { OnOk result
        (writer.new.tokens ≡ writer.old.tokens ++ data_tokens (item_data item.now)) }
    ensures before { writer.new.before ≡ writer.old.before }
{
    match item {
        Item::Bool(b) => writer.boolean(*b),
        Item::Int(n) => writer.i64(*n),
        Item::Text(text) => writer.string(text.as_str()),
    }
}

fn write_items(writer: &mut Writer, items: &[Item]) -> Result<(), AllocError>
    ensures tokens { OnOk result
        (writer.new.tokens
        ≡ writer.old.tokens ++ flat_map (λ item. data_tokens (item_data item)) items.now) }
    ensures before { writer.new.before ≡ writer.old.before }
{
    for item in items {
        write_item(writer, item)?;
    }
    Ok(())
}

fn push_byte(out: &mut Vec<u8>, byte: u8) -> Result<(), AllocError>
    ensures { OnOk result (out.new.items ≡ out.old.items ++ escaped byte) }
{
    if byte == 0x7f {
        out.extend_from_slice(b"\\u007f")
    } else {
        Ok(out.push(byte)?)
    }
}

// Adds the text that was written, in which the byte 0x7F is escaped.
fn push_written(out: &mut Vec<u8>, writer: Writer) -> Result<(), AllocError>
    requires { writer.before ≡ [] }
    ensures { OnOk result
        (out.new.items ≡ out.old.items ++ flat_map escaped (print writer.tokens)) }
{
    for byte in writer.into_inner().as_slice() {
        push_byte(out, *byte)?;
    }
    Ok(())
}

/// Adds the scalar, or what a child or its index is called, as JSON. The only error is out of memory.
pub fn push_json(alloc: Global, atom: Atom<'_>, out: &mut Vec<u8>) -> Result<(), AllocError>
    ensures { OnOk result (out.new.items ≡ out.old.items ++ scalar_json (atom_value atom.entry)) }
{
    let mut writer = Writer::new(Vec::new(alloc));
    write_atom(&mut writer, atom)?;
    push_written(out, writer)
}

/// Adds the list as JSON. The only error is out of memory.
pub fn push_json_list(alloc: Global, items: &[Item], out: &mut Vec<u8>) -> Result<(), AllocError>
    ensures { OnOk result (out.new.items ≡ out.old.items ++ scalar_json (scalar.List items.now)) }
{
    let mut writer = Writer::new(Vec::new(alloc));
    writer.begin_array()?;
    write_items(&mut writer, items)?;
    writer.end_array()?;
    push_written(out, writer)
}
