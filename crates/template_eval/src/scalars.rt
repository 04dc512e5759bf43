//! Scalars: their texts and their truth.
ghost use Rattle.std.specs.Prelude.{◌≡◌, ◌++◌, OnOk};
ghost use Rattle.template_eval.specs.Node.{is_true};
ghost use Rattle.template_eval.specs.Written.{truth_text, item_text, literal_text};
ghost use Rattle.std.specs.Fmt.{decimal, signed_decimal};
ghost use Rattle.template_eval.specs.Views.{atom_text, atom_node, node_of};

use crate::node::{Atom, Node};
use itoa::Buffer;
use settings_tree::{Item, LiveView};
use std::alloc::AllocError;
use template_reader::Literal;

fn truth_text(b: bool) -> &'static str
    ensures { result.now ≡ truth_text b }
{
    if b { "true" } else { "false" }
}

fn push_int(out: &mut Vec<u8>, n: i64) -> Result<(), AllocError>
    ensures { OnOk result (out.new.items ≡ out.old.items ++ signed_decimal n) }
{
    let mut buffer = Buffer::new();
    out.extend_from_slice(buffer.format(n).as_bytes())
}

fn push_index(out: &mut Vec<u8>, n: usize) -> Result<(), AllocError>
    ensures { OnOk result (out.new.items ≡ out.old.items ++ decimal n) }
{
    let mut buffer = Buffer::new();
    out.extend_from_slice(buffer.format(n).as_bytes())
}

/// Adds the text of the scalar, or of the name or the index of a child. The only error is out of
/// memory.
pub fn push_atom(out: &mut Vec<u8>, atom: Atom<'_>) -> Result<(), AllocError>
    ensures { OnOk result (out.new.items ≡ out.old.items ++ atom_text atom.entry) }
{
    match atom {
        Atom::Bool(b) => out.extend_from_slice(truth_text(b).as_bytes()),
        Atom::Int(n) => push_int(out, n),
        Atom::Text(text) => out.extend_from_slice(text.as_str().as_bytes()),
        Atom::Index(n) => push_index(out, n),
        Atom::Name(name) => out.extend_from_slice(name.as_bytes()),
    }
}

/// Adds the text of the item. The only error is out of memory.
pub fn push_item(out: &mut Vec<u8>, item: &Item) -> Result<(), AllocError>
    ensures { OnOk result (out.new.items ≡ out.old.items ++ item_text item.now) }
{
    match item {
        Item::Bool(b) => out.extend_from_slice(truth_text(*b).as_bytes()),
        Item::Int(n) => push_int(out, *n),
        Item::Text(text) => out.extend_from_slice(text.as_str().as_bytes()),
    }
}

/// Adds the text of the literal. The only error is out of memory.
pub fn push_literal(out: &mut Vec<u8>, literal: &Literal) -> Result<(), AllocError>
    ensures { OnOk result (out.new.items ≡ out.old.items ++ literal_text literal.now) }
{
    match literal {
        Literal::Bool(b) => out.extend_from_slice(truth_text(*b).as_bytes()),
        Literal::Int(n) => push_int(out, *n),
        Literal::Text(text) => out.extend_from_slice(text.as_str().as_bytes()),
    }
}

/// Whether what is there counts as true.
pub fn is_true(content: &LiveView<'_>, node: Node<'_>) -> bool
    ensures { result ≡ is_true (node_of content.now node.entry) }
{
    match node {
        Node::Missing => false,
        Node::Atom(atom) => is_true_atom(atom),
        Node::Items(items) => !items.is_empty(),
        Node::Children(places) => !places.is_empty(content),
    }
}

fn is_true_atom(atom: Atom<'_>) -> bool
    ensures { result ≡ is_true (atom_node atom.entry) }
{
    match atom {
        Atom::Bool(b) => b,
        Atom::Int(n) => n != 0,
        Atom::Text(text) => !text.as_str().is_empty(),
        Atom::Index(n) => n != 0,
        Atom::Name(name) => !name.is_empty() && name.as_bytes() != b"0".as_slice(),
    }
}
