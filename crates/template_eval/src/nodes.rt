//! The tree of the live values and of the operating system, seen place by place: none is built.
ghost use Rattle.std.specs.Prelude.{◌≡◌, ◌∷◌, [], drop, find, false};
ghost use Rattle.key_names.specs.Key.{is_prefix};
ghost use Rattle.template_eval.specs.Node as nodes;
ghost use Rattle.template_eval.specs.Node.{scalar_node, os_node, os_path, tree_node, value_node};
ghost use Rattle.std.specs.FinMap.{get};
ghost use Rattle.std.specs.Option.{option_copied};
ghost use Rattle.std.specs.Str.{bytes_eq};
ghost use Rattle.template_eval.specs.Children.{children_below};
ghost use Rattle.settings_tree.specs.Content.{Contents};
ghost use Rattle.template_eval.specs.Kept.{Keeps, NodeFollows};
ghost use Rattle.template_eval.specs.Views.{place_of, node_of};

use crate::below::segment_at;
use crate::children::Children;
use crate::node::{Atom, Node};
use crate::place::Place;
use crate::places::Places;
use key_names::Key;
use settings_tree::{Item, LiveView, Os, OsName, Scalar};

fn item_node(item: &Item) -> Node<'_>
    ensures node { (content : Contents) → node_of content result ≡ nodes.scalar item.now }
    ensures follows { (content : Contents) → NodeFollows content result }
{
    match item {
        Item::Bool(b) => Node::Atom(Atom::Bool(*b)),
        Item::Int(n) => Node::Atom(Atom::Int(*n)),
        Item::Text(text) => Node::Atom(Atom::Text(text)),
    }
}

fn scalar_node(scalar: &Scalar) -> Node<'_>
    ensures node { (content : Contents) → node_of content result ≡ scalar_node scalar.now }
    ensures follows { (content : Contents) → NodeFollows content result }
{
    match scalar {
        Scalar::Bool(b) => Node::Atom(Atom::Bool(*b)),
        Scalar::Int(n) => Node::Atom(Atom::Int(*n)),
        Scalar::Text(text) => Node::Atom(Atom::Text(text)),
        Scalar::List(items) => Node::Items(items.as_slice()),
    }
}

// What is at a key of the values, by one look-up.
fn value_node<'a>(content: &'a LiveView<'_>, key: &'a Key) -> Node<'a>
    requires { is_prefix os_path key.now ≡ false }
    ensures node { node_of content.now result
        ≡ value_node (get content.now.values key.now) (children_below content.now.values key.now) }
    ensures follows { NodeFollows content.now result }
{
    match content.next_below(key, None) {
        None => Node::Missing,
        Some((found, scalar)) => {
            if found.len() == key.len() {
                scalar_node(scalar)
            } else {
                Node::Children(Places::Children(Children {
                    parent: key,
                    after: key,
                    ahead: content.entries_after(key),
                }))
            }
        }
    }
}

// The name of the operating system, if it is one.
fn find_name<'a>(os: &'a Os, name: &[u8]) -> Option<&'a OsName>
    ensures { option_copied result ≡ find (λ s. bytes_eq s.name name.now) os.now }
{
    os.names()
        .iter()
        .find(|s| s.name.as_str().as_bytes() == name)
}

// The text of a name of the operating system.
fn named<'a>(os: &'a Os, name: &[u8]) -> Node<'a>
    ensures node { (content : Contents) → node_of content result ≡ os_node os.now (name.now ∷ []) }
    ensures follows { (content : Contents) → NodeFollows content result }
{
    match find_name(os, name) {
        Some(found) => Node::Atom(Atom::Text(&found.text)),
        None => Node::Missing,
    }
}

// What is at a key that begins with `os`.
fn os_node<'a>(os: &'a Os, key: &Key) -> Node<'a>
    ensures node { (content : Contents) → node_of content result ≡ os_node os.now (drop 1 key.now) }
    ensures follows { (content : Contents) → NodeFollows content result }
{
    match key.len() {
        1 => Node::Children(Places::System(os.names())),
        2 => named(os, key.segment(1)),
        _ => Node::Missing,
    }
}

fn begins_with_os(key: &Key) -> bool
    ensures { result ≡ is_prefix os_path key.now }
{
    match segment_at(key, 0) {
        Some(name) => name == b"os".as_slice(),
        None => false,
    }
}

fn tree_node<'a>(content: &'a LiveView<'_>, os: &'a Os, key: &'a Key) -> Node<'a>
    ensures node { node_of content.now result ≡ tree_node content.now os.now key.now }
    ensures follows { NodeFollows content.now result }
{
    if begins_with_os(key) {
        os_node(os, key)
    } else {
        value_node(content, key)
    }
}

/// What is at the place. It is logarithmic in the values, but constant where the place keeps a
/// value, and takes no memory.
pub fn node<'a>(content: &'a LiveView<'_>, os: &'a Os, place: &'a Place<'a>) -> Node<'a>
    requires { Keeps content.now place.now }
    ensures node { node_of content.now result ≡ nodes.node content.now os.now (place_of place.now) }
    ensures follows { NodeFollows content.now result }
{
    match place {
        Place::Nowhere => Node::Missing,
        Place::At(key) => tree_node(content, os, key),
        Place::Made(key) => tree_node(content, os, key),
        Place::Leaf { scalar, .. } => scalar_node(scalar),
        Place::System(name) => Node::Atom(Atom::Text(&name.text)),
        Place::Item(item) => item_node(item),
        Place::Index(index) => Node::Atom(Atom::Index(*index)),
        Place::Name(name) => Node::Atom(Atom::Name(name)),
    }
}
