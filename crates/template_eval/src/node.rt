//! What is at a place.
use crate::places::Places;
use key_names::Text;
use settings_tree::Item;

/// A scalar, or what a child or its index is called.
#[derive(Clone, Copy, Drop)]
pub enum Atom<'a> {
    Bool(bool),
    Int(i64),
    Text(&'a Text),
    /// The index of an item or a child.
    Index(usize),
    /// The name of a child.
    Name(&'a str),
}

/// What is at a place: nothing, a scalar, the items of a list, or the children of a map.
#[derive(Drop)]
pub enum Node<'a> {
    Missing,
    Atom(Atom<'a>),
    Items(&'a [Item]),
    Children(Places<'a>),
}
