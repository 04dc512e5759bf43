//! Where the paths of a template lead.
ghost use Rattle.std.specs.Prelude.{◌≡◌, IfOk};
ghost use Rattle.template_eval.specs.Place.{in_tree, place_at, place_below, key_place};
ghost use Rattle.settings_tree.specs.Content.{Contents};
ghost use Rattle.template_eval.specs.Kept.{Keeps, KeepsHere};
ghost use Rattle.template_eval.specs.Views.{place_of, seen};

use crate::keys::{joined, last_name};
use key_names::Key;
use settings_tree::{Item, OsName, Scalar};
use std::alloc::AllocError;
use template_reader::Walk;

/// Where a path leads.
#[derive(Drop)]
pub enum Place<'a> {
    Nowhere,
    /// To a path of the tree.
    At(&'a Key),
    /// The same, by a key that was made for it.
    Made(Key),
    /// To a path of the tree at which a value is, and that value, which is not looked up again.
    Leaf { key: &'a Key, scalar: &'a Scalar },
    /// To a name of the operating system and its text.
    System(&'a OsName),
    /// To an item of a list.
    Item(&'a Item),
    /// To the index of an item or a child.
    Index(usize),
    /// To the name of a child.
    Name(&'a str),
}

/// The item of a list, or the child of a map, for which the first part of an each is rendered, and
/// its index, counted from 0.
#[derive(Drop)]
pub struct Here<'a> {
    pub this: Place<'a>,
    pub index: usize,
}

impl<'a> Place<'a> {
    // The same place, borrowed.
    fn lent(&'a self) -> Place<'a>
        ensures same { place_of result ≡ place_of self.now }
        ensures kept { (content : Contents) → Keeps content self.now → Keeps content result }
    {
        match self {
            Place::Nowhere => Place::Nowhere,
            Place::At(key) => Place::At(key),
            Place::Made(key) => Place::At(key),
            Place::Leaf { key, scalar } => Place::Leaf { key, scalar },
            Place::System(name) => Place::System(name),
            Place::Item(item) => Place::Item(item),
            Place::Index(index) => Place::Index(*index),
            Place::Name(name) => Place::Name(name),
        }
    }

    // The place below this one, by the segments of the key.
    fn below(&self, names: &Key) -> Result<Place<'static>, AllocError>
        ensures leads { IfOk result (λ p. place_of p ≡ place_below (place_of self.now) names.now) }
        ensures kept { (content : Contents) → IfOk result (Keeps content) }
    {
        match self {
            Place::At(key) => place_below(key, names),
            Place::Made(key) => place_below(key, names),
            Place::Leaf { key, .. } => place_below(key, names),
            _ => Ok(Place::Nowhere),
        }
    }
}

// The place of a key with the segments of another after its own.
fn place_below(key: &Key, names: &Key) -> Result<Place<'static>, AllocError>
    ensures leads { IfOk result (λ p. place_of p ≡ place_below (in_tree key.now) names.now) }
    ensures kept { (content : Contents) → IfOk result (Keeps content) }
{
    match joined(key, names)? {
        Some(key) => Ok(Place::Made(key)),
        None => Ok(Place::Nowhere),
    }
}

impl<'a> Here<'a> {
    // Where `@key` leads.
    fn key(&'a self) -> Place<'a>
        ensures leads { place_of result ≡ key_place (place_of self.now.this) self.now.index }
        ensures kept { (content : Contents) → Keeps content result }
    {
        match &self.this {
            Place::At(key) => Place::Name(last_name(key)),
            Place::Made(key) => Place::Name(last_name(key)),
            Place::Leaf { key, .. } => Place::Name(last_name(key)),
            Place::System(name) => Place::Name(name.name.as_str()),
            Place::Item(_) => Place::Index(self.index),
            Place::Index(_) => Place::Index(self.index),
            _ => Place::Nowhere,
        }
    }
}

/// Where the path leads, from the root or from the item or the child of the innermost each. The
/// only error is out of memory.
pub fn place_at<'a>(here: Option<&'a Here<'a>>, path: &'a Walk) -> Result<Place<'a>, AllocError>
    ensures leads { IfOk result (λ p. place_of p ≡ place_at (seen here.entry) path.now) }
    ensures kept { (content : Contents) → KeepsHere content here.entry → IfOk result (Keeps content) }
{
    match path {
        Walk::Root(key) => Ok(Place::At(key)),
        Walk::This(None) => match here {
            Some(here) => Ok(here.this.lent()),
            None => Ok(Place::Nowhere),
        },
        Walk::This(Some(names)) => match here {
            Some(here) => here.this.below(names),
            None => Ok(Place::Nowhere),
        },
        Walk::AtKey => match here {
            Some(here) => Ok(here.key()),
            None => Ok(Place::Nowhere),
        },
        Walk::AtIndex => match here {
            Some(here) => Ok(Place::Index(here.index)),
            None => Ok(Place::Nowhere),
        },
    }
}
