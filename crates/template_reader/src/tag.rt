//! What tags say.
use crate::{Expr, Walk};

/// The name of a block.
#[derive(Clone, Copy, Debug, Drop, PartialEq, Eq)]
pub enum Name {
    If,
    Unless,
    Each,
}

/// What a tag says.
#[derive(Drop)]
pub enum Form {
    Comment,
    Print { expr: Expr },
    Begin { name: Name, path: Walk },
    Otherwise,
    Finish { name: Name },
}

/// A tag, and whether it has a trim mark at its front and at its end.
#[derive(Drop)]
pub struct Tag {
    pub front: bool,
    pub back: bool,
    pub form: Form,
}
