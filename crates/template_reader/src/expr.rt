//! What a tag prints.
ghost use Rattle.std.specs.Prelude.{◌≡◌};
ghost use Rattle.template_reader.specs.Tree.{walk_of};

use crate::Walk;
use key_names::Text;

/// A value that is written in a tag.
#[derive(Debug, Drop)]
pub enum Literal {
    /// `true` or `false`.
    Bool(bool),
    /// An integer in decimal.
    Int(i64),
    /// A text, without its quotes.
    Text(Text),
}

/// An expression: what a tag prints of a path.
#[derive(Debug, Drop)]
pub enum Expr {
    /// The text of the scalar.
    Plain {
        path: Walk,
    },
    /// The same, and the literal's text where nothing is at the path.
    Default {
        literal: Literal,
        path: Walk,
    },
    /// The bytes of which the text is the base64.
    Decode {
        path: Walk,
    },
    /// The scalar or the list as JSON.
    Json {
        path: Walk,
    },
    /// The items of a list, joined.
    JoinArray {
        joiner: Text,
        path: Walk,
    },
    /// The children of a map, each as its name and its text joined by `joiner`, and these joined by
    /// `separator`. With `fail`, something must be at the path.
    JoinMap {
        joiner: Text,
        separator: Text,
        fail: bool,
        path: Walk,
    },
}

impl Expr {
    /// The path that leads to what is printed.
    pub fn path(&self) -> &Walk
        ensures { result.now ≡ walk_of self.now }
    {
        match self {
            Expr::Plain { path } => path,
            Expr::Default { path, .. } => path,
            Expr::Decode { path } => path,
            Expr::Json { path } => path,
            Expr::JoinArray { path, .. } => path,
            Expr::JoinMap { path, .. } => path,
        }
    }
}
