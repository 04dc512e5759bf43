//! The nodes of a template.
ghost use Rattle.std.specs.Prelude.{◌≡◌};
ghost use Rattle.template_reader.specs.Forest.{tree_of, tree_in};

use crate::{Expr, Span, Walk};

/// A node of a template.
#[derive(Drop)]
#[cycle(node)]
pub enum Node {
    /// A text of the source. It has a byte at least.
    Text {
        span: Span,
    },
    /// A tag that prints.
    Print {
        expr: Expr,
    },
    /// An if, or an unless: the nodes before its else and those after it, of which there are none
    /// where it has no else.
    Test {
        unless: bool,
        path: Walk,
        first: Nodes,
        other: Nodes,
    },
    /// An each, likewise.
    Each {
        path: Walk,
        first: Nodes,
        other: Nodes,
    },
}

/// Nodes, one after another.
#[derive(Drop)]
#[cycle(node)]
pub struct Nodes {
    nodes: Vec<Node>,
}

impl Nodes {
    /// These nodes. It takes no memory.
    pub fn of(nodes: Vec<Node>) -> Nodes
        ensures { tree_in result ≡ tree_of nodes.items }
    {
        Nodes { nodes }
    }

    /// The nodes, borrowed.
    pub fn as_slice(&self) -> &[Node]
        ensures { tree_of result.now ≡ tree_in self.now }
    {
        self.nodes.as_slice()
    }
}
