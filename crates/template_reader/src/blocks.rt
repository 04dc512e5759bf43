//! Blocks, and the nodes that are made of them.
ghost use Rattle.std.specs.Prelude.{◌≡◌, ◌||◌, ◌+◌, ◌<◌, ◌≤◌, ◌^◌, OnOk};
ghost use Rattle.template_reader.specs.Fault.{same_name, is_root};
ghost use Rattle.template_reader.specs.Tree.{done, joined, node, print, block};
ghost use Rattle.template_reader.specs.Forest.{tree_of, tree_in, branch_of};
ghost use Rattle.template_reader.specs.Reading.{head, text_tree};

use crate::tag::Name;
use crate::{Expr, Node, Nodes, Span, Walk};
use std::alloc::AllocError;

fn is_each(name: Name) -> bool
    ensures { result ≡ same_name Name.Each name }
{
    match name {
        Name::Each => true,
        Name::If => false,
        Name::Unless => false,
    }
}

/// The two names are one.
pub fn is_name(name: Name, other: Name) -> bool
    ensures { result ≡ same_name name other }
{
    match (name, other) {
        (Name::If, Name::If) => true,
        (Name::Unless, Name::Unless) => true,
        (Name::Each, Name::Each) => true,
        (Name::If, Name::Unless) => false,
        (Name::If, Name::Each) => false,
        (Name::Unless, Name::If) => false,
        (Name::Unless, Name::Each) => false,
        (Name::Each, Name::If) => false,
        (Name::Each, Name::Unless) => false,
    }
}

fn is_root(path: &Walk) -> bool
    ensures { result ≡ is_root path.now }
{
    match path {
        Walk::Root(_) => true,
        Walk::This(_) => false,
        Walk::AtKey => false,
        Walk::AtIndex => false,
    }
}

/// The path may be there: it begins at the root, or is in an each.
pub fn is_readable(path: &Walk, in_each: bool) -> bool
    ensures { result ≡ (is_root path.now || in_each) }
{
    is_root(path) || in_each
}

/// Whether the first part of a block of this name is in an each.
pub fn is_inside(name: Name, in_each: bool) -> bool
    ensures { result ≡ (same_name Name.Each name || in_each) }
{
    is_each(name) || in_each
}

/// Adds a node.
pub fn push_node(nodes: &mut Vec<Node>, last: Node) -> Result<(), AllocError>
    ensures { OnOk result (tree_of nodes.new.items ≡ joined (tree_of nodes.old.items) (node (branch_of last) done)) }
{
    nodes.push(last)?;
    Ok(())
}

/// The node of a tag that prints.
pub fn print_of(expr: Expr) -> Node
    ensures { branch_of result ≡ print expr }
{
    Node::Print { expr }
}

/// The node of a block.
pub fn block_of(name: Name, path: Walk, first: Nodes, other: Nodes) -> Node
    ensures { branch_of result ≡ block (head name path) (tree_in first) (tree_in other) }
{
    match name {
        Name::If => Node::Test {
            unless: false,
            path,
            first,
            other,
        },
        Name::Unless => Node::Test {
            unless: true,
            path,
            first,
            other,
        },
        Name::Each => Node::Each { path, first, other },
    }
}
