//! What is at a path.
ghost use Rattle.std.specs.Prelude.{◌≡◌, IfOk};

use key_names::Bytes;
use std::alloc::AllocError;

/// A file with its bytes, or a link with its text.
#[derive(Debug, Drop)]
pub enum Node {
    /// A file with these bytes.
    File(Bytes),
    /// A link with this text.
    Link(Bytes),
}

impl Node {
    /// The same node once more, or out of memory.
    pub fn copy(&self) -> Result<Node, AllocError>
        ensures { IfOk result (λ copy. copy ≡ self.now) }
    {
        match self {
            Node::File(bytes) => Ok(Node::File(bytes.copy()?)),
            Node::Link(text) => Ok(Node::Link(text.copy()?)),
        }
    }
}

/// The same node once more, if there is one.
pub fn copy_of(node: &Option<Node>) -> Result<Option<Node>, AllocError>
    ensures { IfOk result (λ copy. copy ≡ node.now) }
{
    match node {
        Some(node) => Ok(Some(node.copy()?)),
        None => Ok(None),
    }
}
