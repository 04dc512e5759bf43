//! Maps from paths to nodes.
ghost use Rattle.std.specs.Prelude.{◌≡◌, Some, filter, IfOk, OnOk, OnErr};
ghost use Rattle.std.specs.BTreeMap.{keys, get, IsOrdered, Updates, IsUnchanged, IsFromIterResult};
ghost use Rattle.outside.specs.Names.{path_cmp, is_below};
ghost use Rattle.disk_memory.specs.Recorded.{IsCopy};

use crate::Node;
use outside::Path;
use std::alloc::{AllocError, Global};
use std::collections::BTreeMap;

/// The map of these nodes; of a path that is named twice the last entry counts.
pub fn map_of(alloc: Global, nodes: Vec<(Path, Node)>) -> Result<BTreeMap<Path, Node>, AllocError>
    ensures { IfOk result (IsFromIterResult path_cmp nodes.items) }
{
    nodes.into_iter().collect(alloc)
}

/// Puts the node at the path, or takes away what is there, and hands out what was there.
pub fn set_at(
    nodes: &mut BTreeMap<Path, Node>,
    path: Path,
    node: Option<Node>,
) -> Result<Option<Node>, AllocError>
    ensures ok { OnOk result (Updates path_cmp nodes.old nodes.new path node) }
    ensures before { IfOk result (λ before. before ≡ get path_cmp nodes.old path) }
    ensures err { OnErr result (IsUnchanged nodes.old nodes.new) }
{
    match node {
        Some(node) => Ok(nodes.insert(path, node)?),
        None => Ok(nodes.remove(&path)),
    }
}

// Puts copies of both.
fn add_copy(copies: &mut BTreeMap<Path, Node>, path: &Path, node: &Node) -> Result<(), AllocError>
    ensures { OnOk result (Updates path_cmp copies.old copies.new path.now (Some node.now)) }
{
    copies.insert(path.copy()?, node.copy()?)?;
    Ok(())
}

/// The same nodes once more.
pub fn copy_of_nodes(
    alloc: Global,
    nodes: &BTreeMap<Path, Node>,
) -> Result<BTreeMap<Path, Node>, AllocError>
    ensures { IfOk result (IsCopy nodes.now) }
{
    let mut copy = BTreeMap::new(alloc);
    for (path, node) in nodes.iter() {
        add_copy(&mut copy, path, node)?;
    }
    Ok(copy)
}

/// The paths strictly below the path, rising.
pub fn paths_below(
    alloc: Global,
    path: &Path,
    nodes: &BTreeMap<Path, Node>,
) -> Result<Vec<Path>, AllocError>
    ensures paths { IfOk result (λ found. found.items ≡ filter (is_below path.now) (keys nodes.now)) }
    ensures ordered { IsOrdered path_cmp nodes.now }
{
    let mut found = Vec::new(alloc);
    for other in nodes.keys() {
        if path.is_above(other) {
            found.push(other.copy()?)?;
        }
    }
    Ok(found)
}
