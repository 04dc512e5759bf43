//! A directory of a disk is copied into memory.
ghost use Rattle.std.specs.Prelude.{◌≡◌, option_map, IfOk, OnOk};
ghost use Rattle.outside.specs.History.{tree_of};
ghost use Rattle.outside.specs.Tree.{node_at};
ghost use Rattle.outside.specs.Told.{WhereTold};
ghost use Rattle.outside.specs.Faults.{HasCauseOf};
ghost use Rattle.commit_journal.specs.Files.{files_below};
ghost use Rattle.disk_memory.specs.Disk.{history_of};
ghost use Rattle.disk_memory.specs.Nodes.{node_of, tree_of_last};
ghost use Rattle.store_open.specs.Copying.{CopiesOne, HasOnly};

use disk_memory::{Bytes, MemoryDisk, Node};
use outside::{Disk, DiskErr, Path};
use std::alloc::Global;

// What is at the path.
fn node_of<D: Disk>(alloc: Global, disk: &mut D, path: &Path) -> Result<Option<Node>, DiskErr>
    ensures same { D.told disk.new ≡ D.told disk.old }
    ensures node { IfOk result (λ node. WhereTold (D.told disk.old)
        (λ h. option_map node_of node ≡ node_at (tree_of h) path.now)) }
    ensures cause { HasCauseOf DiskErr.Failed (D.faults disk.old) (D.faults disk.new) result }
{
    if let Some(bytes) = disk.read(alloc, path)? {
        return Ok(Some(Node::File(Bytes::of(bytes))));
    }
    match disk.read_link(alloc, path)? {
        Some(text) => Ok(Some(Node::Link(Bytes::of(text)))),
        None => Ok(None),
    }
}

// Puts what is at the path after the other nodes.
fn copy_node<D: Disk>(
    alloc: Global,
    disk: &mut D,
    path: &Path,
    nodes: &mut Vec<(Path, Node)>,
) -> Result<(), DiskErr>
    ensures same { D.told disk.new ≡ D.told disk.old }
    ensures copies { OnOk result (WhereTold (D.told disk.old)
        (λ h. CopiesOne path.now (tree_of h) nodes.old.items nodes.new.items)) }
    ensures cause { HasCauseOf DiskErr.Failed (D.faults disk.old) (D.faults disk.new) result }
{
    let Some(node) = node_of(alloc, disk, path)? else {
        return Ok(());
    };
    nodes.push((path.copy()?, node))?;
    Ok(())
}

// The nodes at these paths.
fn copy_nodes<D: Disk>(
    alloc: Global,
    disk: &mut D,
    paths: &[Path],
) -> Result<Vec<(Path, Node)>, DiskErr>
    ensures same { D.told disk.new ≡ D.told disk.old }
    ensures copies { IfOk result (λ nodes. WhereTold (D.told disk.old)
        (λ h. HasOnly paths.now (tree_of h) (tree_of_last nodes.items))) }
    ensures cause { HasCauseOf DiskErr.Failed (D.faults disk.old) (D.faults disk.new) result }
{
    let mut nodes = Vec::new(alloc);
    for path in paths {
        copy_node(alloc, disk, path, &mut nodes)?;
    }
    Ok(nodes)
}

/// A disk in memory with what is at the directory's path and below it. It lists the paths and reads each node once, and
/// changes nothing. `Failed` where the disk failed, `Memory` where it runs out of memory.
pub(crate) fn copy_of<D: Disk>(
    alloc: Global,
    disk: &mut D,
    dir: &Path,
) -> Result<MemoryDisk, DiskErr>
    ensures same { D.told disk.new ≡ D.told disk.old }
    ensures copies { IfOk result (λ copy. WhereTold (D.told disk.old)
        (λ h. files_below dir.now (tree_of (history_of copy)) ≡ files_below dir.now (tree_of h))) }
    ensures cause { HasCauseOf DiskErr.Failed (D.faults disk.old) (D.faults disk.new) result }
{
    let mut paths = disk.list(alloc, dir)?;
    paths.push(dir.copy()?)?;
    let nodes = copy_nodes(alloc, disk, &paths)?;
    Ok(MemoryDisk::of_tree(alloc, nodes)?)
}
