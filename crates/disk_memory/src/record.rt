//! What a disk in memory went through.
ghost use Rattle.std.specs.Prelude.{◌≡◌, ◌++◌, ◌∷◌, [], OnOk, OnErr, IfOk};
ghost use Rattle.disk_memory.specs.declared.change.Change.TheVariants.{Put};
ghost use Rattle.disk_memory.specs.Nodes.{node_of, tree_in};
ghost use Rattle.outside.specs.History.{tree_of};
ghost use Rattle.disk_memory.specs.Recorded.{recorded, Mirrors, StaysAgreed};

use crate::change::Change;
use crate::crash::{follow_all, lay_picks};
use crate::map::{copy_of_nodes, paths_below, set_at};
use crate::node::copy_of;
use crate::{Node, Pick};
use key_names::Bytes;
use outside::Path;
use std::alloc::{AllocError, Global};
use std::collections::BTreeMap;

/// The changes of a disk over what was on it first, and with them what is there now.
#[derive(Drop)]
pub struct Record {
    began: BTreeMap<Path, Node>,
    changes: Vec<Change>,
    nodes: BTreeMap<Path, Node>,
    ghost agrees: { Mirrors node_of (tree_of (recorded began changes.items)) nodes },
}

// The change is made and recorded, or neither.
#[tactic(auto, using(crate::proofs::Changes::told))]
fn lay(
    changes: &mut Vec<Change>,
    nodes: &mut BTreeMap<Path, Node>,
    path: &Path,
    node: Option<Node>,
    in_place: bool,
) -> Result<(), AllocError>
    ensures ok { OnOk result (changes.new.items ≡ changes.old.items ++ Put path.now node in_place ∷ []) }
    ensures err { OnErr result (changes.new.items ≡ changes.old.items) }
    ensures agrees { StaysAgreed changes.old.items changes.new.items nodes.old nodes.new }
{
    let change = Change::Put(path.copy()?, copy_of(&node)?, in_place);
    changes.reserve(1)?;
    let _before = set_at(nodes, path.copy()?, node)?;
    changes.push(change).unwrap();
    Ok(())
}

#[tactic(auto, using(crate::proofs::Changes::told, crate::proofs::Calls::tears))]
impl Record {
    ghost use Rattle.std.specs.Prelude.{◌≡◌, Some, false, OnOk, OnErr, IfOk};
    ghost use Rattle.std.specs.Option.{option_map};
    ghost use Rattle.outside.specs.Tree.{file, link, node_at, paths_below};
    ghost use Rattle.outside.specs.History.{begun, next, synced, tree_of};
    ghost use Rattle.disk_memory.specs.Nodes.{node_of, put, tree_in};
    ghost use Rattle.disk_memory.specs.Crash.{IsPicked, MayTear};
    ghost use Rattle.disk_memory.specs.Disk.{told_by};

    /// These nodes are on the disk, and nothing was changed yet.
    pub fn over(alloc: Global, began: BTreeMap<Path, Node>) -> Result<Record, AllocError>
        ensures { IfOk result (λ made. told_by made ≡ begun (tree_in began)) }
    {
        let nodes = copy_of_nodes(alloc, &began)?;
        Ok(Record {
            began,
            changes: Vec::new(alloc),
            nodes,
        })
    }

    /// What is at the path.
    pub fn node(&self, path: &Path) -> Option<&Node>
        ensures { option_map (λ node. node_of node.now) result ≡ node_at (tree_of (told_by self.now)) path.now }
    {
        self.nodes.get(path)
    }

    /// Puts the node at the path, in place or at once.
    pub fn put(&mut self, path: &Path, node: Option<Node>, in_place: bool) -> Result<(), AllocError>
        ensures ok { OnOk result (told_by self.new ≡ next (put in_place path.now (option_map node_of node)) (told_by self.old)) }
        ensures err { OnErr result (told_by self.new ≡ told_by self.old) }
    {
        lay(&mut self.changes, &mut self.nodes, path, node, in_place)
    }

    /// Makes the path a file with these bytes, in place or at once.
    pub fn put_file(&mut self, path: &Path, bytes: &[u8], in_place: bool) -> Result<(), AllocError>
        ensures ok { OnOk result (told_by self.new ≡ next (put in_place path.now (Some (file bytes.now))) (told_by self.old)) }
        ensures err { OnErr result (told_by self.new ≡ told_by self.old) }
    {
        let copy = Bytes::of(bytes.to_vec(self.allocator())?);
        self.put(path, Some(Node::File(copy)), in_place)
    }

    /// Makes the path a link with this text, at once.
    pub fn put_link(&mut self, path: &Path, text: &[u8]) -> Result<(), AllocError>
        ensures ok { OnOk result (told_by self.new ≡ next (put false path.now (Some (link text.now))) (told_by self.old)) }
        ensures err { OnErr result (told_by self.new ≡ told_by self.old) }
    {
        let copy = Bytes::of(text.to_vec(self.allocator())?);
        self.put(path, Some(Node::Link(copy)), false)
    }

    /// Leaves what is at the path, so that a crash may tear it. Where it runs out of memory nothing is noted.
    pub fn tear(&mut self, path: &Path)
        ensures { MayTear path.now (told_by self.old) (told_by self.new) }
    {
        if let Ok(node) = self.copy_at(path) {
            let _ = self.put(path, node, true);
        }
    }

    // What is at the path, once more.
    fn copy_at(&self, path: &Path) -> Result<Option<Node>, AllocError>
        ensures { IfOk result (λ node. option_map node_of node ≡ node_at (tree_of (told_by self.now)) path.now) }
    {
        match self.node(path) {
            Some(node) => Ok(Some(node.copy()?)),
            None => Ok(None),
        }
    }

    /// What is there is on the disk.
    pub fn sync(&mut self) -> Result<(), AllocError>
        ensures ok { OnOk result (told_by self.new ≡ next synced (told_by self.old)) }
        ensures err { OnErr result (told_by self.new ≡ told_by self.old) }
    {
        self.changes.push(Change::Synced)?;
        Ok(())
    }

    /// The paths strictly below the path, rising.
    pub fn paths_below(&self, alloc: Global, path: &Path) -> Result<Vec<Path>, AllocError>
        ensures { IfOk result (λ found. found.items ≡ paths_below path.now (tree_of (told_by self.now))) }
    {
        paths_below(alloc, path, &self.nodes)
    }

    /// What a crash leaves, by the picks for the paths that were touched since the last sync, in the order of paths.
    pub fn crash_state(&self, picks: &[Pick]) -> Result<BTreeMap<Path, Node>, AllocError>
        ensures { IfOk result (λ nodes. IsPicked (told_by self.now) picks.now (tree_in nodes)) }
    {
        let alloc = self.allocator();
        let mut nodes = copy_of_nodes(alloc, &self.began)?;
        let mut touches = BTreeMap::new(alloc);
        follow_all(&mut nodes, &mut touches, &self.changes)?;
        lay_picks(&mut nodes, &touches, picks)?;
        Ok(nodes)
    }

    /// Where its memory comes from.
    pub fn allocator(&self) -> Global {
        *self.changes.allocator()
    }
}
