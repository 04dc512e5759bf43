//! A disk in memory.
ghost use Rattle.std.specs.Prelude.{◌≡◌, Some, IfOk};
ghost use Rattle.std.specs.Option.{option_map};
ghost use Rattle.std.specs.FinMap.{empty};
ghost use Rattle.outside.specs.Tree.{node_at};
ghost use Rattle.outside.specs.History.{begun, tree_of, IsCrashState};
ghost use Rattle.disk_memory.specs.Nodes.{node_of, tree_in, tree_of_last};
ghost use Rattle.disk_memory.specs.Crash.{IsPicked};

use crate::map::map_of;
use crate::plan::Plan;
use crate::record::Record;
use crate::{Node, Pick};
use outside::Path;
use std::alloc::{AllocError, Global};
use std::collections::BTreeMap;

/// A disk in memory, which fails at the calls that are set to fail, and crashes.
///
/// It keeps each change, so a long run takes memory in proportion to all that was written. A change that finds
/// no memory to be kept is a fault of its call and is not made.
#[derive(Drop)]
pub struct MemoryDisk {
    pub(crate) record: Record,
    pub(crate) plan: Plan,
}

impl MemoryDisk {
    ghost use Rattle.disk_memory.specs.Disk.{history_of, plan_of, IsFresh};

    // A disk over these nodes.
    fn over(alloc: Global, nodes: BTreeMap<Path, Node>) -> Result<MemoryDisk, AllocError>
        ensures history { IfOk result (λ disk. history_of disk ≡ begun (tree_in nodes)) }
        ensures plan { IfOk result (λ disk. IsFresh (plan_of disk)) }
    {
        Ok(MemoryDisk {
            record: Record::over(alloc, nodes)?,
            plan: Plan::new(alloc),
        })
    }

    /// A disk with nothing on it, on which no call fails, or out of memory.
    pub fn new(alloc: Global) -> Result<MemoryDisk, AllocError>
        ensures history { IfOk result (λ disk. history_of disk ≡ begun empty) }
        ensures plan { IfOk result (λ disk. IsFresh (plan_of disk)) }
    {
        MemoryDisk::over(alloc, BTreeMap::new(alloc))
    }

    /// A disk with exactly these nodes, synced, on which no call fails; of a path that is named twice the last
    /// entry counts.
    ///
    /// Its only error is out of memory.
    pub fn of_tree(alloc: Global, nodes: Vec<(Path, Node)>) -> Result<MemoryDisk, AllocError>
        ensures history { IfOk result (λ disk. history_of disk ≡ begun (tree_of_last nodes.items)) }
        ensures plan { IfOk result (λ disk. IsFresh (plan_of disk)) }
    {
        MemoryDisk::over(alloc, map_of(alloc, nodes)?)
    }

    /// Makes the calls with these numbers fail, in place of those named before. Calls are counted from 1.
    ///
    /// A `write` that fails leaves what was there, and a crash may tear it; the other calls that fail change nothing.
    pub fn fail_calls(&mut self, which: Vec<u64>)
        ensures history { history_of self.new ≡ history_of self.old }
        ensures plan { plan_of self.new ≡ record (plan_of self.old) { failing = which } }
    {
        self.plan.failing = which;
    }

    /// Makes each call after the first k fail.
    pub fn stop_after(&mut self, k: u64)
        ensures history { history_of self.new ≡ history_of self.old }
        ensures plan { plan_of self.new ≡ record (plan_of self.old) { stop = Some k } }
    {
        self.plan.stop = Some(k);
    }

    /// How many calls were made so far.
    pub fn calls(&self) -> u64
        ensures { result ≡ (plan_of self.now).calls }
    {
        self.plan.calls
    }

    /// What is at the path now, or None exactly where nothing is.
    pub fn node(&self, path: &Path) -> Option<&Node>
        ensures { option_map (λ node. node_of node.now) result ≡ node_at (tree_of (history_of self.now)) path.now }
    {
        self.record.node(path)
    }

    /// A fresh disk over what a crash at this moment leaves, by one pick for each path that was touched since the last
    /// sync, in the order of paths. Where picks are missing the present node is left. No call of it fails.
    ///
    /// Its only error is out of memory. It goes through all changes since the disk began, each in logarithmic time.
    #[tactic(auto, using(crate::proofs::CrashStates::picked_state))]
    pub fn crash(&self, picks: &[Pick]) -> Result<MemoryDisk, AllocError>
        ensures settled { IfOk result (λ disk. history_of disk ≡ begun (tree_of (history_of disk))) }
        ensures picked { IfOk result (λ disk. IsPicked (history_of self.now) picks.now (tree_of (history_of disk))) }
        ensures crash_state { IfOk result (λ disk. IsCrashState (history_of self.now) (tree_of (history_of disk))) }
        ensures plan { IfOk result (λ disk. IsFresh (plan_of disk)) }
    {
        let crashed = self.record.crash_state(picks)?;
        MemoryDisk::over(self.record.allocator(), crashed)
    }
}
