//! Which calls of a disk fail.
ghost use Rattle.std.specs.Prelude.{◌≡◌, ◌≤◌, [], None};

use std::alloc::Global;

/// How many calls were made, how many have failed, and which are to fail.
#[derive(Debug, Drop)]
pub struct Plan {
    /// How many calls were made.
    pub calls: u64,
    /// How many have failed.
    pub faults: u64,
    /// The numbers of calls that are to fail, counted from 1.
    pub failing: Vec<u64>,
    /// How many calls there are before all fail, if so.
    pub stop: Option<u64>,
}

impl Plan {
    ghost use Rattle.disk_memory.specs.Plan.{fails_at, next_call, counted, raised};

    /// No call is made yet, and none is to fail.
    pub fn new(alloc: Global) -> Plan
        ensures calls { result.calls ≡ 0 }
        ensures faults { result.faults ≡ 0 }
        ensures failing { result.failing.items ≡ [] }
        ensures stop { result.stop ≡ None }
    {
        Plan {
            calls: 0,
            faults: 0,
            failing: Vec::new(alloc),
            stop: None,
        }
    }

    /// Counts a call, and says whether it is to fail; then it has failed.
    pub fn begin(&mut self) -> bool
        ensures refused { result ≡ fails_at self.old (next_call self.old) }
        ensures counted { self.new ≡ counted result self.old }
        ensures later { self.old.faults ≤ self.new.faults }
    {
        self.calls = self.calls.saturating_add(1);
        let stopped = self.stop.is_some_and(|last| last < self.calls);
        let refused = stopped || self.failing.contains(&self.calls);
        if refused {
            self.fault();
        }
        refused
    }

    /// The call has failed.
    pub fn fault(&mut self)
        ensures raised { self.new ≡ raised self.old }
        ensures later { self.old.faults ≤ self.new.faults }
    {
        self.faults = self.faults.saturating_add(1);
    }
}
