//! The world in memory, and how a store begins and moves.
ghost use Rattle.std.specs.Prelude.{◌≡◌, List};
ghost use Rattle.settings_machine.specs.Typed.{IsTypedHeld};
ghost use Rattle.typed_settings.specs.declared.row.Row.{Row};
ghost use Rattle.plain_machine.specs.Steps.{IsMoved};
ghost use Rattle.plain_machine.specs.Worlds.{world_of, first_world};

use crate::ran::Ran;
use key_names::Bytes;
use outside::Path;
use settings_machine::Job;
use settings_tree::{Content, Held, Owed, PendMaps};
use std::alloc::Global;
use std::collections::BTreeMap;
use version_links::Version;

/// A world in memory, of format 2.
#[derive(Drop)]
pub struct PlainMachine {
    /// The version of the store.
    pub version: Version,
    /// What the store holds.
    pub held: Held,
    /// The job.
    pub job: Job,
    /// The configuration files.
    pub etc: BTreeMap<Path, Bytes>,
    /// The programs that were run, the first one first.
    pub runs: Vec<Ran>,
}

impl PlainMachine {
    /// A machine whose store of this version has begun: nothing is held, all is owed, no file was written and no program
    /// run. It takes no memory.
    pub fn new(alloc: Global, version: Version) -> PlainMachine
        ensures begun { world_of result ≡ first_world version }
        ensures typed { (types : List Row) → IsTypedHeld types result.held }
    {
        PlainMachine {
            version,
            held: Held {
                live: Content::new(alloc),
                pending: PendMaps::new(alloc),
                owed: Owed::All,
                image: Bytes::of(Vec::new(alloc)),
            },
            job: Job::Idle,
            etc: BTreeMap::new(alloc),
            runs: Vec::new(alloc),
        }
    }

    /// Moves to the version with what is held there; all is owed, and no job runs. It takes no memory.
    pub fn migrate(&mut self, version: Version, held: Held)
        ensures moved { IsMoved self.old version held self.new }
        ensures typed { (types : List Row) → IsTypedHeld types held → IsTypedHeld types self.new.held }
    {
        self.version = version;
        self.held = held;
        self.held.owed = Owed::All;
        self.job = Job::Idle;
    }
}
