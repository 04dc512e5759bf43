//! Releases.
ghost use Rattle.std.specs.Prelude.{◌≡◌, IsTrue};
ghost use Rattle.std.specs.List.{list_all};
ghost use Rattle.release_file.specs.Release.{are_rising, leads_on, are_named_rising, is_plain, names_known};

use crate::transition::Transition;
use crate::work::{Named, Work};

/// The steps between versions and the migrations that a release knows.
#[derive(Debug, Drop)]
pub struct Release {
    /// The steps, rising by where they begin and then by where they end.
    pub transitions: Vec<Transition>,
    /// The migrations, rising by name.
    pub migrations: Vec<Named>,
    pub ghost transitions_rise: { IsTrue (are_rising transitions.items) },
    pub ghost migrations_rise: { IsTrue (are_named_rising migrations.items) },
    pub ghost lead_on: { IsTrue (list_all leads_on transitions.items) },
    pub ghost names_are_known: { IsTrue (list_all (names_known migrations.items) transitions.items) },
}

fn is_plain(migration: &Named) -> bool
    ensures { result ≡ is_plain migration.now }
{
    match migration.work {
        Work::Plain(_) => true,
        Work::Program { .. } => false,
    }
}

impl Release {
    /// Whether each of its migrations is a mapping, and none a program.
    pub fn is_plain(&self) -> bool
        ensures { result ≡ list_all is_plain self.now.migrations.items }
    {
        self.migrations.iter().all(is_plain)
    }
}
