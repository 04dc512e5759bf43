//! The release of a text.
ghost use Rattle.std.specs.Prelude.{◌≡◌, ◌≢◌, ℕ, List, IfOk, IfErr, MatchResult, OnOk};
ghost use Rattle.toml.specs.View.{table_view};
ghost use Rattle.release_file.specs.Checks.{checks};
ghost use Rattle.release_file.specs.Reading.{Spells, IsFault, IsReleaseOf};
ghost use Rattle.release_file.specs.Refused.{Passes, Refuses, RefusesText};
ghost use Rattle.release_file.specs.declared.release_error.ReleaseKind.TheVariants.{Memory};
ghost use Rattle.release_file.specs.declared.release_error.ReleaseKind.{ReleaseKind as Which};
ghost use Rattle.release_file.specs.declared.release.Release.{Release as Made};

use crate::document::{check_names, check_version};
use crate::migrations::migrations_of;
use crate::release::Release;
use crate::release_error::{ReleaseError, ReleaseKind};
use crate::transitions::transitions_of;
use key_names::Text;
use std::alloc::Global;
use toml::Table;
use toml_values::{LocatedFault, table_of};

impl Release {
    /// The release that a text is. Each section may be missing, and is then empty.
    ///
    /// The first fault is answered, at the entry's name: `NotToml` at `-` where `toml` doesn't read the text;
    /// `UnknownSection` at the least top-level name that is none; `BadVersion`; `BadMigration`, where a field of a
    /// migration is missing, unknown or wrong; `BadPair`, where a transition has no name of two versions, the first below
    /// the second, or no list of texts; and `UnknownMigration`, at the first transition that names a migration that isn't
    /// there. Entries go in the order of TOML's table, which is that of the names' bytes. `Memory` may come at any place.
    /// It takes time linear in the text, up to a logarithm in the number of its entries.
    pub fn read(alloc: Global, text: &[u8]) -> Result<Release, ReleaseError>
        ensures ok { IfOk result (Spells text.now) }
        ensures fault { IfErr result (λ e. e.kind ≢ Memory → IsFault text.now e.kind e.at) }
        ensures exact { (kind : Which) (at : List ℕ) → IsFault text.now kind at
            → MatchResult result (λ _. ⊥) (λ e. e.kind ≢ Memory → (e.kind ≡ kind) × (e.at ≡ at)) }
        ensures no_fault { (release : Made) → Spells text.now release → IfErr result (λ e. e.kind ≡ Memory) }
    {
        match release_of(alloc, text) {
            Ok(release) => Ok(release),
            Err(LocatedFault::Fault(kind, at)) => Err(ReleaseError { kind, at }),
            Err(LocatedFault::Memory) => Err(ReleaseError {
                kind: ReleaseKind::Memory,
                at: Text::of(String::new(alloc)),
            }),
        }
    }
}

fn release_of(alloc: Global, text: &[u8]) -> Result<Release, LocatedFault<ReleaseKind>>
    ensures ok { IfOk result (Spells text.now) }
    ensures fault { IfErr result (RefusesText text.now) }
{
    let Some(document) = table_of(alloc, text)? else {
        let at = Text::from_str(alloc, "-")?;
        return Err(LocatedFault::Fault(ReleaseKind::NotToml, at));
    };
    sections_of(alloc, &document)
}

fn sections_of(alloc: Global, document: &Table) -> Result<Release, LocatedFault<ReleaseKind>>
    ensures passes { OnOk result (Passes (checks (table_view document.now))) }
    ensures release { IfOk result (IsReleaseOf (table_view document.now)) }
    ensures refused { IfErr result (Refuses (checks (table_view document.now))) }
{
    check_names(alloc, document)?;
    check_version(alloc, document)?;
    let migrations = migrations_of(alloc, document)?;
    let transitions = transitions_of(alloc, document)?;
    Ok(Release {
        transitions,
        migrations,
    })
}
