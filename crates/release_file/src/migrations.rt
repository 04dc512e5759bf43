//! The section `migration`.
ghost use Rattle.std.specs.Prelude.{◌≡◌, ◌∷◌, [], IfOk, IfErr, OnOk, map};
ghost use Rattle.std.specs.List.Sorted.{IsStrictlySortedBy};
ghost use Rattle.key_names.specs.Order.{bytes_cmp};
ghost use Rattle.toml.specs.View.{view, table_view};
ghost use Rattle.toml_values.specs.Document.{named};
ghost use Rattle.release_file.specs.Checks.{migration, migration_checks, migrations_in};
ghost use Rattle.release_file.specs.Reading.{AreNamed, IsNamed};
ghost use Rattle.release_file.specs.Refused.{Passes, Refuses};

use crate::document::section;
use crate::migration::migration_of;
use crate::release_error::ReleaseKind;
use crate::work::Named;
use key_names::Text;
use std::alloc::Global;
use toml::{Table, Value};
use toml_values::{LocatedFault, refused};

// The migration that an entry spells.
fn named_at(alloc: Global, name: &str, value: &Value) -> Result<Named, LocatedFault<ReleaseKind>>
    ensures passes { OnOk result (Passes (migration (name.now, view value.now) ∷ [])) }
    ensures named { IfOk result (IsNamed (name.now, view value.now)) }
    ensures refused { IfErr result (Refuses (migration (name.now, view value.now) ∷ [])) }
{
    let Some(work) = migration_of(alloc, value)? else {
        return Err(refused(alloc, ReleaseKind::BadMigration, name));
    };
    let name = Text::from_str(alloc, name)?;
    Ok(Named { name, work })
}

// The migrations of a table.
fn migrations_in(alloc: Global, table: &Table) -> Result<Vec<Named>, LocatedFault<ReleaseKind>>
    ensures passes { OnOk result (Passes (map migration (named (table_view table.now)))) }
    ensures migrations { IfOk result (λ migrations. AreNamed (named (table_view table.now)) migrations.items) }
    ensures rising { IfOk result (λ migrations. IsStrictlySortedBy bytes_cmp (map (λ n. n.name) migrations.items)) }
    ensures refused { IfErr result (Refuses (map migration (named (table_view table.now)))) }
{
    let mut migrations = Vec::new(alloc);
    for (name, value) in table.iter() {
        migrations.push(named_at(alloc, name, value)?)?;
    }
    Ok(migrations)
}

/// The migrations of the document, rising by name.
pub fn migrations_of(
    alloc: Global,
    document: &Table,
) -> Result<Vec<Named>, LocatedFault<ReleaseKind>>
    ensures passes { OnOk result (Passes (migration_checks (table_view document.now))) }
    ensures migrations { IfOk result (λ migrations. AreNamed (migrations_in (table_view document.now)) migrations.items) }
    ensures rising { IfOk result (λ migrations. IsStrictlySortedBy bytes_cmp (map (λ n. n.name) migrations.items)) }
    ensures refused { IfErr result (Refuses (migration_checks (table_view document.now))) }
{
    match section(alloc, document, "migration", ReleaseKind::BadMigration)? {
        Some(table) => migrations_in(alloc, table),
        None => Ok(Vec::new(alloc)),
    }
}
