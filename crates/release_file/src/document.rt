//! The sections of a document.
ghost use Rattle.std.specs.Prelude.{◌≡◌, ◌∷◌, [], IfOk, IfErr, OnOk, is_some};
ghost use Rattle.toml.specs.View.{view, table_view};
ghost use Rattle.toml_values.specs.Values.{text_of};
ghost use Rattle.version_links.specs.Versions.{version_of};
ghost use Rattle.release_file.specs.Checks.{name_checks, section_check, section_members, version_check};
ghost use Rattle.release_file.specs.Fields.{read_by};
ghost use Rattle.release_file.specs.Refused.{Passes, Refuses};
ghost use Rattle.toml_values.specs.Document.{members_in};
ghost use Rattle.std.specs.Option.{option_copied};

use crate::field::field;
use crate::release_error::ReleaseKind;
use std::alloc::{AllocError, Global};
use toml::{Table, Value};
use toml_values::{LocatedFault, other_name, refused, text_of};
use version_links::Version;

/// Checks that each top-level name is that of a section.
pub fn check_names(alloc: Global, document: &Table) -> Result<(), LocatedFault<ReleaseKind>>
    ensures passes { OnOk result (Passes (name_checks (table_view document.now))) }
    ensures refused { IfErr result (Refuses (name_checks (table_view document.now))) }
{
    match other_name(document, &["version", "migrations", "migration"]) {
        Some(name) => Err(refused(alloc, ReleaseKind::UnknownSection, name)),
        None => Ok(()),
    }
}

// Whether the value is a text of three numbers.
fn is_version(alloc: Global, value: &Value) -> Result<bool, AllocError>
    ensures { IfOk result (λ is. is ≡ is_some (read_by version_of (text_of (view value.now)))) }
{
    match text_of(value)? {
        Some(text) => match Version::read(alloc, text.as_str())? {
            Some(_) => Ok(true),
            None => Ok(false),
        },
        None => Ok(false),
    }
}

/// Checks that the version, where there is one, is a text of three numbers.
pub fn check_version(alloc: Global, document: &Table) -> Result<(), LocatedFault<ReleaseKind>>
    ensures passes { OnOk result (Passes (version_check (table_view document.now) ∷ [])) }
    ensures refused { IfErr result (Refuses (version_check (table_view document.now) ∷ [])) }
{
    let Some(value) = field(document, "version") else {
        return Ok(());
    };
    if is_version(alloc, value)? {
        Ok(())
    } else {
        Err(refused(alloc, ReleaseKind::BadVersion, "version"))
    }
}

/// The table of this name, None where it is missing or no table.
pub fn table_in<'a>(document: &'a Table, name: &str) -> Option<&'a Table>
    ensures { section_members name.now (table_view document.now) ≡ members_in (option_copied result) }
{
    match field(document, name) {
        Some(value) => value.as_table(),
        None => None,
    }
}

/// The table of a section, None where the section is missing. One that is no table is refused with this kind.
pub fn section<'a>(
    alloc: Global,
    document: &'a Table,
    name: &str,
    kind: ReleaseKind,
) -> Result<Option<&'a Table>, LocatedFault<ReleaseKind>>
    ensures passes { OnOk result (Passes (section_check kind name.now (table_view document.now) ∷ [])) }
    ensures members { IfOk result (λ found. section_members name.now (table_view document.now) ≡ members_in (option_copied found)) }
    ensures refused { IfErr result (Refuses (section_check kind name.now (table_view document.now) ∷ [])) }
{
    let Some(value) = field(document, name) else {
        return Ok(None);
    };
    match value.as_table() {
        Some(table) => Ok(Some(table)),
        None => Err(refused(alloc, kind, name)),
    }
}
