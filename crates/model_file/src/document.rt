//! The sections of a document.
ghost use Rattle.std.specs.Prelude.{◌≡◌, ◌∷◌, [], ℕ, List, IfOk, IfErr, OnOk};
ghost use Rattle.std.specs.Option.{option_copied};
ghost use Rattle.toml.specs.View.{table_view};
ghost use Rattle.toml_values.specs.Document.{members_in};
ghost use Rattle.model_file.specs.Document.{section_members};
ghost use Rattle.model_file.specs.Checks.{name_checks, table_check};
ghost use Rattle.model_file.specs.Rows.{RowTexts};
ghost use Rattle.model_file.specs.Refused.{Passes, Refuses};

use crate::ModelKind;
use crate::located_fault::refused;
use std::alloc::Global;
use toml::Table;
use toml_values::{LocatedFault, other_name};

/// Checks that each top-level name is that of a section.
pub fn check_names(alloc: Global, document: &Table) -> Result<(), LocatedFault<ModelKind>>
    ensures passes { (rows : RowTexts) → OnOk result (Passes rows (name_checks (table_view document.now))) }
    ensures refused { (rows : RowTexts)
        → IfErr result (Refuses rows (name_checks (table_view document.now))) }
{
    let sections = [
        "os",
        "types",
        "settings",
        "services",
        "configuration-files",
        "metadata",
    ];
    match other_name(document, &sections) {
        Some(name) => Err(refused(alloc, ModelKind::UnknownSection, name, &[])),
        None => Ok(()),
    }
}

/// The table of a section, None where the section is missing.
pub fn section<'a>(
    alloc: Global,
    document: &'a Table,
    name: &str,
) -> Result<Option<&'a Table>, LocatedFault<ModelKind>>
    ensures passes { (rows : RowTexts)
        → OnOk result (Passes rows (table_check name.now (table_view document.now) ∷ [])) }
    ensures members { IfOk result
        (λ found. section_members name.now (table_view document.now) ≡ members_in (option_copied found)) }
    ensures refused { (rows : RowTexts)
        → IfErr result (Refuses rows (table_check name.now (table_view document.now) ∷ [])) }
{
    let Some(value) = document.get(name) else {
        return Ok(None);
    };
    match value.as_table() {
        Some(table) => Ok(Some(table)),
        None => Err(refused(alloc, ModelKind::NotTable, name, &[])),
    }
}
