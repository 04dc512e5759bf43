//! The section `os`: the names of the operating system.
ghost use Rattle.std.specs.Prelude.{◌≡◌, ℕ, List, IfOk, IfErr, OnOk, ◌∷◌, [], Some, None, if◌then◌else◌, codes, ◌&&◌, nat_lt, length, map};
ghost use Rattle.std.specs.List.{list_all};
ghost use Rattle.std.specs.Option.{option_copied};
ghost use Rattle.key_names.specs.Segment.{is_bare};
ghost use Rattle.toml.specs.View.{view, table_view};
ghost use Rattle.toml_values.specs.Document.{named};
ghost use Rattle.toml_values.specs.Values.{text_of};
ghost use Rattle.model_file.specs.Checks.{os_check, os_checks};
ghost use Rattle.model_file.specs.Contents.{os_names, os_texts};
ghost use Rattle.model_file.specs.Rows.{RowTexts};
ghost use Rattle.model_file.specs.Refused.{Passes, Refuses, IsAt};
ghost use Rattle.model_file.specs.declared.model_error.ModelKind.TheVariants.{BadOs};

use crate::ModelKind;
use crate::document::section;
use crate::located_fault::refused;
use key_names::{Text, are_bare};
use settings_tree::{Os, OsName};
use std::alloc::{AllocError, Global};
use toml::{Table, Value};
use toml_values::LocatedFault;

/// The names of the operating system, with their texts.
pub fn os_of(alloc: Global, document: &Table) -> Result<Os, LocatedFault<ModelKind>>
    ensures passes { (rows : RowTexts) → OnOk result (Passes rows (os_checks (table_view document.now))) }
    ensures names { IfOk result
        (λ os. map (λ n. (n.name, n.text)) os ≡ os_names (table_view document.now)) }
    ensures refused { (rows : RowTexts) → IfErr result (Refuses rows (os_checks (table_view document.now))) }
{
    match section(alloc, document, "os")? {
        Some(table) => names_of(alloc, table),
        None => Ok(Os::of(Vec::new(alloc))),
    }
}

// A name of the operating system has one or more bare characters.
fn is_os_name(name: &str) -> bool
    ensures { result ≡ (nat_lt 0 (length name.now) && list_all is_bare name.now) }
{
    !name.is_empty() && are_bare(name.as_bytes())
}

// The entries of the section. They rise by name, as a table's entries do.
fn names_of(alloc: Global, table: &Table) -> Result<Os, LocatedFault<ModelKind>>
    ensures passes { (rows : RowTexts)
        → OnOk result (Passes rows (map os_check (named (table_view table.now)))) }
    ensures names { IfOk result
        (λ os. map (λ n. (n.name, n.text)) os ≡ os_texts (named (table_view table.now))) }
    ensures refused { (rows : RowTexts)
        → IfErr result (Refuses rows (map os_check (named (table_view table.now)))) }
{
    let mut names = Vec::new(alloc);
    for (name, value) in table.iter() {
        names.push(name_of(alloc, name, value)?)?;
    }
    Ok(Os::of(names))
}

fn name_of(alloc: Global, name: &str, value: &Value) -> Result<OsName, LocatedFault<ModelKind>>
    ensures passes { (rows : RowTexts)
        → OnOk result (Passes rows (os_check (name.now, view value.now) ∷ [])) }
    ensures name { IfOk result (λ os. (os.name ≡ name.now) × (Some os.text ≡ text_of (view value.now))) }
    ensures refused { (rows : RowTexts)
        → IfErr result (Refuses rows (os_check (name.now, view value.now) ∷ [])) }
{
    let Some(text) = os_text(name, value) else {
        return Err(bad_os(alloc, name));
    };
    Ok(OsName {
        name: Text::from_str(alloc, name)?,
        text: Text::from_str(alloc, text)?,
    })
}

// The text that is under a name of the operating system, None where either is none.
fn os_text<'a>(name: &str, value: &'a Value) -> Option<&'a str>
    ensures { option_copied result ≡ (if nat_lt 0 (length name.now) && list_all is_bare name.now then text_of (view value.now) else None) }
{
    if is_os_name(name) {
        value.as_str()
    } else {
        None
    }
}

fn bad_os(alloc: Global, name: &str) -> LocatedFault<ModelKind>
    ensures { IsAt BadOs (codes "os" ∷ name.now ∷ []) result }
{
    match String::from_str(alloc, name) {
        Ok(name) => refused(alloc, ModelKind::BadOs, "os", &[Text::of(name)]),
        Err(AllocError) => LocatedFault::Memory,
    }
}
