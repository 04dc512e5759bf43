//! The sections of values: `settings`, `services` and `configuration-files`.
ghost use Rattle.std.specs.Prelude.{◌≡◌, [], ◌∷◌, ◌≢◌, ℕ, List, IfErr, OnOk, flat_map};
ghost use Rattle.toml.specs.View.{table_view};
ghost use Rattle.typed_settings.specs.Row.{IsTableOf, IsTyped, IsPrefixFree};
ghost use Rattle.model_file.specs.Checks.{section_checks, value_checks};
ghost use Rattle.model_file.specs.Contents.{with_section, with_values, scalars};
ghost use Rattle.model_file.specs.Entries.{members_entries};
ghost use Rattle.model_file.specs.Rows.{RowTexts};
ghost use Rattle.model_file.specs.Model.{AreTyped};
ghost use Rattle.model_file.specs.Refused.{Passes, Refuses, IsAt};
ghost use Rattle.model_file.specs.declared.model_error.ModelKind.TheVariants.{IllTyped};
ghost use Rattle.toml_values.specs.declared.located_fault.LocatedFault.TheVariants.{Memory};

use crate::ModelKind;
use crate::document::section;
use crate::entry::Entry;
use crate::found::Found;
use crate::key_path::key_of;
use crate::located_fault::refused;
use crate::walk::entries_of;
use json_trees::Scalar;
use key_names::{Key, Text};
use settings_tree::Content;
use std::alloc::Global;
use toml::Table;
use toml_values::LocatedFault;
use typed_settings::{TypeError, Types};

/// Puts the values of the section of this name into the content, whose values the types take.
pub fn put_section(
    alloc: Global,
    document: &Table,
    name: &str,
    types: &Types,
    content: &mut Content,
) -> Result<(), LocatedFault<ModelKind>>
    requires free { IsPrefixFree types.now }
    requires typed { AreTyped types.now content.old.values }
    requires strong { content.old.weak ≡ [] }
    ensures passes { (rows : RowTexts)
        → IsTableOf rows types.now → OnOk result (Passes rows (section_checks name.now (table_view document.now))) }
    ensures put { OnOk result
        (content.new ≡ record content.old { values = with_section name.now (table_view document.now) content.old.values }) }
    ensures typed { OnOk result (AreTyped types.now content.new.values) }
    ensures refused { (rows : RowTexts)
        → IsTableOf rows types.now → IfErr result (Refuses rows (section_checks name.now (table_view document.now))) }
{
    match section(alloc, document, name)? {
        Some(table) => put_table(alloc, name, table, types, content),
        None => Ok(()),
    }
}

fn put_table(
    alloc: Global,
    name: &str,
    table: &Table,
    types: &Types,
    content: &mut Content,
) -> Result<(), LocatedFault<ModelKind>>
    requires free { IsPrefixFree types.now }
    requires typed { AreTyped types.now content.old.values }
    requires strong { content.old.weak ≡ [] }
    ensures passes { (rows : RowTexts)
        → IsTableOf rows types.now → OnOk result (Passes rows (flat_map (value_checks name.now) (members_entries [] (table_view table.now)))) }
    ensures put { OnOk result
        (content.new ≡ record content.old { values = with_values name.now (scalars (members_entries [] (table_view table.now))) content.old.values }) }
    ensures typed { OnOk result (AreTyped types.now content.new.values) }
    ensures refused { (rows : RowTexts)
        → IsTableOf rows types.now → IfErr result (Refuses rows (flat_map (value_checks name.now) (members_entries [] (table_view table.now)))) }
{
    let entries = entries_of(alloc, table)?;
    put_entries(alloc, name, &entries, types, content)
}

fn put_entries(
    alloc: Global,
    name: &str,
    entries: &[Entry],
    types: &Types,
    content: &mut Content,
) -> Result<(), LocatedFault<ModelKind>>
    requires free { IsPrefixFree types.now }
    requires typed { AreTyped types.now content.old.values }
    requires strong { content.old.weak ≡ [] }
    ensures passes { (rows : RowTexts)
        → IsTableOf rows types.now → OnOk result (Passes rows (flat_map (value_checks name.now) entries.now)) }
    ensures put { OnOk result
        (content.new ≡ record content.old { values = with_values name.now (scalars entries.now) content.old.values }) }
    ensures typed { OnOk result (AreTyped types.now content.new.values) }
    ensures refused { (rows : RowTexts)
        → IsTableOf rows types.now → IfErr result (Refuses rows (flat_map (value_checks name.now) entries.now)) }
{
    for entry in entries {
        put_entry(alloc, name, entry, types, content)?;
    }
    Ok(())
}

#[tactic(auto, using(crate::proofs::ValueChecks::key_refuses))]
fn put_entry(
    alloc: Global,
    name: &str,
    entry: &Entry,
    types: &Types,
    content: &mut Content,
) -> Result<(), LocatedFault<ModelKind>>
    requires free { IsPrefixFree types.now }
    requires typed { AreTyped types.now content.old.values }
    requires strong { content.old.weak ≡ [] }
    ensures passes { (rows : RowTexts)
        → IsTableOf rows types.now → OnOk result (Passes rows (value_checks name.now entry.now)) }
    ensures put { OnOk result
        (content.new ≡ record content.old { values = with_values name.now (scalars (entry.now ∷ [])) content.old.values }) }
    ensures typed { OnOk result (AreTyped types.now content.new.values) }
    ensures refused { (rows : RowTexts)
        → IsTableOf rows types.now → IfErr result (Refuses rows (value_checks name.now entry.now)) }
{
    let Some(key) = key_of(alloc, name, &entry.path)? else {
        return Err(refused(alloc, ModelKind::BadKey, name, &entry.path));
    };
    match &entry.found {
        Found::Table => Ok(()),
        Found::Value(value) => {
            check(alloc, name, &entry.path, &key, value, types)?;
            content.put(key, value.copy()?)?;
            Ok(())
        }
        Found::Other => Err(refused(alloc, ModelKind::BadValue, name, &entry.path)),
    }
}

// The types take the value at the key, which the path is.
fn check(
    alloc: Global,
    name: &str,
    path: &[Text],
    key: &Key,
    value: &Scalar,
    types: &Types,
) -> Result<(), LocatedFault<ModelKind>>
    ensures taken { OnOk result (IsTyped types.now key.now value.now) }
    ensures refused { IfErr result (λ e. IsAt IllTyped (name.now ∷ path.now) e) }
    ensures cause { IfErr result (λ e. e ≢ Memory → IsTyped types.now key.now value.now → ⊥) }
{
    match types.check(key, value) {
        Ok(()) => Ok(()),
        Err(TypeError::Memory) => Err(LocatedFault::Memory),
        Err(_) => Err(refused(alloc, ModelKind::IllTyped, name, path)),
    }
}
