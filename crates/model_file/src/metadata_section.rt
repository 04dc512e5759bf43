//! The section `metadata`.
ghost use Rattle.std.specs.Prelude.{◌≡◌, [], ◌∷◌, ℕ, List, ◌≢◌, false, IsTrue, IfOk, IfErr, OnOk, IfSome, IfNone, codes, flat_map};
ghost use Rattle.toml.specs.View.{table_view};
ghost use Rattle.key_names.specs.Key.{is_prefix};
ghost use Rattle.settings_tree.specs.Content.{settings_key};
ghost use Rattle.model_file.specs.Entries.{members_entries};
ghost use Rattle.model_file.specs.Checks.{metadata_checks, meta_checks, key_checks, meta_key, all_but_last, last_name, section_entries};
ghost use Rattle.model_file.specs.Contents.{with_metadata, scalars};
ghost use Rattle.settings_maps.specs.Maps.{with_value};
ghost use Rattle.settings_maps.specs.TxName.{is_meta_name};
ghost use Rattle.model_file.specs.declared.model_error.ModelKind.TheVariants.{BadMetadata};
ghost use Rattle.toml_values.specs.declared.located_fault.LocatedFault.TheVariants.{Memory};
ghost use Rattle.model_file.specs.Rows.{RowTexts};
ghost use Rattle.model_file.specs.Refused.{Passes, Refuses, IsAt};

use crate::ModelKind;
use crate::document::section;
use crate::entry::Entry;
use crate::found::Found;
use crate::key_path::key_of;
use crate::located_fault::refused;
use crate::walk::entries_of;
use json_trees::Scalar;
use key_names::{Key, Text};
use settings_maps::is_meta_name;
use settings_tree::Content;
use std::alloc::Global;
use toml::Table;
use toml_values::LocatedFault;

/// Puts the metadata of the document into the content.
pub fn put_metadata(
    alloc: Global,
    document: &Table,
    content: &mut Content,
) -> Result<(), LocatedFault<ModelKind>>
    ensures passes { (rows : RowTexts)
        → OnOk result (Passes rows (metadata_checks (table_view document.now))) }
    ensures put { OnOk result
        (content.new ≡ record content.old {
          metadata = with_metadata (scalars (section_entries (codes "metadata") (table_view document.now)))
              content.old.metadata;
        }) }
    ensures refused { (rows : RowTexts)
        → IfErr result (Refuses rows (metadata_checks (table_view document.now))) }
{
    match section(alloc, document, "metadata")? {
        Some(table) => put_table(alloc, table, content),
        None => Ok(()),
    }
}

fn put_table(
    alloc: Global,
    table: &Table,
    content: &mut Content,
) -> Result<(), LocatedFault<ModelKind>>
    ensures passes { (rows : RowTexts)
        → OnOk result (Passes rows (flat_map meta_checks (members_entries [] (table_view table.now)))) }
    ensures put { OnOk result
        (content.new ≡ record content.old { metadata = with_metadata (scalars (members_entries [] (table_view table.now))) content.old.metadata }) }
    ensures refused { (rows : RowTexts)
        → IfErr result (Refuses rows (flat_map meta_checks (members_entries [] (table_view table.now)))) }
{
    let entries = entries_of(alloc, table)?;
    put_entries(alloc, &entries, content)
}

fn put_entries(
    alloc: Global,
    entries: &[Entry],
    content: &mut Content,
) -> Result<(), LocatedFault<ModelKind>>
    ensures passes { (rows : RowTexts) → OnOk result (Passes rows (flat_map meta_checks entries.now)) }
    ensures put { OnOk result
        (content.new ≡ record content.old { metadata = with_metadata (scalars entries.now) content.old.metadata }) }
    ensures refused { (rows : RowTexts) → IfErr result (Refuses rows (flat_map meta_checks entries.now)) }
{
    for entry in entries {
        put_entry(alloc, entry, content)?;
    }
    Ok(())
}

fn put_entry(
    alloc: Global,
    entry: &Entry,
    content: &mut Content,
) -> Result<(), LocatedFault<ModelKind>>
    ensures passes { (rows : RowTexts) → OnOk result (Passes rows (meta_checks entry.now)) }
    ensures put { OnOk result
        (content.new ≡ record content.old { metadata = with_metadata (scalars (entry.now ∷ [])) content.old.metadata }) }
    ensures refused { (rows : RowTexts) → IfErr result (Refuses rows (meta_checks entry.now)) }
{
    let key = key_at(alloc, entry)?;
    match &entry.found {
        Found::Table => Ok(()),
        Found::Value(value) => put_value(alloc, key, &entry.path, value, content),
        Found::Other => Err(refused(alloc, ModelKind::BadValue, "metadata", &entry.path)),
    }
}

// Puts metadata of the key under the path's last name.
fn put_value(
    alloc: Global,
    key: Key,
    path: &[Text],
    value: &Scalar,
    content: &mut Content,
) -> Result<(), LocatedFault<ModelKind>>
    ensures named { OnOk result (IsTrue (is_meta_name (last_name path.now))) }
    ensures put { OnOk result
        (content.new ≡ record content.old { metadata = with_value content.old.metadata key (last_name path.now) value.now }) }
    ensures refused { IfErr result (IsAt BadMetadata (codes "metadata" ∷ path.now)) }
    ensures cause { IfErr result (λ e. e ≢ Memory → is_meta_name (last_name path.now) ≡ false) }
{
    match meta_name_of(path) {
        Some(name) => {
            content.put_meta(key, name.copy()?, value.copy()?)?;
            Ok(())
        }
        None => Err(refused(alloc, ModelKind::BadMetadata, "metadata", path)),
    }
}

// The last name of the path, None where it is no metadata name.
fn meta_name_of(path: &[Text]) -> Option<&Text>
    ensures name { IfSome result (λ name. (name.now ≡ last_name path.now) × IsTrue (is_meta_name name.now)) }
    ensures none { IfNone result (is_meta_name (last_name path.now) ≡ false) }
{
    match path.split_last() {
        Some((name, _)) => {
            if is_meta_name(name.as_str().as_bytes()) {
                Some(name)
            } else {
                None
            }
        }
        None => None,
    }
}

// The key that the entry's path is, or that leads to its value.
fn key_at(alloc: Global, entry: &Entry) -> Result<Key, LocatedFault<ModelKind>>
    ensures key { IfOk result (λ key. key ≡ meta_key entry.now) }
    ensures passes { (rows : RowTexts) → OnOk result (Passes rows (key_checks entry.now)) }
    ensures refused { (rows : RowTexts) → IfErr result (Refuses rows (key_checks entry.now)) }
{
    let Some(names) = behind_settings(key_names(entry)) else {
        return Err(refused(alloc, ModelKind::BadMetadata, "metadata", &entry.path));
    };
    match key_of(alloc, "settings", names)? {
        Some(key) => Ok(key),
        None => Err(refused(alloc, ModelKind::BadKey, "metadata", &entry.path)),
    }
}

// The names after the first, None where that isn't `settings`.
fn behind_settings(names: &[Text]) -> Option<&[Text]>
    ensures names { IfSome result (λ rest. names.now ≡ codes "settings" ∷ rest.now) }
    ensures none { IfNone result (is_prefix settings_key names.now ≡ false) }
{
    match names.split_first() {
        Some((first, rest)) => {
            if first.as_str() == "settings" {
                Some(rest)
            } else {
                None
            }
        }
        None => None,
    }
}

// The names of the entry's key.
fn key_names(entry: &Entry) -> &[Text]
    ensures { result.now ≡ meta_key entry.now }
{
    match &entry.found {
        Found::Table => &entry.path,
        Found::Value(_) => all_but_last(&entry.path),
        Found::Other => all_but_last(&entry.path),
    }
}

fn all_but_last(path: &[Text]) -> &[Text]
    ensures { result.now ≡ all_but_last path.now }
{
    match path.split_last() {
        Some((_, before)) => before,
        None => path,
    }
}
