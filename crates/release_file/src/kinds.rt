//! What each kind of migration reads from its table.
ghost use Rattle.std.specs.Prelude.{◌≡◌, ◌≢◌, IfOk, MatchOption, length, map};
ghost use Rattle.toml.specs.View.{table_view};
ghost use Rattle.release_file.specs.Works.{HasNoWork, IsOfKind};

use crate::field::{scalar_field, text_field, texts_field};
use crate::key_field::{key_field, keys_field};
use crate::kind::Kind;
use crate::words::words_field;
use crate::work::Work;
use key_names::Key;
use migrate_helpers::Migration;
use std::alloc::{AllocError, Global};
use toml::Table;

#[tactic(auto, using(crate::proofs::NoWork::no_added_settings))]
fn add_settings(alloc: Global, table: &Table) -> Result<Option<Work>, AllocError>
    ensures { IfOk result (λ found. MatchOption found (HasNoWork Kind.AddSettings (table_view table.now)) (IsOfKind Kind.AddSettings (table_view table.now))) }
{
    let Some(settings) = keys_field(alloc, table, "settings", 2)? else {
        return Ok(None);
    };
    Ok(Some(Work::Plain(Migration::AddSettings { settings })))
}

#[tactic(auto, using(crate::proofs::NoWork::no_added_prefixes))]
fn add_prefixes(alloc: Global, table: &Table) -> Result<Option<Work>, AllocError>
    ensures { IfOk result (λ found. MatchOption found (HasNoWork Kind.AddPrefixes (table_view table.now)) (IsOfKind Kind.AddPrefixes (table_view table.now))) }
{
    let Some(prefixes) = keys_field(alloc, table, "prefixes", 1)? else {
        return Ok(None);
    };
    Ok(Some(Work::Plain(Migration::AddPrefixes { prefixes })))
}

#[tactic(auto, using(crate::proofs::NoWork::no_removed_settings))]
fn remove_settings(alloc: Global, table: &Table) -> Result<Option<Work>, AllocError>
    ensures { IfOk result (λ found. MatchOption found (HasNoWork Kind.RemoveSettings (table_view table.now))
        (IsOfKind Kind.RemoveSettings (table_view table.now))) }
{
    let Some(settings) = keys_field(alloc, table, "settings", 2)? else {
        return Ok(None);
    };
    Ok(Some(Work::Plain(Migration::RemoveSettings { settings })))
}

#[tactic(auto, using(crate::proofs::NoWork::no_replaced_string))]
fn replace_string(alloc: Global, table: &Table) -> Result<Option<Work>, AllocError>
    ensures { IfOk result (λ found. MatchOption found (HasNoWork Kind.ReplaceString (table_view table.now))
        (IsOfKind Kind.ReplaceString (table_view table.now))) }
{
    let Some(setting) = key_field(alloc, table, "setting", 2)? else {
        return Ok(None);
    };
    let Some(old) = text_field(table, "old")? else {
        return Ok(None);
    };
    let Some(new) = text_field(table, "new")? else {
        return Ok(None);
    };
    Ok(Some(Work::Plain(Migration::ReplaceString { setting, old, new })))
}

// The keys of two lists in pairs, None exactly where one list is longer.
fn paired(alloc: Global, old: &[Key], new: &[Key]) -> Result<Option<Vec<(Key, Key)>>, AllocError>
    ensures { IfOk result (λ found. MatchOption found (length old.now ≢ length new.now)
        (λ pairs. (map (λ pair. pair.0) pairs.items ≡ old.now) × (map (λ pair. pair.1) pairs.items ≡ new.now))) }
{
    if old.len() != new.len() {
        return Ok(None);
    }
    let mut pairs = Vec::new(alloc);
    for index in 0..old.len() {
        pairs.push((old[index].copy()?, new[index].copy()?))?;
    }
    Ok(Some(pairs))
}

#[tactic(auto, using(crate::proofs::NoWork::no_renamed_settings))]
fn rename_settings(alloc: Global, table: &Table) -> Result<Option<Work>, AllocError>
    ensures { IfOk result (λ found. MatchOption found (HasNoWork Kind.RenameSettings (table_view table.now))
        (IsOfKind Kind.RenameSettings (table_view table.now))) }
{
    let Some(old) = keys_field(alloc, table, "old", 2)? else {
        return Ok(None);
    };
    let Some(new) = keys_field(alloc, table, "new", 2)? else {
        return Ok(None);
    };
    let Some(pairs) = paired(alloc, &old, &new)? else {
        return Ok(None);
    };
    Ok(Some(Work::Plain(Migration::RenameSettings { pairs })))
}

#[tactic(auto, using(crate::proofs::NoWork::no_added_metadata))]
fn add_metadata(alloc: Global, table: &Table) -> Result<Option<Work>, AllocError>
    ensures { IfOk result (λ found. MatchOption found (HasNoWork Kind.AddMetadata (table_view table.now)) (IsOfKind Kind.AddMetadata (table_view table.now))) }
{
    let Some(key) = key_field(alloc, table, "key", 1)? else {
        return Ok(None);
    };
    let Some(names) = texts_field(alloc, table, "names")? else {
        return Ok(None);
    };
    Ok(Some(Work::Plain(Migration::AddMetadata { key, names })))
}

#[tactic(auto, using(crate::proofs::NoWork::no_removed_metadata))]
fn remove_metadata(alloc: Global, table: &Table) -> Result<Option<Work>, AllocError>
    ensures { IfOk result (λ found. MatchOption found (HasNoWork Kind.RemoveMetadata (table_view table.now))
        (IsOfKind Kind.RemoveMetadata (table_view table.now))) }
{
    let Some(key) = key_field(alloc, table, "key", 1)? else {
        return Ok(None);
    };
    let Some(names) = texts_field(alloc, table, "names")? else {
        return Ok(None);
    };
    Ok(Some(Work::Plain(Migration::RemoveMetadata { key, names })))
}

#[tactic(auto, using(crate::proofs::NoWork::no_replaced_metadata))]
fn replace_metadata(alloc: Global, table: &Table) -> Result<Option<Work>, AllocError>
    ensures { IfOk result (λ found. MatchOption found (HasNoWork Kind.ReplaceMetadata (table_view table.now))
        (IsOfKind Kind.ReplaceMetadata (table_view table.now))) }
{
    let Some(key) = key_field(alloc, table, "key", 1)? else {
        return Ok(None);
    };
    let Some(name) = text_field(table, "name")? else {
        return Ok(None);
    };
    let Some(old) = scalar_field(alloc, table, "old")? else {
        return Ok(None);
    };
    let Some(new) = scalar_field(alloc, table, "new")? else {
        return Ok(None);
    };
    Ok(Some(Work::Plain(Migration::ReplaceMetadata {
        key,
        name,
        old,
        new,
    })))
}

fn program(alloc: Global, table: &Table) -> Result<Option<Work>, AllocError>
    ensures { IfOk result (λ found. MatchOption found (HasNoWork Kind.Program (table_view table.now)) (IsOfKind Kind.Program (table_view table.now))) }
{
    let Some(words) = words_field(alloc, table, "words")? else {
        return Ok(None);
    };
    Ok(Some(Work::Program { words }))
}

/// The work of this kind whose fields the table has, None exactly where it has none. The only error is out of memory.
pub fn work_of(alloc: Global, kind: Kind, table: &Table) -> Result<Option<Work>, AllocError>
    ensures { IfOk result (λ found. MatchOption found (HasNoWork kind (table_view table.now)) (IsOfKind kind (table_view table.now))) }
{
    match kind {
        Kind::AddSettings => add_settings(alloc, table),
        Kind::AddPrefixes => add_prefixes(alloc, table),
        Kind::RemoveSettings => remove_settings(alloc, table),
        Kind::ReplaceString => replace_string(alloc, table),
        Kind::RenameSettings => rename_settings(alloc, table),
        Kind::AddMetadata => add_metadata(alloc, table),
        Kind::RemoveMetadata => remove_metadata(alloc, table),
        Kind::ReplaceMetadata => replace_metadata(alloc, table),
        Kind::RemoveWeak => Ok(Some(Work::Plain(Migration::RemoveWeak))),
        Kind::NoOp => Ok(Some(Work::Plain(Migration::NoOp))),
        Kind::Program => program(alloc, table),
    }
}
