//! The table `settings` of a document.
ghost use Rattle.std.specs.Prelude.{◌≡◌, ◌∷◌, [], None, Ok, IfOk, IfErr, OnOk, option_map};
ghost use Rattle.toml.specs.View.{view, table_view};
ghost use Rattle.json_trees.specs.Apart.{AreApart};
ghost use Rattle.std.specs.Map.{keys_of};
ghost use Rattle.user_data.specs.Pairs.{document_pairs, settings_pairs, settings};
ghost use Rattle.toml_values.specs.Document.{other_name};
ghost use Rattle.toml.specs.Data.{get_member};
ghost use Rattle.user_data.specs.Refused.{Refuses, RefusesName};

use crate::UserDataKind;
use crate::place::Place;
use crate::walk::push_members;
use json_trees::Scalar;
use key_names::Key;
use std::alloc::Global;
use toml::{Table, Value};
use toml_values::{LocatedFault, other_name, refused};

/// The pairs of a document.
pub fn document_pairs(
    alloc: Global,
    document: &Table,
) -> Result<Vec<(Key, Scalar)>, LocatedFault<UserDataKind>>
    ensures ok { IfOk result (λ pairs. document_pairs (table_view document.now) ≡ Ok pairs.items) }
    ensures apart { IfOk result (λ pairs. AreApart (keys_of pairs.items)) }
    ensures refused { IfErr result (Refuses (document_pairs (table_view document.now))) }
{
    check_names(alloc, document)?;
    settings_pairs(alloc, document)
}

// Checks that no top-level name is another than `settings`.
fn check_names(alloc: Global, document: &Table) -> Result<(), LocatedFault<UserDataKind>>
    ensures none { OnOk result (other_name (settings ∷ []) (table_view document.now) ≡ None) }
    ensures refused { IfErr result (RefusesName (other_name (settings ∷ []) (table_view document.now))) }
{
    match other_name(document, &["settings"]) {
        Some(name) => Err(refused(alloc, UserDataKind::NotSettings, name)),
        None => Ok(()),
    }
}

// What is under the name `settings`, None exactly where nothing does.
fn settings_of(document: &Table) -> Option<&Value>
    ensures { option_map (λ value. view value.now) result ≡ get_member settings (table_view document.now) }
{
    document.get("settings")
}

// The pairs of the table `settings`, none where it is missing.
fn settings_pairs(
    alloc: Global,
    document: &Table,
) -> Result<Vec<(Key, Scalar)>, LocatedFault<UserDataKind>>
    ensures ok { IfOk result (λ pairs. settings_pairs (get_member settings (table_view document.now)) ≡ Ok pairs.items) }
    ensures apart { IfOk result (λ pairs. AreApart (keys_of pairs.items)) }
    ensures refused { IfErr result (Refuses (settings_pairs (get_member settings (table_view document.now)))) }
{
    let mut pairs = Vec::new(alloc);
    let Some(value) = settings_of(document) else {
        return Ok(pairs);
    };
    let Some(table) = value.as_table() else {
        return Err(refused(alloc, UserDataKind::NotSettings, "settings"));
    };
    let place = Place::settings(alloc)?;
    push_members(alloc, &place, table, &mut pairs)?;
    Ok(pairs)
}
