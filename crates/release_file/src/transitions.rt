//! The section `migrations`: transitions from one version to a later one.
ghost use Rattle.std.specs.Prelude.{◌≡◌, ◌∷◌, ◌++◌, [], ℕ, List, IfOk, IfErr, IsTrue, MatchOption, OnOk, codes, map};
ghost use Rattle.std.specs.List.{list_all};
ghost use Rattle.std.specs.List.Sorted.{IsPermutation, IsSortedBy, IsStrictlySortedBy};
ghost use Rattle.std.specs.Ordering.{is_lt};
ghost use Rattle.key_names.specs.Order.{bytes_cmp};
ghost use Rattle.toml.specs.View.{view, table_view};
ghost use Rattle.toml_values.specs.Document.{named};
ghost use Rattle.version_links.specs.declared.version.Version.{Version as Three};
ghost use Rattle.release_file.specs.Checks.{IsTransition, is_defined, known_check, known_checks};
ghost use Rattle.release_file.specs.Checks.{section_members, transition, transition_checks, transitions_in};
ghost use Rattle.release_file.specs.Reading.{AreTransitions};
ghost use Rattle.release_file.specs.Refused.{Passes, Refuses};
ghost use Rattle.release_file.specs.Release.{are_rising, transition_cmp};
ghost use Rattle.release_file.specs.declared.transition.Transition.{Transition as Step};

use crate::document::{section, table_in};
use crate::field::{field, texts_of};
use crate::pair::pair_of;
use crate::release_error::ReleaseKind;
use crate::transition::Transition;
use key_names::Text;
use std::alloc::{AllocError, Global};
use toml::{Table, Value};
use toml_values::{LocatedFault, refused};

// The transition that an entry is, None exactly where it is none.
fn transition_of(alloc: Global, name: &str, value: &Value) -> Result<Option<Transition>, AllocError>
    ensures { IfOk result (λ found. MatchOption found
        ((from to : Three) (names : List (List ℕ)) → IsTransition (name.now, view value.now) from to names → ⊥)
        (λ t. IsTransition (name.now, view value.now) t.from t.to t.names.items)) }
{
    let Some((from, to)) = pair_of(name.as_bytes()) else {
        return Ok(None);
    };
    let Some(names) = texts_of(alloc, value)? else {
        return Ok(None);
    };
    Ok(Some(Transition { from, to, names }))
}

fn transition_at(
    alloc: Global,
    name: &str,
    value: &Value,
) -> Result<Transition, LocatedFault<ReleaseKind>>
    ensures passes { OnOk result (Passes (transition (name.now, view value.now) ∷ [])) }
    ensures ok { IfOk result (λ t. IsTransition (name.now, view value.now) t.from t.to t.names.items) }
    ensures refused { IfErr result (Refuses (transition (name.now, view value.now) ∷ [])) }
{
    match transition_of(alloc, name, value)? {
        Some(transition) => Ok(transition),
        None => Err(refused(alloc, ReleaseKind::BadPair, name)),
    }
}

// The transitions of a table, in its order.
fn transitions_in(
    alloc: Global,
    table: &Table,
) -> Result<Vec<Transition>, LocatedFault<ReleaseKind>>
    ensures passes { OnOk result (Passes (map transition (named (table_view table.now)))) }
    ensures transitions { IfOk result (λ transitions. AreTransitions (named (table_view table.now)) transitions.items) }
    ensures names { OnOk result (IsStrictlySortedBy bytes_cmp (map (λ entry. entry.0) (named (table_view table.now)))) }
    ensures refused { IfErr result (Refuses (map transition (named (table_view table.now)))) }
{
    let mut transitions = Vec::new(alloc);
    for (name, value) in table.iter() {
        transitions.push(transition_at(alloc, name, value)?)?;
    }
    Ok(transitions)
}

// Whether each of the names is one of the table.
fn are_there(table: &Table, names: &[Text]) -> bool
    ensures { result ≡ list_all (is_defined (table_view table.now)) names.now }
{
    for name in names {
        if field(table, name.as_str()).is_none() {
            return false;
        }
    }
    true
}

// Checks that each migration that an entry names is there.
fn known_at(
    alloc: Global,
    migrations: &Table,
    name: &str,
    value: &Value,
) -> Result<(), LocatedFault<ReleaseKind>>
    ensures passes { OnOk result (Passes (known_check (table_view migrations.now) (name.now, view value.now) ∷ [])) }
    ensures refused { IfErr result (Refuses (known_check (table_view migrations.now) (name.now, view value.now) ∷ [])) }
{
    let Some(names) = texts_of(alloc, value)? else {
        return Ok(());
    };
    if are_there(migrations, &names) {
        Ok(())
    } else {
        Err(refused(alloc, ReleaseKind::UnknownMigration, name))
    }
}

// Checks that each migration that a transition names is there.
fn check_known(
    alloc: Global,
    table: &Table,
    migrations: &Table,
) -> Result<(), LocatedFault<ReleaseKind>>
    ensures passes { OnOk result (Passes (map (known_check (table_view migrations.now)) (named (table_view table.now)))) }
    ensures refused { IfErr result (Refuses (map (known_check (table_view migrations.now)) (named (table_view table.now)))) }
{
    for (name, value) in table.iter() {
        known_at(alloc, migrations, name, value)?;
    }
    Ok(())
}

// Checks that each migration that a transition names is one of the document.
fn check_all_known(
    alloc: Global,
    document: &Table,
    table: &Table,
) -> Result<(), LocatedFault<ReleaseKind>>
    ensures passes { OnOk result (Passes (map (known_check (section_members (codes "migration") (table_view document.now))) (named (table_view table.now)))) }
    ensures refused { IfErr result (Refuses (map (known_check (section_members (codes "migration") (table_view document.now)))
        (named (table_view table.now)))) }
{
    match table_in(document, "migration") {
        Some(migrations) => check_known(alloc, table, migrations),
        None => check_known(alloc, table, &Table::new(alloc)),
    }
}

// The transitions in the order of their versions.
fn sorted(transitions: Vec<Transition>) -> Result<Vec<Transition>, AllocError>
    ensures moved { IfOk result (λ sorted. IsPermutation transitions.items sorted.items) }
    ensures sorted { IfOk result (λ sorted. IsSortedBy (λ t u. is_lt (transition_cmp t u)) sorted.items) }
{
    let mut sorted = transitions;
    sorted.sort_by(|one, other| one.order(other))?;
    Ok(sorted)
}

/// The transitions of the document, rising by where they begin and then by where they end.
pub fn transitions_of(
    alloc: Global,
    document: &Table,
) -> Result<Vec<Transition>, LocatedFault<ReleaseKind>>
    ensures passes { OnOk result (Passes (transition_checks (table_view document.now) ++ known_checks (table_view document.now))) }
    ensures transitions { IfOk result (λ transitions. (listed : List Step) × AreTransitions (transitions_in (table_view document.now)) listed
        × IsPermutation listed transitions.items) }
    ensures rising { IfOk result (λ transitions. IsTrue (are_rising transitions.items)) }
    ensures refused { IfErr result (Refuses (transition_checks (table_view document.now) ++ known_checks (table_view document.now))) }
{
    let Some(table) = section(alloc, document, "migrations", ReleaseKind::BadPair)? else {
        return Ok(Vec::new(alloc));
    };
    let transitions = transitions_in(alloc, table)?;
    check_all_known(alloc, document, table)?;
    Ok(sorted(transitions)?)
}
