//! A table, walked depth first.
ghost use Rattle.std.specs.Prelude.{◌≡◌, ◌++◌, ◌∷◌, [], IfErr, OnOk};
ghost use Rattle.toml.specs.View.{view, table_view};
ghost use Rattle.user_data.specs.Pairs.{entry_pairs, leaf_pairs, members_pairs};
ghost use Rattle.user_data.specs.Refused.{Appends, Refuses};
ghost use Rattle.user_data.specs.Rising.{HasRisingNames, RisesWithin};

use crate::UserDataKind;
use crate::place::Place;
use json_trees::Scalar;
use key_names::Key;
use std::alloc::Global;
use toml::{Table, Value};
use toml_values::{LocatedFault, scalar_of};

/// Appends the pairs of the members of a table that is at this place.
#[cycle(walk)]
pub fn push_members(
    alloc: Global,
    place: &Place,
    members: &Table,
    pairs: &mut Vec<(Key, Scalar)>,
) -> Result<(), LocatedFault<UserDataKind>>
    ensures ok { OnOk result (Appends (members_pairs place.now.key (table_view members.now)) pairs.old.items pairs.new.items) }
    ensures rise { OnOk result (RisesWithin (table_view members.now)) }
    ensures refused { IfErr result (Refuses (members_pairs place.now.key (table_view members.now))) }
{
    for (name, value) in members.iter() {
        push_entry(alloc, place, name.as_str(), value, pairs)?;
    }
    Ok(())
}

// Appends the pairs of the entry of this name, and of those below it.
#[cycle(walk)]
fn push_entry(
    alloc: Global,
    place: &Place,
    name: &str,
    value: &Value,
    pairs: &mut Vec<(Key, Scalar)>,
) -> Result<(), LocatedFault<UserDataKind>>
    ensures ok { OnOk result (Appends (entry_pairs (place.now.key ++ name.now ∷ []) (view value.now)) pairs.old.items pairs.new.items) }
    ensures rise { OnOk result (HasRisingNames (view value.now)) }
    ensures refused { IfErr result (Refuses (entry_pairs (place.now.key ++ name.now ∷ []) (view value.now))) }
{
    let place = place.below(alloc, name)?;
    match value {
        Value::Table(members) => push_members(alloc, &place, members, pairs),
        value => push_leaf(alloc, place, value, pairs),
    }
}

// Appends the pair of a value that is at this place and is no table.
fn push_leaf(
    alloc: Global,
    place: Place,
    value: &Value,
    pairs: &mut Vec<(Key, Scalar)>,
) -> Result<(), LocatedFault<UserDataKind>>
    ensures ok { OnOk result (Appends (leaf_pairs place.key (view value.now)) pairs.old.items pairs.new.items) }
    ensures refused { IfErr result (Refuses (leaf_pairs place.key (view value.now))) }
{
    match scalar_of(alloc, value)? {
        Some(scalar) => {
            pairs.push((place.key, scalar))?;
            Ok(())
        }
        None => Err(LocatedFault::Fault(UserDataKind::BadValue, place.at)),
    }
}
