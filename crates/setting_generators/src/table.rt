//! The generators of a table.
ghost use Rattle.std.specs.Prelude.{◌≡◌, [], Ok, IfOk, IfErr, map, List};
ghost use Rattle.std.specs.List.{IsDistinct};
ghost use Rattle.std.specs.List.Sorted.{IsPermutation, IsSortedBy};
ghost use Rattle.std.specs.Map.{keys_of};
ghost use Rattle.std.specs.Ordering.{eq_by_cmp, is_lt};
ghost use Rattle.key_names.specs.Order.{key_cmp};
ghost use Rattle.toml.specs.View.{table_view};
ghost use Rattle.toml_values.specs.Document.{named};
ghost use Rattle.setting_generators.specs.Generators.{Given, IsRising, seen};
ghost use Rattle.setting_generators.specs.Reading.{Reads};
ghost use Rattle.setting_generators.specs.Refused.{RefusesTable};

use crate::entry::generator_of;
use crate::{Generator, GeneratorsKind};
use std::alloc::{AllocError, Global};
use std::collections::BTreeSet;
use toml::Table;
use toml_values::LocatedFault;
use typed_settings::Types;

// The generators of the entries, in the table's order.
fn listed(
    alloc: Global,
    types: &Types,
    table: &Table,
) -> Result<Vec<Generator>, LocatedFault<GeneratorsKind>>
    ensures ok { IfOk result (λ listed. Reads types.now [] (named (table_view table.now)) (Ok (map seen listed.items))) }
    ensures distinct { IfOk result (λ listed. IsDistinct (eq_by_cmp key_cmp) (keys_of (map seen listed.items))) }
    ensures refused { IfErr result (RefusesTable types.now (table_view table.now)) }
{
    let mut listed = Vec::new(alloc);
    let mut keys = BTreeSet::new(alloc);
    for (name, value) in table.iter() {
        let generator = generator_of(alloc, types, &keys, name.as_str(), value)?;
        keys.insert(generator.key.copy()?)?;
        listed.push(generator)?;
    }
    Ok(listed)
}

// The generators in the order of their keys.
fn sorted(generators: Vec<Generator>) -> Result<Vec<Generator>, AllocError>
    ensures moved { IfOk result (λ sorted. IsPermutation generators.items sorted.items) }
    ensures sorted { IfOk result (λ sorted. IsSortedBy (λ g h. is_lt (key_cmp g.key h.key)) sorted.items) }
{
    let mut sorted = generators;
    sorted.sort_by(|one, other| one.key.cmp(&other.key))?;
    Ok(sorted)
}

/// The generators of the table, rising by key.
pub fn generators_of(
    alloc: Global,
    types: &Types,
    table: &Table,
) -> Result<Vec<Generator>, LocatedFault<GeneratorsKind>>
    ensures ok { IfOk result (λ generators. (listed : List Given) × Reads types.now [] (named (table_view table.now)) (Ok listed)
        × IsPermutation listed (map seen generators.items)) }
    ensures rising { IfOk result (λ generators. IsRising (map seen generators.items)) }
    ensures refused { IfErr result (RefusesTable types.now (table_view table.now)) }
{
    let listed = listed(alloc, types, table)?;
    Ok(sorted(listed)?)
}
