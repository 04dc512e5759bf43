//! A table, walked depth first.
ghost use Rattle.std.specs.Prelude.{◌≡◌, ◌++◌, ◌∷◌, [], IfOk, OnOk};
ghost use Rattle.toml.specs.View.{view, table_view};
ghost use Rattle.model_file.specs.Entries.{entries, members_entries, found_of};

use crate::entry::Entry;
use crate::found::{Found, found_of};
use key_names::Text;
use std::alloc::{AllocError, Global};
use toml::{Table, Value};

// The path with one name more.
fn longer(alloc: Global, path: &[Text], name: &str) -> Result<Vec<Text>, AllocError>
    ensures { IfOk result (λ longer. longer.items ≡ path.now ++ name.now ∷ []) }
{
    let mut longer = copied(alloc, path)?;
    longer.push(Text::from_str(alloc, name)?)?;
    Ok(longer)
}

fn copied(alloc: Global, path: &[Text]) -> Result<Vec<Text>, AllocError>
    ensures { IfOk result (λ copy. copy.items ≡ path.now) }
{
    let mut copy = Vec::new(alloc);
    for name in path {
        copy.push(name.copy()?)?;
    }
    Ok(copy)
}

/// The entries of a table, depth first in the table's order, each with its path below the table. It takes time linear in
/// these paths and the values. The only error is out of memory.
pub fn entries_of(alloc: Global, members: &Table) -> Result<Vec<Entry>, AllocError>
    ensures { IfOk result (λ all. all.items ≡ members_entries [] (table_view members.now)) }
{
    let mut all = Vec::new(alloc);
    push_members(alloc, &[], members, &mut all)?;
    Ok(all)
}

#[cycle(walk)]
fn push_members(
    alloc: Global,
    path: &[Text],
    members: &Table,
    all: &mut Vec<Entry>,
) -> Result<(), AllocError>
    ensures { OnOk result (all.new.items ≡ all.old.items ++ members_entries path.now (table_view members.now)) }
{
    for (name, value) in members.iter() {
        let path = longer(alloc, path, name.as_str())?;
        push_value(alloc, path, value, all)?;
    }
    Ok(())
}

// An entry, and those below it.
#[cycle(walk)]
fn push_value(
    alloc: Global,
    path: Vec<Text>,
    value: &Value,
    all: &mut Vec<Entry>,
) -> Result<(), AllocError>
    ensures { OnOk result (all.new.items ≡ all.old.items ++ (path.items, found_of (view value.now)) ∷ entries path.items (view value.now)) }
{
    match value {
        Value::Table(members) => {
            let own = copied(alloc, &path)?;
            all.push(Entry {
                path: own,
                found: Found::Table,
            })?;
            push_members(alloc, &path, members, all)
        }
        value => {
            let found = found_of(alloc, value)?;
            all.push(Entry { path, found })?;
            Ok(())
        }
    }
}
