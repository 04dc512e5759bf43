//! The values of a store that the types refuse, in their order. The only error of each function is out of memory.
ghost use Rattle.std.specs.Prelude.{◌≡◌, ◌++◌, IfOk, OnOk, Some, None};
ghost use Rattle.settings_machine.specs.Typed.{wanted_in};
ghost use Rattle.store_report.specs.IllTyped.{told, wanted_live, ill_live, ill_of, ill_pending, ill_typed};

use crate::ill_typed::IllTyped;
use crate::wanted::{wanted_live, wanted_pending};
use json_trees::{Pending, Scalar};
use key_names::Key;
use settings_maps::{KeyMap, Transactions};
use settings_tree::{Content, Held, TxName};
use std::alloc::{AllocError, Global};
use typed_settings::Types;

fn push_live(
    alloc: Global,
    found: &mut Vec<IllTyped>,
    types: &Types,
    key: &Key,
    value: &Scalar,
) -> Result<(), AllocError>
    ensures { OnOk result (found.new.items ≡ found.old.items ++ told None (wanted_live types.now (key.now, value.now))) }
{
    if let Some(wanted) = wanted_live(alloc, types, key, value)? {
        found.push(IllTyped {
            tx: None,
            key: key.copy()?,
            wanted,
        })?;
    }
    Ok(())
}

// The live values that the types refuse.
fn push_all_live(
    alloc: Global,
    found: &mut Vec<IllTyped>,
    types: &Types,
    live: &Content,
) -> Result<(), AllocError>
    ensures { OnOk result (found.new.items ≡ found.old.items ++ ill_live types.now live.now.values) }
{
    for (key, value) in live.values().iter() {
        push_live(alloc, found, types, key, value)?;
    }
    Ok(())
}

fn push_pending(
    alloc: Global,
    found: &mut Vec<IllTyped>,
    types: &Types,
    tx: &TxName,
    key: &Key,
    pending: &Pending,
) -> Result<(), AllocError>
    ensures { OnOk result (found.new.items ≡ found.old.items ++ told (Some tx.now) (wanted_in types.now (key.now, pending.now))) }
{
    if let Some(wanted) = wanted_pending(alloc, types, key, pending)? {
        found.push(IllTyped {
            tx: Some(tx.copy()?),
            key: key.copy()?,
            wanted,
        })?;
    }
    Ok(())
}

// What is pending in the transaction and refused.
fn push_all_of(
    alloc: Global,
    found: &mut Vec<IllTyped>,
    types: &Types,
    tx: &TxName,
    pending: &KeyMap<Pending>,
) -> Result<(), AllocError>
    ensures { OnOk result (found.new.items ≡ found.old.items ++ ill_of types.now (tx.now, pending.now)) }
{
    for (key, value) in pending.iter() {
        push_pending(alloc, found, types, tx, key, value)?;
    }
    Ok(())
}

// What is pending in each transaction and refused.
fn push_all_pending(
    alloc: Global,
    found: &mut Vec<IllTyped>,
    types: &Types,
    transactions: &Transactions,
) -> Result<(), AllocError>
    ensures { OnOk result (found.new.items ≡ found.old.items ++ ill_pending types.now transactions.now) }
{
    for (tx, pending) in transactions.iter() {
        push_all_of(alloc, found, types, tx, pending)?;
    }
    Ok(())
}

/// The values that the types refuse: the live ones by key, and then the pending ones by transaction and key. It takes a constant
/// step for each value, and the time of its check.
pub fn ill_typed(alloc: Global, types: &Types, held: &Held) -> Result<Vec<IllTyped>, AllocError>
    ensures { IfOk result (λ found. found.items ≡ ill_typed types.now held.now) }
{
    let mut found = Vec::new(alloc);
    push_all_live(alloc, &mut found, types, &held.live)?;
    push_all_pending(alloc, &mut found, types, held.pending.transactions())?;
    Ok(found)
}
