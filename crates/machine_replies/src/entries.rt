//! Entries of what a store holds: keys with the JSON texts of what is there.
use crate::tree::Entry;
use key_names::{Key, Text};
use plain_machine::PlainMachine;
use settings_tree::{Pending, TxName};
use std::alloc::{AllocError, Global};

/// The live values below this segment, rising. The only error is out of memory, and what is no segment.
pub(crate) fn live_below(
    alloc: Global,
    machine: &PlainMachine,
    first: &[u8],
) -> Result<Vec<Entry>, AllocError> {
    let Ok(prefix) = Key::of_segment(alloc, first) else {
        return Err(AllocError);
    };
    let mut entries = Vec::new(alloc);
    for (key, value) in machine.held.live.below(&prefix)? {
        entries.push((key, value.print(alloc)?))?;
    }
    Ok(entries)
}

// What is pending, as JSON: a removal is `null`.
fn pending_text(alloc: Global, value: &Pending) -> Result<Text, AllocError> {
    match value {
        Pending::Put(value) => value.print(alloc),
        Pending::Gone => Text::from_str(alloc, "null"),
    }
}

/// What is pending in the transaction, rising.
pub(crate) fn pending_in(
    alloc: Global,
    machine: &PlainMachine,
    tx: &TxName,
) -> Result<Vec<Entry>, AllocError> {
    let mut entries = Vec::new(alloc);
    for (key, value) in pending_tx::pending(alloc, &machine.held, tx)? {
        entries.push((key, pending_text(alloc, &value)?))?;
    }
    Ok(entries)
}
