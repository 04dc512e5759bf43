//! The parts of a held text, written as JSON a token at a time.
ghost use Rattle.std.specs.Prelude.{OnOk, IsTrue};
ghost use Rattle.std.specs.List.{AllByRecursion};
ghost use Rattle.std.specs.FinMap.{entries};
ghost use Rattle.base64.specs.GeneralPurpose.{IsBytes};
ghost use Rattle.key_names.specs.Key.{is_key};
ghost use Rattle.json_trees.specs.Nested.{IsSound};
ghost use Rattle.held_text.specs.HeldText.{key_data, keys_data, pair_data, map_data, rows, rows_at, row_data, metadata_data};
ghost use Rattle.held_text.specs.HeldText.{transaction_data, pending_maps_data, owed_data, image_data};
ghost use Rattle.held_text.specs.HeldRules.{IsRow, IsTransaction, ArePending, Wrote, WroteEach};
ghost use Rattle.settings_tree.specs.Owed.{IsKeyList, IsOwed};

use base64::engine::general_purpose::STANDARD;
use json::Writer;
use json_trees::{Leaf, Pending, Scalar};
use key_names::{Bytes, Key, Text};
use settings_maps::{KeyList, KeyMap, Metadata, NamedValues, TxName};
use settings_tree::{Owed, PendMaps};
use std::alloc::{AllocError, Global};

fn write_key(writer: &mut Writer, key: &Key) -> Result<(), AllocError>
    ensures wrote { OnOk result (Wrote (key_data key.now) writer.old writer.new) }
    ensures valid { OnOk result (IsTrue (is_key key.now)) }
{
    let text = key.print()?;
    writer.string(text.as_str())
}

fn write_pair<L: Leaf>(writer: &mut Writer, key: &Key, leaf: &L) -> Result<(), AllocError>
    ensures wrote { OnOk result (Wrote (pair_data L.written (key.now, leaf.now)) writer.old writer.new) }
    ensures valid { OnOk result (IsSound L.leaf L.written (key.now, leaf.now)) }
{
    writer.begin_array()?;
    write_key(writer, key)?;
    leaf.write(writer)?;
    writer.end_array()
}

/// Writes the pairs of a map, rising by key. It takes a constant step for each.
pub(crate) fn write_map<L: Leaf + Drop>(
    writer: &mut Writer,
    map: &KeyMap<L>,
) -> Result<(), AllocError>
    ensures wrote { OnOk result (Wrote (map_data L.written map.now) writer.old writer.new) }
    ensures valid { OnOk result (AllByRecursion (IsSound L.leaf L.written) (entries map.now)) }
{
    writer.begin_array()?;
    for (key, leaf) in map.iter() {
        write_pair(writer, key, leaf)?;
    }
    writer.end_array()
}

fn write_row(writer: &mut Writer, key: &Key, name: &Text, value: &Scalar) -> Result<(), AllocError>
    ensures wrote { OnOk result (Wrote (row_data (key.now, name.now, value.now)) writer.old writer.new) }
    ensures valid { OnOk result (IsRow (key.now, name.now, value.now)) }
{
    writer.begin_array()?;
    write_key(writer, key)?;
    writer.string(name.as_str())?;
    value.write(writer)?;
    writer.end_array()
}

// Writes the rows of one key.
fn write_rows(writer: &mut Writer, key: &Key, names: &NamedValues) -> Result<(), AllocError>
    ensures wrote { OnOk result (WroteEach row_data (rows_at (key.now, names.now)) writer.old writer.new) }
    ensures valid { OnOk result (AllByRecursion IsRow (rows_at (key.now, names.now))) }
{
    for (name, value) in names.as_slice() {
        write_row(writer, key, name, value)?;
    }
    Ok(())
}

/// Writes the rows of metadata, rising by key and then by name. It takes a constant step for each.
pub(crate) fn write_metadata(writer: &mut Writer, metadata: &Metadata) -> Result<(), AllocError>
    ensures wrote { OnOk result (Wrote (metadata_data metadata.now) writer.old writer.new) }
    ensures valid { OnOk result (AllByRecursion IsRow (rows metadata.now)) }
{
    writer.begin_array()?;
    for (key, names) in metadata.iter() {
        write_rows(writer, key, names)?;
    }
    writer.end_array()
}

fn write_transaction(
    writer: &mut Writer,
    tx: &TxName,
    keys: &KeyMap<Pending>,
) -> Result<(), AllocError>
    ensures wrote { OnOk result (Wrote (transaction_data (tx.now, keys.now)) writer.old writer.new) }
    ensures valid { OnOk result (IsTransaction (tx.now, keys.now)) }
{
    writer.begin_array()?;
    writer.string(tx.as_str())?;
    write_map(writer, keys)?;
    writer.end_array()
}

/// Writes the pending maps, rising by transaction. It takes a constant step for each.
pub(crate) fn write_pending(writer: &mut Writer, pending: &PendMaps) -> Result<(), AllocError>
    ensures wrote { OnOk result (Wrote (pending_maps_data pending.now) writer.old writer.new) }
    ensures valid { OnOk result (ArePending pending.now) }
{
    writer.begin_array()?;
    for (tx, keys) in pending.transactions().iter() {
        write_transaction(writer, tx, keys)?;
    }
    writer.end_array()
}

/// Writes a list of keys, each printed, rising. The only error is out of memory, after which a part of it may have been
/// written. It takes the time of printing each key.
pub fn write_keys(writer: &mut Writer, keys: &KeyList) -> Result<(), AllocError>
    ensures wrote { OnOk result (Wrote (keys_data keys.now) writer.old writer.new) }
    ensures valid { OnOk result (IsKeyList keys.now) }
{
    writer.begin_array()?;
    for key in keys.as_slice() {
        write_key(writer, key)?;
    }
    writer.end_array()
}

/// Writes the owed keys: `"all"`, or the list of them. The only error is out of memory, after which a part of it may have
/// been written. It takes the time of printing each key.
pub fn write_owed(writer: &mut Writer, owed: &Owed) -> Result<(), AllocError>
    ensures wrote { OnOk result (Wrote (owed_data owed.now) writer.old writer.new) }
    ensures valid { OnOk result (IsOwed owed.now) }
{
    match owed {
        Owed::All => writer.string("all"),
        Owed::Keys(keys) => write_keys(writer, keys),
    }
}

/// Writes the stored image text in base64.
pub(crate) fn write_image(
    writer: &mut Writer,
    alloc: Global,
    image: &Bytes,
) -> Result<(), AllocError>
    ensures wrote { OnOk result (Wrote (image_data image.now) writer.old writer.new) }
    ensures valid { OnOk result (IsBytes image.now) }
{
    let bytes = image.as_slice();
    let text = STANDARD.encode(alloc, bytes)?;
    writer.string(text.as_str())
}
