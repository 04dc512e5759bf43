//! The texts of lists.
ghost use Rattle.std.specs.Prelude.{IfOk, OnOk};
ghost use Rattle.held_text.specs.HeldRules.{Wrote};
ghost use Rattle.settings_machine.specs.Requests.{KeyList as KeysOf, NameList};
ghost use Rattle.machine_answers.specs.Bodies.{names_data, IsTextOf};

use held_text::write_keys;
use json::Writer;
use json_trees::text_of;
use key_names::Text;
use settings_tree::{KeyList, TxName};
use std::alloc::{AllocError, Global};

/// Writes names as a list of texts.
pub(crate) fn write_names(writer: &mut Writer, names: &[Text]) -> Result<(), AllocError>
    ensures { OnOk result (Wrote (names_data names.now) writer.old writer.new) }
{
    writer.begin_array()?;
    for name in names {
        writer.string(name.as_str())?;
    }
    writer.end_array()
}

fn write_tx_names(writer: &mut Writer, names: &[TxName]) -> Result<(), AllocError>
    ensures { OnOk result (Wrote (names_data names.now) writer.old writer.new) }
{
    writer.begin_array()?;
    for name in names {
        writer.string(name.as_str())?;
    }
    writer.end_array()
}

/// A list of keys, each printed. The only error is out of memory. It takes the time of printing each.
pub(crate) fn keys_text(alloc: Global, keys: &KeyList) -> Result<Text, AllocError>
    ensures { IfOk result (IsTextOf (KeysOf keys.now)) }
{
    let mut writer = Writer::new(Vec::new(alloc));
    write_keys(&mut writer, keys)?;
    Ok(text_of(writer))
}

/// A list of the names of transactions, in their order. The only error is out of memory.
pub(crate) fn names_text(alloc: Global, names: &[TxName]) -> Result<Text, AllocError>
    ensures { IfOk result (IsTextOf (NameList names.now)) }
{
    let mut writer = Writer::new(Vec::new(alloc));
    write_tx_names(&mut writer, names)?;
    Ok(text_of(writer))
}
