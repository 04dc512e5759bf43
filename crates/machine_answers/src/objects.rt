//! The texts of objects: texts by name, and lists of names by key.
ghost use Rattle.std.specs.Prelude.{◌≡◌, IfOk, OnOk, map};
ghost use Rattle.serde_json.specs.Data.{object};
ghost use Rattle.serde_json.specs.Written.{compact_text};
ghost use Rattle.held_text.specs.HeldRules.{Wrote};
ghost use Rattle.settings_machine.specs.Requests.{TextsByName, ListsByKey};
ghost use Rattle.machine_answers.specs.Bodies.{text_entry, list_entry, members_of, IsTextOf, WroteEntry};

use crate::lists::write_names;
use json::Writer;
use json_trees::text_of;
use key_names::{Key, Text};
use std::alloc::{AllocError, Global};

fn write_texts(writer: &mut Writer, texts: &[(Text, Text)]) -> Result<(), AllocError>
    ensures { OnOk result (Wrote (object (members_of (map text_entry texts.now))) writer.old writer.new) }
{
    writer.begin_object()?;
    for (name, text) in texts {
        writer.key(name.as_str())?;
        writer.string(text.as_str())?;
    }
    writer.end_object()
}

fn write_list(writer: &mut Writer, key: &Key, names: &[Text]) -> Result<(), AllocError>
    ensures { OnOk result (WroteEntry (list_entry (key.now, names.now)) writer.old writer.new) }
{
    let key = key.print()?;
    writer.key(key.as_str())?;
    write_names(writer, names)
}

fn write_lists(writer: &mut Writer, lists: &[(Key, Vec<Text>)]) -> Result<(), AllocError>
    ensures { OnOk result (Wrote
        (object (members_of (map list_entry (map (λ e. (e.0, e.1.items)) lists.now)))) writer.old writer.new) }
{
    writer.begin_object()?;
    for (key, names) in lists {
        write_list(writer, key, names.as_slice())?;
    }
    writer.end_object()
}

// Writes an object whose members are texts.
fn write_members(writer: &mut Writer, members: &[(&str, &str)]) -> Result<(), AllocError>
    ensures { OnOk result (Wrote
        (object (members_of (map (λ m. text_entry (m.0.now, m.1.now)) members.now))) writer.old writer.new) }
{
    writer.begin_object()?;
    for (name, text) in members {
        writer.key(*name)?;
        writer.string(*text)?;
    }
    writer.end_object()
}

/// The text of an object of compact JSON (RFC 8259) whose members are texts: each name with its text, in this order. The only error is
/// out of memory. It takes time linear in the texts.
pub fn object_text(alloc: Global, members: &[(&str, &str)]) -> Result<Text, AllocError>
    ensures { IfOk result (λ text. text
        ≡ compact_text (object (members_of (map (λ m. text_entry (m.0.now, m.1.now)) members.now)))) }
{
    let mut writer = Writer::new(Vec::new(alloc));
    write_members(&mut writer, members)?;
    Ok(text_of(writer))
}

/// Texts by name, in their order. The only error is out of memory.
pub(crate) fn texts_text(alloc: Global, texts: &[(Text, Text)]) -> Result<Text, AllocError>
    ensures { IfOk result (IsTextOf (TextsByName texts.now)) }
{
    let mut writer = Writer::new(Vec::new(alloc));
    write_texts(&mut writer, texts)?;
    Ok(text_of(writer))
}

/// Lists of names by key, each printed, in their order. The only error is out of memory. It takes the time of printing
/// each key.
pub(crate) fn lists_text(alloc: Global, lists: &[(Key, Vec<Text>)]) -> Result<Text, AllocError>
    ensures { IfOk result (IsTextOf (ListsByKey (map (λ e. (e.0, e.1.items)) lists.now))) }
{
    let mut writer = Writer::new(Vec::new(alloc));
    write_lists(&mut writer, lists)?;
    Ok(text_of(writer))
}
