//! The command `get`.
ghost use Rattle.std.specs.Prelude.{◌≡◌, ◌∷◌, ◌++◌, [], IfOk};
ghost use Rattle.outside.specs.Faults.{HasCauseOf};
ghost use Rattle.settings_cmd.specs.Carried.{IsGot};
ghost use Rattle.settings_cmd.specs.Gets.{Answers, asked};

use command_outcome::Refusal;
use core_commands::{not_opened, tree_line};
use key_names::{Bytes, Key};
use outside::Disk;
use settings_tree::{Content, first_without};
use std::alloc::Global;
use store_open::open_store;

// The tree of the values at the keys and below them, where each of the keys that were given has one.
fn asked_line(alloc: Global, live: &Content, given: &[Key], keys: &[Key]) -> Result<Bytes, Refusal>
    requires asked { keys.now ≡ asked given.now }
    ensures { Answers live.now.values given.now result }
{
    if let Some(key) = first_without(live, given) {
        let key = key.copy()?;
        return Err(Refusal::Refused(settings_machine::Refusal::NoKey { key }));
    }
    Ok(tree_line(alloc, live, keys)?)
}

// The tree of all settings, or of what is at the keys and below them.
fn tree_of(alloc: Global, live: &Content, given: &[Key]) -> Result<Bytes, Refusal>
    ensures { Answers live.now.values given.now result }
{
    if !given.is_empty() {
        return asked_line(alloc, live, given, given);
    }
    let Ok(settings) = Key::of_segment(alloc, b"settings") else {
        return Err(Refusal::Memory);
    };
    asked_line(alloc, live, given, &[settings])
}

/// Opens the store, and answers the tree of the live values at the keys and below them, or of all settings where no key is
/// given, as compact JSON (RFC 8259), and a line feed.
///
/// Why the store can't be opened comes first; then `Refused` with `NoKey` for the first given key at and below which there is
/// no value. `Disk` where the disk failed; `Memory` where it runs out of memory. Besides the opening it takes one pass over all values.
pub(crate) fn get<D: Disk>(alloc: Global, disk: &mut D, keys: &[Key]) -> Result<Bytes, Refusal>
    ensures got { IsGot keys.now result (D.told disk.old) (D.told disk.new) }
    ensures cause { HasCauseOf Refusal.Disk (D.faults disk.old) (D.faults disk.new) result }
{
    match open_store(alloc, disk, false) {
        Ok(store) => tree_of(alloc, &store.held.live, keys),
        Err(error) => Err(not_opened(error)),
    }
}
