//! What is held is written into an empty data directory.
ghost use Rattle.std.specs.Prelude.{◌≡◌, length, IsTrue, Some, OnOk};
ghost use Rattle.outside.specs.DiskCalls.{Syncs, Writes};
ghost use Rattle.outside.specs.Told.{Moves};
ghost use Rattle.outside.specs.Faults.{HasCauseOf};
ghost use Rattle.settings_maps.specs.TxName.{is_meta_name};
ghost use Rattle.settings_tree.specs.Change.{Live, Meta, Pend, TheOwed, TheImage, TheWeak};
ghost use Rattle.settings_tree.specs.Content.{IsContent, IsNamed};
ghost use Rattle.settings_tree.specs.Pending.{IsPending};
ghost use Rattle.fs_datastore.specs.Values.{live, pending, owed, image, weak, value_in};
ghost use Rattle.fs_datastore.specs.Saving.{Saves, SavesTo, TellsFormat, HasBareNames, value_at_place, live_values};
ghost use Rattle.fs_datastore.specs.Saving.{names_of_key, all_metadata, keys_of_transaction, all_pending, single_values};

use crate::place_paths::{live_path, meta_path, pending_path, top_path};
use crate::scalar_texts::{owed_text, pending_text, weak_text};
use json_trees::{Pending, Scalar};
use key_names::{Bytes, Key, Text};
use outside::{Disk, DiskErr, Failed, Path};
use settings_maps::{KeyList, KeyMap, Metadata, NamedValues, Transactions, TxName};
use settings_tree::{Held, Owed};
use std::alloc::Global;

// A failure under the name that a call with memory has for it.
fn write<D: Disk>(disk: &mut D, path: &Path, bytes: &[u8]) -> Result<(), DiskErr>
    ensures writes { Moves (D.told disk.old) (D.told disk.new) (Writes path.now bytes.now result) }
    ensures cause { HasCauseOf DiskErr.Failed (D.faults disk.old) (D.faults disk.new) result }
{
    match disk.write(path, bytes) {
        Ok(()) => Ok(()),
        Err(Failed) => Err(DiskErr::Failed),
    }
}

fn write_text<D: Disk>(disk: &mut D, path: &Path, text: &Text) -> Result<(), DiskErr>
    ensures writes { Moves (D.told disk.old) (D.told disk.new) (Writes path.now text.now result) }
    ensures cause { HasCauseOf DiskErr.Failed (D.faults disk.old) (D.faults disk.new) result }
{
    write(disk, path, text.as_str().as_bytes())
}

fn sync<D: Disk>(disk: &mut D) -> Result<(), DiskErr>
    ensures syncs { Moves (D.told disk.old) (D.told disk.new) (Syncs result) }
    ensures cause { HasCauseOf DiskErr.Failed (D.faults disk.old) (D.faults disk.new) result }
{
    match disk.sync() {
        Ok(()) => Ok(()),
        Err(Failed) => Err(DiskErr::Failed),
    }
}

#[tactic(auto, using(crate::proofs::Savings::saving))]
fn save_value<D: Disk>(
    alloc: Global,
    disk: &mut D,
    dir: &Path,
    key: &Key,
    value: &Scalar,
) -> Result<(), DiskErr>
    requires { length dir.now ≡ 2 }
    ensures saves { Moves (D.told disk.old) (D.told disk.new) (SavesTo dir.now (value_at_place (Live key.now) (live value.now)) result) }
    ensures cause { HasCauseOf DiskErr.Failed (D.faults disk.old) (D.faults disk.new) result }
{
    let path = live_path(alloc, dir, key)?;
    let text = value.print(alloc)?;
    write_text(disk, &path, &text)
}

#[tactic(auto, using(crate::proofs::Savings::saving))]
fn save_meta<D: Disk>(
    alloc: Global,
    disk: &mut D,
    dir: &Path,
    key: &Key,
    name: &[u8],
    value: &Scalar,
) -> Result<(), DiskErr>
    requires length { length dir.now ≡ 2 }
    requires bare { IsTrue (is_meta_name name.now) }
    ensures saves { Moves (D.told disk.old) (D.told disk.new) (SavesTo dir.now (value_at_place (Meta key.now name.now) (live value.now)) result) }
    ensures cause { HasCauseOf DiskErr.Failed (D.faults disk.old) (D.faults disk.new) result }
{
    let path = meta_path(alloc, dir, key, name)?;
    let text = value.print(alloc)?;
    write_text(disk, &path, &text)
}

#[tactic(auto, using(crate::proofs::Savings::saving))]
fn save_pending<D: Disk>(
    alloc: Global,
    disk: &mut D,
    dir: &Path,
    tx: &TxName,
    key: &Key,
    value: &Pending,
) -> Result<(), DiskErr>
    requires { length dir.now ≡ 2 }
    ensures saves { Moves (D.told disk.old) (D.told disk.new) (SavesTo dir.now (value_at_place (Pend tx.now key.now) (pending value.now)) result) }
    ensures cause { HasCauseOf DiskErr.Failed (D.faults disk.old) (D.faults disk.new) result }
{
    let path = pending_path(alloc, dir, tx, key)?;
    let text = pending_text(alloc, value)?;
    write_text(disk, &path, &text)
}

#[tactic(auto, using(crate::proofs::Savings::saving))]
fn save_values<D: Disk>(
    alloc: Global,
    disk: &mut D,
    dir: &Path,
    values: &KeyMap<Scalar>,
) -> Result<(), DiskErr>
    requires { length dir.now ≡ 2 }
    ensures saves { Moves (D.told disk.old) (D.told disk.new) (SavesTo dir.now (live_values values.now) result) }
    ensures cause { HasCauseOf DiskErr.Failed (D.faults disk.old) (D.faults disk.new) result }
{
    for (key, value) in values.iter() {
        save_value(alloc, disk, dir, key, value)?;
    }
    Ok(())
}

// The metadata of one key.
#[tactic(auto, using(crate::proofs::Savings::saving))]
fn save_names<D: Disk>(
    alloc: Global,
    disk: &mut D,
    dir: &Path,
    key: &Key,
    names: &NamedValues,
) -> Result<(), DiskErr>
    requires length { length dir.now ≡ 2 }
    requires named { HasBareNames names.now }
    ensures saves { Moves (D.told disk.old) (D.told disk.new) (SavesTo dir.now (names_of_key key.now names.now) result) }
    ensures cause { HasCauseOf DiskErr.Failed (D.faults disk.old) (D.faults disk.new) result }
{
    for (name, value) in names.as_slice() {
        save_meta(alloc, disk, dir, key, name.as_str().as_bytes(), value)?;
    }
    Ok(())
}

#[tactic(auto, using(crate::proofs::Savings::saving))]
fn save_metadata<D: Disk>(
    alloc: Global,
    disk: &mut D,
    dir: &Path,
    metadata: &Metadata,
) -> Result<(), DiskErr>
    requires length { length dir.now ≡ 2 }
    requires named { IsNamed metadata.now }
    ensures saves { Moves (D.told disk.old) (D.told disk.new) (SavesTo dir.now (all_metadata metadata.now) result) }
    ensures cause { HasCauseOf DiskErr.Failed (D.faults disk.old) (D.faults disk.new) result }
{
    for (key, names) in metadata.iter() {
        save_names(alloc, disk, dir, key, names)?;
    }
    Ok(())
}

// What one transaction has pending.
#[tactic(auto, using(crate::proofs::Savings::saving))]
fn save_keys<D: Disk>(
    alloc: Global,
    disk: &mut D,
    dir: &Path,
    tx: &TxName,
    keys: &KeyMap<Pending>,
) -> Result<(), DiskErr>
    requires { length dir.now ≡ 2 }
    ensures saves { Moves (D.told disk.old) (D.told disk.new) (SavesTo dir.now (keys_of_transaction tx.now keys.now) result) }
    ensures cause { HasCauseOf DiskErr.Failed (D.faults disk.old) (D.faults disk.new) result }
{
    for (key, value) in keys.iter() {
        save_pending(alloc, disk, dir, tx, key, value)?;
    }
    Ok(())
}

#[tactic(auto, using(crate::proofs::Savings::saving))]
fn save_pending_maps<D: Disk>(
    alloc: Global,
    disk: &mut D,
    dir: &Path,
    transactions: &Transactions,
) -> Result<(), DiskErr>
    requires { length dir.now ≡ 2 }
    ensures saves { Moves (D.told disk.old) (D.told disk.new) (SavesTo dir.now (all_pending transactions.now) result) }
    ensures cause { HasCauseOf DiskErr.Failed (D.faults disk.old) (D.faults disk.new) result }
{
    for (tx, keys) in transactions.iter() {
        save_keys(alloc, disk, dir, tx, keys)?;
    }
    Ok(())
}

#[tactic(auto, using(crate::proofs::Savings::saving))]
fn save_owed<D: Disk>(alloc: Global, disk: &mut D, dir: &Path, keys: &Owed) -> Result<(), DiskErr>
    requires { length dir.now ≡ 2 }
    ensures saves { Moves (D.told disk.old) (D.told disk.new) (SavesTo dir.now (value_at_place TheOwed (owed keys.now)) result) }
    ensures cause { HasCauseOf DiskErr.Failed (D.faults disk.old) (D.faults disk.new) result }
{
    let path = top_path(alloc, dir, b"owed")?;
    let text = owed_text(alloc, keys)?;
    write_text(disk, &path, &text)
}

#[tactic(auto, using(crate::proofs::Savings::saving))]
fn save_image<D: Disk>(alloc: Global, disk: &mut D, dir: &Path, text: &Bytes) -> Result<(), DiskErr>
    requires { length dir.now ≡ 2 }
    ensures saves { Moves (D.told disk.old) (D.told disk.new) (SavesTo dir.now (value_at_place TheImage (image text.now)) result) }
    ensures cause { HasCauseOf DiskErr.Failed (D.faults disk.old) (D.faults disk.new) result }
{
    let path = top_path(alloc, dir, b"image")?;
    write(disk, &path, text.as_slice())
}

#[tactic(auto, using(crate::proofs::Savings::saving))]
fn save_weak<D: Disk>(
    alloc: Global,
    disk: &mut D,
    dir: &Path,
    keys: &KeyList,
) -> Result<(), DiskErr>
    requires { length dir.now ≡ 2 }
    ensures saves { Moves (D.told disk.old) (D.told disk.new) (SavesTo dir.now (value_at_place TheWeak (weak keys.now)) result) }
    ensures cause { HasCauseOf DiskErr.Failed (D.faults disk.old) (D.faults disk.new) result }
{
    let path = top_path(alloc, dir, b"weak")?;
    let text = weak_text(alloc, keys)?;
    write_text(disk, &path, &text)
}

#[tactic(auto, using(crate::proofs::Savings::telling))]
fn save_format<D: Disk>(alloc: Global, disk: &mut D, dir: &Path) -> Result<(), DiskErr>
    requires { length dir.now ≡ 2 }
    ensures tells { Moves (D.told disk.old) (D.told disk.new) (TellsFormat dir.now result) }
    ensures cause { HasCauseOf DiskErr.Failed (D.faults disk.old) (D.faults disk.new) result }
{
    let path = top_path(alloc, dir, b"format")?;
    write(disk, &path, b"2")
}

// The owed keys, the image text and the weak keys.
#[tactic(auto, using(crate::proofs::Savings::saving))]
fn save_single<D: Disk>(alloc: Global, disk: &mut D, dir: &Path, held: &Held) -> Result<(), DiskErr>
    requires { length dir.now ≡ 2 }
    ensures saves { Moves (D.told disk.old) (D.told disk.new) (SavesTo dir.now (single_values held.now) result) }
    ensures cause { HasCauseOf DiskErr.Failed (D.faults disk.old) (D.faults disk.new) result }
{
    save_owed(alloc, disk, dir, &held.owed)?;
    save_image(alloc, disk, dir, &held.image)?;
    save_weak(alloc, disk, dir, held.live.weak())
}

// All that is held.
#[tactic(auto, using(crate::proofs::Savings::saving))]
fn save_held<D: Disk>(alloc: Global, disk: &mut D, dir: &Path, held: &Held) -> Result<(), DiskErr>
    requires { length dir.now ≡ 2 }
    ensures saves { Moves (D.told disk.old) (D.told disk.new) (SavesTo dir.now (value_in held.now (Some held.now.live.weak)) result) }
    ensures content { OnOk result (IsContent held.now.live) }
    ensures pending { OnOk result (IsPending held.now.pending) }
    ensures cause { HasCauseOf DiskErr.Failed (D.faults disk.old) (D.faults disk.new) result }
{
    save_values(alloc, disk, dir, held.live.values())?;
    save_metadata(alloc, disk, dir, held.live.metadata())?;
    save_pending_maps(alloc, disk, dir, held.pending.transactions())?;
    save_single(alloc, disk, dir, held)
}

/// Writes what is held into a data directory of two names with nothing below it, in format 2, and syncs at the end. It
/// takes a constant step for each file, and copies no value.
///
/// After Ok the files represent what is held in format 2, and are on the disk. After an error some of them may be there.
/// Nothing changes elsewhere. `Failed` where the disk failed, `Memory` where it runs out of memory.
#[tactic(auto, using(crate::proofs::SavedWhole::whole_saved))]
pub fn save_all<D: Disk>(
    alloc: Global,
    disk: &mut D,
    dir: &Path,
    held: &Held,
) -> Result<(), DiskErr>
    requires { length dir.now ≡ 2 }
    ensures saves { Moves (D.told disk.old) (D.told disk.new) (Saves dir.now held.now result) }
    ensures cause { HasCauseOf DiskErr.Failed (D.faults disk.old) (D.faults disk.new) result }
{
    save_held(alloc, disk, dir, held)?;
    save_format(alloc, disk, dir)?;
    sync(disk)
}
