//! Keys of a store are forgotten.
ghost use Rattle.std.specs.Prelude.{◌≡◌, None, length};
ghost use Rattle.outside.specs.Told.{Moves};
ghost use Rattle.outside.specs.Faults.{HasCauseOf};
ghost use Rattle.store_open.specs.Forgetting.{Forgets, ForgetsIn, first_unheld};
ghost use Rattle.store_open.specs.declared.open_error.OpenError.TheVariants as refused;
ghost use Rattle.store_open.specs.declared.forget_error.ForgetError.TheVariants.{Store};

use crate::reading::read_store;
use crate::step::make;
use crate::{ForgetError, Stored};
use key_names::Key;
use opening_step::keep_rule;
use outside::Disk;
use pending_tx::{first_unheld, forget, key_set};
use std::alloc::Global;

// Forgets the keys in a store that was just read.
fn forget_named<D: Disk>(
    alloc: Global,
    disk: &mut D,
    stored: &mut Stored,
    keys: &[Key],
) -> Result<(), ForgetError>
    requires { length stored.old.place.directory ≡ 2 }
    ensures forgets { Moves (D.told disk.old) (D.told disk.new) (ForgetsIn stored.old keys.now None result) }
    ensures cause { HasCauseOf (ForgetError.Store refused.Failed) (D.faults disk.old) (D.faults disk.new) result }
{
    keep_rule(&stored.held);
    let named = key_set(alloc, keys)?;
    let change = forget(alloc, &stored.held, &named)?;
    make(
        alloc,
        disk,
        &stored.place.directory,
        &mut stored.held,
        change,
    )?;
    Ok(())
}

// Forgets the keys in a store that was just read, unless one of them has no value.
fn forget_in<D: Disk>(
    alloc: Global,
    disk: &mut D,
    stored: &mut Stored,
    keys: &[Key],
) -> Result<(), ForgetError>
    requires { length stored.old.place.directory ≡ 2 }
    ensures forgets { Moves (D.told disk.old) (D.told disk.new)
        (ForgetsIn stored.old keys.now (first_unheld stored.old.held keys.now) result) }
    ensures cause { HasCauseOf (ForgetError.Store refused.Failed) (D.faults disk.old) (D.faults disk.new) result }
{
    match first_unheld(&stored.held, keys) {
        Some(key) => Err(ForgetError::NotHeld { key: key.copy()? }),
        None => forget_named(alloc, disk, stored, keys),
    }
}

/// Forgets the keys of the store, whatever the types of an image say of their values: reads what is held, as an opening does before it
/// looks at an image, and takes the live and the pending values of the keys away, in one change of the journal. The keys that had a live
/// value are owed; a transaction that has nothing else ends; nothing else changes.
///
/// A crash leaves the store as it was, or all keys forgotten. Refused are, in this order: what refuses an opening before the image is
/// read, as `Store`; and `NotHeld` exactly where one of the keys has no value, live or pending, with the first. `Store` with `Failed`
/// where the disk failed, and with `Memory` where it ran out of memory, which is never once the change is written. It takes a logarithmic
/// step for each key, and one for each pending one.
pub fn forget_keys<D: Disk>(alloc: Global, disk: &mut D, keys: &[Key]) -> Result<(), ForgetError>
    ensures forgets { Moves (D.told disk.old) (D.told disk.new) (Forgets keys.now result) }
    ensures cause { HasCauseOf (ForgetError.Store refused.Failed) (D.faults disk.old) (D.faults disk.new) result }
{
    let mut stored = read_store(alloc, disk)?;
    forget_in(alloc, disk, &mut stored, keys)
}
