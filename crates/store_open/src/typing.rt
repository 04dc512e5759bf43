//! Whether what is held fits the types of an image.
ghost use Rattle.std.specs.Prelude.{◌≡◌, ◌↔◌, [], ◌∷◌, false, IfOk, IfErr, OnOk, IfSome, IfNone, IsTrue};
ghost use Rattle.key_names.specs.Key.{is_prefix};
ghost use Rattle.typed_settings.specs.Row.{IsTyped};
ghost use Rattle.settings_machine.specs.Typed.{is_of_image, IsTaken, MayPend, HasTypedSettings, IsTypedHeld};
ghost use Rattle.store_open.specs.Typed.{IsFirstBadLive, IsFirstBadPendingOf, IsFirstBadPending, HasTypedPendingOf};
ghost use Rattle.store_open.specs.Typed.{HasTypedPending};
ghost use Rattle.store_open.specs.Phases.{TellsIllTyped};

use crate::OpenError;
use json_trees::{Pending, Scalar};
use key_names::Key;
use opening_step::is_of_image;
use settings_tree::{Held, TxName, is_setting};
use std::alloc::AllocError;
use typed_settings::{TypeError, Types};

// Whether the value is typed at the key.
fn is_typed(types: &Types, key: &Key, value: &Scalar) -> Result<bool, AllocError>
    ensures { IfOk result (λ typed. IsTrue typed ↔ IsTyped types.now key.now value.now) }
{
    match types.check(key, value) {
        Ok(()) => Ok(true),
        Err(TypeError::Memory) => Err(AllocError),
        Err(TypeError::Unknown { .. } | TypeError::Wrong { .. }) => Ok(false),
    }
}

// Whether the pending value is typed at the key, or of a removal the key is matched by a row.
fn is_typed_pending(types: &Types, key: &Key, value: &Pending) -> Result<bool, AllocError>
    ensures { IfOk result (λ typed. IsTrue typed ↔ IsTaken types.now key.now value.now) }
{
    match value {
        Pending::Put(value) => is_typed(types, key, value),
        Pending::Gone => Ok(types.matches(key)),
    }
}

// Whether what is pending may be at the key.
fn may_pend(types: &Types, key: &Key, value: &Pending) -> Result<bool, AllocError>
    ensures { IfOk result (λ may. IsTrue may ↔ MayPend types.now key.now value.now) }
{
    if !is_setting(key) {
        return Ok(false);
    }
    is_typed_pending(types, key, value)
}

// Whether the live value may be at the key: it is typed, or the image says what is there.
fn may_live(types: &Types, key: &Key, value: &Scalar) -> Result<bool, AllocError>
    ensures { IfOk result (λ may. IsTrue may ↔ (is_of_image key.now ≡ false → IsTyped types.now key.now value.now)) }
{
    if is_of_image(key) {
        Ok(true)
    } else {
        is_typed(types, key, value)
    }
}

// The first live setting that is ill typed.
fn bad_live<'a>(types: &Types, held: &'a Held) -> Result<Option<&'a Key>, AllocError>
    ensures found { IfOk result (λ found. IfSome found (λ key. IsFirstBadLive types.now held.now key.now)) }
    ensures none { IfOk result (λ found. IfNone found (HasTypedSettings types.now held.now.live)) }
{
    for (key, value) in held.live.values().iter() {
        if !may_live(types, key, value)? {
            return Ok(Some(key));
        }
    }
    Ok(None)
}

// The first key of the transaction at which something is pending that may not be there.
fn bad_pending_of<'a>(
    types: &Types,
    held: &'a Held,
    tx: &TxName,
) -> Result<Option<&'a Key>, AllocError>
    ensures found { IfOk result (λ found. IfSome found (λ key. IsFirstBadPendingOf types.now held.now tx.now key.now)) }
    ensures none { IfOk result (λ found. IfNone found (HasTypedPendingOf types.now held.now tx.now)) }
{
    let Some(values) = held.pending.keys(tx) else {
        return Ok(None);
    };
    for (key, value) in values.iter() {
        if !may_pend(types, key, value)? {
            return Ok(Some(key));
        }
    }
    Ok(None)
}

// The first such key of all transactions.
fn bad_pending<'a>(types: &Types, held: &'a Held) -> Result<Option<&'a Key>, AllocError>
    ensures found { IfOk result (λ found. IfSome found (λ key. IsFirstBadPending types.now held.now key.now)) }
    ensures none { IfOk result (λ found. IfNone found (HasTypedPending types.now held.now)) }
{
    let mut after = None;
    while let Some(tx) = held.pending.next_tx(after) {
        if let Some(key) = bad_pending_of(types, held, tx)? {
            return Ok(Some(key));
        }
        after = Some(tx);
    }
    Ok(None)
}

fn ill_typed(key: &Key) -> Result<OpenError, AllocError>
    ensures { IfOk result (λ e. e ≡ OpenError.IllTyped key.now) }
{
    let key = key.copy()?;
    Ok(OpenError::IllTyped { key })
}

/// Checks that each live setting is typed, and that all that is pending may be at its key: it is typed, or of a removal
/// the key is matched by a row. `IllTyped` exactly where this is not so, with the first such live setting, and else with the
/// first such key of the first transaction. It takes a constant step for each value, a logarithmic one or two for each
/// transaction, and the time of each value's check.
#[tactic(auto, using(crate::proofs::Typings::typed_whole))]
pub fn check_types(types: &Types, held: &Held) -> Result<(), OpenError>
    ensures typed { OnOk result (IsTypedHeld types.now held.now) }
    ensures refused { IfErr result (TellsIllTyped types.now held.now) }
{
    if let Some(key) = bad_live(types, held)? {
        return Err(ill_typed(key)?);
    }
    if let Some(key) = bad_pending(types, held)? {
        return Err(ill_typed(key)?);
    }
    Ok(())
}
