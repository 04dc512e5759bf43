//! What the types want in place of a value that they refuse: the type word of the row that matches its key, or `nothing` where no
//! row does. The only error of each function is out of memory.
ghost use Rattle.std.specs.Prelude.{◌≡◌, IfOk};
ghost use Rattle.json_trees.specs.declared.pending.Pending.TheVariants.{Put, Gone};
ghost use Rattle.typed_settings.specs.Row.{IsKnown, HasOneRow};
ghost use Rattle.settings_machine.specs.Typed.{row_for, wanted_by, wanted_in};
ghost use Rattle.store_report.specs.IllTyped.{keyed, wanted_live};

use json_trees::{Pending, Scalar};
use key_names::{Key, Text};
use opening_step::is_of_image;
use settings_tree::is_setting;
use std::alloc::{AllocError, Global};
use typed_settings::{TypeError, Types};

// What is wanted at a key that some row matches.
fn wanted_at_row(types: &Types, key: &Key, value: &Scalar) -> Result<Option<Text>, AllocError>
    requires known { IsKnown types.now key.now }
    requires one { HasOneRow types.now key.now }
    ensures { IfOk result (λ wanted. keyed key.now wanted ≡ wanted_by (row_for types.now key.now) key.now (Put value.now)) }
{
    match types.check(key, value) {
        Ok(()) => Ok(None),
        Err(TypeError::Wrong { wanted, .. }) => Ok(Some(wanted)),
        Err(_) => Err(AllocError),
    }
}

// What is wanted of a value at a key.
fn wanted_value(
    alloc: Global,
    types: &Types,
    key: &Key,
    value: &Scalar,
) -> Result<Option<Text>, AllocError>
    ensures { IfOk result (λ wanted. keyed key.now wanted ≡ wanted_by (row_for types.now key.now) key.now (Put value.now)) }
{
    if !types.matches(key) {
        return Ok(Some(Text::from_str(alloc, "nothing")?));
    }
    wanted_at_row(types, key, value)
}

// What is wanted of a removal at a key.
fn wanted_gone(alloc: Global, types: &Types, key: &Key) -> Result<Option<Text>, AllocError>
    ensures { IfOk result (λ wanted. keyed key.now wanted ≡ wanted_by (row_for types.now key.now) key.now Gone) }
{
    if !types.matches(key) {
        return Ok(Some(Text::from_str(alloc, "nothing")?));
    }
    Ok(None)
}

/// What is wanted in place of a live value, none where the types take it or the image says what is at the key. It takes the time of
/// `Types::check`.
pub fn wanted_live(
    alloc: Global,
    types: &Types,
    key: &Key,
    value: &Scalar,
) -> Result<Option<Text>, AllocError>
    ensures { IfOk result (λ wanted. keyed key.now wanted ≡ wanted_live types.now (key.now, value.now)) }
{
    if is_of_image(key) {
        Ok(None)
    } else {
        wanted_value(alloc, types, key, value)
    }
}

/// What is wanted in place of a pending value or removal, none where it may be pending at the key. It takes the time of
/// `Types::check`.
pub fn wanted_pending(
    alloc: Global,
    types: &Types,
    key: &Key,
    pending: &Pending,
) -> Result<Option<Text>, AllocError>
    ensures { IfOk result (λ wanted. keyed key.now wanted ≡ wanted_in types.now (key.now, pending.now)) }
{
    if !is_setting(key) {
        return Ok(Some(Text::from_str(alloc, "nothing")?));
    }
    match pending {
        Pending::Put(value) => wanted_value(alloc, types, key, value),
        Pending::Gone => wanted_gone(alloc, types, key),
    }
}
