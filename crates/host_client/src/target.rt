//! Targets with a query.
ghost use Rattle.std.specs.Prelude.{◌≡◌, ◌++◌, ◌∷◌, codes, IfOk, OnOk, string_bytes};
ghost use Rattle.std.specs.Option.{option_copied};
ghost use Rattle.outside.specs.Spawner.{texts};
ghost use Rattle.host_client.specs.Steps.{escaped, settings_target, tx_part};

use key_names::Bytes;
use percent_encoding::{AsciiSet, NON_ALPHANUMERIC, ascii_set, percent_encode};
use std::alloc::{AllocError, Global};

/// The bytes of ASCII that are escaped in a value of a query.
const ESCAPED: AsciiSet = ascii_set!(NON_ALPHANUMERIC.remove(b'-').remove(b'.').remove(b'_'));

// Adds the value.
fn push_escaped(text: &mut String, value: &[u8]) -> Result<(), AllocError>
    ensures { OnOk result (string_bytes text.new ≡ string_bytes text.old ++ escaped value.now) }
{
    percent_encode(value, ESCAPED).append_to(text)
}

/// The text before a value, and the value with its escapes. The only error is out of memory.
pub(crate) fn with_value(alloc: Global, front: &str, value: &[u8]) -> Result<Bytes, AllocError>
    ensures { IfOk result (λ target. target ≡ front.now ++ escaped value.now) }
{
    let mut text = String::from_str(alloc, front)?;
    push_escaped(&mut text, value)?;
    Ok(Bytes::of(text.into_bytes()))
}

// The settings at one key and others.
fn target_of_keys(alloc: Global, key: &[u8], others: &[String]) -> Result<Bytes, AllocError>
    ensures { IfOk result (λ target. target ≡ settings_target (key.now ∷ texts others.now)) }
{
    let mut text = String::from_str(alloc, "/settings?keys=")?;
    push_escaped(&mut text, key)?;
    for other in others {
        text.push_str(",")?;
        push_escaped(&mut text, other.as_bytes())?;
    }
    Ok(Bytes::of(text.into_bytes()))
}

/// The target of the settings at these keys. The only error is out of memory.
pub(crate) fn target_of_settings(alloc: Global, keys: &[String]) -> Result<Bytes, AllocError>
    ensures { IfOk result (λ target. target ≡ settings_target (texts keys.now)) }
{
    match keys {
        [] => Ok(Bytes::of(b"/settings".to_vec(alloc)?)),
        [key, others @ ..] => target_of_keys(alloc, key.as_bytes(), others),
    }
}

/// The target of the file as it would be written, now or after the commit of the transaction. The only error is out of
/// memory.
pub(crate) fn target_of_file(
    alloc: Global,
    file: &[u8],
    tx: Option<&[u8]>,
) -> Result<Bytes, AllocError>
    ensures { IfOk result (λ target. target
        ≡ codes "/plan/file?name=" ++ escaped file.now ++ tx_part (option_copied tx.entry)) }
{
    let mut text = String::from_str(alloc, "/plan/file?name=")?;
    push_escaped(&mut text, file)?;
    if let Some(tx) = tx {
        text.push_str("&tx=")?;
        push_escaped(&mut text, tx)?;
    }
    Ok(Bytes::of(text.into_bytes()))
}
