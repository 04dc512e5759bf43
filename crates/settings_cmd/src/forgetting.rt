//! The command `forget`.
ghost use Rattle.std.specs.Prelude.{◌≡◌, ◌∷◌, ◌++◌, [], IfOk};
ghost use Rattle.outside.specs.Faults.{HasCauseOf};
ghost use Rattle.serde_json.specs.Written.{compact_text};
ghost use Rattle.held_text.specs.HeldText.{keys_data};
ghost use Rattle.pending_tx.specs.Transactions.{rising};
ghost use Rattle.settings_cmd.specs.Carried.{Carried};
ghost use Rattle.settings_cmd.specs.Stores.{IsForgotten, not_forgotten};

use command_outcome::Refusal;
use core_commands::{line_of, not_opened};
use key_names::{Bytes, Key};
use machine_answers::Body;
use outside::Disk;
use pending_tx::key_set;
use std::alloc::{AllocError, Global};
use store_open::{ForgetError, forget_keys};

// The keys, each once and rising, as compact JSON, and a line feed.
fn keys_line(alloc: Global, keys: &[Key]) -> Result<Bytes, AllocError>
    ensures { IfOk result (λ line. line ≡ compact_text (keys_data (rising keys.now)) ++ 10 ∷ []) }
{
    let text = Body::Keys(key_set(alloc, keys)?).text(alloc)?;
    line_of(alloc, &text)
}

// Why no keys were forgotten.
fn refused(error: ForgetError) -> Refusal
    ensures { result ≡ not_forgotten error }
{
    match error {
        ForgetError::Store(error) => not_opened(error),
        ForgetError::NotHeld { key } => Refusal::Refused(settings_machine::Refusal::NoKey { key }),
    }
}

/// Takes the live and the pending values of the keys away, all or none of them, whatever the image says of them. It answers the keys, each
/// once and rising, as a list in compact JSON (RFC 8259), and a line feed. The keys that had a live value are owed; no job is begun.
///
/// Why the store can't be read comes first, as in `dump`; then `Refused` with `NoKey` for the first of the keys that has no value, live
/// or pending, and nothing is changed. `Disk` where the disk failed; `Memory` where it runs out of memory, and never once the keys are
/// forgotten.
pub(crate) fn forget<D: Disk>(alloc: Global, disk: &mut D, keys: &[Key]) -> Result<Bytes, Refusal>
    ensures forgotten { Carried (IsForgotten keys.now) result (D.told disk.old) (D.told disk.new) }
    ensures cause { HasCauseOf Refusal.Disk (D.faults disk.old) (D.faults disk.new) result }
{
    let line = keys_line(alloc, keys)?;
    match forget_keys(alloc, disk, keys) {
        Ok(()) => Ok(line),
        Err(error) => Err(refused(error)),
    }
}
