//! The command `set`.
ghost use Rattle.std.specs.Prelude.{◌≡◌, All, IsTrue, IfOk};
ghost use Rattle.outside.specs.Faults.{HasCauseOf};
ghost use Rattle.key_names.specs.Key.{is_prefix};
ghost use Rattle.settings_tree.specs.Content.{settings_key};
ghost use Rattle.settings_machine.specs.Asked.{request_of};
ghost use Rattle.core_commands.specs.Asking.{IsPlannable, requests};
ghost use Rattle.core_commands.specs.Carried.{Carried, set_tx, puts_of, set_requests};
ghost use Rattle.core_commands.specs.Handing.{HasSpawnCause};
ghost use Rattle.core_commands.specs.Lines.{IsSettingsLine};

use crate::telling::{Telling, carry_and_tell};
use command_outcome::Refusal;
use key_names::{Bytes, Key};
use outside::{Disk, Spawner};
use settings_machine::{Guard, Request};
use settings_tree::{Pending, Scalar, TxName};
use std::alloc::{AllocError, Global};

// The transaction of the command.
fn set_tx(alloc: Global) -> Result<TxName, AllocError>
    ensures { IfOk result (λ tx. tx ≡ set_tx) }
{
    match TxName::read(alloc, b"cli-set")? {
        Some(tx) => Ok(tx),
        None => unreachable!(),
    }
}

/// Each value is to be set. The only error is out of memory.
pub(crate) fn puts_of(
    alloc: Global,
    pairs: &[(Key, Scalar)],
) -> Result<Vec<(Key, Pending)>, AllocError>
    ensures { IfOk result (λ puts. puts.items ≡ puts_of pairs.now) }
{
    let mut puts = Vec::new(alloc);
    for (key, value) in pairs {
        puts.push((key.copy()?, Pending::Put(value.copy()?)))?;
    }
    Ok(puts)
}

// The requests of the command.
fn set_asks(alloc: Global, pairs: &[(Key, Scalar)]) -> Result<[Request; 3], AllocError>
    requires settings { All (λ pair. IsTrue (is_prefix settings_key pair.0)) pairs.now }
    ensures requests { IfOk result (λ asks. requests asks ≡ set_requests pairs.now) }
    ensures plannable { IfOk result (λ asks. All (λ ask. IsPlannable (request_of ask)) asks) }
{
    let puts = puts_of(alloc, pairs)?;
    let tx = set_tx(alloc)?;
    Ok([
        Request::DropTx { tx: tx.copy()? },
        Request::Patch {
            tx: tx.copy()?,
            pairs: puts,
        },
        Request::CommitAndApply {
            tx,
            guard: Guard::Off,
        },
    ])
}

/// Sets values: opens the store, without boot; drops the transaction `cli-set`, patches it with these pairs in order, commits it and
/// applies; makes turns until no job runs; and answers the tree of the live settings, as compact JSON (RFC 8259), and a line feed.
///
/// Each key begins with `settings`. Why the store can't be opened comes first; then `Refused` where the types refuse a value, and
/// nothing is set then; then `Spawn`, `Render` or `Status` where the job failed so, and the values are set all the same. `Disk` where
/// the disk failed; `Memory` where it runs out of memory.
pub fn set<D: Disk, S: Spawner>(
    alloc: Global,
    pairs: &[(Key, Scalar)],
    disk: &mut D,
    spawner: &mut S,
) -> Result<Bytes, Refusal>
    requires settings { All (λ pair. IsTrue (is_prefix settings_key pair.0)) pairs.now }
    ensures carried { Carried (set_requests pairs.now) IsSettingsLine result
        (S.runs spawner.old) (S.runs spawner.new) (D.told disk.old) (D.told disk.new) }
    ensures cause { HasCauseOf Refusal.Disk (D.faults disk.old) (D.faults disk.new) result }
    ensures spawn { HasSpawnCause (S.faults spawner.old) (S.faults spawner.new) result }
    ensures asked { S.asked spawner.new ≡ S.asked spawner.old }
{
    let asks = set_asks(alloc, pairs)?;
    carry_and_tell(alloc, &asks, Telling::Settings, disk, spawner)
}
