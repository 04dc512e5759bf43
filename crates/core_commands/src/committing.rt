//! Pairs are committed to a store that was just opened.
ghost use Rattle.std.specs.Prelude.{◌≡◌, ◌++◌, ◌∷◌, [], All, IsTrue, IfOk, IfErr, codes, false};
ghost use Rattle.outside.specs.Told.{Moves};
ghost use Rattle.outside.specs.Faults.{HasCauseOf};
ghost use Rattle.key_names.specs.Key.{is_prefix};
ghost use Rattle.settings_tree.specs.Content.{settings_key};
ghost use Rattle.settings_machine.specs.Asked.{request_of};
ghost use Rattle.store_open.specs.Opening.{IsSoundOpened};
ghost use Rattle.api_core.specs.Cores.{core_state, IsSound};
ghost use Rattle.core_commands.specs.Asking.{IsPlannable, requests};
ghost use Rattle.core_commands.specs.Carried.{IsOver};
ghost use Rattle.core_commands.specs.Handing.{IsOfRequest};
ghost use Rattle.core_commands.specs.Committing.{patch_requests, Commits};

use crate::asking::{ask_and_print, ask_each};
use crate::lines::line_of;
use crate::setting::puts_of;
use api_core::Core;
use command_outcome::Refusal;
use key_names::{Bytes, Key, Text};
use outside::Disk;
use settings_machine::{Guard, Request};
use settings_tree::{Scalar, TxName};
use std::alloc::{AllocError, Global};
use store_open::Opened;

// The requests before the commit: the transaction is dropped, and patched with the pairs.
fn patch_asks(
    alloc: Global,
    tx: &TxName,
    pairs: &[(Key, Scalar)],
) -> Result<[Request; 2], AllocError>
    requires settings { All (λ pair. IsTrue (is_prefix settings_key pair.0)) pairs.now }
    ensures requests { IfOk result (λ asks. requests asks ≡ patch_requests tx.now pairs.now) }
    ensures plannable { IfOk result (λ asks. All (λ ask. IsPlannable (request_of ask)) asks) }
{
    let puts = puts_of(alloc, pairs)?;
    Ok([
        Request::DropTx { tx: tx.copy()? },
        Request::Patch {
            tx: tx.copy()?,
            pairs: puts,
        },
    ])
}

// The line that tells of no keys.
fn no_keys(alloc: Global) -> Result<Bytes, Refusal>
    ensures line { IfOk result (λ line. line ≡ codes "[]" ++ 10 ∷ []) }
    ensures memory { IfErr result (λ refusal. refusal ≡ Refusal.Memory) }
{
    let text = Text::from_str(alloc, "[]")?;
    Ok(line_of(alloc, &text)?)
}

// Commits the pairs to the core of a store that was just opened: see `commit_pairs`.
fn commit_by<D: Disk>(
    alloc: Global,
    core: &mut Core,
    tx: TxName,
    pairs: &[(Key, Scalar)],
    disk: &mut D,
) -> Result<Bytes, Refusal>
    requires sound { IsSound core.old }
    requires calm { (core_state core.old).faulted ≡ false }
    requires settings { All (λ pair. IsTrue (is_prefix settings_key pair.0)) pairs.now }
    ensures commits { (store : Opened) → IsOver core.old store → Moves (D.told disk.old) (D.told disk.new) (Commits tx pairs.now store result) }
    ensures of_request { IfErr result IsOfRequest }
    ensures cause { HasCauseOf Refusal.Disk (D.faults disk.old) (D.faults disk.new) result }
{
    if pairs.is_empty() {
        return no_keys(alloc);
    }
    let asks = patch_asks(alloc, &tx, pairs)?;
    ask_each(alloc, core, &asks, disk)?;
    let commit = Request::Commit {
        tx,
        guard: Guard::Off,
    };
    ask_and_print(alloc, core, &commit, disk)
}

/// Commits pairs to a store that was just opened: drops the transaction, patches it with the pairs in order, and commits it. It
/// answers the keys that the commit has set, as a list in compact JSON (RFC 8259), and a line feed; `[]` where there are no pairs, and
/// nothing is asked then. No job is begun.
///
/// Each key begins with `settings`. `Refused` where the types refuse a value, and nothing is set then; `Disk` where the disk failed;
/// `Memory` where it runs out of memory.
pub fn commit_pairs<D: Disk>(
    alloc: Global,
    store: Opened,
    tx: TxName,
    pairs: &[(Key, Scalar)],
    disk: &mut D,
) -> Result<Bytes, Refusal>
    requires opened { IsSoundOpened store }
    requires settings { All (λ pair. IsTrue (is_prefix settings_key pair.0)) pairs.now }
    ensures commits { Moves (D.told disk.old) (D.told disk.new) (Commits tx pairs.now store result) }
    ensures of_request { IfErr result IsOfRequest }
    ensures cause { HasCauseOf Refusal.Disk (D.faults disk.old) (D.faults disk.new) result }
{
    let mut core = Core::new(store);
    let line = commit_by(alloc, &mut core, tx, pairs, disk);
    drop(core);
    line
}
