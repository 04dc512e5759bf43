//! The requests on transactions. What each tells is what the machine replies.
ghost use Rattle.std.specs.Prelude.{◌≡◌, All, IfOk, IsTrue, OnErr, None, Err, true};
ghost use Rattle.std.specs.FinMap.{get};
ghost use Rattle.key_names.specs.Key.{is_prefix};
ghost use Rattle.settings_tree.specs.Content.{settings_key};
ghost use Rattle.plain_machine.specs.Plain.{patch_reply, keys_reply, missing_reply};
ghost use Rattle.settings_machine.specs.Requests.{Patch, DropTx, Commit};
ghost use Rattle.settings_machine.specs.Typed.{IsTypedHeld};
ghost use Rattle.pending_tx.specs.declared.answers.CommitError.TheVariants.{NoPending as Missing};
ghost use Rattle.typed_settings.specs.Order.{IsTable};
ghost use Rattle.plain_machine.specs.Steps.{IsAsked};
ghost use Rattle.plain_machine.specs.Worlds.{world_of};

use crate::image::PlainImage;
use crate::job_steps::{note, noted};
use crate::machine::PlainMachine;
use crate::pending::{drop_tx, keep_rule, pend};
use key_names::Key;
use pending_tx::CommitError;
use settings_machine::Refusal;
use settings_tree::{KeyList, Pending, TxName, is_setting};
use std::alloc::{AllocError, Global};

/// Whether each key of the pairs begins with `settings`, as `patch` wants. It takes a step for each pair and no memory.
pub fn are_settings(pairs: &[(Key, Pending)]) -> bool
    ensures sound { IsTrue result → All (λ e. is_prefix settings_key e.0 ≡ true) pairs.now }
    ensures complete { All (λ e. is_prefix settings_key e.0 ≡ true) pairs.now → IsTrue result }
{
    pairs.iter().all(|(key, _)| is_setting(key))
}

impl PlainMachine {
    /// Makes the pairs pending in the transaction, unless the types refuse one of them: then it tells the first of these
    /// by key, and nothing changes. Each key begins with `settings`. The only error is out of memory, which leaves the
    /// machine as it was. It takes the time of `pend`.
    pub fn patch(
        &mut self,
        alloc: Global,
        image: &PlainImage,
        tx: &TxName,
        pairs: &[(Key, Pending)],
    ) -> Result<Option<Refusal>, AllocError>
        requires table { IsTable image.now.types }
        requires typed { IsTypedHeld image.now.types self.old.held }
        requires settings { All (λ e. is_prefix settings_key e.0 ≡ true) pairs.now }
        ensures asked { IfOk result (λ o. IsAsked image.now self.old (Patch tx.now pairs.now) self.new (patch_reply o)) }
        ensures typed { IsTypedHeld image.now.types self.new.held }
        ensures unchanged { OnErr result (world_of self.new ≡ world_of self.old) }
    {
        pend(alloc, &image.types, &mut self.held, tx, pairs)
    }

    /// Drops the transaction, and tells its keys: none where there is no such transaction. The only error is out of
    /// memory, which leaves the machine as it was. It takes the time of `drop_tx`.
    pub fn drop_tx(
        &mut self,
        alloc: Global,
        image: &PlainImage,
        tx: &TxName,
    ) -> Result<KeyList, AllocError>
        requires typed { IsTypedHeld image.now.types self.old.held }
        ensures asked { IfOk result (λ keys. IsAsked image.now self.old (DropTx tx.now) self.new (keys_reply keys)) }
        ensures typed { IsTypedHeld image.now.types self.new.held }
        ensures unchanged { OnErr result (world_of self.new ≡ world_of self.old) }
    {
        drop_tx(alloc, &image.types, &mut self.held, tx)
    }

    /// Commits the transaction, and tells its keys; a running job notes those whose live values are changed. `NoPending`
    /// comes exactly where there is no such transaction. After an error the machine is as it was. It takes the time of
    /// `pending_tx::commit`, and a step for each noted key of a running job.
    pub fn commit(
        &mut self,
        alloc: Global,
        image: &PlainImage,
        tx: &TxName,
    ) -> Result<KeyList, CommitError>
        requires table { IsTable image.now.types }
        requires typed { IsTypedHeld image.now.types self.old.held }
        ensures asked { IfOk result (λ keys. IsAsked image.now self.old (Commit tx.now) self.new (keys_reply keys)) }
        ensures refused { get self.old.held.pending tx.now ≡ None → result ≡ Err Missing }
        ensures exact { result ≡ Err Missing → get self.old.held.pending tx.now ≡ None }
        ensures missing { result ≡ Err Missing → IsAsked image.now self.old (Commit tx.now) self.new (missing_reply tx.now) }
        ensures typed { IsTypedHeld image.now.types self.new.held }
        ensures unchanged { OnErr result (world_of self.new ≡ world_of self.old) }
    {
        let commit = pending_tx::commit(alloc, &self.held, tx)?;
        // All that may run out of memory is made before what is held changes.
        let since = noted(alloc, &self.job, &commit.changed)?;
        keep_rule(&self.held);
        self.held.lay(commit.change)?;
        note(&mut self.job, since);
        Ok(commit.keys)
    }
}
