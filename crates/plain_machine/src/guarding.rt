//! Changes that are refused where the template of a file would refuse. What they tell is what the machine replies.
ghost use Rattle.std.specs.Prelude.{◌≡◌, All, IfOk, OnErr, true};
ghost use Rattle.key_names.specs.Key.{is_prefix};
ghost use Rattle.settings_tree.specs.Content.{settings_key};
ghost use Rattle.typed_settings.specs.Order.{IsTable};
ghost use Rattle.settings_machine.specs.Requests.{Commit, CommitAndApply, Set, Guarded, KeyList as Keys};
ghost use Rattle.settings_machine.specs.Typed.{IsTypedHeld};
ghost use Rattle.plain_machine.specs.Changes.{IsGuardedBy, IsRefusedOver};
ghost use Rattle.plain_machine.specs.Plain.{reply_by};
ghost use Rattle.plain_machine.specs.Steps.{IsAsked};
ghost use Rattle.plain_machine.specs.Worlds.{world_of};

use crate::after::{After, after_commit, after_set};
use crate::image::PlainImage;
use crate::machine::PlainMachine;
use key_names::Key;
use pending_tx::CommitError;
use settings_machine::{Refusal, first_refusing, refused_pair};
use settings_tree::{KeyList, LiveView, Owed, Pending, TxName};
use std::alloc::{AllocError, Global};

// Why a change is refused after which this would be held: the first of the files of the changed keys whose template refuses.
fn refusal_over(
    alloc: Global,
    image: &PlainImage,
    after: After,
) -> Result<Option<Refusal>, AllocError>
    ensures { IfOk result (IsRefusedOver image.now after) }
{
    let files = image.manifest.files_of(&Owed::Keys(after.changed))?;
    let live = LiveView::of(&after.held.live);
    match first_refusing(alloc, &image.templates, &image.os, &live, &files)? {
        Some((file, error)) => Ok(Some(Refusal::NotRendered { file, error })),
        None => Ok(None),
    }
}

impl PlainMachine {
    // Why its guard refuses the commit of the transaction, with apply after it or without; one that isn't there is refused by itself.
    fn commit_refusal(
        &self,
        alloc: Global,
        image: &PlainImage,
        tx: &TxName,
    ) -> Result<Option<Refusal>, AllocError>
        requires table { IsTable image.now.types }
        requires typed { IsTypedHeld image.now.types self.now.held }
        ensures commit { IfOk result (IsGuardedBy image.now self.now (Commit tx.now)) }
        ensures both { IfOk result (IsGuardedBy image.now self.now (CommitAndApply tx.now)) }
    {
        match after_commit(alloc, &image.types, &self.held, tx)? {
            Some(after) => refusal_over(alloc, image, after),
            None => Ok(None),
        }
    }

    // Why their guard refuses to set the pairs; those that the types refuse are refused by themselves.
    fn set_refusal(
        &self,
        alloc: Global,
        image: &PlainImage,
        pairs: &[(Key, Pending)],
    ) -> Result<Option<Refusal>, AllocError>
        requires table { IsTable image.now.types }
        requires typed { IsTypedHeld image.now.types self.now.held }
        requires settings { All (λ e. is_prefix settings_key e.0 ≡ true) pairs.now }
        ensures { IfOk result (IsGuardedBy image.now self.now (Set pairs.now)) }
    {
        if refused_pair(alloc, &image.types, pairs)?.is_some() {
            return Ok(None);
        }
        let after = after_set(alloc, &image.types, &self.held, pairs)?;
        refusal_over(alloc, image, after)
    }
}

impl PlainMachine {
    /// Commits the transaction as `commit` does, unless the template of a file of the changed keys would refuse then: the first
    /// such file is told, and nothing changes. A transaction that isn't there is refused with `NoPending`. The only error is out
    /// of memory, which leaves the machine as it was. It takes the time of rendering these files, and of `commit` twice.
    pub fn guarded_commit(
        &mut self,
        alloc: Global,
        image: &PlainImage,
        tx: &TxName,
    ) -> Result<Result<KeyList, Refusal>, AllocError>
        requires table { IsTable image.now.types }
        requires typed { IsTypedHeld image.now.types self.old.held }
        ensures asked { IfOk result (λ keys. IsAsked image.now self.old (Guarded (Commit tx.now)) self.new (reply_by Keys keys)) }
        ensures typed { IsTypedHeld image.now.types self.new.held }
        ensures unchanged { OnErr result (world_of self.new ≡ world_of self.old) }
    {
        if let Some(refusal) = self.commit_refusal(alloc, image, tx)? {
            return Ok(Err(refusal));
        }
        match self.commit(alloc, image, tx) {
            Ok(keys) => Ok(Ok(keys)),
            Err(CommitError::NoPending) => Ok(Err(Refusal::NoPending { tx: tx.copy()? })),
            Err(CommitError::Memory) => Err(AllocError),
        }
    }

    /// The same of `commit_and_apply`.
    pub fn guarded_commit_and_apply(
        &mut self,
        alloc: Global,
        image: &PlainImage,
        tx: &TxName,
    ) -> Result<Result<KeyList, Refusal>, AllocError>
        requires table { IsTable image.now.types }
        requires typed { IsTypedHeld image.now.types self.old.held }
        ensures asked { IfOk result (λ keys. IsAsked image.now self.old (Guarded (CommitAndApply tx.now)) self.new (reply_by Keys keys)) }
        ensures typed { IsTypedHeld image.now.types self.new.held }
        ensures unchanged { OnErr result (world_of self.new ≡ world_of self.old) }
    {
        if let Some(refusal) = self.commit_refusal(alloc, image, tx)? {
            return Ok(Err(refusal));
        }
        match self.commit_and_apply(alloc, image, tx) {
            Ok(keys) => Ok(Ok(keys)),
            Err(CommitError::NoPending) => Ok(Err(Refusal::NoPending { tx: tx.copy()? })),
            Err(CommitError::Memory) => Err(AllocError),
        }
    }

    /// The same of `set`.
    pub fn guarded_set(
        &mut self,
        alloc: Global,
        image: &PlainImage,
        pairs: &[(Key, Pending)],
    ) -> Result<Result<KeyList, Refusal>, AllocError>
        requires table { IsTable image.now.types }
        requires typed { IsTypedHeld image.now.types self.old.held }
        requires settings { All (λ e. is_prefix settings_key e.0 ≡ true) pairs.now }
        ensures asked { IfOk result (λ keys. IsAsked image.now self.old (Guarded (Set pairs.now)) self.new (reply_by Keys keys)) }
        ensures typed { IsTypedHeld image.now.types self.new.held }
        ensures unchanged { OnErr result (world_of self.new ≡ world_of self.old) }
    {
        match self.set_refusal(alloc, image, pairs)? {
            Some(refusal) => Ok(Err(refusal)),
            None => self.set(alloc, image, pairs),
        }
    }
}
