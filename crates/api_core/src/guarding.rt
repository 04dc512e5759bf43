//! Changes that are refused where the template of a file would refuse.
ghost use Rattle.std.specs.Prelude.{◌≡◌, IsTrue, All, IfOk, None, IsSome};
ghost use Rattle.std.specs.FinMap.{get};
ghost use Rattle.key_names.specs.Key.{is_prefix};
ghost use Rattle.settings_tree.specs.Content.{settings_key};
ghost use Rattle.settings_tree.specs.Over.{laid_over};
ghost use Rattle.settings_machine.specs.Requests as machine;
ghost use Rattle.settings_machine.specs.Typed.{first_wanted};
ghost use Rattle.pending_tx.specs.Transactions.{changed_keys, changed_in, last_of, committed, set_at_once};
ghost use Rattle.api_core.specs.Plans.{MayMake, IsSoundCore, KnowsFiles, Makes, IsQuietIfRefused, Guards};
ghost use Rattle.api_core.specs.Prints.{CanPrint};

use crate::Core;
use crate::planned::Planned;
use crate::planning::without_effect;
use key_names::Key;
use machine_answers::Answer;
use pending_tx::{changed_in, last_of};
use settings_machine::{Refusal, first_refusing, refused_pair};
use settings_maps::KeyMap;
use settings_tree::{LiveView, Owed, Pending, TxName};
use std::alloc::{AllocError, Global};

impl Core {
    // Why it is refused to lay these values and removals over the live settings.
    fn refusal_over(
        &self,
        alloc: Global,
        keys: &KeyMap<Pending>,
    ) -> Result<Option<Refusal>, AllocError>
        ensures { IfOk result (Guards self.now (laid_over self.now.held.live keys.now) (changed_in self.now.held keys.now)) }
    {
        let image = &self.image;
        let changed = changed_in(alloc, &self.held, keys)?;
        let files = image.manifest.files_of(&Owed::Keys(changed))?;
        let live = LiveView::over(&self.held.live, keys);
        match first_refusing(alloc, &image.templates, &image.model.os, &live, &files)? {
            Some((file, error)) => Ok(Some(Refusal::NotRendered { file, error })),
            None => Ok(None),
        }
    }

    // Why the commit of the transaction is refused, where it is there.
    fn commit_refusal(&self, alloc: Global, tx: &TxName) -> Result<Option<Refusal>, AllocError>
        ensures there { IfOk result (λ refusal. IsSome (get self.now.held.pending tx.now)
            → Guards self.now (committed self.now.held tx.now).live (changed_keys self.now.held tx.now) refusal) }
        ensures missing { IfOk result (λ refusal. get self.now.held.pending tx.now ≡ None → refusal ≡ None) }
    {
        match self.held.pending.keys(tx) {
            Some(keys) => self.refusal_over(alloc, keys),
            None => Ok(None),
        }
    }

    // Why it is refused to set the pairs.
    fn set_refusal(
        &self,
        alloc: Global,
        pairs: &[(Key, Pending)],
    ) -> Result<Option<Refusal>, AllocError>
        ensures { IfOk result (Guards self.now (set_at_once self.now.held pairs.now).live (changed_in self.now.held (last_of pairs.now))) }
    {
        let keys = last_of(alloc, pairs)?;
        self.refusal_over(alloc, &keys)
    }
}

impl Core {
    pub(crate) fn plan_guarded_commit(
        &self,
        alloc: Global,
        tx: &TxName,
    ) -> Result<Planned, AllocError>
        requires sound { IsSoundCore self.now }
        ensures may { IfOk result (MayMake self.now) }
        ensures planned { IfOk result (Makes self.now (machine.Guarded (machine.Commit tx.now))) }
        ensures files { IfOk result (KnowsFiles self.now) }
        ensures prints { IfOk result (λ planned. CanPrint planned.answer) }
        ensures quiet { IfOk result IsQuietIfRefused }
    {
        match self.commit_refusal(alloc, tx)? {
            Some(refusal) => Ok(without_effect(alloc, Answer::Refused(refusal))),
            None => self.plan_commit(alloc, tx),
        }
    }

    pub(crate) fn plan_guarded_commit_and_apply(
        &self,
        alloc: Global,
        tx: &TxName,
    ) -> Result<Planned, AllocError>
        requires sound { IsSoundCore self.now }
        ensures may { IfOk result (MayMake self.now) }
        ensures planned { IfOk result (Makes self.now (machine.Guarded (machine.CommitAndApply tx.now))) }
        ensures files { IfOk result (KnowsFiles self.now) }
        ensures prints { IfOk result (λ planned. CanPrint planned.answer) }
        ensures quiet { IfOk result IsQuietIfRefused }
    {
        match self.commit_refusal(alloc, tx)? {
            Some(refusal) => Ok(without_effect(alloc, Answer::Refused(refusal))),
            None => self.plan_commit_and_apply(alloc, tx),
        }
    }

    // What is set, none of which the types refuse, is guarded.
    fn plan_guarded_taken(
        &self,
        alloc: Global,
        pairs: &[(Key, Pending)],
    ) -> Result<Planned, AllocError>
        requires taken { first_wanted self.now.image.model.types pairs.now ≡ None }
        requires sound { IsSoundCore self.now }
        ensures may { IfOk result (MayMake self.now) }
        ensures planned { IfOk result (Makes self.now (machine.Guarded (machine.Set pairs.now))) }
        ensures files { IfOk result (KnowsFiles self.now) }
        ensures prints { IfOk result (λ planned. CanPrint planned.answer) }
        ensures quiet { IfOk result IsQuietIfRefused }
    {
        match self.set_refusal(alloc, pairs)? {
            Some(refusal) => Ok(without_effect(alloc, Answer::Refused(refusal))),
            None => self.plan_taken(alloc, pairs),
        }
    }

    pub(crate) fn plan_guarded_set(
        &self,
        alloc: Global,
        pairs: &[(Key, Pending)],
    ) -> Result<Planned, AllocError>
        requires settings { All (λ e. IsTrue (is_prefix settings_key e.0)) pairs.now }
        requires sound { IsSoundCore self.now }
        ensures may { IfOk result (MayMake self.now) }
        ensures planned { IfOk result (Makes self.now (machine.Guarded (machine.Set pairs.now))) }
        ensures files { IfOk result (KnowsFiles self.now) }
        ensures prints { IfOk result (λ planned. CanPrint planned.answer) }
        ensures quiet { IfOk result IsQuietIfRefused }
    {
        match refused_pair(alloc, &self.image.model.types, pairs)? {
            Some(refusal) => Ok(without_effect(alloc, Answer::Refused(refusal))),
            None => self.plan_guarded_taken(alloc, pairs),
        }
    }
}
