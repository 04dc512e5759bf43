//! What the machine makes of each request on transactions.
ghost use Rattle.std.specs.Prelude.{◌≡◌, [], IsTrue, All, IfOk};
ghost use Rattle.key_names.specs.Key.{is_prefix};
ghost use Rattle.settings_tree.specs.Content.{settings_key};
ghost use Rattle.settings_machine.specs.Requests as machine;
ghost use Rattle.api_core.specs.Plans.{MayMake, IsSoundCore, KnowsFiles, Makes, IsQuietIfRefused};
ghost use Rattle.api_core.specs.Prints.{CanPrint};

use crate::Core;
use crate::next_job::NextJob;
use crate::planned::{Effect, Planned};
use key_names::Key;
use machine_answers::{Answer, Body};
use pending_tx::{Commit, CommitError, Dropped};
use settings_machine::{Refusal, refused_pair};
use settings_tree::{Change, Pending, TxName};
use std::alloc::{AllocError, Global};

/// No change.
pub(crate) fn no_change(alloc: Global) -> Change
    ensures { result ≡ [] }
{
    Change::of(Vec::new(alloc))
}

/// A request that does nothing to the core.
pub(crate) fn without_effect(alloc: Global, answer: Answer) -> Planned
    ensures change { result.effect.change ≡ [] }
    ensures next { result.effect.next ≡ NextJob.Stay }
    ensures answer { result.answer ≡ answer }
{
    Planned {
        answer,
        effect: Effect {
            change: no_change(alloc),
            next: NextJob::Stay,
        },
    }
}

/// The transaction that is to be committed isn't there. The only error is out of memory.
pub(crate) fn no_pending(alloc: Global, tx: &TxName) -> Result<Planned, AllocError>
    ensures change { IfOk result (λ planned. planned.effect.change ≡ []) }
    ensures next { IfOk result (λ planned. planned.effect.next ≡ NextJob.Stay) }
    ensures answer { IfOk result (λ planned. planned.answer ≡ Answer.Refused (Refusal.NoPending tx.now)) }
{
    let tx = tx.copy()?;
    Ok(without_effect(alloc, Answer::Refused(Refusal::NoPending { tx })))
}

impl Core {
    pub(crate) fn plan_patch(
        &self,
        alloc: Global,
        tx: &TxName,
        pairs: &[(Key, Pending)],
    ) -> Result<Planned, AllocError>
        requires settings { All (λ e. IsTrue (is_prefix settings_key e.0)) pairs.now }
        requires sound { IsSoundCore self.now }
        ensures may { IfOk result (MayMake self.now) }
        ensures planned { IfOk result (Makes self.now (machine.Patch tx.now pairs.now)) }
        ensures files { IfOk result (KnowsFiles self.now) }
        ensures prints { IfOk result (λ planned. CanPrint planned.answer) }
        ensures quiet { IfOk result IsQuietIfRefused }
    {
        match refused_pair(alloc, &self.image.model.types, pairs)? {
            Some(refusal) => Ok(without_effect(alloc, Answer::Refused(refusal))),
            None => Ok(Planned {
                answer: Answer::Empty,
                effect: Effect {
                    change: pending_tx::patch(alloc, &self.held, tx, pairs)?,
                    next: NextJob::Stay,
                },
            }),
        }
    }

    pub(crate) fn plan_drop(&self, alloc: Global, tx: &TxName) -> Result<Planned, AllocError>
        requires sound { IsSoundCore self.now }
        ensures may { IfOk result (MayMake self.now) }
        ensures planned { IfOk result (Makes self.now (machine.DropTx tx.now)) }
        ensures files { IfOk result (KnowsFiles self.now) }
        ensures prints { IfOk result (λ planned. CanPrint planned.answer) }
        ensures quiet { IfOk result IsQuietIfRefused }
    {
        let Dropped { keys, change } = pending_tx::drop_tx(alloc, &self.held, tx)?;
        Ok(Planned {
            answer: Answer::Said(Body::Keys(keys)),
            effect: Effect {
                change,
                next: NextJob::Stay,
            },
        })
    }

    pub(crate) fn plan_commit(&self, alloc: Global, tx: &TxName) -> Result<Planned, AllocError>
        requires sound { IsSoundCore self.now }
        ensures may { IfOk result (MayMake self.now) }
        ensures planned { IfOk result (Makes self.now (machine.Commit tx.now)) }
        ensures files { IfOk result (KnowsFiles self.now) }
        ensures prints { IfOk result (λ planned. CanPrint planned.answer) }
        ensures quiet { IfOk result IsQuietIfRefused }
    {
        match pending_tx::commit(alloc, &self.held, tx) {
            Ok(
                Commit {
                    keys,
                    changed,
                    change,
                },
            ) => Ok(Planned {
                answer: Answer::Said(Body::Keys(keys)),
                effect: Effect {
                    change,
                    next: NextJob::Noted(changed),
                },
            }),
            Err(CommitError::NoPending) => no_pending(alloc, tx),
            Err(CommitError::Memory) => Err(AllocError),
        }
    }
}
