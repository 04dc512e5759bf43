//! What the machine makes of the requests that begin a job.
ghost use Rattle.std.specs.Prelude.{IfOk};
ghost use Rattle.settings_machine.specs.Requests as machine;
ghost use Rattle.api_core.specs.Plans.{MayMake, IsSoundCore, KnowsFiles, Makes, IsQuietIfRefused};
ghost use Rattle.api_core.specs.Prints.{CanPrint};

use crate::Core;
use crate::next_job::{applying, noting_and_applying};
use crate::planned::{Effect, Planned};
use crate::planning::{no_change, no_pending};
use machine_answers::{Answer, Body};
use pending_tx::{Commit, CommitError};
use settings_tree::TxName;
use std::alloc::{AllocError, Global};

impl Core {
    pub(crate) fn plan_apply(&self, alloc: Global) -> Result<Planned, AllocError>
        requires sound { IsSoundCore self.now }
        ensures may { IfOk result (MayMake self.now) }
        ensures planned { IfOk result (Makes self.now machine.Apply) }
        ensures files { IfOk result (KnowsFiles self.now) }
        ensures prints { IfOk result (λ planned. CanPrint planned.answer) }
        ensures quiet { IfOk result IsQuietIfRefused }
    {
        Ok(Planned {
            answer: Answer::Empty,
            effect: Effect {
                change: no_change(alloc),
                next: applying(&self.image.manifest, &self.job, &self.held.owed)?,
            },
        })
    }

    pub(crate) fn plan_commit_and_apply(
        &self,
        alloc: Global,
        tx: &TxName,
    ) -> Result<Planned, AllocError>
        requires sound { IsSoundCore self.now }
        ensures may { IfOk result (MayMake self.now) }
        ensures planned { IfOk result (Makes self.now (machine.CommitAndApply tx.now)) }
        ensures files { IfOk result (KnowsFiles self.now) }
        ensures prints { IfOk result (λ planned. CanPrint planned.answer) }
        ensures quiet { IfOk result IsQuietIfRefused }
    {
        match pending_tx::commit(alloc, &self.held, tx) {
            Ok(
                Commit {
                    keys,
                    changed,
                    change,
                },
            ) => {
                let owed = self.held.owed_after(&change);
                let manifest = &self.image.manifest;
                let next = noting_and_applying(manifest, &self.job, changed, owed)?;
                Ok(Planned {
                    answer: Answer::Said(Body::Keys(keys)),
                    effect: Effect { change, next },
                })
            }
            Err(CommitError::NoPending) => no_pending(alloc, tx),
            Err(CommitError::Memory) => Err(AllocError),
        }
    }
}
