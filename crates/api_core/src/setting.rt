//! What the machine makes of the requests that change the live settings at once, or owe all.
ghost use Rattle.std.specs.Prelude.{◌≡◌, IsTrue, All, None, IfOk};
ghost use Rattle.key_names.specs.Key.{is_prefix};
ghost use Rattle.settings_tree.specs.Content.{settings_key};
ghost use Rattle.settings_machine.specs.Typed.{first_wanted};
ghost use Rattle.settings_machine.specs.Requests as machine;
ghost use Rattle.api_core.specs.Plans.{MayMake, IsSoundCore, KnowsFiles, Makes, IsQuietIfRefused};
ghost use Rattle.api_core.specs.Planning.{all_owed};
ghost use Rattle.api_core.specs.Prints.{CanPrint};

use crate::Core;
use crate::next_job::{applying, noting_and_applying};
use crate::planned::{Effect, Planned};
use crate::planning::without_effect;
use key_names::Key;
use machine_answers::{Answer, Body};
use pending_tx::Commit;
use settings_machine::refused_pair;
use settings_tree::{Change, Entry, Owed, Pending};
use std::alloc::{AllocError, Global};

// The change after which all is owed.
fn all_owed(alloc: Global, owed: &Owed) -> Result<Change, AllocError>
    ensures { IfOk result (λ change. change ≡ all_owed owed.now) }
{
    let mut entries = Vec::new(alloc);
    if let Owed::Keys(_) = owed {
        entries.push(Entry::OwedSet { owed: Owed::All })?;
    }
    Ok(Change::of(entries))
}

impl Core {
    /// The pairs, none of which is refused, are set at once.
    pub(crate) fn plan_taken(
        &self,
        alloc: Global,
        pairs: &[(Key, Pending)],
    ) -> Result<Planned, AllocError>
        requires taken { first_wanted self.now.image.model.types pairs.now ≡ None }
        requires sound { IsSoundCore self.now }
        ensures may { IfOk result (MayMake self.now) }
        ensures planned { IfOk result (Makes self.now (machine.Set pairs.now)) }
        ensures files { IfOk result (KnowsFiles self.now) }
        ensures prints { IfOk result (λ planned. CanPrint planned.answer) }
        ensures quiet { IfOk result IsQuietIfRefused }
    {
        let Commit {
            keys,
            changed,
            change,
        } = pending_tx::set(alloc, &self.held, pairs)?;
        let owed = self.held.owed_after(&change);
        let next = noting_and_applying(&self.image.manifest, &self.job, changed, owed)?;
        Ok(Planned {
            answer: Answer::Said(Body::Keys(keys)),
            effect: Effect { change, next },
        })
    }

    pub(crate) fn plan_set(
        &self,
        alloc: Global,
        pairs: &[(Key, Pending)],
    ) -> Result<Planned, AllocError>
        requires settings { All (λ e. IsTrue (is_prefix settings_key e.0)) pairs.now }
        requires sound { IsSoundCore self.now }
        ensures may { IfOk result (MayMake self.now) }
        ensures planned { IfOk result (Makes self.now (machine.Set pairs.now)) }
        ensures files { IfOk result (KnowsFiles self.now) }
        ensures prints { IfOk result (λ planned. CanPrint planned.answer) }
        ensures quiet { IfOk result IsQuietIfRefused }
    {
        match refused_pair(alloc, &self.image.model.types, pairs)? {
            Some(refusal) => Ok(without_effect(alloc, Answer::Refused(refusal))),
            None => self.plan_taken(alloc, pairs),
        }
    }

    pub(crate) fn plan_apply_all(&self, alloc: Global) -> Result<Planned, AllocError>
        requires sound { IsSoundCore self.now }
        ensures may { IfOk result (MayMake self.now) }
        ensures planned { IfOk result (Makes self.now machine.ApplyAll) }
        ensures files { IfOk result (KnowsFiles self.now) }
        ensures prints { IfOk result (λ planned. CanPrint planned.answer) }
        ensures quiet { IfOk result IsQuietIfRefused }
    {
        Ok(Planned {
            answer: Answer::Empty,
            effect: Effect {
                change: all_owed(alloc, &self.held.owed)?,
                next: applying(&self.image.manifest, &self.job, &Owed::All)?,
            },
        })
    }
}
