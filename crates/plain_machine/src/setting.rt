//! Pairs that are set at once. What they tell is what the machine replies.
ghost use Rattle.std.specs.Prelude.{◌≡◌, All, IfOk, OnOk, OnErr, true};
ghost use Rattle.key_names.specs.Key.{is_prefix};
ghost use Rattle.settings_tree.specs.Content.{settings_key};
ghost use Rattle.typed_settings.specs.Order.{IsTable};
ghost use Rattle.settings_machine.specs.Requests.{Set, KeyList as Keys};
ghost use Rattle.settings_machine.specs.Typed.{IsTypedHeld};
ghost use Rattle.plain_machine.specs.Changes.{IsTaken};
ghost use Rattle.plain_machine.specs.Plain.{reply_by};
ghost use Rattle.plain_machine.specs.Steps.{IsAsked};
ghost use Rattle.plain_machine.specs.Worlds.{world_of};

use crate::after::{After, after_set};
use crate::image::PlainImage;
use crate::job_steps::{next_job, note, noted, take_up};
use crate::machine::PlainMachine;
use key_names::Key;
use settings_machine::{Refusal, refused_pair};
use settings_tree::{KeyList, Pending};
use std::alloc::{AllocError, Global};

impl PlainMachine {
    // What would be held is held from then on: a running job notes the changed keys, and then apply.
    fn take(
        &mut self,
        alloc: Global,
        image: &PlainImage,
        after: After,
    ) -> Result<KeyList, AllocError>
        ensures taken { OnOk result (IsTaken image.now self.old after self.new) }
        ensures keys { IfOk result (λ keys. keys ≡ after.keys) }
        ensures held { OnOk result (self.new.held ≡ after.held) }
        ensures kept { OnErr result (self.new.held ≡ self.old.held) }
        ensures unchanged { OnErr result (world_of self.new ≡ world_of self.old) }
    {
        let since = noted(alloc, &self.job, &after.changed)?;
        let next = next_job(alloc, &image.manifest, &after.held.owed, &self.job)?;
        self.held = after.held;
        note(&mut self.job, since);
        take_up(&mut self.job, next);
        Ok(after.keys)
    }

    /// Sets the pairs at once and then applies, as one request, and tells their keys; where the types refuse one of them it
    /// tells the first of these by key, and nothing changes. What is pending stays. Each key begins with `settings`. The only
    /// error is out of memory, which leaves the machine as it was. It copies all that is held, and takes the time of
    /// `refused_pair`, of `pending_tx::set` and of `apply`.
    pub fn set(
        &mut self,
        alloc: Global,
        image: &PlainImage,
        pairs: &[(Key, Pending)],
    ) -> Result<Result<KeyList, Refusal>, AllocError>
        requires table { IsTable image.now.types }
        requires typed { IsTypedHeld image.now.types self.old.held }
        requires settings { All (λ e. is_prefix settings_key e.0 ≡ true) pairs.now }
        ensures asked { IfOk result (λ keys. IsAsked image.now self.old (Set pairs.now) self.new (reply_by Keys keys)) }
        ensures typed { IsTypedHeld image.now.types self.new.held }
        ensures unchanged { OnErr result (world_of self.new ≡ world_of self.old) }
    {
        if let Some(refusal) = refused_pair(alloc, &image.types, pairs)? {
            return Ok(Err(refusal));
        }
        let after = after_set(alloc, &image.types, &self.held, pairs)?;
        Ok(Ok(self.take(alloc, image, after)?))
    }
}
