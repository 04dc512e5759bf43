//! What a store holds.
ghost use Rattle.std.specs.Prelude.{◌≡◌, OnOk, OnErr, IfOk};
ghost use Rattle.settings_tree.specs.Content.{IsContent};
ghost use Rattle.settings_tree.specs.Laid.{laid, KeepsPrefixRule, NamesWeak, TellsWeak};
ghost use Rattle.settings_tree.specs.Pending.{IsPending};
ghost use Rattle.settings_tree.specs.Rooms.{held_of, IsFullHeld};

use crate::change::Change;
use crate::content::Content;
use crate::entry::{Entry, Owed};
use crate::parts::Parts;
use crate::pend_maps::PendMaps;
use key_names::Bytes;
use std::alloc::{AllocError, Global};
use std::mem;

/// What a store holds: the live settings, the pending maps, the owed keys and the stored image text.
#[derive(Drop)]
pub struct Held {
    /// The live settings.
    pub live: Content,
    /// What the transactions have pending.
    pub pending: PendMaps,
    /// The keys whose files are still to be written.
    pub owed: Owed,
    /// The stored image text.
    pub image: Bytes,
}

#[tactic(auto, using(crate::proofs::HeldRules::held_rules))]
impl Held {
    // The parts, without the rules that join them. What stays holds nothing.
    fn take_parts(&mut self, alloc: Global) -> Parts
        ensures parts { held_of result ≡ self.old }
        ensures content { IsContent self.old.live }
        ensures pending { IsPending self.old.pending }
    {
        let live = mem::replace(&mut self.live, Content::new(alloc));
        let pending = mem::replace(&mut self.pending, PendMaps::new(alloc));
        let owed = mem::replace(&mut self.owed, Owed::All);
        let image = mem::replace(&mut self.image, Bytes::of(Vec::new(alloc)));
        let Content {
            values,
            metadata,
            weak,
        } = live;
        let PendMaps { transactions } = pending;
        Parts {
            values,
            metadata,
            weak,
            pending: transactions,
            owed,
            image,
        }
    }

    fn put_parts(&mut self, parts: Parts)
        requires content { IsContent (held_of parts).live }
        requires pending { IsPending (held_of parts).pending }
        ensures { self.new ≡ held_of parts }
    {
        let Parts {
            values,
            metadata,
            weak,
            pending,
            owed,
            image,
        } = parts;
        self.live = Content {
            values,
            metadata,
            weak,
        };
        self.pending = PendMaps {
            transactions: pending,
        };
        self.owed = owed;
        self.image = image;
    }

    /// Lays the change, entry by entry, or nothing of it where it runs out of memory, which is the only
    /// error. What it makes must keep the prefix rule. Each key of a `WeakIs` must have a value in it
    /// and begin with `settings`, and a change that sets or removes a weak key must have a `WeakIs`.
    /// It takes a logarithmic step or two for each entry, and copies no value.
    pub fn lay(&mut self, change: Change) -> Result<(), AllocError>
        requires rule { KeepsPrefixRule (laid self.old change) }
        requires weak { NamesWeak self.old change }
        requires told { TellsWeak self.old change }
        ensures ok { OnOk result (self.new ≡ laid self.old change) }
        ensures err { OnErr result (self.new ≡ self.old) }
    {
        let entries = change.into_entries();
        let mut parts = self.take_parts(*entries.allocator());
        let laid: Result<_, _> = parts.lay(entries);
        self.put_parts(parts);
        laid
    }

    /// What is owed once the change is laid. It takes a step for each entry and no memory.
    pub fn owed_after<'a>(&'a self, change: &'a Change) -> &'a Owed
        ensures { result.now ≡ (laid self.now change.now).owed }
    {
        let mut owed = &self.owed;
        for entry in change.as_slice() {
            if let Entry::OwedSet { owed: new } = entry {
                owed = new;
            }
        }
        owed
    }

    /// A copy. The only error is out of memory.
    pub fn copy(&self) -> Result<Held, AllocError>
        ensures { IfOk result (λ copy. copy ≡ self.now) }
    {
        let image = self.image.copy()?;
        let owed = self.owed.copy()?;
        let pending = self.pending.copy()?;
        let live = self.live.copy()?;
        Ok(Held {
            live,
            pending,
            owed,
            image,
        })
    }
}
