//! Keys that are forgotten.
ghost use Rattle.std.specs.Prelude.{◌≡◌, List, IfOk, OnErr};
ghost use Rattle.settings_machine.specs.Typed.{IsTypedHeld};
ghost use Rattle.typed_settings.specs.declared.row.Row.{Row};
ghost use Rattle.plain_machine.specs.Steps.{IsForgotten};
ghost use Rattle.plain_machine.specs.Worlds.{world_of};

use crate::machine::PlainMachine;
use crate::pending::keep_rule;
use key_names::Key;
use pending_tx::{first_unheld, forget, key_set};
use std::alloc::{AllocError, Global};

impl PlainMachine {
    /// Forgets the keys, whatever the types say of their values: the live and the pending ones are taken away, and the keys that
    /// had a live value are owed. Where one of the keys has no value, live or pending, it tells the first such key, and nothing
    /// changes. It is the machine's event where no job runs, as keys are forgotten while nothing else has the store. The only
    /// error is out of memory, which leaves the machine as it was. It takes the time of `pending_tx::forget`.
    pub fn forget(&mut self, alloc: Global, keys: &[Key]) -> Result<Option<Key>, AllocError>
        ensures forgotten { IfOk result (IsForgotten self.old keys.now self.new) }
        ensures typed { (types : List Row) → IsTypedHeld types self.old.held → IsTypedHeld types self.new.held }
        ensures unchanged { OnErr result (world_of self.new ≡ world_of self.old) }
    {
        if let Some(key) = first_unheld(&self.held, keys) {
            return Ok(Some(key.copy()?));
        }
        let named = key_set(alloc, keys)?;
        keep_rule(&self.held);
        let change = forget(alloc, &self.held, &named)?;
        self.held.lay(change)?;
        Ok(None)
    }
}
