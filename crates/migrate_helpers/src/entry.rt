//! What is at a key of a map that a migration edits.
ghost use Rattle.std.specs.Prelude.{◌≡◌, ℕ, List, IfOk};
ghost use Rattle.migrate_helpers.specs.Settings.{text_replaced, setting_at, setting_replaced, pending_at, pending_replaced};

use crate::setting::Setting;
use json_trees::{Pending, Scalar};
use key_names::{Key, Text};
use settings_tree::is_setting;
use std::alloc::AllocError;

/// What is at a key: a live setting, or what is pending.
pub(crate) trait Entry: Drop {
    /// The entry at another key.
    ghost landed: { List (List ℕ) → Self → Self };

    /// The entry with a text of it replaced.
    ghost replaced: { List ℕ → List ℕ → Self → Self };

    /// The entry at another key.
    fn landed(self, key: &Key) -> Self
        ensures { result ≡ landed key.now self };

    /// The entry with its text replaced, where that is the old one. The only error is out of memory.
    fn replaced(self, old: &Text, new: &Text) -> Result<Self, AllocError>
        ensures { IfOk result (λ entry. entry ≡ replaced old.now new.now self) };
}

fn text_replaced(value: Scalar, old: &Text, new: &Text) -> Result<Scalar, AllocError>
    ensures { IfOk result (λ scalar. scalar ≡ text_replaced old.now new.now value) }
{
    match value {
        Scalar::Text(text) => {
            if text == *old {
                Ok(Scalar::Text(new.copy()?))
            } else {
                Ok(Scalar::Text(text))
            }
        }
        other => Ok(other),
    }
}

impl Entry for Setting {
    ghost landed = { setting_at };

    ghost replaced = { setting_replaced };

    fn landed(self, key: &Key) -> Setting {
        let weak = self.weak && is_setting(key);
        Setting {
            value: self.value,
            weak,
        }
    }

    fn replaced(self, old: &Text, new: &Text) -> Result<Setting, AllocError> {
        let value = text_replaced(self.value, old, new)?;
        Ok(Setting {
            value,
            weak: self.weak,
        })
    }
}

impl Entry for Pending {
    ghost landed = { pending_at };

    ghost replaced = { pending_replaced };

    fn landed(self, _: &Key) -> Pending {
        self
    }

    fn replaced(self, old: &Text, new: &Text) -> Result<Pending, AllocError> {
        match self {
            Pending::Put(value) => Ok(Pending::Put(text_replaced(value, old, new)?)),
            Pending::Gone => Ok(Pending::Gone),
        }
    }
}
