//! The ten kinds of migration.
ghost use Rattle.std.specs.Prelude.{◌≡◌, IfOk};
ghost use Rattle.migrate_helpers.specs.Borrowed.{step};
ghost use Rattle.migrate_helpers.specs.Step.{backward_step, forward_step};

use crate::copies::copied_pairs;
use crate::step::{Edit, Step};
use json_trees::Scalar;
use key_names::{Key, Text, copy_texts};
use settings_maps::copy_keys;
use std::alloc::AllocError;

/// A migration. Migrations of settings act on the live settings and on each pending map, where a
/// removal is taken away or moved as a value is; migrations of metadata act on the live content
/// alone. What takes a live value away takes its weakness.
#[derive(Debug, Drop)]
pub enum Migration {
    /// Settings that came: forward nothing, backward these keys are removed.
    AddSettings {
        settings: Vec<Key>,
    },
    /// Prefixes that came: forward nothing, backward all keys that begin with one are removed.
    AddPrefixes {
        prefixes: Vec<Key>,
    },
    /// Settings that went: forward these keys are removed, backward nothing.
    RemoveSettings {
        settings: Vec<Key>,
    },
    /// A text that changed: forward the old text at the key becomes the new, backward the new becomes
    /// the old. A removal, a list and any other value stay, and weakness stays.
    ReplaceString {
        setting: Key,
        old: Text,
        new: Text,
    },
    /// Settings that moved: forward the pairs in order, what is at the first key moves to the
    /// second, over what is there; backward the pairs in reverse order, second to first. Weakness
    /// moves along to a key that begins with `settings`, and else ends.
    RenameSettings {
        pairs: Vec<(Key, Key)>,
    },
    /// Metadata that came: forward nothing, backward the names at the key are removed.
    AddMetadata {
        key: Key,
        names: Vec<Text>,
    },
    /// Metadata that went: forward the names at the key are removed, backward nothing.
    RemoveMetadata {
        key: Key,
        names: Vec<Text>,
    },
    /// Metadata that changed: forward the old value becomes the new, backward the new becomes the old.
    ReplaceMetadata {
        key: Key,
        name: Text,
        old: Scalar,
        new: Scalar,
    },
    /// Forward every weak setting is removed, and pending maps stay; backward nothing.
    RemoveWeak,
    /// Nothing, either way.
    NoOp,
}

impl Migration {
    // What the way forward does.
    pub(crate) fn forward_step(&self) -> Step<'_>
        ensures { step result ≡ forward_step self.now }
    {
        match self {
            Migration::AddSettings { .. } => Step::Stays,
            Migration::AddPrefixes { .. } => Step::Stays,
            Migration::RemoveSettings { settings } => Step::Edits(Edit::Removes(settings)),
            Migration::ReplaceString { setting, old, new } => Step::Edits(Edit::Replaces(
                setting, old, new,
            )),
            Migration::RenameSettings { pairs } => Step::Edits(Edit::Renames(pairs)),
            Migration::AddMetadata { .. } => Step::Stays,
            Migration::RemoveMetadata { key, names } => Step::RemovesNames(key, names),
            Migration::ReplaceMetadata {
                key,
                name,
                old,
                new,
            } => Step::ReplacesName(key, name, old, new),
            Migration::RemoveWeak => Step::RemovesWeak,
            Migration::NoOp => Step::Stays,
        }
    }

    // What the way back does.
    pub(crate) fn backward_step(&self) -> Step<'_>
        ensures { step result ≡ backward_step self.now }
    {
        match self {
            Migration::AddSettings { settings } => Step::Edits(Edit::Removes(settings)),
            Migration::AddPrefixes { prefixes } => Step::Edits(Edit::RemovesBelow(prefixes)),
            Migration::RemoveSettings { .. } => Step::Stays,
            Migration::ReplaceString { setting, old, new } => Step::Edits(Edit::Replaces(
                setting, new, old,
            )),
            Migration::RenameSettings { pairs } => Step::Edits(Edit::RenamesBack(pairs)),
            Migration::AddMetadata { key, names } => Step::RemovesNames(key, names),
            Migration::RemoveMetadata { .. } => Step::Stays,
            Migration::ReplaceMetadata {
                key,
                name,
                old,
                new,
            } => Step::ReplacesName(key, name, new, old),
            Migration::RemoveWeak => Step::Stays,
            Migration::NoOp => Step::Stays,
        }
    }

    /// A copy that does the same on each way. The only error is out of memory.
    pub fn copy(&self) -> Result<Migration, AllocError>
        ensures forward { IfOk result (λ copy. forward_step copy ≡ forward_step self.now) }
        ensures backward { IfOk result (λ copy. backward_step copy ≡ backward_step self.now) }
    {
        Ok(match self {
            Migration::AddSettings { settings } => Migration::AddSettings {
                settings: copy_keys(*settings.allocator(), settings)?,
            },
            Migration::AddPrefixes { prefixes } => Migration::AddPrefixes {
                prefixes: copy_keys(*prefixes.allocator(), prefixes)?,
            },
            Migration::RemoveSettings { settings } => Migration::RemoveSettings {
                settings: copy_keys(*settings.allocator(), settings)?,
            },
            Migration::ReplaceString { setting, old, new } => Migration::ReplaceString {
                setting: setting.copy()?,
                old: old.copy()?,
                new: new.copy()?,
            },
            Migration::RenameSettings { pairs } => Migration::RenameSettings {
                pairs: copied_pairs(*pairs.allocator(), pairs)?,
            },
            Migration::AddMetadata { key, names } => Migration::AddMetadata {
                key: key.copy()?,
                names: copy_texts(*names.allocator(), names)?,
            },
            Migration::RemoveMetadata { key, names } => Migration::RemoveMetadata {
                key: key.copy()?,
                names: copy_texts(*names.allocator(), names)?,
            },
            Migration::ReplaceMetadata {
                key,
                name,
                old,
                new,
            } => Migration::ReplaceMetadata {
                key: key.copy()?,
                name: name.copy()?,
                old: old.copy()?,
                new: new.copy()?,
            },
            Migration::RemoveWeak => Migration::RemoveWeak,
            Migration::NoOp => Migration::NoOp,
        })
    }
}
