//! Which keys are those of settings.
ghost use Rattle.std.specs.Prelude.{◌≡◌, ◌↔◌, All, IsTrue};
ghost use Rattle.key_names.specs.Key.{is_prefix};
ghost use Rattle.settings_tree.specs.Content.{settings_key, MayBeWeak};

use json_trees::Scalar;
use key_names::Key;
use settings_maps::KeyMap;

/// Whether the key begins with `settings`, as the key of each setting does. It takes no memory.
pub fn is_setting(key: &Key) -> bool
    ensures { result ≡ is_prefix settings_key key.now }
{
    key.len() > 0 && key.segment(0) == b"settings".as_slice()
}

/// Whether each of the keys has a value among these and begins with `settings`, so that it may be weak
/// with them. It takes a logarithmic step for each and no memory.
pub fn may_be_weak(values: &KeyMap<Scalar>, keys: &[Key]) -> bool
    ensures { IsTrue result ↔ All (MayBeWeak values.now) keys.now }
{
    keys.iter()
        .all(|key| is_setting(key) && values.get(key).is_some())
}
