//! The key at which a map breaks the prefix rule.
ghost use Rattle.std.specs.Prelude.{◌≡◌, false};
ghost use Rattle.std.specs.Option.{option_copied, option_map_or};
ghost use Rattle.key_names.specs.Key.{is_prefix};
ghost use Rattle.migrate_helpers.specs.Conflict.{conflict};

use key_names::Key;
use settings_maps::KeyMap;

// Whether the key begins with the other one, if that is given.
fn begins_with(key: &Key, other: Option<&Key>) -> bool
    ensures { result ≡ option_map_or (λ k. is_prefix k key.now) (option_copied other.entry) false }
{
    match other {
        Some(other) => other.is_prefix(key),
        None => false,
    }
}

/// The least key of the map that is a proper prefix of another, None exactly where the map keeps the
/// prefix rule. It takes a constant step for each key, and no memory.
pub(crate) fn conflict<V: Drop>(map: &KeyMap<V>) -> Option<&Key>
    ensures { option_copied result ≡ conflict map.now }
{
    // The keys that begin with one follow it, so the next one tells.
    let mut before = None;
    for (key, _) in map.iter() {
        if begins_with(key, before) {
            return before;
        }
        before = Some(key);
    }
    None
}
