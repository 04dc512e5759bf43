//! The prefix rule: no key of a map is a proper prefix of another.
ghost use Rattle.std.specs.Prelude.{◌≡◌, IsTrue, false};
ghost use Rattle.settings_tree.specs.Rule.{IsPrefixFree, Fits, Clashes, HasNoLonger, HasNoShorter};

use key_names::Key;
use settings_maps::KeyMap;

fn has_no_longer<V: Drop>(map: &KeyMap<V>, key: &Key) -> bool
    ensures fits { IsTrue result → HasNoLonger map.now key.now }
    ensures clashes { result ≡ false → Clashes map.now key.now }
{
    match map.next_after(Some(key)) {
        Some((next, _)) => !key.is_prefix(next),
        None => true,
    }
}

fn has_no_shorter<V: Drop>(map: &KeyMap<V>, key: &Key) -> bool
    requires { IsPrefixFree map.now }
    ensures fits { IsTrue result → HasNoShorter map.now key.now }
    ensures clashes { result ≡ false → Clashes map.now key.now }
{
    match map.last_before(key) {
        Some((last, _)) => !last.is_prefix(key),
        None => true,
    }
}

/// Whether no other key of the map is a proper prefix of this key or has it as one. The map must keep
/// the prefix rule. It is logarithmic and takes no memory.
pub fn fits<V: Drop>(map: &KeyMap<V>, key: &Key) -> bool
    requires { IsPrefixFree map.now }
    ensures fits { IsTrue result → Fits map.now key.now }
    ensures clashes { result ≡ false → Clashes map.now key.now }
{
    has_no_longer(map, key) && has_no_shorter(map, key)
}
