//! Steps through the entries of a map below a prefix.
ghost use Rattle.std.specs.Prelude.{IfSome, IfNone, Some, None};
ghost use Rattle.std.specs.BTreeMap.Range.{IsLeBy};
ghost use Rattle.std.specs.Option.{option_copied};
ghost use Rattle.key_names.specs.Order.{key_cmp};
ghost use Rattle.settings_tree.specs.Walks.{IsLeastBelow, HasNoneBelow};

use key_names::Key;
use settings_maps::KeyMap;

fn first_below<'a, V: Drop>(map: &'a KeyMap<V>, prefix: &Key) -> Option<(&'a Key, &'a V)>
    ensures least { IfSome result (λ e. IsLeastBelow map.now prefix.now None e.0.now e.1.now) }
    ensures none { IfNone result (HasNoneBelow map.now prefix.now None) }
{
    match map.next_from(prefix) {
        Some((key, value)) => {
            if prefix.is_prefix(key) {
                Some((key, value))
            } else {
                None
            }
        }
        None => None,
    }
}

fn later_below<'a, V: Drop>(
    map: &'a KeyMap<V>,
    prefix: &Key,
    after: &Key,
) -> Option<(&'a Key, &'a V)>
    requires { IsLeBy key_cmp prefix.now after.now }
    ensures least { IfSome result (λ e. IsLeastBelow map.now prefix.now (Some after.now) e.0.now e.1.now) }
    ensures none { IfNone result (HasNoneBelow map.now prefix.now (Some after.now)) }
{
    match map.next_after(Some(after)) {
        Some((key, value)) => {
            if prefix.is_prefix(key) {
                Some((key, value))
            } else {
                None
            }
        }
        None => None,
    }
}

fn below_past<'a, V: Drop>(
    map: &'a KeyMap<V>,
    prefix: &Key,
    after: &Key,
) -> Option<(&'a Key, &'a V)>
    ensures least { IfSome result (λ e. IsLeastBelow map.now prefix.now (Some after.now) e.0.now e.1.now) }
    ensures none { IfNone result (HasNoneBelow map.now prefix.now (Some after.now)) }
{
    if prefix.cmp(after).is_gt() {
        first_below(map, prefix)
    } else {
        later_below(map, prefix, after)
    }
}

/// The entry of the least key that begins with the prefix, as the prefix itself does, and that is
/// greater than `after` where it is given; None exactly where there is no such key. It is logarithmic
/// and takes no memory.
pub(crate) fn next_below<'a, V: Drop>(
    map: &'a KeyMap<V>,
    prefix: &Key,
    after: Option<&Key>,
) -> Option<(&'a Key, &'a V)>
    ensures least { IfSome result (λ e. IsLeastBelow map.now prefix.now (option_copied after.entry) e.0.now e.1.now) }
    ensures none { IfNone result (HasNoneBelow map.now prefix.now (option_copied after.entry)) }
{
    match after {
        Some(after) => below_past(map, prefix, after),
        None => first_below(map, prefix),
    }
}
