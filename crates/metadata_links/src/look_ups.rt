//! The look-ups in an index: they go by its counted step, and can't count by themselves.
ghost use Rattle.std.specs.Prelude.{◌≡◌, ◌≤◌, drop, length, fold, IsTrue, IfOk, OnOk};
ghost use Rattle.std.specs.List.{flat_map};
ghost use Rattle.std.specs.FinMap.{is_sorted};
ghost use Rattle.std.specs.FinMap.Entries.{below_all};
ghost use Rattle.key_names.specs.Order.{key_cmp};
ghost use Rattle.metadata_links.specs.Rising.{with_member};
ghost use Rattle.metadata_links.specs.Nearest.{near, keys_past, listed_below, aff, steps_to, all_steps, stepped};

use crate::index::{Index, Steps};
use crate::name_set::NameSet;
use crate::texts::Texts;
use key_names::{Key, Text};
use settings_tree::KeyList;
use std::alloc::{AllocError, Global};

// The place of the first key above the path. It is logarithmic.
fn first_above(entries: &[(Key, Texts)], path: &Key) -> usize
    requires { IsTrue (is_sorted key_cmp entries.now) }
    ensures within { result ≤ length entries.now }
    ensures before { keys_past path.now (drop result entries.now) ≡ keys_past path.now entries.now }
    ensures above { IsTrue (below_all key_cmp path.now (drop result entries.now)) }
    ensures rises { IsTrue (is_sorted key_cmp (drop result entries.now)) }
{
    entries.partition_point(|entry| entry.0.cmp(path).is_le())
}

// The keys that begin with the path, of entries whose keys are all above it: those up to the first
// that doesn't.
fn keys_below(alloc: Global, entries: &[(Key, Texts)], path: &Key) -> Result<Vec<Key>, AllocError>
    requires rises { IsTrue (is_sorted key_cmp entries.now) }
    requires above { IsTrue (below_all key_cmp path.now entries.now) }
    ensures { IfOk result (λ keys. keys.items ≡ keys_past path.now entries.now) }
{
    let mut keys = Vec::new(alloc);
    for (key, _) in entries {
        if !path.is_prefix(key) {
            return Ok(keys);
        }
        keys.push(key.copy()?)?;
    }
    Ok(keys)
}

impl Index {
    /// The list of the longest prefix of the key that has one, else the empty list. It takes a step
    /// for each length from the key's own down to that prefix's, or down to 1, and no memory.
    pub(crate) fn nearest(&self, key: &Key, probes: &mut Steps) -> &[Text]
        ensures list { result.now ≡ near self.now key.now }
        ensures counted { probes.new ≡ stepped probes.old (steps_to self.now key.now) }
    {
        let mut len = key.len();
        while len > 0 {
            match self.at(key, len, probes) {
                Some(list) => return list,
                None => len -= 1,
            }
        }
        &[]
    }

    /// The keys that have a list, are longer than the path and begin with it, rising. It takes one
    /// logarithmic search and a step for each of them. The only error is out of memory.
    pub(crate) fn listed_below(&self, path: &Key) -> Result<Vec<Key>, AllocError>
        ensures { IfOk result (λ keys. keys.items ≡ listed_below self.now path.now) }
    {
        let entries = self.as_slice();
        let first = first_above(entries, path);
        keys_below(self.allocator(), &entries[first..], path)
    }

    // Puts the nearest list of each key into the set.
    fn put_nearest(
        &self,
        services: &mut NameSet,
        keys: &[Key],
        probes: &mut Steps,
    ) -> Result<(), AllocError>
        ensures named { OnOk result (services.new
            ≡ fold with_member services.old (flat_map (near self.now) keys.now)) }
        ensures counted { OnOk result (probes.new ≡ stepped probes.old (all_steps self.now keys.now)) }
        ensures at_most { probes.new ≤ stepped probes.old (all_steps self.now keys.now) }
        ensures kept { probes.old ≤ probes.new }
    {
        for key in keys {
            services.add_all(self.nearest(key, probes))?;
        }
        Ok(())
    }

    /// The services that the nearest lists of the keys name, rising. For each key it takes a step for
    /// each length from the key's own down to the greatest that has a list, or down to 1 where none
    /// has. The only error is out of memory, after at most these steps.
    pub fn affected(&self, keys: &KeyList, probes: &mut Steps) -> Result<Vec<Text>, AllocError>
        ensures services { IfOk result (λ services. services.items ≡ aff self.now keys.now) }
        ensures counted { OnOk result (probes.new ≡ stepped probes.old (all_steps self.now keys.now)) }
        ensures at_most { probes.new ≤ stepped probes.old (all_steps self.now keys.now) }
        ensures kept { probes.old ≤ probes.new }
    {
        let mut services = NameSet::new(self.allocator());
        self.put_nearest(&mut services, keys.as_slice(), probes)?;
        services.into_vec()
    }
}
