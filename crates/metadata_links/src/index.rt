//! The index: lists of services by key, and the one look-up that is counted.
ghost use Rattle.std.specs.Prelude.{◌≡◌, ◌≢◌, ◌<◌, ◌≤◌, Some, length, take, IsTrue, IfOk, IfErr};
ghost use Rattle.std.specs.FinMap as map;
ghost use Rattle.std.specs.FinMap.{is_sorted};
ghost use Rattle.std.specs.FinMap.Entries.{find};
ghost use Rattle.std.specs.Option.{option_copied};
ghost use Rattle.key_names.specs.Order.{key_cmp};
ghost use Rattle.metadata_links.specs.Faults.{faults_in, first_of};
ghost use Rattle.metadata_links.specs.Lists.{lists_in, IsIndexOf};
ghost use Rattle.metadata_links.specs.declared.manifest_error.ManifestError.TheVariants.{Memory};
ghost use Rattle.metadata_links.specs.Nearest.{stepped};

use crate::affected_lists::lists_in;
use crate::manifest_error::ManifestError;
use crate::texts::Texts;
use key_names::{Key, Text};
use settings_tree::Content;
use std::alloc::Global;
use std::cmp::Ordering;
use std::marker::Model;

/// A count of look-ups in an index. [`Index::at`] alone raises it.
#[derive(Debug, Drop)]
pub struct Steps {
    count: u64,
}

impl Model for Steps {
    ghost use Rattle.std.specs.Prelude.{ℕ};

    ghost Value = { ℕ };

    ghost view = { λ s. s.count };
}

impl Steps {
    /// No step. It takes no memory.
    pub fn new() -> Steps
        ensures { result ≡ 0 }
    {
        Steps { count: 0 }
    }

    /// How many steps there were. A count at the greatest `u64` stays there. It takes no memory.
    pub fn count(&self) -> u64
        ensures { result ≡ self.now }
    {
        self.count
    }
}

/// A finite map from keys to lists of services. It keeps its allocator.
#[derive(Drop)]
pub struct Index {
    entries: Vec<(Key, Texts)>,
}

impl Model for Index {
    ghost use Rattle.std.specs.Prelude.{List, ℕ, IsTrue};
    ghost use Rattle.std.specs.FinMap.{FinMap, code, from_sorted, is_sorted};
    ghost use Rattle.std.specs.Coded.{coded_ℕ, coded_list};
    ghost use Rattle.key_names.specs.Order.{key_cmp};

    ghost Value = { FinMap key_cmp (List (List ℕ)) };

    ghost coded = { code (coded_list (coded_list coded_ℕ)) (coded_list (coded_list coded_ℕ)) };

    ghost view = { λ n. from_sorted n.entries.items };

    ghost invariant = { λ n. IsTrue (is_sorted key_cmp n.entries.items) };
}

// How a key compares to the first segments, so many, of another.
fn cmp_to_prefix(own: &Key, key: &Key, len: usize) -> Ordering
    requires { len ≤ length key.now }
    ensures { result ≡ key_cmp own.now (take len key.now) }
{
    let most = own.len();
    for i in 0..most.min(len) {
        let order = own.segment(i).cmp(key.segment(i));
        if order.is_ne() {
            return order;
        }
    }
    most.cmp(&len)
}

// The list at the first segments, so many, of the key.
fn find<'a>(entries: &'a [(Key, Texts)], key: &Key, len: usize) -> Option<&'a Texts>
    requires rises { IsTrue (is_sorted key_cmp entries.now) }
    requires within { len ≤ length key.now }
    ensures { option_copied result ≡ find key_cmp (take len key.now) entries.now }
{
    match entries.binary_search_by(|entry| cmp_to_prefix(&entry.0, key, len)) {
        Ok(index) => Some(&entries[index].1),
        Err(_) => None,
    }
}

#[tactic(auto, using(crate::proofs::Sorted::sorted_entries))]
impl Index {
    /// The map of these entries, which rise by key. It takes no memory.
    pub(crate) fn of_rising(entries: Vec<(Key, Texts)>) -> Index
        requires { IsTrue (is_sorted key_cmp entries.items) }
        ensures { map.entries result ≡ entries.items }
    {
        Index { entries }
    }

    /// The index of the content's metadata `affected-services`: the list of each key that has one.
    ///
    /// `BadMeta` is answered exactly for the first key whose `affected-services` isn't a list of texts.
    /// `Memory` alone may come at any place. It takes a logarithmic step for each key with metadata.
    pub fn of(alloc: Global, content: &Content) -> Result<Index, ManifestError>
        ensures ok { IfOk result (IsIndexOf content.now.metadata) }
        ensures fault { IfErr result (λ e. e ≢ Memory
            → first_of (faults_in (lists_in content.now.metadata)) ≡ Some e) }
    {
        lists_in(alloc, content, None)
    }

    /// The entries, rising by key. It takes no memory.
    pub(crate) fn as_slice(&self) -> &[(Key, Texts)]
        ensures entries { result.now ≡ map.entries self.now }
        ensures rises { IsTrue (is_sorted key_cmp result.now) }
    {
        &self.entries
    }

    /// The allocator that the index keeps.
    pub(crate) fn allocator(&self) -> Global {
        *self.entries.allocator()
    }

    /// The list at the key's first `len` segments, None exactly where they have none, by one step.
    /// The length is 1 to the key's own. It is logarithmic and takes no memory.
    pub fn at(&self, key: &Key, len: usize, probes: &mut Steps) -> Option<&[Text]>
        requires some { 0 < len }
        requires within { len ≤ length key.now }
        ensures list { option_copied result ≡ map.get self.now (take len key.now) }
        ensures counted { probes.new ≡ stepped probes.old 1 }
    {
        probes.count = probes.count.saturating_add(1);
        match find(&self.entries, key, len) {
            Some(list) => Some(list.as_slice()),
            None => None,
        }
    }
}
