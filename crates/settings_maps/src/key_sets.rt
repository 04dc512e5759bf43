//! Rising lists of keys, as sets.
ghost use Rattle.std.specs.Prelude.{◌≡◌, ◌++◌, ◌<◌, length, IfOk, OnOk};
ghost use Rattle.settings_maps.specs.KeyList.{IsLeastOf, joined, without_keys};

use crate::KeyList;
use crate::key_list::{push_copies, push_copy};
use key_names::Key;
use std::alloc::AllocError;
use std::cmp::Ordering;

// The lesser of the two first keys, with how many keys of each list are done with once it is taken: two
// that are equal are taken as one.
fn least_of<'a>(one: &'a [Key], two: &'a [Key]) -> (&'a Key, usize, usize)
    requires first { 0 < length one.now }
    requires second { 0 < length two.now }
    ensures { IsLeastOf one.now two.now result.0.now result.1 result.2 }
{
    match one[0].cmp(&two[0]) {
        Ordering::Less => (&one[0], 1, 0),
        Ordering::Equal => (&one[0], 1, 1),
        Ordering::Greater => (&two[0], 0, 1),
    }
}

// Appends copies of the keys of either list, which rise.
fn push_joined(all: &mut Vec<Key>, one: &[Key], two: &[Key]) -> Result<(), AllocError>
    ensures { OnOk result (all.new.items ≡ all.old.items ++ joined one.now two.now) }
{
    let mut one = one;
    let mut two = two;
    while !one.is_empty() && !two.is_empty() {
        let (least, first, second) = least_of(one, two);
        push_copy(all, least)?;
        let (_, ones) = one.split_at(first);
        let (_, twos) = two.split_at(second);
        one = ones;
        two = twos;
    }
    push_copies(all, one)?;
    push_copies(all, two)
}

impl KeyList {
    /// The keys that the other list lacks. It takes a step for each key, logarithmic in the other
    /// list. The only error is out of memory.
    pub fn without(&self, others: &KeyList) -> Result<KeyList, AllocError>
        ensures { IfOk result (λ rest. rest ≡ without_keys self.now others.now) }
    {
        let mut rest = Vec::new(self.allocator());
        for key in self.as_slice() {
            if !others.contains(key) {
                push_copy(&mut rest, key)?;
            }
        }
        Ok(KeyList::of(rest))
    }

    /// The keys of either list. It takes a step for each key of both. The only error is out of
    /// memory.
    pub fn joined(&self, others: &KeyList) -> Result<KeyList, AllocError>
        ensures { IfOk result (λ all. all ≡ joined self.now others.now) }
    {
        let mut all = Vec::new(self.allocator());
        push_joined(&mut all, self.as_slice(), others.as_slice())?;
        Ok(KeyList::of(all))
    }
}
