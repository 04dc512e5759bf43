//! Lists of keys that rise.
ghost use Rattle.std.specs.Prelude.{◌≡◌, ◌↔◌, ◌++◌, ◌∷◌, [], IfOk, OnOk, IsTrue};
ghost use Rattle.std.specs.List.{list_all, list_any};
ghost use Rattle.settings_maps.specs.KeyList.{IsRising, has_key, without_key};

use key_names::Key;
use std::alloc::{AllocError, Global};
use std::marker::Model;

/// A list of keys in which each key is below those after it. It keeps the allocator of the `Vec`
/// that it was made of.
#[derive(Debug, Drop)]
pub struct KeyList {
    keys: Vec<Key>,
}

impl Model for KeyList {
    ghost use Rattle.std.specs.Prelude.{List, ℕ};
    ghost use Rattle.settings_maps.specs.KeyList.{IsRising};

    ghost Value = { List (List (List ℕ)) };

    ghost view = { λ l. l.keys.items };

    ghost invariant = { λ l. IsRising l.keys.items };
}

/// Copies of the keys, in their order. It costs the keys' length.
pub fn copy_keys(alloc: Global, keys: &[Key]) -> Result<Vec<Key>, AllocError>
    ensures { IfOk result (λ copies. copies.items ≡ keys.now) }
{
    let mut copies = Vec::new(alloc);
    push_copies(&mut copies, keys)?;
    Ok(copies)
}

/// Appends a copy of the key.
pub(crate) fn push_copy(all: &mut Vec<Key>, key: &Key) -> Result<(), AllocError>
    ensures { OnOk result (all.new.items ≡ all.old.items ++ key.now ∷ []) }
{
    all.push(key.copy()?)?;
    Ok(())
}

/// Appends copies of the keys, in their order.
pub(crate) fn push_copies(all: &mut Vec<Key>, keys: &[Key]) -> Result<(), AllocError>
    ensures { OnOk result (all.new.items ≡ all.old.items ++ keys.now) }
{
    for key in keys {
        push_copy(all, key)?;
    }
    Ok(())
}

fn has_key(keys: &[Key], key: &Key) -> bool
    requires { IsRising keys.now }
    ensures { result ≡ has_key keys.now key.now }
{
    keys.binary_search(key).is_ok()
}

#[tactic(auto, using(crate::proofs::RisingKeys::rising_keys))]
impl KeyList {
    /// These keys, which rise. It takes no memory.
    pub fn of(keys: Vec<Key>) -> KeyList
        requires { IsRising keys.items }
        ensures { result ≡ keys.items }
    {
        KeyList { keys }
    }

    /// The keys in their order. It takes no memory.
    pub fn as_slice(&self) -> &[Key]
        ensures items { result.now ≡ self.now }
        ensures rising { IsRising self.now }
    {
        &self.keys
    }

    /// A copy with the same keys. The only error is out of memory.
    pub fn copy(&self) -> Result<KeyList, AllocError>
        ensures { IfOk result (λ copy. copy ≡ self.now) }
    {
        let keys = copy_keys(self.allocator(), &self.keys)?;
        Ok(KeyList { keys })
    }

    /// The empty list. It takes no memory.
    pub fn new(alloc: Global) -> KeyList
        ensures { result ≡ [] }
    {
        KeyList {
            keys: Vec::new(alloc),
        }
    }

    /// The allocator that the list keeps.
    pub fn allocator(&self) -> Global {
        *self.keys.allocator()
    }

    /// Whether the keys rise, so that they make a list. It takes a step for each key and no memory.
    pub fn rise(keys: &[Key]) -> bool
        ensures { IsTrue result ↔ IsRising keys.now }
    {
        keys.is_sorted_by(|a, b| a.cmp(b).is_lt())
    }

    /// The keys in their order, given up by the list. It takes no memory.
    pub fn into_keys(self) -> Vec<Key>
        ensures items { result.items ≡ self }
        ensures rising { IsRising self }
    {
        self.keys
    }

    /// Whether the list has the key. It is logarithmic and takes no memory.
    pub fn contains(&self, key: &Key) -> bool
        ensures { result ≡ has_key self.now key.now }
    {
        has_key(&self.keys, key)
    }

    /// Whether the list has one of these keys. It takes a logarithmic step for each of them and no
    /// memory.
    pub fn contains_any(&self, keys: &[Key]) -> bool
        ensures any { result ≡ list_any (has_key self.now) keys.now }
        ensures rising { IsRising self.now }
    {
        let list = self.as_slice();
        keys.iter().any(|key| has_key(list, key))
    }

    /// Whether the list has all of these keys. It takes a logarithmic step for each of them and no
    /// memory.
    pub fn contains_all(&self, keys: &[Key]) -> bool
        ensures all { result ≡ list_all (has_key self.now) keys.now }
        ensures rising { IsRising self.now }
    {
        let list = self.as_slice();
        keys.iter().all(|key| has_key(list, key))
    }

    /// Removes the key, if the list has it. It takes no memory. It is logarithmic, but that the keys
    /// after a removed one move up.
    pub fn remove(&mut self, key: &Key)
        ensures { self.new ≡ without_key self.old key.now }
    {
        if let Ok(index) = self.keys.binary_search(key) {
            self.keys.remove(index);
        }
    }
}
