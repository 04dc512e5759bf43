//! Contents.
ghost use Rattle.std.specs.Prelude.{◌≡◌, ◌↔◌, ◌<◌, ℕ, take, length, IfOk, OnOk, OnErr, IsTrue, IfSome, IfNone, All, Some, None, false};
ghost use Rattle.std.specs.Map.{keys_of};
ghost use Rattle.json_trees.specs.Apart.{AreApart};
ghost use Rattle.json_trees.specs.Nested.{ShareFirst};
ghost use Rattle.settings_tree.specs.Walks.{IsLeastBelow, HasNoneBelow, entries_below, entries_past};
ghost use Rattle.std.specs.Option.{option_copied};
ghost use Rattle.std.specs.FinMap as map;
ghost use Rattle.settings_tree.specs.Content.{IsContent, MayBeWeak, no_content};
ghost use Rattle.settings_maps.specs.KeyList.{without_key};
ghost use Rattle.settings_maps.specs.Maps.{IsLeastAfter, IsLeastKeyAfter, HasNoneAfter, inner, value_at, with_value, without_value};
ghost use Rattle.settings_tree.specs.Rule.{Fits, Clashes};
ghost use Rattle.settings_maps.specs.TxName.{is_meta_name};

use crate::rule::fits;
use crate::setting::may_be_weak;
use crate::steps;
use json_trees::Scalar;
use key_names::{Key, Text};
use settings_maps::{Copied, KeyList, KeyMap, Metadata};
use std::alloc::{AllocError, Global};
use std::collections::btree_map::Range;
use std::marker::Model;

/// Values by key, metadata by key and name, and the set of the weak keys, each of which has a value
/// and begins with `settings`. No value's key is a proper prefix of another's. A metadata name is 1
/// to 127 bare characters.
#[derive(Drop)]
pub struct Content {
    pub(crate) values: KeyMap<Scalar>,
    pub(crate) metadata: Metadata,
    pub(crate) weak: KeyList,
}

impl Model for Content {
    ghost use Rattle.settings_tree.specs.Content.{Contents, IsContent, content_code};

    ghost Value = { Contents };

    ghost coded = { content_code };

    ghost view = { λ c. record { values = c.values; metadata = c.metadata; weak = c.weak } };

    ghost invariant = { λ c. IsContent (record { values = c.values; metadata = c.metadata; weak = c.weak }) };
}

#[tactic(auto, using(crate::proofs::Contents::contents))]
impl Content {
    /// The content with nothing in it. It takes no memory.
    pub fn new(alloc: Global) -> Content
        ensures { result ≡ no_content }
    {
        Content {
            values: KeyMap::new(alloc),
            metadata: Metadata::new(alloc),
            weak: KeyList::new(alloc),
        }
    }

    /// The value at the key, None exactly where it has none. It is logarithmic and takes no memory.
    pub fn value(&self, key: &Key) -> Option<&Scalar>
        ensures value { option_copied result ≡ map.get self.now.values key.now }
        ensures valid { IsContent self.now }
    {
        self.values.get(key)
    }

    /// The metadata at the key and the name, None exactly where there is none. It is logarithmic and
    /// takes no memory.
    pub fn meta(&self, key: &Key, name: &[u8]) -> Option<&Scalar>
        ensures { option_copied result ≡ value_at self.now.metadata key.now name.now }
    {
        self.metadata.value(key, name)
    }

    /// Whether no other value's key is a proper prefix of this key or has it as one. It is
    /// logarithmic and takes no memory.
    pub fn fits(&self, key: &Key) -> bool
        ensures fits { IsTrue result → Fits self.now.values key.now }
        ensures clashes { result ≡ false → Clashes self.now.values key.now }
        ensures valid { IsContent self.now }
    {
        fits(&self.values, key)
    }

    /// Puts the value at the key, over the one that is there if there is one. The key is strong
    /// from then on. It is logarithmic, but that the weak keys after one that it makes strong move
    /// up. The only error is out of memory, which comes only at a key without a value, and leaves the
    /// content unchanged.
    pub fn put(&mut self, key: Key, value: Scalar) -> Result<(), AllocError>
        requires { Fits self.old.values key }
        ensures ok { OnOk result (self.new ≡ record self.old { values = map.insert self.old.values key value; weak = without_key self.old.weak key }) }
        ensures err { OnErr result (self.new ≡ self.old) }
        ensures absent { OnErr result (map.get self.old.values key ≡ None) }
    {
        if self.values.get(&key).is_some() {
            self.weak.remove(&key);
            self.values.put_over(key, value);
            Ok(())
        } else {
            // A key without a value is not weak.
            self.values.put(key, value)
        }
    }

    /// Takes the value at the key, None exactly where it has none. The key is no longer weak. It
    /// takes no memory. It is logarithmic, but that the weak keys after the taken one move up.
    pub fn take(&mut self, key: &Key) -> Option<Scalar>
        ensures value { result ≡ map.get self.old.values key.now }
        ensures gone { self.new ≡ record self.old { values = map.remove self.old.values key.now; weak = without_key self.old.weak key.now } }
    {
        self.weak.remove(key);
        self.values.take(key)
    }

    /// Puts metadata at the key and the name, over what is there if there is something. It is
    /// logarithmic in the keys with metadata, and moves the later names of the key up at a new name.
    /// The only error is out of memory, which comes only at a new name, and leaves the content
    /// unchanged.
    pub fn put_meta(&mut self, key: Key, name: Text, value: Scalar) -> Result<(), AllocError>
        requires { IsTrue (is_meta_name name) }
        ensures ok { OnOk result (self.new ≡ record self.old { metadata = with_value self.old.metadata key name value }) }
        ensures err { OnErr result (self.new ≡ self.old) }
        ensures absent { OnErr result (value_at self.old.metadata key name ≡ None) }
    {
        self.metadata.put(key, name, value)
    }

    /// Takes the metadata at the key and the name, None exactly where there is none. It takes no
    /// memory.
    pub fn take_meta(&mut self, key: &Key, name: &[u8]) -> Option<Scalar>
        ensures value { result ≡ value_at self.old.metadata key.now name.now }
        ensures gone { self.new ≡ record self.old { metadata = without_value self.old.metadata key.now name.now } }
    {
        self.metadata.take(key, name)
    }

    /// Whether each of the keys has a value and begins with `settings`, so that it may be weak. It
    /// takes a logarithmic step for each and no memory.
    pub fn may_be_weak(&self, keys: &[Key]) -> bool
        ensures { IsTrue result ↔ All (MayBeWeak self.now.values) keys.now }
    {
        may_be_weak(&self.values, keys)
    }

    /// The weak keys, rising. It takes no memory.
    pub fn weak(&self) -> &KeyList
        ensures weak { result.now ≡ self.now.weak }
        ensures valid { IsContent self.now }
    {
        &self.weak
    }

    /// Makes these keys the weak ones. It takes no memory.
    pub fn set_weak(&mut self, keys: KeyList)
        requires { All (MayBeWeak self.old.values) keys }
        ensures { self.new ≡ record self.old { weak = keys } }
    {
        self.weak = keys;
    }

    /// The entry of the least key that is greater than `after`, or of the least key of all where
    /// none is given; None exactly where there is no such key. It is logarithmic and takes no memory.
    pub fn next_value(&self, after: Option<&Key>) -> Option<(&Key, &Scalar)>
        ensures least { IfSome result (λ e. IsLeastAfter self.now.values (option_copied after.entry) e.0.now e.1.now) }
        ensures none { IfNone result (HasNoneAfter self.now.values (option_copied after.entry)) }
        ensures valid { IsContent self.now }
    {
        self.values.next_after(after)
    }

    /// The entry of the least key that begins with the prefix, as the prefix itself does, and that is
    /// greater than `after` where it is given; None exactly where there is no such key. It is
    /// logarithmic and takes no memory.
    pub fn next_below(&self, prefix: &Key, after: Option<&Key>) -> Option<(&Key, &Scalar)>
        ensures least { IfSome result (λ e. IsLeastBelow self.now.values prefix.now (option_copied after.entry) e.0.now e.1.now) }
        ensures none { IfNone result (HasNoneBelow self.now.values prefix.now (option_copied after.entry)) }
    {
        steps::next_below(&self.values, prefix, after)
    }

    /// The entries past this key, rising by key. The first is a logarithmic step, each other a
    /// constant one. It takes no memory.
    pub fn entries_after(&self, key: &Key) -> Range<'_, Key, Scalar>
        ensures { result ≡ entries_past self.now.values (Some key.now) }
    {
        self.values.entries_after(key)
    }

    fn allocator(&self) -> Global
        ensures { IsContent self.now }
    {
        self.weak.allocator()
    }

    // Copies of the entries whose key begins with the prefix: the first of those from it on.
    fn copied_below(&self, prefix: &Key) -> Result<Vec<(Key, Scalar)>, AllocError>
        ensures values { IfOk result (λ pairs. pairs.items ≡ entries_below self.now.values prefix.now) }
        ensures valid { OnOk result (IsContent self.now) }
    {
        let mut pairs = Vec::new(self.allocator());
        for (key, value) in self.values.entries_from(prefix) {
            if !prefix.is_prefix(key) {
                return Ok(pairs);
            }
            pairs.push((key.copy()?, value.copy()?))?;
        }
        Ok(pairs)
    }

    /// Copies of the values whose key begins with the prefix, as the prefix itself does, rising by
    /// key. It takes a logarithmic step and a constant one for each. The only error is out of memory.
    pub fn below(&self, prefix: &Key) -> Result<Vec<(Key, Scalar)>, AllocError>
        ensures values { IfOk result (λ pairs. pairs.items ≡ entries_below self.now.values prefix.now) }

        // So they may be nested, without any number of first segments that is below the prefix's, and
        // without all of the prefix's where the prefix has no value itself.
        ensures apart { IfOk result (λ pairs. AreApart (keys_of pairs.items)) }
        ensures begin { IfOk result (λ pairs. All (λ key. take (length prefix.now) key ≡ prefix.now) (keys_of pairs.items)) }
        ensures fewer { (n : ℕ) → n < length prefix.now → IfOk result (λ pairs. ShareFirst n (keys_of pairs.items)) }
        ensures shared { map.get self.now.values prefix.now ≡ None → IfOk result (λ pairs. ShareFirst (length prefix.now) (keys_of pairs.items)) }
    {
        let pairs = self.copied_below(prefix)?;
        Ok(pairs)
    }

    /// A copy of the content, weak keys included. The only error is out of memory.
    pub fn copy(&self) -> Result<Content, AllocError>
        ensures { IfOk result (λ copy. copy ≡ self.now) }
    {
        Ok(Content {
            values: self.values.copied()?,
            metadata: self.metadata.copied()?,
            weak: self.weak.copy()?,
        })
    }
}
