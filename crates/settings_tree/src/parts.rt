//! The parts of what is held, without the rules that join them, and the laying of a change.
ghost use Rattle.std.specs.Prelude.{◌≡◌, ◌≤◌, ◌++◌, ◌∷◌, [], OnOk, OnErr, IfOk, IsTrue, false, not, length};
ghost use Rattle.std.specs.FinMap.{insert};
ghost use Rattle.settings_maps.specs.Maps.{with_value};
ghost use Rattle.settings_tree.specs.Change.{is_once};
ghost use Rattle.settings_tree.specs.Laid.{laid, laid_one};
ghost use Rattle.settings_tree.specs.Rooms.{held_of, IsFullHeld, is_fresh, opened, closed, roomed, closed_if, all_roomed, all_closed, has_rooms};

use crate::entry::{Entry, Owed};
use json_trees::{Pending, Scalar};
use key_names::{Bytes, Key, Text};
use settings_maps::{KeyList, KeyMap, Metadata, Transactions, TxName};
use std::alloc::AllocError;

/// What is held, in parts that no rule joins. A change is laid in two passes. The first makes a room,
/// a placeholder, wherever an entry is to set what is missing, and takes the rooms out again where
/// it runs out of memory. The second lays the entries, each in its room, and takes no memory.
#[derive(Drop)]
pub(crate) struct Parts {
    pub values: KeyMap<Scalar>,
    pub metadata: Metadata,
    pub weak: KeyList,
    pub pending: Transactions,
    pub owed: Owed,
    pub image: Bytes,
}

// Puts a placeholder at the key.
fn open_value(values: &mut KeyMap<Scalar>, key: &Key) -> Result<(), AllocError>
    ensures ok { OnOk result (values.new ≡ insert values.old key.now (Scalar.Bool false)) }
    ensures err { OnErr result (values.new ≡ values.old) }
{
    let key = key.copy()?;
    values.put(key, Scalar::Bool(false))
}

// Puts a placeholder at the key and the name.
fn open_metadata(metadata: &mut Metadata, key: &Key, name: &Text) -> Result<(), AllocError>
    ensures ok { OnOk result (metadata.new ≡ with_value metadata.old key.now name.now (Scalar.Bool false)) }
    ensures err { OnErr result (metadata.new ≡ metadata.old) }
{
    let key = key.copy()?;
    let name = name.copy()?;
    metadata.put(key, name, Scalar::Bool(false))
}

// Puts a placeholder for the transaction at the key.
fn open_pending(pending: &mut Transactions, tx: &TxName, key: &Key) -> Result<(), AllocError>
    ensures ok { OnOk result (pending.new ≡ with_value pending.old tx.now key.now Pending.Gone) }
    ensures err { OnErr result (pending.new ≡ pending.old) }
{
    let tx = tx.copy()?;
    let key = key.copy()?;
    pending.put(tx, key, Pending::Gone)
}

#[tactic(auto, using(crate::proofs::RoomsLaid::rooms))]
impl Parts {
    fn is_fresh(&self, entry: &Entry) -> bool
        ensures { result ≡ is_fresh (held_of self.now) entry.now }
    {
        match entry {
            Entry::LiveSet { key, value: _ } => self.values.get(key).is_none(),
            Entry::MetaSet {
                key,
                name,
                value: _,
            } => self.metadata.value(key, name.as_str().as_bytes()).is_none(),
            Entry::PendSet { tx, key, value: _ } => self.pending.value(tx, key).is_none(),
            _ => false,
        }
    }

    fn open(&mut self, entry: &Entry) -> Result<(), AllocError>
        ensures ok { OnOk result (held_of self.new ≡ opened (held_of self.old) entry.now) }
        ensures err { OnErr result (held_of self.new ≡ held_of self.old) }
    {
        match entry {
            Entry::LiveSet { key, value: _ } => open_value(&mut self.values, key),
            Entry::MetaSet {
                key,
                name,
                value: _,
            } => open_metadata(&mut self.metadata, key, name),
            Entry::PendSet { tx, key, value: _ } => open_pending(&mut self.pending, tx, key),
            _ => Ok(()),
        }
    }

    fn close(&mut self, entry: &Entry)
        ensures { held_of self.new ≡ closed (held_of self.old) entry.now }
    {
        match entry {
            Entry::LiveSet { key, value: _ } => {
                self.values.take(key);
            }
            Entry::MetaSet {
                key,
                name,
                value: _,
            } => {
                self.metadata.take(key, name.as_str().as_bytes());
            }
            Entry::PendSet { tx, key, value: _ } => {
                self.pending.take(tx, key);
            }
            _ => (),
        }
    }

    // Whether a room was made.
    fn make_room(&mut self, entry: &Entry) -> Result<bool, AllocError>
        ensures fresh { IfOk result (λ fresh. fresh ≡ is_fresh (held_of self.old) entry.now) }
        ensures ok { OnOk result (held_of self.new ≡ roomed (held_of self.old) entry.now) }
        ensures err { OnErr result (held_of self.new ≡ held_of self.old) }
    {
        if self.is_fresh(entry) {
            self.open(entry)?;
            Ok(true)
        } else {
            Ok(false)
        }
    }

    fn close_if(&mut self, made: bool, entry: &Entry)
        ensures { held_of self.new ≡ closed_if made (held_of self.old) entry.now }
    {
        if made {
            self.close(entry);
        }
    }

    // Notes whether a room was made.
    fn make_noted_room(&mut self, entry: &Entry, made: &mut Vec<bool>) -> Result<(), AllocError>
        ensures ok { OnOk result (held_of self.new ≡ roomed (held_of self.old) entry.now) }
        ensures note { OnOk result (made.new.items ≡ made.old.items ++ is_fresh (held_of self.old) entry.now ∷ []) }
        ensures err { OnErr result (held_of self.new ≡ held_of self.old) }
        ensures err_note { OnErr result (made.new.items ≡ made.old.items) }
    {
        made.reserve(1)?;
        let fresh = self.make_room(entry)?;
        let noted: Result<_, _> = made.push(fresh);
        noted.unwrap();
        Ok(())
    }

    // Takes no memory.
    fn close_all(&mut self, made: Vec<bool>, entries: &[Entry])
        requires { length made.items ≤ length entries.now }
        ensures { held_of self.new ≡ all_closed made.items entries.now (held_of self.old) }
    {
        let mut made = made;
        while let Some(fresh) = made.pop() {
            self.close_if(fresh, &entries[made.len()]);
        }
    }

    fn make_rooms(&mut self, entries: &[Entry], made: Vec<bool>) -> Result<(), AllocError>
        requires full { IsFullHeld (held_of self.old) }
        requires none { made.items ≡ [] }
        ensures ok { OnOk result (held_of self.new ≡ all_roomed (held_of self.old) entries.now) }
        ensures err { OnErr result (held_of self.new ≡ held_of self.old) }
    {
        let mut made = made;
        for entry in entries {
            let room: Result<_, _> = self.make_noted_room(entry, &mut made);
            if let Err(e) = room {
                self.close_all(made, entries);
                return Err(e);
            }
        }
        Ok(())
    }

    // Takes no memory.
    fn lay_one(&mut self, entry: Entry)
        requires { IsTrue (not (is_fresh (held_of self.old) entry)) }
        ensures { held_of self.new ≡ laid_one (held_of self.old) entry }
    {
        match entry {
            Entry::LiveSet { key, value } => self.values.put_over(key, value),
            Entry::LiveGone { key } => {
                self.values.take(&key);
            }
            Entry::MetaSet { key, name, value } => self.metadata.put_over(&key, name, value),
            Entry::MetaGone { key, name } => {
                self.metadata.take(&key, name.as_str().as_bytes());
            }
            Entry::PendSet { tx, key, value } => self.pending.put_over(&tx, key, value),
            Entry::PendGone { tx, key } => {
                self.pending.take(&tx, &key);
            }
            Entry::OwedSet { owed } => self.owed = owed,
            Entry::ImageSet { image } => self.image = image,
            Entry::WeakIs { weak } => self.weak = weak,
        }
    }

    fn lay_all(&mut self, entries: Vec<Entry>)
        requires { IsTrue (has_rooms (held_of self.old) entries.items) }
        ensures { held_of self.new ≡ laid (held_of self.old) entries.items }
    {
        for entry in entries {
            self.lay_one(entry);
        }
    }

    /// Lays all entries, or none where it runs out of memory.
    pub(crate) fn lay(&mut self, entries: Vec<Entry>) -> Result<(), AllocError>
        requires full { IsFullHeld (held_of self.old) }
        requires once { IsTrue (is_once entries.items) }
        ensures ok { OnOk result (held_of self.new ≡ laid (held_of self.old) entries.items) }
        ensures err { OnErr result (held_of self.new ≡ held_of self.old) }
    {
        self.make_rooms(&entries, Vec::new(*entries.allocator()))?;
        self.lay_all(entries);
        Ok(())
    }
}
