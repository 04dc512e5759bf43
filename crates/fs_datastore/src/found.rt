//! What the files of a data directory say, as they are read one after another.
ghost use Rattle.std.specs.Prelude.{◌≡◌, ◌↔◌, [], None, IfOk, IfErr, IsTrue, false, unwrap_or, if◌then◌else◌};
ghost use Rattle.commit_journal.specs.Files.{Files};
ghost use Rattle.settings_maps.specs.Maps.{inner};
ghost use Rattle.settings_tree.specs.Change.{Live, Meta, Pend, TheOwed, TheWeak};
ghost use Rattle.settings_tree.specs.Content.{IsContent};
ghost use Rattle.settings_tree.specs.Pending.{IsPending};
ghost use Rattle.settings_tree.specs.Rule.{Fits, Clashes};
ghost use Rattle.fs_datastore.specs.Places.{is_place, format_path};
ghost use Rattle.fs_datastore.specs.FoundFiles.{KeepsRules, Says, Reads, ReadsAt, IsAbsent, place_of, no_files};
ghost use Rattle.fs_datastore.specs.Stands.{Stands};

use crate::place::{FilePlace, place_of};
use crate::scalar_texts::{read_owed, read_pending, read_scalar, read_weak};
use json_trees::{Pending, Scalar};
use key_names::{Bytes, Key, Text};
use outside::Name;
use settings_maps::{KeyList, KeyMap, Metadata, Transactions, TxName};
use settings_tree::{Content, Held, Owed, PendMaps, fits, may_be_weak};
use std::alloc::{AllocError, Global};

/// What the files of a data directory say, as far as they are read.
#[derive(Drop)]
pub struct Found {
    pub(crate) values: KeyMap<Scalar>,
    pub(crate) metadata: Metadata,
    pub(crate) pending: Transactions,
    pub(crate) owed: Option<Owed>,
    pub(crate) image: Option<Bytes>,
    pub(crate) weak: Option<KeyList>,
    /// Whether the file that tells format 2 is there.
    pub(crate) told: bool,
}

/// The file that is missing.
#[derive(Clone, Copy, Debug, PartialEq, Eq)]
pub enum Absent {
    /// The file `owed`.
    Owed,
    /// The file `image`.
    Image,
    /// The file `weak`, which format 2 asks for.
    Weak,
}

fn is_format(names: &[Name]) -> bool
    ensures { IsTrue result ↔ (names.now ≡ format_path) }
{
    match names {
        [name] => name.as_slice() == b"format".as_slice(),
        _ => false,
    }
}

fn fits_transaction(transactions: &Transactions, tx: &TxName, key: &Key) -> bool
    requires { IsPending transactions.now }
    ensures fits { IsTrue result → Fits (inner transactions.now tx.now) key.now }
    ensures clashes { result ≡ false → Clashes (inner transactions.now tx.now) key.now }
{
    match transactions.keys(tx) {
        Some(keys) => fits(keys, key),
        None => true,
    }
}

// Whether the file `weak` is missing in format 2.
fn lacks_weak(told: bool, weak: &Option<KeyList>) -> bool
    ensures { IsTrue result ↔ (IsTrue told × (weak.now ≡ None)) }
{
    told && weak.is_none()
}

// The format, by whether the file that tells format 2 is there.
fn format_of(told: bool) -> u8
    ensures { result ≡ (if told then 2 else 1) }
{
    if told { 2 } else { 1 }
}

impl Found {
    /// Nothing was read. It takes no memory.
    pub fn new(alloc: Global) -> Found
        ensures { Says no_files result }
    {
        Found {
            values: KeyMap::new(alloc),
            metadata: Metadata::new(alloc),
            pending: Transactions::new(alloc),
            owed: None,
            image: None,
            weak: None,
            told: false,
        }
    }

    fn read_value(&mut self, alloc: Global, key: Key, bytes: &[u8]) -> Result<bool, AllocError>
        requires rules { KeepsRules self.old }
        requires valid { IsTrue (is_place (Live key)) }
        ensures { IfOk result (ReadsAt (Live key) bytes.now self.old self.new) }
    {
        let Some(value) = read_scalar(alloc, bytes)? else {
            return Ok(false);
        };
        if !fits(&self.values, &key) {
            return Ok(false);
        }
        self.values.put(key, value)?;
        Ok(true)
    }

    fn read_meta(
        &mut self,
        alloc: Global,
        key: Key,
        name: Text,
        bytes: &[u8],
    ) -> Result<bool, AllocError>
        requires valid { IsTrue (is_place (Meta key name)) }
        ensures { IfOk result (ReadsAt (Meta key name) bytes.now self.old self.new) }
    {
        let Some(value) = read_scalar(alloc, bytes)? else {
            return Ok(false);
        };
        self.metadata.put(key, name, value)?;
        Ok(true)
    }

    fn read_pending(
        &mut self,
        alloc: Global,
        tx: TxName,
        key: Key,
        bytes: &[u8],
    ) -> Result<bool, AllocError>
        requires rules { KeepsRules self.old }
        requires valid { IsTrue (is_place (Pend tx key)) }
        ensures { IfOk result (ReadsAt (Pend tx key) bytes.now self.old self.new) }
    {
        let Some(value) = read_pending(alloc, bytes)? else {
            return Ok(false);
        };
        if !fits_transaction(&self.pending, &tx, &key) {
            return Ok(false);
        }
        self.pending.put(tx, key, value)?;
        Ok(true)
    }

    fn read_owed(&mut self, alloc: Global, bytes: &[u8]) -> Result<bool, AllocError>
        ensures { IfOk result (ReadsAt TheOwed bytes.now self.old self.new) }
    {
        match read_owed(alloc, bytes)? {
            Some(owed) => {
                self.owed = Some(owed);
                Ok(true)
            }
            None => Ok(false),
        }
    }

    fn read_weak(&mut self, alloc: Global, bytes: &[u8]) -> Result<bool, AllocError>
        ensures { IfOk result (ReadsAt TheWeak bytes.now self.old self.new) }
    {
        match read_weak(alloc, bytes)? {
            Some(weak) => {
                if !may_be_weak(&self.values, weak.as_slice()) {
                    return Ok(false);
                }
                self.weak = Some(weak);
                Ok(true)
            }
            None => Ok(false),
        }
    }

    fn read_at(
        &mut self,
        alloc: Global,
        place: FilePlace,
        bytes: Vec<u8>,
    ) -> Result<bool, AllocError>
        requires rules { KeepsRules self.old }
        requires valid { IsTrue (is_place (place_of place)) }
        ensures { IfOk result (ReadsAt (place_of place) bytes.items self.old self.new) }
    {
        match place {
            FilePlace::Live(key) => self.read_value(alloc, key, &bytes),
            FilePlace::Meta(key, name) => self.read_meta(alloc, key, name, &bytes),
            FilePlace::Pending(tx, key) => self.read_pending(alloc, tx, key, &bytes),
            FilePlace::Owed => self.read_owed(alloc, &bytes),
            FilePlace::Weak => self.read_weak(alloc, &bytes),
            FilePlace::Image => {
                self.image = Some(Bytes::of(bytes));
                Ok(true)
            }
        }
    }

    fn read_format(&mut self, bytes: &[u8]) -> bool
        ensures { Reads format_path bytes.now self.old self.new result }
    {
        let fits = bytes == b"2".as_slice();
        if fits {
            self.told = true;
        }
        fits
    }

    /// Reads the file with these bytes, whose path below the directory has these names, after the other files. False
    /// where it may not come after them: its path is not that of exactly one thing, the bytes are outside their form,
    /// its key breaks the prefix rule with an earlier one, or a key that it lists as weak may not be weak. What was
    /// found is of no use then, and after out of memory, which is the only error.
    pub fn read(
        &mut self,
        alloc: Global,
        names: &[Name],
        bytes: Vec<u8>,
    ) -> Result<bool, AllocError>
        requires { KeepsRules self.old }
        ensures { IfOk result (Reads names.now bytes.items self.old self.new) }
    {
        if is_format(names) {
            return Ok(self.read_format(&bytes));
        }
        match place_of(alloc, names)? {
            Some(place) => self.read_at(alloc, place, bytes),
            None => Ok(false),
        }
    }

    // The content that was found, in a directory of format 2 where the file `weak` is asked for.
    fn content(
        alloc: Global,
        values: KeyMap<Scalar>,
        metadata: Metadata,
        weak: Option<KeyList>,
    ) -> Content
        requires { IsContent (record { values = values; metadata = metadata; weak = unwrap_or weak [] }) }
        ensures { result ≡ record { values = values; metadata = metadata; weak = unwrap_or weak [] } }
    {
        let weak = weak.unwrap_or_else(|| KeyList::new(alloc));
        Content::of(values, metadata, weak)
    }

    /// What is held, with the format, where all files were read; or the first file that is missing.
    pub fn held(self, alloc: Global) -> Result<(Held, u8), Absent>
        requires { KeepsRules self }
        ensures ok { (files : Files) → Says files self → IfOk result (λ p. Stands files p.0 p.1) }
        ensures absent { (files : Files) → Says files self → IfErr result (IsAbsent files) }
    {
        let Found {
            values,
            metadata,
            pending,
            owed,
            image,
            weak,
            told,
        } = self;
        let Some(owed) = owed else {
            return Err(Absent::Owed);
        };
        let Some(image) = image else {
            return Err(Absent::Image);
        };
        if lacks_weak(told, &weak) {
            return Err(Absent::Weak);
        }
        let held = Held {
            live: Found::content(alloc, values, metadata, weak),
            pending: PendMaps::of(pending),
            owed,
            image,
        };
        Ok((held, format_of(told)))
    }
}
