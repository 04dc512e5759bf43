//! Entries of a change.
ghost use Rattle.std.specs.Prelude.{◌≡◌, IfOk};

use json_trees::{Pending, Scalar};
use key_names::{Bytes, Key, Text};
use settings_maps::{KeyList, TxName};
use std::alloc::AllocError;

/// The keys whose files are still to be written.
#[derive(Debug, Drop)]
pub enum Owed {
    /// Every key.
    All,
    /// These keys.
    Keys(KeyList),
}

impl Owed {
    /// A copy. The only error is out of memory.
    pub fn copy(&self) -> Result<Owed, AllocError>
        ensures { IfOk result (λ copy. copy ≡ self.now) }
    {
        match self {
            Owed::All => Ok(Owed::All),
            Owed::Keys(keys) => Ok(Owed::Keys(keys.copy()?)),
        }
    }
}

/// One entry of a change. It names a place of what is held, and says what is to be there.
#[derive(Debug, Drop)]
pub enum Entry {
    /// The key has this value.
    LiveSet {
        key: Key,
        value: Scalar,
    },
    /// The key has no value.
    LiveGone {
        key: Key,
    },
    /// The key has this metadata under this name.
    MetaSet {
        key: Key,
        name: Text,
        value: Scalar,
    },
    /// The key has no metadata under this name.
    MetaGone {
        key: Key,
        name: Text,
    },
    /// The transaction has this value or removal pending for the key.
    PendSet {
        tx: TxName,
        key: Key,
        value: Pending,
    },
    /// The transaction has nothing pending for the key.
    PendGone {
        tx: TxName,
        key: Key,
    },
    /// These keys are owed.
    OwedSet {
        owed: Owed,
    },
    /// This is the stored image text.
    ImageSet {
        image: Bytes,
    },
    /// These keys are weak. It counts after all other entries.
    WeakIs {
        weak: KeyList,
    },
}
