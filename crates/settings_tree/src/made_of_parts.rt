//! Contents and pending maps as they are made of their maps.
ghost use Rattle.std.specs.Prelude.{◌≡◌};
ghost use Rattle.settings_tree.specs.Content.{Contents, IsContent};
ghost use Rattle.settings_tree.specs.Pending.{IsPending};

use crate::content::Content;
use crate::pend_maps::PendMaps;
use json_trees::Scalar;
use settings_maps::{KeyList, KeyMap, Metadata, Transactions};

impl Content {
    /// The content of these values, metadata and weak keys, which keep the rules of a content. It
    /// takes no memory.
    pub fn of(values: KeyMap<Scalar>, metadata: Metadata, weak: KeyList) -> Content
        requires { IsContent (record { values = values; metadata = metadata; weak = weak }) }
        ensures { result ≡ record { values = values; metadata = metadata; weak = weak } }
    {
        Content {
            values,
            metadata,
            weak,
        }
    }

    /// The values by key. It takes no memory.
    pub fn values(&self) -> &KeyMap<Scalar>
        ensures values { result.now ≡ self.now.values }
        ensures valid { IsContent self.now }
    {
        &self.values
    }

    /// The metadata by key and name. It takes no memory.
    pub fn metadata(&self) -> &Metadata
        ensures metadata { result.now ≡ self.now.metadata }
        ensures valid { IsContent self.now }
    {
        &self.metadata
    }
}

impl PendMaps {
    /// The pending maps of these transactions, which keep the rules of pending maps. It takes no
    /// memory.
    pub fn of(transactions: Transactions) -> PendMaps
        requires { IsPending transactions }
        ensures { result ≡ transactions }
    {
        PendMaps { transactions }
    }

    /// What is pending by transaction and key. It takes no memory.
    pub fn transactions(&self) -> &Transactions
        ensures transactions { result.now ≡ self.now }
        ensures valid { IsPending self.now }
    {
        &self.transactions
    }
}
