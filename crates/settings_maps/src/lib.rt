//! Finite maps of settings: by key, by key and name, and by transaction and key, with the lists of
//! keys that rise and the names of transactions. Each is seen as the finite map, list or name that it
//! represents.
#![tactic(auto)]

mod key_list;
mod key_map;
mod key_sets;
mod meta_name;
mod metadata;
mod named_values;
mod transactions;
mod tree_maps;
mod tx_name;

pub use key_list::{KeyList, copy_keys};
pub use key_map::KeyMap;
pub use meta_name::is_meta_name;
pub use metadata::Metadata;
pub use named_values::NamedValues;
pub use transactions::Transactions;
pub use tree_maps::Copied;
pub use tx_name::TxName;
