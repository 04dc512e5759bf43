//! Values that the types of an image refuse.

use key_names::{Key, Text};
use settings_tree::TxName;

/// A value, or a removal, that the types refuse.
#[derive(Debug, Drop)]
pub struct IllTyped {
    /// The transaction in which it is pending; none of a live value.
    pub tx: Option<TxName>,
    /// Its key.
    pub key: Key,
    /// The type word that is wanted there, `nothing` where no row matches the key.
    pub wanted: Text,
}
