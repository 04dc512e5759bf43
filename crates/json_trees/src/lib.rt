//! Scalars, and JSON trees of scalars: read from JSON, printed as JSON, flattened to pairs of a
//! key and a scalar, and nested again. JSON is what `serde_json` reads.
#![tactic(auto)]

mod child;
mod flattening;
mod item;
mod items;
mod json_value;
mod leaf;
mod nesting;
mod pending;
mod reading;
mod scalar;
mod scalar_error;
mod tree_error;
mod writing;

pub use flattening::{flatten, flatten_patch};
pub use item::Item;
pub use items::Items;
pub use json_value::json_of;
pub use leaf::Leaf;
pub use nesting::{nest, nest_pending};
pub use pending::Pending;
pub use scalar::Scalar;
pub use scalar_error::ScalarError;
pub use tree_error::TreeError;
pub use writing::text_of;
