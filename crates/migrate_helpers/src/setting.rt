//! Live settings with their weakness.

use json_trees::Scalar;

/// A live setting: its value, and whether it is weak.
#[derive(Debug, Drop)]
pub(crate) struct Setting {
    pub(crate) value: Scalar,
    pub(crate) weak: bool,
}
