//! The version of the programs. The manual pages and CHANGELOG.md are of the same.
#![tactic(auto)]

/// The version, as Semantic Versioning has it.
pub const VERSION: &str = "1.0.0";
