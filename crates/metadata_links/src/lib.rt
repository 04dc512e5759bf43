//! The services of an image, the configuration files that they list, and the metadata that says which
//! services a setting affects: read from a content, checked, and linked.
#![tactic(auto)]

mod affected_lists;
mod command;
mod fields;
mod file_row;
mod file_rows;
mod firsts;
mod index;
mod keys;
mod look_ups;
mod manifest;
mod manifest_error;
mod name_map;
mod name_set;
mod paths;
mod service;
mod service_links;
mod services;
mod texts;

pub use command::Command;
pub use file_row::FileRow;
pub use index::{Index, Steps};
pub use manifest::Manifest;
pub use manifest_error::ManifestError;
