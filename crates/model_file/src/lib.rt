//! The model file of an image: the names of the operating system, the types of settings, the default settings, services
//! and configuration files, and metadata. It is TOML, as `toml` reads it.
#![tactic(auto)]

mod document;
mod entry;
mod found;
mod key_path;
mod law;
mod located_fault;
mod metadata_section;
mod model;
mod model_error;
mod os_section;
mod types_section;
mod value_sections;
mod walk;

pub use law::laws;
pub use model::Model;
pub use model_error::{ModelError, ModelKind};
