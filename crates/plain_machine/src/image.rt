//! What the machine needs of an image.

use key_names::Bytes;
use metadata_links::Manifest;
use settings_tree::{Content, Os};
use template_reader::Templates;
use typed_settings::Types;

/// An image, as it is read.
#[derive(Drop)]
pub struct PlainImage {
    /// The types of settings.
    pub types: Types,
    /// The names of the operating system.
    pub os: Os,
    /// The default settings, with services, configuration files and metadata.
    pub defaults: Content,
    /// What services, files and metadata link.
    pub manifest: Manifest,
    /// The template of each file.
    pub templates: Templates,
    /// The text that determines the image.
    pub text: Bytes,
}
