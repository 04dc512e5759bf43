//! A source with its template.
ghost use Rattle.template_reader.specs.Forest.{tree_in};
ghost use Rattle.template_reader.specs.Parses.{Parses};

use crate::Template;
use key_names::Bytes;

/// The source of a template, and the template that it is.
#[derive(Drop)]
pub struct Kept {
    pub source: Bytes,
    pub template: Template,
    ghost reading: { ∥ Parses source (tree_in template.nodes) ∥₁ },
}
