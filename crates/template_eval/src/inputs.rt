//! What a template is rendered with.
use settings_tree::{LiveView, Os};
use std::alloc::Global;

/// What a template is rendered with: its source, the live values and the names of the operating
/// system.
#[derive(Clone, Copy, Drop)]
pub struct Inputs<'a> {
    pub alloc: Global,
    pub source: &'a [u8],
    pub content: &'a LiveView<'a>,
    pub os: &'a Os,
}
