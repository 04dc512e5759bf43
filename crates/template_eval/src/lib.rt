//! Templates rendered: from the tree of a template to bytes, over the live values and the names of
//! the operating system, or to the first refusal and its path.
#![tactic(auto)]

mod below;
mod children;
mod expressions;
mod inputs;
mod joins;
mod keys;
mod law;
mod node;
mod nodes;
mod place;
mod places;
mod quoting;
mod refusals;
mod render_error;
mod rendering;
mod scalars;
mod written;

pub use law::laws;
pub use render_error::RenderError;
pub use rendering::render;
