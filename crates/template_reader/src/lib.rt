//! Templates read: from bytes to a tree of nodes whose texts are spans of these bytes, or to the
//! first fault and its place.
#![tactic(auto)]

mod blocks;
mod expr;
mod expressions;
mod front;
mod kept;
mod law;
mod literals;
mod next;
mod node;
mod paths;
mod reading;
mod scan;
mod span;
mod tag;
mod tags;
mod taken;
mod template;
mod template_error;
mod templates;
mod walk;
mod words;

pub use expr::{Expr, Literal};
pub use law::laws;
pub use node::{Node, Nodes};
pub use span::{Span, piece};
pub use template::{Template, read};
pub use template_error::{TemplateError, TemplateKind};
pub use templates::{Parsed, Templates};
pub use walk::Walk;
