//! A host in memory as a server: an image with the machine that goes by it, and what it replies to each request.
//!
//! It is next to the product, for programs that try a server. Bodies that are trees are written here anew, not by the code that
//! the server runs; lists, refusals, plans, the store and the job are printed by the server's own.
#![tactic(auto)]

mod entries;
mod host;
mod reading;
mod rest;
mod told;
mod tree;

pub use host::{Host, changes};
pub use reading::settings_text;
pub use told::Told;
