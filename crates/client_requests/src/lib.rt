//! The client and the server agree: the client's questions as the server reads them, and the server's replies as the
//! client reads them. No crate of the program depends on this one.
#![tactic(auto)]

mod answers;
mod questions;

pub use answers::{read_answer, read_refusal};
pub use questions::read_question;
