//! A client of the server of settings: one question over a link with its reply, the questions that a verb asks, one after
//! another, and the program `settingsctl` as one call.
//!
//! It shares nothing with the server but the grammars of HTTP (RFC 9112), as `httparse` states it, and of JSON, as
//! `serde_json` states it.
#![tactic(auto)]

mod asked;
mod changing;
mod client;
mod command;
mod ending;
mod exchange;
mod exchange_error;
mod job;
mod length;
mod lines;
mod members;
mod next;
mod planned;
mod question;
mod reply;
mod reply_error;
mod states;
mod status;
mod step;
mod stop;
mod target;
mod trees;
mod turns;
mod verbs;

pub use client::run_client;
pub use command::{Pace, is_verb, pace_in};
pub use exchange::ask;
pub use exchange_error::AskError;
pub use question::{is_question, question_text};
pub use reply::{Got, read_reply};
pub use reply_error::ReplyError;
