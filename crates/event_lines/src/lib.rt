//! The log: lines for each event of the machine, as logfmt has them, and how they are written to a sink. They are a function of the
//! events and of the worlds around them (`specs/Lines.antt`). No value of a setting is ever in them.
#![tactic(auto)]

mod due;
mod job_lines;
mod logfmt;
mod opening;
mod requests;
mod targets;
mod telling;
mod turned;
mod values;

pub use due::{Due, next_due};
pub use opening::{opened_line, refused_line};
pub use requests::{changed_by, request_lines};
pub use telling::{Discard, tell};
pub use turned::turn_lines;
