//! Requests and turns over an opened store: a request is planned, and its plan is committed, as one step of the map machine.
#![tactic(auto)]

mod applying;
mod committing;
mod guarding;
mod live_values;
mod named_values;
mod nearest;
mod next_job;
mod planned;
mod planning;
mod plans;
mod printable;
mod reading;
mod reopening;
mod requesting;
mod serving;
mod setting;
mod settings_at;
mod turning;
mod verifying;

pub use affected_apply::JobState;
pub use planned::{Effect, Planned};
pub use serving::Core;
pub use settings_machine::{Guard, Request};
pub use store_open::Opened;
