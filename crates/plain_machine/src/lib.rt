//! The map machine as a program without devices: a struct in memory whose every step is the machine's.
//!
//! The served program is compared with it, and the worked rows on requests, jobs and coverage run on it.
#![tactic(auto)]

mod after;
mod applying;
mod files;
mod forgetting;
mod guarding;
mod image;
mod job_steps;
mod machine;
mod opening;
mod opening_answer;
mod pending;
mod plans;
mod ran;
mod setting;
mod todo;
mod transactions;
mod turn_answer;
mod turns;
mod verifying;

pub use image::PlainImage;
pub use machine::PlainMachine;
pub use opening_answer::OpeningAnswer;
pub use ran::Ran;
pub use transactions::are_settings;
pub use turn_answer::TurnAnswer;
