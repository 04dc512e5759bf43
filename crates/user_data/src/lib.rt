//! User data: settings that a machine is given from outside when it begins. It is TOML, as `toml` reads it, with one table,
//! `settings`.
#![tactic(auto)]

mod document;
mod place;
mod reading;
mod user_data_error;
mod walk;

pub use reading::read;
pub use user_data_error::{UserDataError, UserDataKind};
