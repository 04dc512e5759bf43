//! Transactions, as a pure machine. Each call reads what a store holds, and answers the change that
//! a request makes of it; the crates above write that change down, and then lay it.
#![tactic(auto)]

mod answers;
mod committing;
mod dropping;
mod ending;
mod forgetting;
mod live_changes;
mod overlaying;
mod owing;
mod pairs;
mod patching;
mod reading;
mod setting;

pub use answers::{Commit, CommitError, Dropped};
pub use committing::commit;
pub use dropping::drop_tx;
pub use forgetting::{first_unheld, forget, key_set};
pub use live_changes::changed_in;
pub use owing::owed_with;
pub use pairs::last_of;
pub use patching::patch;
pub use reading::{list, pending};
pub use setting::set;
