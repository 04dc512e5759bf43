//! Migrations as mappings of what a store holds: each has a way forward and a way back, by a table,
//! and refuses exactly where the prefix rule would be broken.
#![tactic(auto)]

mod conflict;
mod copies;
mod edits;
mod entry;
mod law;
mod live;
mod map_error;
mod mapping;
mod metadata;
mod migration;
mod pending;
mod setting;
mod step;
mod ways;

pub use law::laws;
pub use map_error::MapError;
pub use mapping::Mapping;
pub use migration::Migration;
