//! A store is moved from one version to another, along the transitions of a release, and what it leaves over is removed:
//! each crash leaves the old version or the new one, complete. A migration is a mapping, or a child program that is asked
//! with the held text of what the store holds, and answers that of what it makes of it.
#![tactic(auto)]

mod answer;
mod asking;
mod carrying;
mod copying;
mod mapping;
mod migrating;
mod move_error;
mod moving;
mod owed;
mod prune_error;
mod pruning;
mod spelling;
mod start;
mod task_error;

pub use migrating::migrate_by;
pub use move_error::MoveError;
pub use moving::Moved;
pub use prune_error::PruneError;
pub use pruning::prune;
