//! Releases, which say what leads from one version of a store to another, as release files spell them, and the plans that
//! they give.
#![tactic(auto)]

mod chain;
mod document;
mod field;
mod key_field;
mod kind;
mod kinds;
mod law;
mod migration;
mod migrations;
mod order;
mod pair;
mod plan_error;
mod planning;
mod reading;
mod release;
mod release_error;
mod transition;
mod transitions;
mod words;
mod work;

pub use chain::way;
pub use law::laws;
pub use order::is_before;
pub use plan_error::PlanError;
pub use planning::{Step, plan};
pub use release::Release;
pub use release_error::{ReleaseError, ReleaseKind};
pub use transition::Transition;
pub use work::{Named, Work};
