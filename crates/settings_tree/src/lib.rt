//! What a store holds: scalars and JSON trees of them, the contents of live settings, the pending
//! maps, and the changes that are laid over them.
#![tactic(auto)]

mod change;
mod content;
mod entry;
mod held;
mod live_trees;
mod live_view;
mod made_of_parts;
mod os;
mod parts;
mod pend_maps;
mod rule;
mod setting;
mod steps;

pub use change::Change;
pub use content::Content;
pub use entry::{Entry, Owed};
pub use held::Held;
pub use json_trees::{
    Item, Items, Pending, Scalar, ScalarError, TreeError, flatten, flatten_patch, nest,
    nest_pending,
};
pub use live_trees::{first_without, tree_below};
pub use live_view::LiveView;
pub use os::{Os, OsName};
pub use pend_maps::PendMaps;
pub use rule::fits;
pub use setting::{is_setting, may_be_weak};
pub use settings_maps::{KeyList, TxName};
