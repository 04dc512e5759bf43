//! The store of a host is begun and opened: its links are followed, a change that was cut off is carried out, what is held
//! is read, and what the image says is laid over it in one change.
#![tactic(auto)]

mod begin_error;
mod beginning;
mod copying;
mod forget_error;
mod forgetting;
mod law;
mod open_error;
mod opened;
mod opening;
mod peeking;
mod reading;
mod step;
mod stored;
mod typing;

pub use begin_error::InitError;
pub use beginning::{begin, init};
pub use forget_error::ForgetError;
pub use forgetting::forget_keys;
pub use law::laws;
pub use open_error::OpenError;
pub use opened::Opened;
pub use opening::open_store;
pub use peeking::peek_store;
pub use reading::read_store;
pub use step::lay_change;
pub use store_image::{Image, ImageError, read_image};
pub use stored::Stored;
