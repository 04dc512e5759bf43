//! A server over a core: connections one after another, and the turns of the job between them.
#![tactic(auto)]

mod answering;
mod booting;
mod driving;
mod handled;
mod handling;
mod hearing;
mod idling;
mod more;
mod next;
mod pace;
mod reading;
mod running;
mod saying;
mod serving;
mod turning;
mod unopened;
mod verifying;

pub use handled::Handled;
pub use handling::handle;
pub use hearing::{Heard, hear};
pub use pace::Pace;
pub use running::serve;
pub use saying::say;
pub use serving::serve_one;
