//! Words that say changes of settings, as KEY=JSON, and the JSON body of a request that asks for them.
#![tactic(auto)]

mod body;
mod change;
mod form;
mod said;

pub use form::Form;
pub use said::body_in;
