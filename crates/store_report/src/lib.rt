//! What a store holds, set against an image: the values that the types of the image refuse, and the files that would refuse on what
//! an opening makes of it. It reads values in memory alone, and changes nothing.
#![tactic(auto)]

mod found;
mod ill_typed;
mod law;
mod lines;
mod opened;
mod reporting;
mod wanted;

pub use law::laws;
pub use reporting::{StoreReport, report};
