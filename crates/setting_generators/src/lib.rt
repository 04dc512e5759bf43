//! Setting generators: commands that give an image's settings their first values. A file says which command gives which
//! setting, and the commands of those that have no value yet are asked.
#![tactic(auto)]

mod asking;
mod entry;
mod generate_error;
mod generator;
mod generators;
mod generators_error;
mod output;
mod reading;
mod table;

pub use generate_error::GenerateError;
pub use generator::Generator;
pub use generators::Generators;
pub use generators_error::{GeneratorsError, GeneratorsKind};
