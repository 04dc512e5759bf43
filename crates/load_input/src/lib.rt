//! The generated input of a load run: the files of its image, and the bytes of its requests.
#![tactic(auto)]

mod asking;
mod counts;
mod driving;
mod image_disk;
mod image_files;
mod lines;
mod model_text;
mod numbered;
mod opening;
mod request_bytes;
mod running;
mod serving;
mod template_text;

pub use image_files::{LoadFile, files};
pub use request_bytes::requests;
pub use running::load;
