//! What stays while turns are made.

use store_image::Image;
use version_links::Place;

/// What stays while turns are made: where the open store lies, and the image.
#[derive(Clone, Copy, Drop)]
pub struct Store<'a> {
    /// The data directory, with the version that the links lead to.
    pub place: &'a Place,
    /// The image.
    pub image: &'a Image,
}
