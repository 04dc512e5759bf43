//! An open store.
ghost use Rattle.store_open.specs.Typed.{FitsImage};

use settings_tree::Held;
use store_image::Image;
use version_links::Place;

/// An open store: what is held fits the types of the image, its services, files and metadata are those of the image, and
/// the stored image text is the image's.
#[derive(Drop)]
pub struct Opened {
    /// The data directory, with the version that the links lead to.
    pub place: Place,
    /// What is held.
    pub held: Held,
    /// The image.
    pub image: Image,
    ghost fits: { ∥ FitsImage image.model.types image.model.content image.text held ∥₁ },
}
