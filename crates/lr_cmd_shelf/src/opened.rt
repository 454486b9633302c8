//! A shelf that was loaded, and what stands at one of its entries.

use lr_image::{Image, ImageFault};
use lr_shelf::Stored;

/// A file as a command sees it: the file, and where the command looks at its image, that image, or the first fault for
/// which it has none.
#[derive(Drop)]
pub struct Opened {
    pub stored: Stored,
    pub image: Option<Result<Image, ImageFault>>,
}
