//! Why an image can't be put together from segments.

use thiserror::Error;

/// Why segments can't be put together.
#[derive(Clone, Copy, Debug, Error)]
pub enum AssembleFault {
    /// The whole image has no columns or no lines.
    #[error("the whole image has no pixels")]
    Empty,
    /// The whole image has more than 268,435,456 pixels.
    #[error("the whole image has {pixels} pixels, which is too many")]
    TooLarge { pixels: u64 },
    /// The pixels of the segment have other bits than those of the assembly.
    #[error("the segment has {given} bits a pixel, and the image {kept}")]
    Depths { kept: u8, given: u8 },
    /// The segment passes the columns or the lines of the whole image.
    #[error("the segment passes the edge of the whole image")]
    Outside,
    /// No memory was left.
    #[error("no memory was left")]
    NoMemory,
}
