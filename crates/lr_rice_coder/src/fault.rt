//! Why lines and files aren't coded.

use lr_image::ImageFault;
use thiserror::Error;

/// Why a line isn't coded.
#[derive(Clone, Copy, Debug, Error)]
pub enum CodeFault {
    /// Its string has more than 65,534 bytes.
    #[error("the line takes more bytes than a packet holds")]
    Long,
    /// No memory was left.
    #[error("no memory was left")]
    NoMemory,
}

/// Why a file isn't coded anew: the first of these that stands.
#[derive(Clone, Copy)]
pub enum RepackFault {
    /// The file has no image.
    Image(ImageFault),
    /// A pixel of the image has fewer than 5 bits.
    Depth { bits: u8 },
    /// This line of the image, the first such, takes more than 65,534 bytes. Lines count from 0.
    Line { line: u32 },
    /// The first body would have this many bytes, more than 65,534.
    Header { length: u64 },
    /// The file would have this many bytes, more than 67,108,864.
    File { length: u64 },
    /// No memory was left.
    NoMemory,
}
