//! Why a file has no image.

use lr_headers::HeaderFault;
use lr_rice::RiceFault;

/// Why a file gives no image: the first of these that stands.
#[derive(Clone, Copy)]
pub enum ImageFault {
    /// The header can't be read.
    Headers(HeaderFault),
    /// The file type isn't 0.
    NotImage { kind: u8 },
    /// There is no image structure record.
    NoStructure,
    /// A key record has a content byte that isn't 0.
    Encrypted,
    /// The compression isn't 0, and isn't 1 with a lossless record.
    Compression { value: u8 },
    /// A pixel has other than 1 to 16 bits, or without loss other than 5 to 16.
    Depth { bits: u8 },
    /// There are no columns or no lines.
    Empty,
    /// There are more than 268,435,456 pixels.
    TooLarge { pixels: u64 },
    /// The flag of value 32 isn't set in the lossless record.
    Flags { flags: u16 },
    /// A block has an odd number of samples, or fewer than 2, or more than 64.
    BlockSize { block: u8 },
    /// The lossless record says that a packet has no lines.
    LinesPerPacket,
    /// A piece that still had lines to give can't be decoded. Pieces count from 0.
    Rice { piece: u32, fault: RiceFault },
    /// This many pixels are there, fewer than columns times lines.
    Short { pixels: u64 },
    /// No memory was left.
    NoMemory,
}
