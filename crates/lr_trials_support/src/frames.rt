//! Frames that are given, written out byte by byte. They are those of `reference/shelf.py`.
use lr_bits::FRAME_BYTES;
use std::alloc::{AllocError, Global};

/// A frame with the transport file of one packet: the counter 7, 136 bits declared and 128 there, two records and eight
/// zeros; and then an idle packet, whose zeros aren't written here.
pub const FILE_7: &[u8] = b"\x40\x40\x00\x00\x00\x00\x00\x00\
\x00\x64\xC0\x00\x00\x1B\x00\x07\x00\x00\x00\x00\x00\x00\x00\x88\
\x00\x00\x10\x02\x00\x00\x00\x10\x00\x00\x00\x00\x00\x00\x00\x00\x90\xB4\x07\xFF\xC0\x00\x03\x4B";

/// The frame after it, of such a file with the counter 8.
pub const FILE_8: &[u8] = b"\x40\x40\x00\x00\x01\x00\x00\x00\
\x00\x64\xC0\x01\x00\x1B\x00\x08\x00\x00\x00\x00\x00\x00\x00\x88\
\x00\x00\x10\x02\x00\x00\x00\x10\x00\x00\x00\x00\x00\x00\x00\x00\x55\x7B\x07\xFF\xC0\x00\x03\x4B";

/// Appends these bytes of a frame, and zeros up to its end.
pub fn put_frame(bytes: &mut Vec<u8>, front: &[u8]) -> Result<(), AllocError> {
    let end = bytes.len().saturating_add(FRAME_BYTES);
    bytes.extend_from_slice(front)?;
    bytes.resize(end, 0)
}

/// The bytes of these frames.
pub fn frames_of(alloc: Global, frames: &[&[u8]]) -> Result<Vec<u8>, AllocError> {
    let mut bytes = Vec::new(alloc);
    for frame in frames {
        put_frame(&mut bytes, frame)?;
    }
    Ok(bytes)
}
