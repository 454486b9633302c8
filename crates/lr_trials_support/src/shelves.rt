//! Shelves that are given, by their items. Headers and items are those of `reference/shelf.py`.
use lr_bits::NoMemory;
use lr_disk::MemDisk;
use std::alloc::{AllocError, Global};

/// The item of the file with the counter 7, from the frame 0.
pub const ITEM_7: &[u8] = b"\x80\x00\x00\x64\x00\x00\x00\x01\x00\x00\x00\x1A\
\x00\x00\x00\x00\x00\x00\x00\x00\x00\x00\x00\x00\x00\x00\x00\x00\x00\x00\x00\x00\x00\x00\x00\x00\x00\x1A\
\x00\x07\x00\x00\x00\x00\x00\x00\x00\x88\x00\x00\x10\x02\x00\x00\x00\x10\x00\x00\x00\x00\x00\x00\x00\x00\x3B\x39";

/// That of the file with the counter 8, from the frame 1, and from the frame 0.
pub const ITEM_8: &[u8] = b"\x80\x00\x00\x64\x00\x00\x00\x01\x00\x00\x00\x1A\
\x00\x00\x00\x00\x00\x00\x00\x01\x00\x00\x00\x00\x00\x00\x00\x01\x00\x00\x00\x00\x00\x00\x00\x00\x00\x1A\
\x00\x08\x00\x00\x00\x00\x00\x00\x00\x88\x00\x00\x10\x02\x00\x00\x00\x10\x00\x00\x00\x00\x00\x00\x00\x00\xDE\x9E";

pub const ITEM_8_FROM_0: &[u8] = b"\x80\x00\x00\x64\x00\x00\x00\x01\x00\x00\x00\x1A\
\x00\x00\x00\x00\x00\x00\x00\x00\x00\x00\x00\x00\x00\x00\x00\x00\x00\x00\x00\x00\x00\x00\x00\x00\x00\x1A\
\x00\x08\x00\x00\x00\x00\x00\x00\x00\x88\x00\x00\x10\x02\x00\x00\x00\x10\x00\x00\x00\x00\x00\x00\x00\x00\xFE\xF6";

/// A shelf of version 1 and capacity 200, as a program of version 1 wrote it: the file with the counter 7. Its gate is
/// at 19, and the closed gate at 61.
pub const OLD_SHELF: [u8; 62] = *b"\x5ALRSHELF\x01\x00\x00\x00\x00\x00\x00\x00\xC8\xB9\x71\
\x01\x00\x00\x64\x00\x00\x00\x01\x00\x00\x00\x1A\x00\x1A\
\x00\x07\x00\x00\x00\x00\x00\x00\x00\x88\x00\x00\x10\x02\x00\x00\x00\x10\x00\x00\x00\x00\x00\x00\x00\x00\x8B\xCA\x00";

/// The bytes of a shelf: its header, these items, each behind an open gate, and a closed gate.
pub fn shelf_bytes(alloc: Global, header: &[u8], items: &[&[u8]]) -> Result<Vec<u8>, AllocError> {
    let mut bytes = header.to_vec(alloc)?;
    for item in items {
        bytes.extend_from_slice(&[1])?;
        bytes.extend_from_slice(item)?;
    }
    bytes.extend_from_slice(&[0])?;
    Ok(bytes)
}

/// These bytes, with another one at a place.
pub fn bytes_with(
    alloc: Global,
    bytes: &[u8],
    place: usize,
    byte: u8,
) -> Result<Vec<u8>, AllocError> {
    let mut bytes = bytes.to_vec(alloc)?;
    if let Some(one) = bytes.get_mut(place) {
        *one = byte;
    }
    Ok(bytes)
}

/// A disk of these bytes that allows this many calls, and has room for 1,000,000 bytes more.
pub fn disk(alloc: Global, bytes: &[u8], calls: u64) -> Result<MemDisk, NoMemory> {
    let bytes = bytes.to_vec(alloc)?;
    let room = (bytes.len() as u64).saturating_add(1_000_000);
    MemDisk::of(alloc, bytes, room, calls)
}
