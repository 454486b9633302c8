//! Images that go out in several pieces.
use crate::calls::{Call, add, ends};
use crate::image_files::{file_of, plain_header};
use lr_disk::MemDisk;
use lr_shelf::Shelf;
use lr_trials_support::disk;
use std::alloc::Global;
use std::test::Fail;

/// The lines of an image.
const LINES: u16 = 200;

/// The bytes of a data field.
const DATA_BYTES: u32 = 40_000;

fn data(alloc: Global) -> Result<Vec<u8>, Fail> {
    let mut bytes = Vec::new(alloc);
    for place in 0..DATA_BYTES {
        bytes.push((place * 7 % 251) as u8)?;
    }
    Ok(bytes)
}

/// A shelf with this image alone, in two bodies.
fn with_image(alloc: Global, bits: u8, columns: u16, pixels: &[u8]) -> Result<MemDisk, Fail> {
    let file = file_of(alloc, &[&plain_header(bits, columns, LINES), pixels])?;
    let mut made = disk(alloc, &[], 1_000)?;
    Shelf::init(&mut made, 50_000)?;
    add(alloc, &mut made, file)?;
    Ok(made)
}

/// A head and what comes after it.
fn joined_bytes(alloc: Global, head: &[u8], rest: &[u8]) -> Result<Vec<u8>, Fail> {
    let mut text = head.to_vec(alloc)?;
    text.extend_from_slice(rest)?;
    Ok(text)
}

/// Whether the image is put with this head and its data after it; and where there is less room, the front of them.
fn puts(alloc: Global, bits: u8, columns: u16, head: &[u8]) -> Result<bool, Fail> {
    let pixels = data(alloc)?;
    let text = joined_bytes(alloc, head, &pixels)?;
    let mut made = with_image(alloc, bits, columns, &pixels)?;
    let front = &text[..33_333.min(text.len())];
    let call = Call::Export(0);
    Ok(
        ends(alloc, "all", &mut made, call, 50_000, (0, &text))?
            && ends(alloc, "little room", &mut made, call, 33_333, (5, front))?,
    )
}

#[test]
fn large_images_go_out_in_pieces(rt: HostRuntime) -> Result<(), Fail> {
    let alloc = rt.alloc();
    assert!(rt; puts(alloc, 8, 200, b"P5\n200 200\n255\n")?);
    assert!(rt; puts(alloc, 16, 100, b"P5\n100 200\n65535\n")?);
    Ok(())
}
