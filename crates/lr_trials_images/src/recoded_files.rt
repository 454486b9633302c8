//! Files whose images are coded anew.

use lr_bits::{Bytes, Lengths, MissionFile, NoMemory};
use lr_image::{ImageFault, image_of};
use lr_rice_coder::{RepackFault, repack};
use std::alloc::Global;
use std::test::Fail;

/// An image of 8 bits, 8 columns and 2 lines that isn't compressed, in one body: file counter 7, and both lengths in
/// bits told wrongly.
static PLAIN: [u8; 51] = [
    0, 7, 0, 0, 0, 0, 0, 0, 0, 1, 0x00, 0x00, 0x10, 0x00, 0x00, 0x00, 0x00, 0x19, 0, 0, 0, 0, 0, 0,
    0, 2, 0x01, 0x00, 0x09, 8, 0, 8, 0, 2, 0, 5, 5, 5, 5, 5, 5, 5, 5, 5, 6, 4, 5, 5, 5, 5, 5,
];

/// The same coded in blocks of 8: 38 bytes of 8 bits after the transport header, and 6 of them after the header.
static CODED: [u8; 48] = [
    0, 7, 0, 0, 0, 0, 0, 0, 1, 48, 0x00, 0x00, 0x10, 0x00, 0x00, 0x00, 0x00, 0x20, 0, 0, 0, 0, 0,
    0, 0, 48, 0x01, 0x00, 0x09, 8, 0, 8, 0, 2, 1, 0x83, 0x00, 0x07, 0, 49, 8, 1, 0x00, 0x58, 0x20,
    0xA4, 0x4F, 0x80,
];

/// An image of 4 bits, 2 columns and 1 line.
static NIBBLES: [u8; 36] = [
    0, 7, 0, 0, 0, 0, 0, 0, 0, 1, 0x00, 0x00, 0x10, 0x00, 0x00, 0x00, 0x00, 0x19, 0, 0, 0, 0, 0, 0,
    0, 2, 0x01, 0x00, 0x09, 4, 0, 2, 0, 1, 0, 0x12,
];

/// An image of one pixel with a text, a second image structure record, a record of kind 131 that isn't read, and an
/// empty key.
static RECORDS: [u8; 58] = [
    0, 7, 0, 0, 0, 0, 0, 0, 0, 1, 0x00, 0x00, 0x10, 0x00, 0x00, 0x00, 0x00, 0x2F, 0, 0, 0, 0, 0, 0,
    0, 2, 0x01, 0x00, 0x09, 8, 0, 1, 0, 1, 0, 0x04, 0x00, 0x05, b'h', b'i', 0x01, 0x00, 0x09, 9, 0,
    9, 0, 9, 9, 0x83, 0x00, 0x05, 1, 2, 0x07, 0x00, 0x03, 200,
];

/// What comes before the line of it: the text and the key stay, in their order.
static RECORDS_FRONT: [u8; 50] = [
    0, 7, 0, 0, 0, 0, 0, 0, 1, 80, 0x00, 0x00, 0x10, 0x00, 0x00, 0x00, 0x00, 0x28, 0, 0, 0, 0, 0,
    0, 0, 16, 0x01, 0x00, 0x09, 8, 0, 1, 0, 1, 1, 0x83, 0x00, 0x07, 0, 49, 16, 1, 0x04, 0x00, 0x05,
    b'h', b'i', 0x07, 0x00, 0x03,
];

/// How many bytes each body of a long file has, but for the first one.
const PIECE: usize = 33_000;

/// The file of channel 3 and application 100 with a first body, and with these bytes after it, if there are any, in
/// bodies of 33,000 bytes.
fn file_of(alloc: Global, front: &[u8], rest: &[u8]) -> Result<MissionFile, Fail> {
    let mut lengths = Lengths::new(alloc);
    let mut bytes = Bytes::new(alloc);
    lengths.push((front.len() % 65_535) as u16)?;
    bytes.extend(front)?;
    for _ in 0..rest.len() / PIECE {
        lengths.push(PIECE as u16)?;
    }
    if !rest.is_empty() {
        lengths.push((rest.len() % PIECE) as u16)?;
    }
    bytes.extend(rest)?;
    Ok(MissionFile::build(3, 100, lengths, bytes).ok_or("no file")?)
}

/// The refusal of a file that is to be coded anew in blocks of 64.
fn refusal_of(alloc: Global, file: MissionFile) -> Result<RepackFault, Fail> {
    Ok(repack(alloc, &file, 64).err().ok_or("it isn't refused")?)
}

/// This many bytes of 0, and after them as many more, in turn two of 0 and two of 255.
fn rough_after_flat(alloc: Global, count: usize) -> Result<Vec<u8>, NoMemory> {
    let mut bytes = Vec::new(alloc);
    bytes.resize(count, 0)?;
    for _ in 0..count / 4 {
        bytes.extend_from_slice(&[0, 0, 255, 255])?;
    }
    Ok(bytes)
}

/// Whether the file of one body is coded anew as a file of these bytes, in bodies of these lengths, with the image of
/// the old one.
fn gives(
    alloc: Global,
    body: &[u8],
    block: u32,
    lengths: &[u16],
    bytes: &[u8],
) -> Result<bool, Fail> {
    if block != 8 && block != 16 {
        return Ok(false);
    }
    let file = file_of(alloc, body, &[])?;
    let new = repack(alloc, &file, block).ok().ok_or("refused")?;
    if *new.lengths() != *lengths || *new.bytes() != *bytes {
        let (lengths, bytes) = (new.lengths(), new.bytes());
        return Err(Fail::new(format_args!("bodies of {lengths:?} come: {bytes:?}")));
    }
    Ok(new.vc() == 3 && new.apid() == 100 && has_one_image(alloc, &file, &new))
}

/// Whether both files have an image of the same pixels.
fn has_one_image(alloc: Global, one: &MissionFile, other: &MissionFile) -> bool {
    match (image_of(alloc, one), image_of(alloc, other)) {
        (Ok(image), Ok(new)) => *image.pixels() == *new.pixels(),
        _ => false,
    }
}

#[test]
fn each_line_is_a_body(rt: HostRuntime) -> Result<(), Fail> {
    let alloc = rt.alloc();
    assert!(rt; gives(alloc, &PLAIN, 8, &[42, 2, 4], &CODED)?);
    Ok(())
}

#[test]
fn a_file_that_is_coded_so_stays(rt: HostRuntime) -> Result<(), Fail> {
    let alloc = rt.alloc();
    let file = file_of(alloc, &PLAIN, &[])?;
    let new = repack(alloc, &file, 8).ok().ok_or("refused")?;
    let again = repack(alloc, &new, 8).ok().ok_or("refused")?;
    assert!(rt; *again.bytes() == *new.bytes() && *again.lengths() == *new.lengths());
    Ok(())
}

#[test]
fn other_records_stay(rt: HostRuntime) -> Result<(), Fail> {
    let alloc = rt.alloc();
    let mut bytes = [0; 52];
    bytes[..50].copy_from_slice(&RECORDS_FRONT);
    // A zero block with the reference 200.
    bytes[50..].copy_from_slice(&[0x0C, 0x88]);
    assert!(rt; gives(alloc, &RECORDS, 16, &[50, 2], &bytes)?);
    Ok(())
}

#[test]
fn four_bits_are_refused(rt: HostRuntime) -> Result<(), Fail> {
    let refusal = refusal_of(rt.alloc(), file_of(rt.alloc(), &NIBBLES, &[])?)?;
    assert!(rt; matches!(refusal, RepackFault::Depth { bits: 4 }));
    Ok(())
}

/// The first body of an image of 16 bits, 33,000 columns and 2 lines.
static WIDE: [u8; 35] = [
    0, 7, 0, 0, 0, 0, 0, 0, 0, 1, 0x00, 0x00, 0x10, 0x00, 0x00, 0x00, 0x00, 0x19, 0, 0, 0, 0, 0, 0,
    0, 2, 0x01, 0x00, 0x09, 16, 0x80, 0xE8, 0, 2, 0,
];

/// The first body of an image of 8 bits and one pixel, with a text of 65,502 bytes, of which it has none.
static TEXT: [u8; 38] = [
    0, 7, 0, 0, 0, 0, 0, 0, 0, 1, 0x00, 0x00, 0x10, 0x00, 0x00, 0x00, 0xFF, 0xFA, 0, 0, 0, 0, 0, 0,
    0, 2, 0x01, 0x00, 0x09, 8, 0, 1, 0, 1, 0, 0x04, 0xFF, 0xE1,
];

/// Whether an image of this size, with `size` bytes of pixels that are all the same, is coded anew in blocks of 64 as a
/// file with the same image.
fn stays(alloc: Global, bits: u8, columns: u16, lines: u16, size: usize) -> Result<bool, Fail> {
    let mut front = WIDE;
    front[29] = bits;
    front[30..32].copy_from_slice(&columns.to_be_bytes());
    front[32..34].copy_from_slice(&lines.to_be_bytes());
    let file = file_of(alloc, &front, &vec![in alloc; 0x5A; size]?)?;
    let new = repack(alloc, &file, 64).ok().ok_or("refused")?;
    Ok(has_one_image(alloc, &file, &new))
}

#[test]
fn images_of_each_depth_and_of_great_and_small_sizes_stay(rt: HostRuntime) -> Result<(), Fail> {
    let alloc = rt.alloc();
    for bits in 5..17u8 {
        assert!(rt;
            stays(alloc, bits, 4_001, 2, usize::from(bits) * 1_001)?,
            "{bits} bits"
        );
    }
    assert!(rt; stays(alloc, 8, 65_535, 1, 65_535)? && stays(alloc, 16, 65_535, 1, 131_070)?);
    assert!(rt; stays(alloc, 5, 1, 1, 1)? && stays(alloc, 13, 1, 300, 488)?);
    Ok(())
}

#[test]
fn the_first_long_line_is_told(rt: HostRuntime) -> Result<(), Fail> {
    let alloc = rt.alloc();
    let pixels = rough_after_flat(alloc, 66_000)?;
    let refusal = refusal_of(alloc, file_of(alloc, &WIDE, pixels.as_slice())?)?;
    assert!(rt; matches!(refusal, RepackFault::Line { line: 1 }));
    Ok(())
}

#[test]
fn a_long_header_is_refused(rt: HostRuntime) -> Result<(), Fail> {
    let alloc = rt.alloc();
    // The text, and the pixel.
    let text = vec![in alloc; b'x'; 65_503]?;
    let refusal = refusal_of(alloc, file_of(alloc, &TEXT, &text)?)?;
    assert!(rt; matches!(refusal, RepackFault::Header { length: 65_547 }));
    Ok(())
}

#[test]
fn a_file_without_an_image_is_refused(rt: HostRuntime) -> Result<(), Fail> {
    let refusal = refusal_of(rt.alloc(), file_of(rt.alloc(), &PLAIN[..50], &[])?)?;
    assert!(rt;
        matches!(
            refusal,
            RepackFault::Image(ImageFault::Short { pixels: 15 })
        )
    );
    Ok(())
}
