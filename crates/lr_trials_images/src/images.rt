//! Images of files, the faults of files that have none, and their PGM.

use crate::images::Wanted::{Fault, Picture};
use lr_bits::{Bytes, Lengths, MissionFile, NoMemory};
use lr_headers::HeaderFault;
use lr_image::{Image, ImageFault, image_of, pgm_head, pgm_line};
use lr_rice::RiceFault;
use lr_trials_support::{FIRST_LINE, SECOND_LINE};
use std::alloc::Global;
use std::fmt::Debug;
use std::test::Fail;

/// A body of a file.
#[derive(Clone, Copy)]
pub(crate) enum Body {
    Bytes(&'static [u8]),
    /// The header of the coded image, with another byte at a place.
    Coded(usize, u8),
    /// The header of an image that isn't compressed: its bits, columns and lines.
    Plain(u8, u16, u16),
    /// The header of a coded image of 8 columns: its lines, how many samples a block has, and how many lines a piece.
    Header(u8, u8, u8),
}

/// What becomes of a file: a PGM, or a fault.
#[derive(Clone, Copy)]
pub(crate) enum Wanted {
    Picture(&'static [u8]),
    Fault(ImageFault),
}

/// The bodies of a file, and what becomes of it.
pub(crate) struct Case(pub(crate) &'static [Body], pub(crate) Wanted);

/// The header of the coded image of 8 columns and 2 lines.
pub(crate) const CODED: Body = Body::Bytes(&lr_trials_support::CODED);

/// The header of the coded image with a key record.
const KEYED: Body = Body::Bytes(&[
    0, 1, 0, 0, 0, 0, 0, 0, 1, 48, 0, 0, 16, 0, 0, 0, 0, 37, 0, 0, 0, 0, 0, 0, 0, 48, 1, 0, 9, 8,
    0, 8, 0, 2, 1, 0x83, 0, 7, 0, 49, 8, 1, 7, 0, 5, 0, 0,
]);

/// A coded line of eight pixels of 5, and one of 5 6 4 5 5 5 5 5.
pub(crate) const FIRST: Body = Body::Bytes(&FIRST_LINE);

pub(crate) const SECOND: Body = Body::Bytes(&SECOND_LINE);

/// Their image.
pub(crate) const LINES_OF_FIVE: Wanted = Picture(lr_trials_support::LINES_OF_FIVE);

/// The header of an image that isn't compressed.
fn plain(bits: u8, columns: u16, lines: u16) -> [u8; 35] {
    let [column, columns] = columns.to_be_bytes();
    let [line, lines] = lines.to_be_bytes();
    [
        0, 1, 0, 0, 0, 0, 0, 0, 0, 224, 0x00, 0x00, 0x10, 0x00, 0x00, 0x00, 0x00, 0x19, 0, 0, 0, 0,
        0, 0, 0, 24, 0x01, 0x00, 0x09, bits, column, columns, line, lines, 0,
    ]
}

/// The header of a coded image of 8 columns.
fn coded_header(lines: u8, block: u8, each: u8) -> [u8; 42] {
    let mut header = lr_trials_support::CODED;
    header[33] = lines;
    header[40] = block;
    header[41] = each;
    header
}

fn with_byte(place: usize, byte: u8) -> [u8; 42] {
    let mut header = lr_trials_support::CODED;
    if place < header.len() {
        header[place] = byte;
    }
    header
}

fn put_bytes(lengths: &mut Lengths, bytes: &mut Bytes, body: &[u8]) -> Result<(), NoMemory> {
    lengths.push(u16::try_from(body.len()).unwrap_or(0))?;
    bytes.extend(body)
}

fn put_body(lengths: &mut Lengths, bytes: &mut Bytes, body: Body) -> Result<(), NoMemory> {
    match body {
        Body::Bytes(body) => put_bytes(lengths, bytes, body),
        Body::Coded(place, byte) => put_bytes(lengths, bytes, &with_byte(place, byte)),
        Body::Plain(bits, columns, lines) => {
            put_bytes(lengths, bytes, &plain(bits, columns, lines))
        }
        Body::Header(lines, block, each) => {
            put_bytes(lengths, bytes, &coded_header(lines, block, each))
        }
    }
}

/// The file of these bodies.
fn file_of(alloc: Global, bodies: &[Body]) -> Result<Option<MissionFile>, NoMemory> {
    let mut lengths = Lengths::new(alloc);
    let mut bytes = Bytes::new(alloc);
    for body in bodies {
        put_body(&mut lengths, &mut bytes, *body)?;
    }
    Ok(MissionFile::build(0, 100, lengths, bytes))
}

fn pgm_of(alloc: Global, image: &Image) -> Result<Bytes, NoMemory> {
    let mut out = Bytes::new(alloc);
    pgm_head(alloc, image, &mut out)?;
    for line in 0..image.lines() {
        pgm_line(alloc, image, line, &mut out)?;
    }
    Ok(out)
}

/// The word of each fault, and its number.
fn told(fault: ImageFault) -> (&'static str, u64) {
    match fault {
        ImageFault::Headers(_) => ("headers", 0),
        ImageFault::NotImage { kind } => ("not-image", u64::from(kind)),
        ImageFault::NoStructure => ("no-structure", 0),
        ImageFault::Encrypted => ("encrypted", 0),
        ImageFault::Compression { value } => ("compression", u64::from(value)),
        ImageFault::Depth { bits } => ("depth", u64::from(bits)),
        ImageFault::Empty => ("empty", 0),
        ImageFault::TooLarge { pixels } => ("too-large", pixels),
        ImageFault::Flags { flags } => ("flags", u64::from(flags)),
        ImageFault::BlockSize { block } => ("block-size", u64::from(block)),
        ImageFault::LinesPerPacket => ("lines-per-packet", 0),
        ImageFault::Rice { piece, .. } => ("rice", u64::from(piece)),
        ImageFault::Short { pixels } => ("short", pixels),
        ImageFault::NoMemory => ("no memory", 0),
    }
}

/// What came of a case, and what it wants: the PGM, or the word and number of the fault.
fn differs<C: Debug + Drop, W: Debug + Drop>(case: usize, came: C, wanted: W) -> Result<(), Fail> {
    Err(Fail::new(format_args!("case {case} gives {came:?}, and not {wanted:?}")))
}

fn is_wanted(
    alloc: Global,
    case: usize,
    outcome: Result<Image, ImageFault>,
    wanted: Wanted,
) -> Result<(), Fail> {
    match (outcome, wanted) {
        (Ok(image), Picture(picture)) => {
            let text = pgm_of(alloc, &image)?;
            if *text.as_slice() == *picture {
                return Ok(());
            }
            differs(case, text.as_slice(), picture)
        }
        (Err(fault), Fault(other)) if told(fault) == told(other) => Ok(()),
        (Err(fault), Fault(other)) => differs(case, told(fault), told(other)),
        (Ok(_), Fault(fault)) => differs(case, "an image", told(fault)),
        (Err(fault), Picture(_)) => differs(case, told(fault), "an image"),
    }
}

/// That each file has the image or the fault that it must.
pub(crate) fn hold(alloc: Global, cases: &[Case]) -> Result<(), Fail> {
    for (place, Case(bodies, wanted)) in cases.iter().enumerate() {
        let file = file_of(alloc, bodies)?.ok_or("no file")?;
        is_wanted(alloc, place, image_of(alloc, &file), *wanted)?;
    }
    Ok(())
}

/// The coded image with another byte in its header, and its fault.
struct Faulty(usize, u8, ImageFault);

/// The same of headers alone.
fn are_faulty(alloc: Global, cases: &[Faulty]) -> Result<(), Fail> {
    for Faulty(place, byte, fault) in cases {
        let bodies = [Body::Coded(*place, *byte), FIRST, SECOND];
        let file = file_of(alloc, &bodies)?.ok_or("no file")?;
        is_wanted(alloc, *place, image_of(alloc, &file), Fault(*fault))?;
    }
    Ok(())
}

static PACKET_BY_PACKET: [Case; 2] = [
    Case(&[CODED, FIRST, SECOND], LINES_OF_FIVE),
    // A key of zeros hides nothing.
    Case(&[KEYED, FIRST, SECOND], LINES_OF_FIVE),
];

static HEADER_FAULTS: [Faulty; 10] = [
    Faulty(13, 2, ImageFault::NotImage { kind: 2 }),
    Faulty(26, 9, ImageFault::NoStructure),
    Faulty(34, 2, ImageFault::Compression { value: 2 }),
    Faulty(35, 9, ImageFault::Compression { value: 1 }),
    Faulty(29, 4, ImageFault::Depth { bits: 4 }),
    Faulty(29, 17, ImageFault::Depth { bits: 17 }),
    Faulty(31, 0, ImageFault::Empty),
    Faulty(39, 17, ImageFault::Flags { flags: 17 }),
    Faulty(40, 7, ImageFault::BlockSize { block: 7 }),
    Faulty(41, 0, ImageFault::LinesPerPacket),
];

/// Too many pixels, and wrong flags.
const LARGE: Body = Body::Bytes(&[
    0, 1, 0, 0, 0, 0, 0, 0, 1, 48, 0, 0, 16, 0, 0, 0, 0, 32, 0, 0, 0, 0, 0, 0, 0, 48, 1, 0, 9, 8,
    0xFF, 8, 0xFF, 2, 1, 0x83, 0, 7, 0, 0, 8, 1,
]);

/// A key that hides the data, and another compression.
const ENCRYPTED: Body = Body::Bytes(&[
    0, 1, 0, 0, 0, 0, 0, 0, 1, 48, 0, 0, 16, 0, 0, 0, 0, 37, 0, 0, 0, 0, 0, 0, 0, 48, 1, 0, 9, 8,
    0, 8, 0, 2, 2, 0x83, 0, 7, 0, 49, 8, 1, 7, 0, 5, 0, 1,
]);

static ORDER: [Case; 3] = [
    Case(
        &[LARGE],
        Fault(ImageFault::TooLarge {
            pixels: 0xFF08 * 0xFF02,
        }),
    ),
    Case(&[ENCRYPTED, FIRST, SECOND], Fault(ImageFault::Encrypted)),
    Case(
        &[Body::Coded(10, 1), FIRST],
        Fault(ImageFault::Headers(HeaderFault::NotPrimary)),
    ),
];

/// The first piece stands in the header's body.
const JOINED: Body = Body::Bytes(&[
    0, 1, 0, 0, 0, 0, 0, 0, 1, 48, 0, 0, 16, 0, 0, 0, 0, 32, 0, 0, 0, 0, 0, 0, 0, 48, 1, 0, 9, 8,
    0, 8, 0, 2, 1, 0x83, 0, 7, 0, 49, 8, 1, 0, 88,
]);

const NOTHING: Body = Body::Bytes(&[]);

/// One body is empty.
static PIECES: [Case; 3] = [
    Case(&[JOINED, NOTHING, SECOND], LINES_OF_FIVE),
    Case(&[JOINED, NOTHING], Fault(ImageFault::Short { pixels: 8 })),
    Case(
        &[JOINED, NOTHING, Body::Bytes(&[0x40, 0xAA])],
        Fault(ImageFault::Rice {
            piece: 1,
            fault: RiceFault::Ended { line: 0 },
        }),
    ),
];

/// The header of an image of 2 columns and 1 line, of 12 bits and not compressed, and its data field.
const PLAIN: Body = Body::Bytes(&[
    0, 1, 0, 0, 0, 0, 0, 0, 0, 0xE0, 0, 0, 16, 0, 0, 0, 0, 25, 0, 0, 0, 0, 0, 0, 0, 24, 1, 0, 9,
    12, 0, 2, 0, 1, 0, 0xAB, 0xC1, 35,
]);

/// The same without the last byte.
const PLAIN_CUT: Body = Body::Bytes(&[
    0, 1, 0, 0, 0, 0, 0, 0, 0, 0xE0, 0, 0, 16, 0, 0, 0, 0, 25, 0, 0, 0, 0, 0, 0, 0, 24, 1, 0, 9,
    12, 0, 2, 0, 1, 0, 0xAB, 0xC1,
]);

static TWELVE_BITS: [Case; 2] = [
    Case(&[PLAIN], Picture(b"P5\n2 1\n4095\n\x0A\xBC\x01\x23")),
    Case(&[PLAIN_CUT], Fault(ImageFault::Short { pixels: 1 })),
];

#[test]
fn coded_lines_are_read_packet_by_packet(rt: HostRuntime) -> Result<(), Fail> {
    hold(rt.alloc(), &PACKET_BY_PACKET)
}

#[test]
fn each_fault_of_a_header_is_named(rt: HostRuntime) -> Result<(), Fail> {
    are_faulty(rt.alloc(), &HEADER_FAULTS)
}

#[test]
fn the_order_of_faults(rt: HostRuntime) -> Result<(), Fail> {
    hold(rt.alloc(), &ORDER)
}

#[test]
fn the_pieces_of_the_data_field_count(rt: HostRuntime) -> Result<(), Fail> {
    hold(rt.alloc(), &PIECES)
}

#[test]
fn pixels_of_twelve_bits_take_two_bytes(rt: HostRuntime) -> Result<(), Fail> {
    hold(rt.alloc(), &TWELVE_BITS)
}
