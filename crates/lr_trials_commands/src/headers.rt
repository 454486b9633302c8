//! The lines of a header: each kind of record, and each fault.
use lr_bits::Bytes;
use lr_catalog::header_lines;
use lr_trials_support::is_text;
use std::alloc::Global;
use std::test::Fail;

/// A navigation record, whose name has a zero inside, and zeros and spaces after it.
const NAVIGATION: [u8; 51] = [
    2, 0, 0x33, 0x67, 0x65, 0x6F, 0x73, 0, 0x28, 0x2D, 0x37, 0x35, 0x2E, 0x32, 0x29, 0x20, 0, 0x20,
    0, 0, 0, 0, 0, 0, 0, 0, 0, 0, 0, 0, 0, 0, 0, 0, 0, 1, 0x38, 0x4A, 0x63, 0xFE, 0xC7, 0xB5, 0x9D,
    0, 0, 0x15, 0x7C, 0xFF, 0xFF, 0xFF, 0xFF,
];

/// Whether these are the lines of the header of this file.
fn has_lines(alloc: Global, proper: &[u8], wanted: &str) -> Result<bool, Fail> {
    let mut text = Bytes::new(alloc);
    header_lines(alloc, proper, &mut text)?;
    let last = &proper[proper.len().min(16)..];
    is_text(
        format_args!("the header with {last:?}"),
        text.as_slice(),
        wanted.as_bytes(),
    )
}

/// A primary record of type 2 and 1,600 bits, and these records.
fn proper(alloc: Global, records: &[u8]) -> Result<Vec<u8>, Fail> {
    let size = (16 + records.len() % 200) as u8;
    let mut bytes = [0, 0, 16, 2, 0, 0, 0, size, 0, 0, 0, 0, 0, 0, 6, 0x40].to_vec(alloc)?;
    bytes.extend_from_slice(records)?;
    Ok(bytes)
}

/// The records after the first one, and the lines of the header.
struct Case(&'static [u8], &'static str);

/// That each header has its lines. Where one hasn't, the failure says which, and what differs.
fn have_lines(alloc: Global, cases: &[Case]) -> Result<(), Fail> {
    for Case(records, wanted) in cases {
        has_lines(alloc, &proper(alloc, records)?, wanted)?;
    }
    Ok(())
}

static IMAGES: [Case; 4] = [
    Case(
        &[1, 0, 9, 8, 0, 64, 1, 0, 2],
        "record 0 length 16 primary type 2 header 25 bits 1600\n\
         record 1 length 9 image bits 8 columns 64 lines 256 compression 2\n",
    ),
    Case(
        &NAVIGATION,
        "record 0 length 16 primary type 2 header 67 bits 1600\n\
         record 2 length 51 navigation geos\\x00(-75.2) 20466275 -20466275 5500 -1\n",
    ),
    Case(
        &[128, 0, 17, 0, 1, 0, 2, 0, 3, 0, 4, 0, 5, 0, 6, 1, 0],
        "record 0 length 16 primary type 2 header 33 bits 1600\n\
         record 128 length 17 segment 1 2 3 4 5 6 256\n",
    ),
    Case(
        &[131, 0, 7, 0, 49, 16, 1],
        "record 0 length 16 primary type 2 header 23 bits 1600\n\
         record 131 length 7 lossless flags 49 block 16 lines 1\n",
    ),
];

static BLANK: [Case; 1] = [Case(
    &[
        2, 0, 51, 0, 0, 0, 0, 0, 0, 0, 0, 0, 0, 0, 0, 0, 0, 0, 0, 0, 0, 0, 0, 0, 0, 0, 0, 0, 0, 0,
        0, 0, 0, 0, 0, 0, 0, 0, 0, 0, 0, 0, 0, 0, 0, 0, 0, 0, 0, 0, 0,
    ],
    "record 0 length 16 primary type 2 header 67 bits 1600\n\
     record 2 length 51 navigation  0 0 0 0\n",
)];

static TEXTS: [Case; 3] = [
    Case(
        &[4, 0, 10, b'A', b'\\', 0, b' ', b'~', 0x7F, 0xE9],
        "record 0 length 16 primary type 2 header 26 bits 1600\n\
         record 4 length 10 text A\\x5C\\x00 ~\\x7F\\xE9\n",
    ),
    Case(
        &[3, 0, 4, b'#'],
        "record 0 length 16 primary type 2 header 20 bits 1600\n\
         record 3 length 4 text #\n",
    ),
    Case(
        &[6, 0, 3],
        "record 0 length 16 primary type 2 header 19 bits 1600\n\
         record 6 length 3 text \n",
    ),
];

static STAMPS_AND_OTHERS: [Case; 7] = [
    Case(
        &[5, 0, 10, 0x40, 0x11, 0x1F, 0x05, 0x26, 0x5B, 0xFF],
        "record 0 length 16 primary type 2 header 26 bits 1600\n\
         record 5 length 10 stamp 1970-01-01T23:59:59.999Z\n",
    ),
    Case(
        &[5, 0, 10, 0x41, 0, 7, 0, 0, 0, 9],
        "record 0 length 16 primary type 2 header 26 bits 1600\n\
         record 5 length 10 stamp form 65 days 7 milliseconds 9\n",
    ),
    Case(
        &[7, 0, 4, 0],
        "record 0 length 16 primary type 2 header 20 bits 1600\n\
         record 7 length 4 key\n",
    ),
    Case(
        &[0, 0, 3],
        "record 0 length 16 primary type 2 header 19 bits 1600\n\
         record 0 length 3 other\n",
    ),
    Case(
        &[128, 0, 3],
        "record 0 length 16 primary type 2 header 19 bits 1600\n\
         record 128 length 3 other\n",
    ),
    Case(
        &[131, 0, 4, 1],
        "record 0 length 16 primary type 2 header 20 bits 1600\n\
         record 131 length 4 other\n",
    ),
    Case(
        &[200, 0, 3],
        "record 0 length 16 primary type 2 header 19 bits 1600\n\
         record 200 length 3 other\n",
    ),
];

/// Faults, each of which is the one line of its header.
static FAULTS: [Case; 3] = [
    Case(&[9, 0, 3, 4, 0, 2], "header fault short 19\n"),
    Case(&[9, 0, 3, 4, 0, 9], "header fault overrun 19\n"),
    Case(
        &[5, 0, 11, 0, 0, 0, 0, 0, 0, 0, 0],
        "header fault length 5 11\n",
    ),
];

#[test]
fn images_have_their_lines(rt: HostRuntime) -> Result<(), Fail> {
    have_lines(rt.alloc(), &IMAGES)
}

#[test]
fn a_name_of_zeros_leaves_its_space(rt: HostRuntime) -> Result<(), Fail> {
    have_lines(rt.alloc(), &BLANK)
}

#[test]
fn texts_are_escaped(rt: HostRuntime) -> Result<(), Fail> {
    have_lines(rt.alloc(), &TEXTS)
}

#[test]
fn stamps_and_other_records_have_their_lines(rt: HostRuntime) -> Result<(), Fail> {
    have_lines(rt.alloc(), &STAMPS_AND_OTHERS)
}

#[test]
fn a_fault_has_one_line(rt: HostRuntime) -> Result<(), Fail> {
    assert!(rt; has_lines(rt.alloc(), &[0; 15], "header fault ended 15\n")?);
    assert!(rt; has_lines(rt.alloc(), &[0; 16], "header fault not-primary\n")?);
    have_lines(rt.alloc(), &FAULTS)
}
