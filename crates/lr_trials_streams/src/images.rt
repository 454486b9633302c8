//! `export` writes images.
use crate::bodies::{Body, Case, Refused, are_refused, cases_hold};
use crate::made::MADE;
use lr_bits::FRAME_BYTES;
use lr_disk::MemDisk;
use lr_trials_station::call::written_on;
use lr_trials_station::steps::{FRAMES, Piece, Step, hold, hold_on};
use lr_trials_support::{
    BAD_CHECKSUM, CODED, DONE, End, FIRST_LINE, GONE, ITEM_7, ITEM_8, LINES_OF_FIVE, NOT_IMAGE,
    SECOND_LINE, disk, is_number, is_text,
};
use std::alloc::Global;
use std::test::Fail;

/// The header of the coded image, with a key record.
const KEYED: [u8; 47] = [
    0, 1, 0, 0, 0, 0, 0, 0, 1, 48, 0x00, 0x00, 0x10, 0x00, 0x00, 0x00, 0x00, 0x25, 0, 0, 0, 0, 0,
    0, 0, 48, 0x01, 0x00, 0x09, 8, 0, 8, 0, 2, 1, 0x83, 0x00, 0x07, 0x00, 49, 8, 1, 0x07, 0x00,
    0x05, 0, 0,
];

/// The header of an image of 2 columns and 1 line, of 8 bits and not compressed.
const PLAIN: [u8; 35] = [
    0, 1, 0, 0, 0, 0, 0, 0, 0, 224, 0x00, 0x00, 0x10, 0x00, 0x00, 0x00, 0x00, 0x19, 0, 0, 0, 0, 0,
    0, 0, 24, 0x01, 0x00, 0x09, 8, 0, 2, 0, 1, 0,
];

/// Those headers as bodies, and the two coded lines: eight pixels of 5, and 5 6 4 5 5 5 5 5.
const IMAGE: Body = Body(&CODED, &[]);

const WITH_KEY: Body = Body(&KEYED, &[]);

const FIRST: Body = Body(&FIRST_LINE, &[]);

const SECOND: Body = Body(&SECOND_LINE, &[]);

const NO_BYTES: Body = Body(&[], &[]);

/// The header of the coded image, and its first line.
const JOINED: Body = Body(
    &[
        0, 1, 0, 0, 0, 0, 0, 0, 1, 48, 0x00, 0x00, 0x10, 0x00, 0x00, 0x00, 0x00, 0x20, 0, 0, 0, 0,
        0, 0, 0, 48, 0x01, 0x00, 0x09, 8, 0, 8, 0, 2, 1, 0x83, 0x00, 0x07, 0x00, 49, 8, 1, 0x00,
        0x58,
    ],
    &[],
);

/// The image of both lines.
const EXPORTED: Step = Step::Writes("export 0", LINES_OF_FIVE);

/// In the last one the first piece begins in the middle of a body.
static CODED_LINES: [Case; 4] = [
    Case(&[&[IMAGE, FIRST, SECOND]], &[EXPORTED]),
    Case(&[&[WITH_KEY, FIRST, SECOND]], &[EXPORTED]),
    Case(&[&[IMAGE, NO_BYTES, FIRST, NO_BYTES, SECOND]], &[EXPORTED]),
    Case(&[&[JOINED, SECOND]], &[EXPORTED]),
];

static DEPTHS: [Case; 2] = [
    Case(
        &[&[Body(&PLAIN, &[(29, 16)]), Body(&[0xAB, 0xCD, 0, 1], &[])]],
        &[Step::Writes("export 0", b"P5\n2 1\n65535\n\xAB\xCD\x00\x01")],
    ),
    Case(
        &[&[Body(&PLAIN, &[(29, 1), (31, 8)]), Body(&[0xA5], &[])]],
        &[Step::Writes("export 0", b"P5\n8 1\n1\n\x01\x00\x01\x00\x00\x01\x00\x01")],
    ),
];

/// Each has another byte in the coded image's first body.
static HEADERS: [Refused; 9] = [
    Refused(&[Body(&CODED, &[(10, 1)]), FIRST, SECOND], "headers"),
    Refused(&[Body(&CODED, &[(13, 2)]), FIRST, SECOND], "not-image"),
    Refused(&[Body(&CODED, &[(26, 9)]), FIRST, SECOND], "no-structure"),
    Refused(&[Body(&CODED, &[(34, 2)]), FIRST, SECOND], "compression"),
    Refused(&[Body(&CODED, &[(29, 4)]), FIRST, SECOND], "depth"),
    Refused(&[Body(&CODED, &[(31, 0)]), FIRST, SECOND], "empty"),
    Refused(&[Body(&CODED, &[(39, 17)]), FIRST, SECOND], "flags"),
    Refused(&[Body(&CODED, &[(40, 7)]), FIRST, SECOND], "block-size"),
    Refused(
        &[Body(&CODED, &[(41, 0)]), FIRST, SECOND],
        "lines-per-packet",
    ),
];

static FIELDS: [Refused; 4] = [
    Refused(&[Body(&KEYED, &[(46, 1)]), FIRST, SECOND], "encrypted"),
    Refused(&[IMAGE, FIRST, Body(&[0x40, 0xAA], &[])], "rice"),
    Refused(&[IMAGE, FIRST], "short"),
    Refused(&[Body(&CODED, &[(30, 0xFF), (32, 0xFF)])], "too-large"),
];

/// The files of 64 frames of the test stream are received.
static STREAM: [Step; 3] = [
    MADE,
    Step::Reads(&[Piece::Written("make 1 64 0 --output frames", 64 * FRAME_BYTES)]),
    Step::CallEnding(FRAMES, "", DONE),
];

/// What is no file isn't exported.
static NOT_EXPORTED: [Step; 2] = [
    Step::Call("export 0", "", NOT_IMAGE),
    Step::Call("export 63", "", End(7, "station: no such file, count 63\n")),
];

/// That the image of the first image's file of the test stream is its data.
fn data_is_exported(alloc: Global, made: &mut MemDisk) -> Result<bool, Fail> {
    let image = written_on(alloc, made, "export 7", 5_000)?;
    let file = written_on(alloc, made, "extract 7", 5_000)?;
    let (head, pixels) = image.split_at(13.min(image.len()));
    let data = file.get(25..).unwrap_or(&[]);
    Ok(
        is_text("the head", head, b"P5\n64 64\n255\n")?
            && is_number("the length of the file", file.len() as u64, 4_121)?
            && is_text("the pixels", pixels, data)?,
    )
}

static NOT_THERE: [&[Step]; 2] = [
    &[
        Step::Shelf(&[ITEM_7, ITEM_8]),
        Step::Byte(135, 0xA5),
        Step::Call("export 1", "", BAD_CHECKSUM),
        Step::Call("assemble 0 2 7 1", "", BAD_CHECKSUM),
    ],
    &[
        Step::Shelf(&[ITEM_7, ITEM_8]),
        Step::Call("discard 1", "discarded 1\n", DONE),
        Step::Call("export 1", "", GONE),
    ],
];

#[test]
fn an_image_of_the_test_stream_is_exported(rt: HostRuntime) -> Result<(), Fail> {
    let alloc = rt.alloc();
    let made = hold_on(alloc, disk(alloc, &[], 10_000)?, &STREAM, 0)?;
    let mut made = hold_on(alloc, made, &NOT_EXPORTED, 1)?;
    assert!(rt; data_is_exported(alloc, &mut made)?);
    Ok(())
}

#[test]
fn files_that_are_not_there_are_not_exported(rt: HostRuntime) -> Result<(), Fail> {
    hold(rt.alloc(), &NOT_THERE)
}

#[test]
fn coded_lines_are_exported(rt: HostRuntime) -> Result<(), Fail> {
    cases_hold(rt.alloc(), &CODED_LINES)
}

#[test]
fn pixels_of_sixteen_bits_and_of_one(rt: HostRuntime) -> Result<(), Fail> {
    cases_hold(rt.alloc(), &DEPTHS)
}

#[test]
fn each_fault_of_a_header_has_its_word(rt: HostRuntime) -> Result<(), Fail> {
    are_refused(rt.alloc(), &HEADERS)
}

#[test]
fn faults_of_the_data_field_and_of_a_key(rt: HostRuntime) -> Result<(), Fail> {
    are_refused(rt.alloc(), &FIELDS)
}
