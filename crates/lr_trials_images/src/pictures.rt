//! Pictures of each depth, and images at the limits of their faults.

use crate::images::Body::{Bytes, Header, Plain};
use crate::images::Wanted::{Fault, Picture};
use crate::images::{Body, CODED, Case, FIRST, LINES_OF_FIVE, SECOND, Wanted, hold};
use lr_image::ImageFault;
use lr_rice::RiceFault;
use std::test::Fail;

/// A coded piece of two lines of eight pixels: one of 5, and one of 5 6 4 5 5 5 5 5.
const BOTH: Body = Bytes(&[0x00, 0x5A, 0x05, 0x57, 0xD0, 0x00]);

/// The image of that piece and a line of 5 more.
const THREE_LINES: Wanted = Picture(
    b"P5\n8 3\n255\n\x05\x05\x05\x05\x05\x05\x05\x05\x05\x06\x04\x05\x05\x05\x05\x05\x05\x05\x05\x05\x05\x05\x05\x05",
);

static INSIDE_A_BYTE: [Case; 3] = [
    Case(
        &[Plain(1, 3, 3), Bytes(b"\xB8\x80")],
        Picture(b"P5\n3 3\n1\n\x01\x00\x01\x01\x01\x00\x00\x00\x01"),
    ),
    Case(
        &[Plain(4, 3, 2), Bytes(b"\x12\xF0\xA5")],
        Picture(b"P5\n3 2\n15\n\x01\x02\x0F\x00\x0A\x05"),
    ),
    Case(
        &[Plain(10, 3, 1), Bytes(b"\xFF\xC0\x15\x54")],
        Picture(b"P5\n3 1\n1023\n\x03\xFF\x00\x01\x01\x55"),
    ),
];

static WHOLE_BYTES: [Case; 2] = [
    Case(
        &[Plain(8, 2, 2), Bytes(b"\x00\xFF\x80\x01")],
        Picture(b"P5\n2 2\n255\n\x00\xFF\x80\x01"),
    ),
    Case(
        &[Plain(16, 2, 1), Bytes(b"\xAB\xCD\x00\x01")],
        Picture(b"P5\n2 1\n65535\n\xAB\xCD\x00\x01"),
    ),
];

/// A pixel of 12 bits begins in one body and ends in the next; what follows the last one counts for nothing.
static FROM_BODY_TO_BODY: [Case; 3] = [
    Case(
        &[
            Plain(12, 2, 1),
            Bytes(b"\xAB"),
            Bytes(&[]),
            Bytes(b"\xC1\x23\xFF\xFF"),
        ],
        Picture(b"P5\n2 1\n4095\n\x0A\xBC\x01\x23"),
    ),
    Case(
        &[Plain(10, 3, 1), Bytes(b"\xFF\xC0\x15")],
        Fault(ImageFault::Short { pixels: 2 }),
    ),
    Case(
        &[Plain(1, 3, 3), Bytes(b"\xB8")],
        Fault(ImageFault::Short { pixels: 8 }),
    ),
];

static LAST_PIECES: [Case; 4] = [
    Case(&[Header(2, 8, 2), BOTH], LINES_OF_FIVE),
    Case(&[Header(3, 8, 2), BOTH, FIRST], THREE_LINES),
    // A piece after the last wanted line isn't read.
    Case(&[Header(2, 8, 2), BOTH, Bytes(&[0xFF])], LINES_OF_FIVE),
    Case(
        &[Header(3, 8, 2), BOTH],
        Fault(ImageFault::Short { pixels: 16 }),
    ),
];

/// The header of the coded image, in two bodies.
const CODED_FRONT: Body = Bytes(&[
    0, 1, 0, 0, 0, 0, 0, 0, 1, 48, 0, 0, 16, 0, 0, 0, 0, 32, 0, 0,
]);

const CODED_BACK: Body = Bytes(&[
    0, 0, 0, 0, 0, 48, 1, 0, 9, 8, 0, 8, 0, 2, 1, 0x83, 0, 7, 0, 49, 8, 1,
]);

static TWO_BODIES: [Case; 2] = [
    Case(&[CODED_FRONT, CODED_BACK, FIRST, SECOND], LINES_OF_FIVE),
    // A faulty piece is named before it is told how few pixels there are.
    Case(
        &[CODED, Bytes(&[0x00])],
        Fault(ImageFault::Rice {
            piece: 0,
            fault: RiceFault::Ended { line: 0 },
        }),
    ),
];

static SIZES: [Case; 6] = [
    Case(&[Plain(0, 2, 1)], Fault(ImageFault::Depth { bits: 0 })),
    Case(&[Plain(17, 2, 1)], Fault(ImageFault::Depth { bits: 17 })),
    Case(&[Plain(8, 0, 1)], Fault(ImageFault::Empty)),
    Case(&[Plain(8, 1, 0)], Fault(ImageFault::Empty)),
    Case(
        &[Plain(8, 16_384, 16_384)],
        Fault(ImageFault::Short { pixels: 0 }),
    ),
    Case(
        &[Plain(8, 16_384, 16_385)],
        Fault(ImageFault::TooLarge {
            pixels: 268_451_840,
        }),
    ),
];

static BLOCKS: [Case; 4] = [
    Case(
        &[Header(2, 0, 1), FIRST],
        Fault(ImageFault::BlockSize { block: 0 }),
    ),
    Case(
        &[Header(2, 65, 1), FIRST],
        Fault(ImageFault::BlockSize { block: 65 }),
    ),
    Case(
        &[Header(2, 66, 1), FIRST],
        Fault(ImageFault::BlockSize { block: 66 }),
    ),
    // Lines of one block of 64, of which the last 56 are dropped.
    Case(
        &[Header(2, 64, 1), FIRST, FIRST],
        Picture(b"P5\n8 2\n255\n\x05\x05\x05\x05\x05\x05\x05\x05\x05\x05\x05\x05\x05\x05\x05\x05"),
    ),
];

/// A second key, which isn't zeros.
const LATER_KEY: Body = Bytes(&[
    0, 1, 0, 0, 0, 0, 0, 0, 1, 48, 0, 0, 16, 0, 0, 0, 0, 42, 0, 0, 0, 0, 0, 0, 0, 48, 1, 0, 9, 8,
    0, 8, 0, 2, 1, 0x83, 0, 7, 0, 49, 8, 1, 7, 0, 5, 0, 0, 7, 0, 5, 0, 1,
]);

static HIDDEN: [Case; 1] = [Case(&[LATER_KEY, FIRST, SECOND], Fault(ImageFault::Encrypted))];

#[test]
fn lines_may_end_inside_a_byte(rt: HostRuntime) -> Result<(), Fail> {
    hold(rt.alloc(), &INSIDE_A_BYTE)
}

#[test]
fn pixels_of_whole_bytes(rt: HostRuntime) -> Result<(), Fail> {
    hold(rt.alloc(), &WHOLE_BYTES)
}

#[test]
fn pixels_go_on_from_body_to_body(rt: HostRuntime) -> Result<(), Fail> {
    hold(rt.alloc(), &FROM_BODY_TO_BODY)
}

#[test]
fn the_last_piece_has_the_lines_that_are_left(rt: HostRuntime) -> Result<(), Fail> {
    hold(rt.alloc(), &LAST_PIECES)
}

#[test]
fn a_header_may_stand_in_two_bodies(rt: HostRuntime) -> Result<(), Fail> {
    hold(rt.alloc(), &TWO_BODIES)
}

#[test]
fn limits_of_depth_and_size(rt: HostRuntime) -> Result<(), Fail> {
    hold(rt.alloc(), &SIZES)
}

#[test]
fn limits_of_blocks(rt: HostRuntime) -> Result<(), Fail> {
    hold(rt.alloc(), &BLOCKS)
}

#[test]
fn a_later_key_hides_the_image(rt: HostRuntime) -> Result<(), Fail> {
    hold(rt.alloc(), &HIDDEN)
}
