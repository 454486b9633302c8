//! Bytes that are changed, and Discards that don't fit.
use crate::tables::{Answer, Case, Start, Step, Which, hold};
use std::test::Fail;

/// Another checksum stands at the first record than is right.
const DAMAGED: Answer = Answer::Crc(0x719C, 0xB0E8);

static CHANGED: [Case; 2] = [
    // A content byte of the first record is changed.
    Case(
        Start::Two(65, 0x47),
        Answer::Done,
        &[
            Step::Check(0, DAMAGED),
            Step::Get(0, DAMAGED),
            Step::Holds(1, Which::Second),
        ],
    ),
    // The length of the first record's body is changed, so that the lengths don't add up.
    Case(
        Start::Two(57, 27),
        Answer::Done,
        &[
            Step::Check(0, Answer::NoShelf(19)),
            Step::Get(0, Answer::NoShelf(19)),
            Step::Check(1, Answer::Done),
        ],
    ),
];

/// A file is added to a damaged shelf, and the damaged one is discarded. After that the others are there, and no byte
/// before the last gate was changed.
static GOES_ON: [Case; 1] = [Case(
    Start::Two(65, 0x47),
    Answer::Done,
    &[
        Step::Append(Which::First, Answer::Number(2)),
        Step::Check(0, DAMAGED),
        Step::Get(0, DAMAGED),
        Step::Discard(0, Answer::Done),
        Step::Check(0, Answer::Gone),
        Step::At(3, 217, 1000),
        Step::Holds(1, Which::Second),
        Step::Holds(2, Which::First),
        Step::Begins(137),
    ],
)];

static DISCARDS: [Case; 3] = [
    Case(
        Start::Opened(&[0x81, 0, 0, 0, 0, 0, 0, 0, 2, 0x6C, 0xA1, 0]),
        Answer::NoShelf(137),
        &[],
    ),
    // The same file is discarded twice.
    Case(
        Start::Opened(&[
            0x81, 0, 0, 0, 0, 0, 0, 0, 0, 0x4C, 0xE3, 1, 0x81, 0, 0, 0, 0, 0, 0, 0, 0, 0x4C, 0xE3,
            0,
        ]),
        Answer::NoShelf(149),
        &[],
    ),
    // Both files are discarded, and one is added.
    Case(
        Start::Opened(&[
            0x81, 0, 0, 0, 0, 0, 0, 0, 1, 0x5C, 0xC2, 1, 0x81, 0, 0, 0, 0, 0, 0, 0, 0, 0x4C, 0xE3,
            0,
        ]),
        Answer::Done,
        &[
            Step::At(2, 162, 1000),
            Step::Get(0, Answer::Gone),
            Step::Get(1, Answer::Gone),
            Step::Append(Which::Second, Answer::Number(2)),
        ],
    ),
];

static NO_ITEMS: [Case; 4] = [
    Case(
        Start::Opened(&[0x81, 0, 0, 0, 0, 0, 0, 0, 0, 0x4C, 0xE2, 0]),
        Answer::NoShelf(137),
        &[],
    ),
    Case(
        Start::Opened(&[0x81, 0, 0, 0, 0, 0, 0, 0, 0, 0x4C, 0xE3]),
        Answer::NoShelf(137),
        &[],
    ),
    Case(Start::Opened(&[0x82; 80]), Answer::NoShelf(137), &[]),
    // The head of an Add item of the most bytes.
    Case(
        Start::Opened(&[0x80, 63, 7, 0xFE, 0, 0, 0, 1, 4, 0, 0, 0]),
        Answer::NoShelf(137),
        &[],
    ),
];

/// What follows a closed gate is no part of the shelf.
static LONGER: [Case; 1] = [Case(
    Start::Longer(&[1; 300]),
    Answer::Done,
    &[
        Step::At(2, 138, 1000),
        Step::Check(0, Answer::Done),
        Step::Check(1, Answer::Done),
        Step::Get(2, Answer::Past(2)),
        Step::Holds(0, Which::First),
        Step::Holds(1, Which::Second),
        Step::Append(Which::First, Answer::Number(2)),
        Step::Load,
        Step::At(3, 205, 1000),
        Step::Check(2, Answer::Done),
    ],
)];

static NO_HEADERS: [Case; 2] = [
    Case(Start::Bytes(&[]), Answer::NoShelf(0), &[]),
    Case(Start::Bytes(&[0x5A; 40]), Answer::NoShelf(0), &[]),
];

#[test]
fn a_changed_byte_is_told(rt: HostRuntime) -> Result<(), Fail> {
    hold(rt.alloc(), &CHANGED)
}

#[test]
fn a_damaged_record_stays_and_items_are_added(rt: HostRuntime) -> Result<(), Fail> {
    hold(rt.alloc(), &GOES_ON)
}

#[test]
fn a_discard_names_a_file_that_is_there(rt: HostRuntime) -> Result<(), Fail> {
    hold(rt.alloc(), &DISCARDS)
}

#[test]
fn an_item_that_is_none_is_named_by_its_gate(rt: HostRuntime) -> Result<(), Fail> {
    hold(rt.alloc(), &NO_ITEMS)
}

#[test]
fn what_follows_the_last_gate_is_no_part(rt: HostRuntime) -> Result<(), Fail> {
    hold(rt.alloc(), &LONGER)
}

#[test]
fn what_has_no_header_is_no_shelf(rt: HostRuntime) -> Result<(), Fail> {
    hold(rt.alloc(), &NO_HEADERS)
}
