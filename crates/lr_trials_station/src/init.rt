//! `init` makes an empty shelf once.
use crate::steps::{Step, hold};
use lr_trials_support::{DONE, End, ITEM_7, ITEM_8, OUTPUT_FAILED};
use std::test::Fail;

/// The header of the capacity 100, with a closed gate.
const HEADER_100: &[u8] = b"\x5ALRSHELF\x02\x00\x00\x00\x00\x00\x00\x00\x64\xE0\x53\x00";

/// What a stopped `init` may have left of it.
const FRONT_100: &[u8] = b"\x5ALRSHELF\x02\x00\x00\x00\x00\x00\x00\x00\x64\xE0\x53";

/// The shelf is made, and a second call finds it and leaves it as it is.
const MADE: Step = Step::Call("init 100", "shelf capacity 100\n", DONE);

const REFUSED: Step = Step::Call("init 100", "", End(11, "station: not empty, length 20\n"));

static MADE_ONCE: [&[Step]; 4] = [
    &[
        MADE,
        Step::HasBytes(HEADER_100),
        REFUSED,
        Step::HasBytes(HEADER_100),
    ],
    &[
        Step::Call("init 00000000000000000100", "shelf capacity 100\n", DONE),
        Step::HasBytes(HEADER_100),
        Step::Call(
            "init 00000000000000000100",
            "",
            End(11, "station: not empty, length 20\n"),
        ),
        Step::HasBytes(HEADER_100),
    ],
    &[
        Step::Disk(&[0xFF; 20]),
        MADE,
        Step::HasBytes(HEADER_100),
        REFUSED,
        Step::HasBytes(HEADER_100),
    ],
    &[
        Step::Disk(FRONT_100),
        MADE,
        Step::HasBytes(HEADER_100),
        REFUSED,
        Step::HasBytes(HEADER_100),
    ],
];

/// Two files are there.
const NOT_EMPTY: Step = Step::Call("init 100", "", End(11, "station: not empty, length 154\n"));

/// The second gate has these bytes.
static OTHERS: [&[Step]; 2] = [
    &[
        Step::Shelf(&[ITEM_7, ITEM_8]),
        Step::Byte(86, 1),
        NOT_EMPTY,
        Step::HasTheSame,
    ],
    &[
        Step::Shelf(&[ITEM_7, ITEM_8]),
        Step::Byte(86, 0x7F),
        NOT_EMPTY,
        Step::HasTheSame,
    ],
];

/// The output takes nothing, and the shelf is made all the same.
static OUTPUT_FAILS: [&[Step]; 1] = [&[
    Step::OutFails(0),
    Step::Call("init 100", "", OUTPUT_FAILED),
    Step::HasBytes(HEADER_100),
]];

#[test]
fn an_empty_shelf_is_made_once(rt: HostRuntime) -> Result<(), Fail> {
    hold(rt.alloc(), &MADE_ONCE)
}

#[test]
fn other_disks_are_left(rt: HostRuntime) -> Result<(), Fail> {
    hold(rt.alloc(), &OTHERS)
}

#[test]
fn a_line_that_fails_leaves_the_shelf(rt: HostRuntime) -> Result<(), Fail> {
    hold(rt.alloc(), &OUTPUT_FAILS)
}
