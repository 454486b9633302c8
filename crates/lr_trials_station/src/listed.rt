//! `list` and `show` of a shelf that is there.
use crate::steps::{MADE, READS_7, RECEIVES_7, Step, hold};
use lr_trials_support::{BAD_CHECKSUM, DONE, End, GONE, ITEM_7, ITEM_8};
use std::test::Fail;

const FILE_7: &str = "\
    file 0 vc 0 apid 100 counter 7 bytes 26 packets 1 declared 136 real 128 differs type 2 frames 0 0 corrected 0\n";

const SHELF_OF_ONE: &str = "\
    file 0 vc 0 apid 100 counter 7 bytes 26 packets 1 declared 136 real 128 differs type 2 frames 0 0 corrected 0\n\
    files 1 used 87 capacity 1000\n";

const SHOWN: Step = Step::Call(
    "show 0",
    "file 0 vc 0 apid 100 counter 7 bytes 26 packets 1 declared 136 real 128 differs type 2 frames 0 0 corrected 0\n\
     record 0 length 16 primary type 2 header 16 bits 0\n",
    DONE,
);

static EMPTY: [&[Step]; 1] = [&[
    Step::Call("init 100", "shelf capacity 100\n", DONE),
    Step::Call("list", "files 0 used 20 capacity 100\n", DONE),
    Step::Call("show 0", "", End(7, "station: no such file, count 0\n")),
]];

static RECEIVED: [&[Step]; 1] = [&[
    MADE,
    READS_7,
    RECEIVES_7,
    Step::Call("list", SHELF_OF_ONE, DONE),
    SHOWN,
]];

static WRONG_CHECKSUM: [&[Step]; 1] = [&[
    Step::Shelf(&[ITEM_7, ITEM_8]),
    Step::Byte(135, 0xA5),
    Step::Call("list", FILE_7, BAD_CHECKSUM),
    SHOWN,
    Step::Call("show 1", "", BAD_CHECKSUM),
]];

static DISCARDED: [&[Step]; 1] = [&[
    Step::Shelf(&[ITEM_7, ITEM_8]),
    Step::Call("discard 1", "discarded 1\n", DONE),
    Step::Call("show 1", "", GONE),
]];

#[test]
fn an_empty_shelf_has_a_last_line_alone(rt: HostRuntime) -> Result<(), Fail> {
    hold(rt.alloc(), &EMPTY)
}

#[test]
fn a_received_file_is_listed_and_shown(rt: HostRuntime) -> Result<(), Fail> {
    hold(rt.alloc(), &RECEIVED)
}

#[test]
fn a_wrong_checksum_ends_the_list_alone(rt: HostRuntime) -> Result<(), Fail> {
    hold(rt.alloc(), &WRONG_CHECKSUM)
}

#[test]
fn a_discarded_file_is_listed_and_not_shown(rt: HostRuntime) -> Result<(), Fail> {
    hold(rt.alloc(), &DISCARDED)
}
