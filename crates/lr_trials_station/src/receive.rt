//! `receive --input frames` puts files onto a shelf.
use crate::steps::{FRAMES, MADE, Piece, READS_7, RECEIVES_7, Step, hold, hold_in};
use lr_trials_support::{
    DONE, End, FILE_7, FILE_8, ITEM_7, ITEM_8, OUTPUT_FAILED, RECEIVED_BOTH, RECEIVED_ONE,
    SOURCE_FAILED,
};
use std::test::Fail;

const NOTHING: Step = Step::Call(
    FRAMES,
    "symbols 0 frames 0 restored 0 lost 0 packets 0 files 0 left 0 stop end\n",
    DONE,
);

const READS_BOTH: Step = Step::Reads(&[Piece::Frame(FILE_7), Piece::Frame(FILE_8)]);

const RECEIVES_BOTH: Step = Step::Call(FRAMES, RECEIVED_BOTH, DONE);

/// A packet of nine bytes, and an idle one.
const DIGITS: &[u8] = b"\x40\x40\x00\x00\x00\x00\x00\x00\
\x00\x64\xC0\x00\x00\x0A123456789\x29\xB1\x07\xFF\xC0\x00\x03\x5C";

static NINE_BYTES: [&[Step]; 1] = [&[
    MADE,
    Step::Reads(&[Piece::Frame(DIGITS)]),
    Step::Call(
        FRAMES,
        "symbols 892 frames 1 restored 1 lost 0 packets 1 files 0 left 0 stop end\n",
        DONE,
    ),
]];

/// Nothing is read, and the frames of one file and of two; and the frame of one file, and eight bytes more.
static CUT: [&[Step]; 4] = [
    &[MADE, NOTHING],
    &[MADE, READS_7, RECEIVES_7],
    &[MADE, READS_BOTH, RECEIVES_BOTH],
    &[
        MADE,
        Step::Reads(&[Piece::Frame(FILE_7), Piece::Same(8, 0x40)]),
        Step::Call(
            FRAMES,
            "shelved 0 vc 0 apid 100 counter 7 bytes 26 packets 1\n\
             symbols 900 frames 1 restored 1 lost 0 packets 1 files 1 left 8 stop end\n",
            DONE,
        ),
    ],
];

/// Three packets of a file, the third with a wrong checksum.
const DAMAGED: &[u8] = b"\x40\x40\x00\x00\x00\x00\x00\x00\
\x00\x64\x40\x00\x00\x0B\x00\x09\x00\x00\x00\x00\x00\x00\x00\x10\x31\xD4\
\x00\x64\x00\x01\x00\x03\x01\x02\x0E\x7C\
\x00\x64\x00\x02\x00\x03\x01\x02\x00\x00\x07\xFF\xC0\x00\x03\x47";

/// The last packet of that file, and then a file of two packets.
const WHOLE: &[u8] = b"\x40\x40\x00\x00\x01\x00\x00\x00\
\x00\x64\x80\x03\x00\x03\x01\x02\x0E\x7C\
\x00\x64\x40\x04\x00\x0B\x00\x09\x00\x00\x00\x00\x00\x00\x00\x10\x31\xD4\
\x00\x64\x80\x05\x00\x03\x01\x02\x0E\x7C\x07\xFF\xC0\x00\x03\x47";

static AFTER_DAMAGE: [&[Step]; 1] = [&[
    MADE,
    Step::Reads(&[Piece::Frame(DAMAGED), Piece::Frame(WHOLE)]),
    Step::Call(
        FRAMES,
        "shelved 0 vc 0 apid 100 counter 9 bytes 12 packets 2\n\
         symbols 1784 frames 2 restored 2 lost 0 packets 5 files 1 left 0 stop end\n",
        DONE,
    ),
]];

/// Both files are received onto an empty shelf, and its bytes are then those. A source without bytes leaves them as
/// they are.
static ON_THE_SHELF: [&[Step]; 2] = [
    &[
        MADE,
        READS_BOTH,
        RECEIVES_BOTH,
        Step::HasItems(&[ITEM_7, ITEM_8]),
    ],
    &[
        Step::Shelf(&[ITEM_7, ITEM_8]),
        NOTHING,
        Step::HasItems(&[ITEM_7, ITEM_8]),
    ],
];

/// One file fits exactly on a shelf of the capacity 87. One byte less is too few: nothing is printed, and the shelf
/// stays as it is.
static FULL: [&[Step]; 2] = [
    &[
        Step::Call("init 87", "shelf capacity 87\n", DONE),
        READS_7,
        RECEIVES_7,
        Step::HasLength(87),
    ],
    &[
        Step::Call("init 86", "shelf capacity 86\n", DONE),
        READS_7,
        Step::Call(FRAMES, "", End(10, "station: capacity: needs 87 of 86\n")),
        Step::HasTheSame,
    ],
];

const STANDS: Step = Step::Call("verify", "file 0 ok\n", DONE);

/// The source fails after the frame of the first file, and the file is on the shelf.
static BEFORE_A_FAULT: [&[Step]; 2] = [
    &[
        MADE,
        READS_BOTH,
        Step::SourceFails(892),
        Step::Call(FRAMES, RECEIVED_ONE, SOURCE_FAILED),
        STANDS,
    ],
    &[
        MADE,
        READS_BOTH,
        Step::SourceFails(900),
        Step::Call(
            FRAMES,
            "shelved 0 vc 0 apid 100 counter 7 bytes 26 packets 1\n\
             symbols 900 frames 1 restored 1 lost 0 packets 1 files 1 left 8 stop fault\n",
            SOURCE_FAILED,
        ),
        STANDS,
    ],
];

/// The output fails in the line of the file, which then stands on the shelf without its line.
static WITHOUT_A_LINE: [&[Step]; 1] = [&[
    MADE,
    READS_7,
    Step::OutHas(10),
    Step::Call(FRAMES, "shelved 0 ", OUTPUT_FAILED),
    STANDS,
]];

#[test]
fn nine_bytes_are_no_file(rt: HostRuntime) -> Result<(), Fail> {
    hold(rt.alloc(), &NINE_BYTES)
}

#[test]
fn each_file_has_its_line_however_the_reads_are_cut(rt: HostRuntime) -> Result<(), Fail> {
    hold_in(rt.alloc(), &[1, 892, 893], &CUT)
}

#[test]
fn a_wrong_checksum_ends_its_file_alone(rt: HostRuntime) -> Result<(), Fail> {
    hold(rt.alloc(), &AFTER_DAMAGE)
}

#[test]
fn the_files_stand_on_the_shelf(rt: HostRuntime) -> Result<(), Fail> {
    hold(rt.alloc(), &ON_THE_SHELF)
}

#[test]
fn a_full_shelf_refuses_the_file(rt: HostRuntime) -> Result<(), Fail> {
    hold(rt.alloc(), &FULL)
}

#[test]
fn a_source_that_fails_leaves_the_files_before_it(rt: HostRuntime) -> Result<(), Fail> {
    hold(rt.alloc(), &BEFORE_A_FAULT)
}

#[test]
fn a_line_that_fails_takes_no_file_back(rt: HostRuntime) -> Result<(), Fail> {
    hold(rt.alloc(), &WITHOUT_A_LINE)
}
