//! `verify` and `extract` of a shelf that is there, and what a stop leaves.
use crate::steps::{FRAMES, HEADER_1000, Piece, READS_7, Step, hold};
use lr_trials_support::{
    BAD_CHECKSUM, BOTH_OK, DISK_FAILED, DONE, End, FILE_7, FILE_8, ITEM_7, ITEM_8, ITEM_8_FROM_0,
    NO_SHELF_AT_19, NO_THIRD_FILE, OUTPUT_FAILED,
};
use std::test::Fail;

/// A shelf of the files 7 and 8. The gates are at 19, 86 and 153.
const TWO_FILES: Step = Step::Shelf(&[ITEM_7, ITEM_8]);

const ONE_OK: &str = "file 0 ok\n";

/// One content byte of a record is changed.
static CHECKSUMS: [&[Step]; 3] = [
    &[TWO_FILES, Step::Call("verify", BOTH_OK, DONE)],
    &[
        TWO_FILES,
        Step::Byte(68, 0xA5),
        Step::Call(
            "verify",
            "file 0 bad stored 3B39 computed 5DAA\n\
             file 1 ok\n",
            BAD_CHECKSUM,
        ),
    ],
    &[
        TWO_FILES,
        Step::Byte(135, 0xA5),
        Step::Call(
            "verify",
            "file 0 ok\n\
             file 1 bad stored DE9E computed B80D\n",
            BAD_CHECKSUM,
        ),
    ],
];

/// A file after its transport header: two header records and eight zeros.
const PROPER: &str = "\0\0\x10\x02\0\0\0\x10\0\0\0\0\0\0\0\0";

/// The same, and a file is extracted.
static EXTRACTED: [&[Step]; 2] = [
    &[
        TWO_FILES,
        Step::Byte(135, 0xA5),
        Step::Call("extract 0", PROPER, DONE),
        Step::Call("extract 1", "", BAD_CHECKSUM),
    ],
    &[
        TWO_FILES,
        Step::Byte(68, 0xA5),
        Step::Call("extract 0", "", BAD_CHECKSUM),
        Step::Call("extract 1", PROPER, DONE),
        Step::Call("extract 2", "", NO_THIRD_FILE),
        Step::Call("extract 18446744073709551615", "", NO_THIRD_FILE),
    ],
];

const NO_SHELF_AT_0: End<'static> = End(6, "station: not a shelf at 0\n");

/// The header of a shelf with an open gate, and nothing after it.
const OPEN: &[u8] = b"\x5ALRSHELF\x02\x00\x00\x00\x00\x00\x00\x03\xE8\xE5\x04\x01";

/// All three commands find no shelf, and leave what is there.
static NO_SHELF: [&[Step]; 3] = [
    &[
        READS_7,
        Step::Call(FRAMES, "", NO_SHELF_AT_0),
        Step::Call("extract 0", "", NO_SHELF_AT_0),
        Step::Call("verify", "", NO_SHELF_AT_0),
        Step::HasBytes(&[]),
    ],
    &[
        Step::Disk(HEADER_1000),
        READS_7,
        Step::Call(FRAMES, "", NO_SHELF_AT_0),
        Step::Call("extract 0", "", NO_SHELF_AT_0),
        Step::Call("verify", "", NO_SHELF_AT_0),
        Step::HasBytes(HEADER_1000),
    ],
    &[
        Step::Disk(OPEN),
        READS_7,
        Step::Call(FRAMES, "", NO_SHELF_AT_19),
        Step::Call("extract 0", "", NO_SHELF_AT_19),
        Step::Call("verify", "", NO_SHELF_AT_19),
        Step::HasBytes(OPEN),
    ],
];

/// A stop in the write that opens the second gate left 7F there. The next file stands in the place of the second.
static STOPPED: [&[Step]; 1] = [&[
    TWO_FILES,
    Step::Byte(86, 0x7F),
    Step::Call("verify", ONE_OK, DONE),
    Step::Reads(&[Piece::Frame(FILE_8)]),
    Step::Call(
        FRAMES,
        "shelved 1 vc 0 apid 100 counter 8 bytes 26 packets 1\n\
         symbols 892 frames 1 restored 1 lost 0 packets 1 files 1 left 0 stop end\n",
        DONE,
    ),
    Step::HasItems(&[ITEM_7, ITEM_8_FROM_0]),
]];

const READS_BOTH: Step = Step::Reads(&[Piece::Frame(FILE_7), Piece::Frame(FILE_8)]);

/// Over a disk that allows no call; and over the empty shelf on one that allows some calls, what is then on it being
/// verified.
static DISK_FAILS: [&[Step]; 4] = [
    &[
        TWO_FILES,
        Step::Allows(0),
        Step::Call("init 100", "", DISK_FAILED),
        Step::Call("extract 0", "", DISK_FAILED),
        Step::Call("verify", "", DISK_FAILED),
    ],
    &[
        Step::Shelf(&[]),
        Step::Allows(3),
        READS_BOTH,
        Step::Call(FRAMES, "", DISK_FAILED),
        Step::Allows(1_000),
        Step::Call("verify", "", DONE),
    ],
    &[
        Step::Shelf(&[]),
        Step::Allows(5),
        READS_BOTH,
        Step::Call(FRAMES, "", DISK_FAILED),
        Step::Allows(1_000),
        Step::Call("verify", "", DONE),
    ],
    &[
        Step::Shelf(&[]),
        Step::Allows(9),
        READS_BOTH,
        Step::Call(
            FRAMES,
            "shelved 0 vc 0 apid 100 counter 7 bytes 26 packets 1\n",
            DISK_FAILED,
        ),
        Step::Allows(1_000),
        Step::Call("verify", ONE_OK, DONE),
    ],
];

/// The output fails in the second line.
static OUTPUT_FAILS: [&[Step]; 1] = [&[
    TWO_FILES,
    Step::OutFails(15),
    Step::Call("verify", "file 0 ok\nfile ", OUTPUT_FAILED),
]];

#[test]
fn each_checksum_has_its_line(rt: HostRuntime) -> Result<(), Fail> {
    hold(rt.alloc(), &CHECKSUMS)
}

#[test]
fn a_sound_file_is_extracted(rt: HostRuntime) -> Result<(), Fail> {
    hold(rt.alloc(), &EXTRACTED)
}

#[test]
fn without_a_shelf_nothing_is_done(rt: HostRuntime) -> Result<(), Fail> {
    hold(rt.alloc(), &NO_SHELF)
}

#[test]
fn a_stop_within_a_gate_leaves_its_file_out(rt: HostRuntime) -> Result<(), Fail> {
    hold(rt.alloc(), &STOPPED)
}

#[test]
fn a_disk_that_fails_ends_the_call(rt: HostRuntime) -> Result<(), Fail> {
    hold(rt.alloc(), &DISK_FAILS)
}

#[test]
fn a_checked_file_has_its_line_or_a_front_of_it(rt: HostRuntime) -> Result<(), Fail> {
    hold(rt.alloc(), &OUTPUT_FAILS)
}
