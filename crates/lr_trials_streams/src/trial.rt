//! `trial`, and the shelf that it leaves.
use crate::made::ALL;
use lr_disk::MemDisk;
use lr_trials_station::call::{called, written_on};
use lr_trials_station::steps::{Piece, Step, hold, hold_in, hold_on};
use lr_trials_support::{
    ALL_FRAMES, Call, DISK_FAILED, DONE, End, NEVER, OUTPUT_FAILED, USAGE, disk, faultless,
    is_number, is_text,
};
use std::alloc::Global;
use std::test::Fail;

// 512 frames of channel 0 have 452,608 bytes of packets: 97 files of 4,651, the next one's first packet of 43, and 19
// of 72 after it. 256 frames of channel 5 have 226,304: 923 packets of 245. So 6,305 + 20 + 923 packets, and 97 +
// 923 files.
const LONG_LINE: &str =
    "symbols 16777216 frames 1024 restored 1024 lost 0 packets 7248 files 1020 left 0 stop end\n";

// The contents of the shelf with those 63 files: 20 bytes of the empty shelf, and for each file a gate of one byte, an
// item of 38 bytes, two for each packet, and its own bytes. 57 texts of 237 bytes in one packet are 278 each, 15,846
// together; 6 images of 4,131 bytes in 65 packets are 4,300 each, 25,800 together.
const SHELF: usize = 41_666;

// The same with 923 texts and 97 images: 20 + 256,594 + 417,100.
const LONG_SHELF: usize = 673_714;

// The text of the first file, after the ten bytes of its transport header.
const TEXT: u64 = 227;

/// A trial on an empty disk prints its line alone.
const TRIED: Step = Step::Call("trial 1 64 0", ALL_FRAMES, DONE);

/// The disk that these steps leave of an empty one.
fn disk_after(alloc: Global, steps: &[Step]) -> Result<MemDisk, Fail> {
    hold_on(alloc, disk(alloc, &[], 10_000)?, steps, 0)
}

/// The disk that a trial leaves.
pub(crate) fn tried_disk(alloc: Global) -> Result<MemDisk, Fail> {
    disk_after(alloc, &[TRIED])
}

/// The same stream is received onto a new shelf.
static RECEIVED: [Step; 3] = [
    Step::Call("init 1048576", "shelf capacity 1048576\n", DONE),
    Step::Reads(&[Piece::Written("make 1 64 0", ALL)]),
    Step::CallEnding("receive", ALL_FRAMES, DONE),
];

/// Each trial leaves a shelf of its length.
static LEFT: [&[Step]; 2] = [
    &[TRIED, Step::HasLength(SHELF)],
    &[
        Step::Call("trial 1 64 16", ALL_FRAMES, DONE),
        Step::HasLength(SHELF),
    ],
];

static LONGEST: [&[Step]; 1] = [&[
    Step::Call("trial 1 1024 0", LONG_LINE, DONE),
    Step::HasLength(LONG_SHELF),
]];

#[test]
fn the_last_line_alone_is_printed(rt: HostRuntime) -> Result<(), Fail> {
    hold(rt.alloc(), &LEFT)
}

#[test]
fn the_most_frames_are_tried(rt: HostRuntime) -> Result<(), Fail> {
    hold(rt.alloc(), &LONGEST)
}

/// Whether both disks have the same bytes, and the same text of the right length as their first file.
fn are_alike(alloc: Global, disk: &mut MemDisk, other: &mut MemDisk) -> Result<bool, Fail> {
    is_text("the disk", disk.as_slice(), other.as_slice())?;
    let text = written_on(alloc, disk, "extract 0", 500)?;
    let other_text = written_on(alloc, other, "extract 0", 500)?;
    Ok(
        is_number("the length of the text", text.len() as u64, TEXT)?
            && is_text("the text", &text, &other_text)?,
    )
}

#[test]
fn the_shelf_is_the_one_of_init_and_receive(rt: HostRuntime) -> Result<(), Fail> {
    let alloc = rt.alloc();
    let mut received = disk_after(alloc, &RECEIVED)?;
    assert!(rt; are_alike(alloc, &mut tried_disk(alloc)?, &mut received)?);
    Ok(())
}

static SECOND: [&[Step]; 1] = [&[
    TRIED,
    Step::HasLength(SHELF),
    Step::Call(
        "trial 1 64 0",
        "",
        End(11, "station: not empty, length 41666\n"),
    ),
    Step::HasLength(SHELF),
]];

#[test]
fn a_second_trial_is_refused(rt: HostRuntime) -> Result<(), Fail> {
    hold(rt.alloc(), &SECOND)
}

static OTHERS: [&[Step]; 1] = [&[
    Step::Allows(0),
    Step::Call("trial 1 1025 0", "", USAGE),
    Step::Call("trial 1 0 0", "", USAGE),
    Step::Call("trial 1 64 17", "", USAGE),
    Step::Call("trial 1 64", "", USAGE),
    Step::Call("trial 1 64 0 --output symbols", "", USAGE),
]];

#[test]
fn other_trials_are_refused(rt: HostRuntime) -> Result<(), Fail> {
    hold(rt.alloc(), &OTHERS)
}

/// Whether this trial prints that and ends so, and leaves the disk of any trial.
fn leaves_the_same(alloc: Global, call: &Call<'_>, out: &str, end: End<'_>) -> Result<bool, Fail> {
    let mut left = disk(alloc, &[], 10_000)?;
    let name = format!(in alloc; "a source that fails at {}", call.source_fails)?;
    called(alloc, &mut left, call)?.ended_so(&name, out.as_bytes(), end)?;
    is_text(
        name.as_str(),
        left.as_slice(),
        tried_disk(alloc)?.as_slice(),
    )
}

#[test]
fn a_line_that_fails_leaves_the_whole_shelf(rt: HostRuntime) -> Result<(), Fail> {
    let call = Call {
        out_room: 8,
        ..faultless("trial 1 64 0", &[], 1)
    };
    assert!(rt; leaves_the_same(rt.alloc(), &call, "symbols ", OUTPUT_FAILED)?);
    Ok(())
}

static DISK_FAILS: [&[Step]; 1] = [&[Step::Allows(0), Step::Call("trial 1 64 0", "", DISK_FAILED)]];

#[test]
fn a_disk_that_fails_ends_the_trial(rt: HostRuntime) -> Result<(), Fail> {
    hold_in(rt.alloc(), &[4_096], &DISK_FAILS)
}

#[test]
fn the_source_is_not_read(rt: HostRuntime) -> Result<(), Fail> {
    for source_fails in [NEVER, 0] {
        let call = Call {
            source_fails,
            ..faultless("trial 1 64 0", &[7; 892], 1)
        };
        leaves_the_same(rt.alloc(), &call, ALL_FRAMES, DONE)?;
    }
    Ok(())
}
