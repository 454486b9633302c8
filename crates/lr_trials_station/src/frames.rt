//! `frames` prints a line for each transfer frame.
use crate::steps::{Piece, Step, hold, hold_in};
use lr_trials_support::{DONE, OUTPUT_FAILED, SOURCE_FAILED, USAGE};
use std::test::Fail;

/// No call on the disk would succeed.
const NO_DISK: Step = Step::Allows(0);

/// A frame of zeros is there.
const READS_ZEROS: Step = Step::Reads(&[Piece::Same(892, 0)]);

static CUT: [&[Step]; 1] = [&[
    NO_DISK,
    Step::Reads(&[Piece::Same(893, 0x40)]),
    Step::Call(
        "frames",
        "frame 0 vc 0 counter 4210752 spacecraft 1 replay 0 pointer 64\n\
         frames 1 left 1 stop end\n",
        DONE,
    ),
    READS_ZEROS,
    Step::Call(
        "frames",
        "frame 0 version 0 refused\n\
         frames 1 left 0 stop end\n",
        DONE,
    ),
    Step::Reads(&[Piece::Same(892, 0x7F)]),
    Step::Call(
        "frames",
        "frame 0 vc 63 counter 8355711 spacecraft 253 replay 0 pointer 1919\n\
         frames 1 left 0 stop end\n",
        DONE,
    ),
    Step::Reads(&[]),
    Step::Call("frames", "frames 0 left 0 stop end\n", DONE),
]];

static SOURCE_FAILS: [&[Step]; 1] = [&[
    NO_DISK,
    Step::Reads(&[Piece::Same(893, 0x40)]),
    Step::SourceFails(400),
    Step::Call("frames", "frames 0 left 400 stop fault\n", SOURCE_FAILED),
]];

/// The output fails in one frame of zeros.
static FRONTS: [&[Step]; 1] = [&[
    NO_DISK,
    READS_ZEROS,
    Step::OutFails(8),
    Step::Call("frames", "frame 0 ", OUTPUT_FAILED),
    Step::OutHas(33),
    Step::Call(
        "frames",
        "frame 0 version 0 refused\nframes ",
        OUTPUT_FAILED,
    ),
]];

/// A frame is there, and the words are refused.
static WORDS: [&[Step]; 1] = [&[
    NO_DISK,
    READS_ZEROS,
    Step::Call("", "", USAGE),
    Step::Call("frame", "", USAGE),
    Step::Call("frames frames", "", USAGE),
    Step::Call("decode --input frames", "", USAGE),
    Step::Call("receive frames --input", "", USAGE),
]];

static NUMBERS: [&[Step]; 1] = [&[
    NO_DISK,
    READS_ZEROS,
    Step::Call("init", "", USAGE),
    Step::Call("init ", "", USAGE),
    Step::Call("init +100", "", USAGE),
    Step::Call("init 19", "", USAGE),
    Step::Call("init 1099511627777", "", USAGE),
    Step::Call("init 000000000000000000100", "", USAGE),
    Step::Call("extract 18446744073709551616", "", USAGE),
]];

#[test]
fn each_frame_has_its_line_however_the_reads_are_cut(rt: HostRuntime) -> Result<(), Fail> {
    hold_in(rt.alloc(), &[1, 892, 893], &CUT)
}

#[test]
fn a_source_that_fails_ends_the_input(rt: HostRuntime) -> Result<(), Fail> {
    hold_in(rt.alloc(), &[893], &SOURCE_FAILS)
}

#[test]
fn an_output_that_fails_got_a_front(rt: HostRuntime) -> Result<(), Fail> {
    hold(rt.alloc(), &FRONTS)
}

#[test]
fn other_words_are_refused(rt: HostRuntime) -> Result<(), Fail> {
    hold(rt.alloc(), &WORDS)
}

#[test]
fn other_numbers_are_refused(rt: HostRuntime) -> Result<(), Fail> {
    hold(rt.alloc(), &NUMBERS)
}
