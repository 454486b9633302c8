//! `make`, and what the other commands make of what it writes.
use lr_bits::FRAME_SYMBOLS;
use lr_disk::MemDisk;
use lr_trials_coding::streams::{bytes_of, leave_hits, silence};
use lr_trials_station::call::{called, written};
use lr_trials_station::steps::{Piece, Step, hold, hold_in, hold_on, input_of};
use lr_trials_support::{
    AFTER_SILENCE, ALL_FRAMES, DONE, End, OUTPUT_FAILED, SOURCE_FAILED, USAGE, disk, faultless,
};
use std::alloc::Global;
use std::test::Fail;

/// The symbols of 64 frames.
pub(crate) const ALL: usize = 64 * FRAME_SYMBOLS;

/// One frame of the test stream, as symbols.
const ONE_FRAME: Piece = Piece::Written("make 1 1 0", FRAME_SYMBOLS);

const FRAMES: Piece = Piece::Written("make 1 64 0", ALL);

/// 700 symbols of 0, and then 64 frames.
const AFTER_700: [Piece; 2] = [Piece::Same(700, 0), FRAMES];

/// A shelf of the capacity 65,536 is made.
pub(crate) const MADE: Step = Step::Call("init 65536", "shelf capacity 65536\n", DONE);

static EACH_FORM: [&[Step]; 1] = [&[
    Step::Allows(0),
    Step::Reads(&[ONE_FRAME]),
    Step::Call(
        "decode",
        "window 0 at 0 polarity + restored 0 0 0 0\n\
         symbols 16384 frames 1 restored 1 lost 0 left 0 stop end\n",
        DONE,
    ),
    Step::Reads(&[Piece::Written("make 1 1 16", FRAME_SYMBOLS)]),
    Step::Call(
        "decode",
        "window 0 at 0 polarity + restored 16 16 16 16\n\
         symbols 16384 frames 1 restored 1 lost 0 left 0 stop end\n",
        DONE,
    ),
    Step::Reads(&[Piece::Written("make 1 1 3 --output blocks", 1_020)]),
    Step::Call(
        "decode --input blocks",
        "block 0 restored 3 3 3 3\n\
         symbols 1020 frames 1 restored 1 lost 0 left 0 stop end\n",
        DONE,
    ),
    Step::Reads(&[Piece::Written("make 1 1 3 --output frames", 892)]),
    Step::Call(
        "frames",
        "frame 0 vc 0 counter 0 spacecraft 7 replay 0 pointer 0\n\
         frames 1 left 0 stop end\n",
        DONE,
    ),
]];

/// A frame, one without its last symbol, and one with twelve symbols after it.
static ALL_SYMBOLS: [&[Step]; 3] = [
    &[
        MADE,
        Step::Reads(&[ONE_FRAME]),
        Step::CallEnding(
            "receive",
            "symbols 16384 frames 1 restored 1 lost 0 packets 12 files 0 left 0 stop end\n",
            DONE,
        ),
    ],
    &[
        MADE,
        Step::Reads(&[ONE_FRAME, Piece::Less(1)]),
        Step::CallEnding(
            "receive",
            "symbols 16383 frames 0 restored 0 lost 0 packets 0 files 0 left 0 stop end\n",
            DONE,
        ),
    ],
    &[
        MADE,
        Step::Reads(&[ONE_FRAME, Piece::Same(12, 0)]),
        Step::CallEnding(
            "receive",
            "symbols 16396 frames 1 restored 1 lost 0 packets 12 files 0 left 0 stop end\n",
            DONE,
        ),
    ],
];

static ANY_READS: [&[Step]; 1] = [&[
    MADE,
    Step::Reads(&AFTER_700),
    Step::CallEnding("receive", AFTER_SILENCE, DONE),
]];

static SIXTEEN_WRONG: [&[Step]; 1] = [&[
    MADE,
    Step::Reads(&[Piece::Written("make 1 64 16", ALL)]),
    Step::CallEnding("receive", ALL_FRAMES, DONE),
]];

/// The last lines of the list.
const LAST_LISTED: &str = "\
    file 62 vc 5 apid 200 counter 56 bytes 237 packets 1 declared 1816 real 1816 same type 2 frames 62 62 corrected 0\n\
    files 63 used 41666 capacity 65536\n";

/// The file with the image of 64 lines, and its header.
const IMAGE: &str = "\
    file 7 vc 0 apid 100 counter 0 bytes 4131 packets 65 declared 32968 real 32968 same type 0 frames 0 9 corrected 0\n\
    record 0 length 16 primary type 0 header 25 bits 32768\n\
    record 1 length 9 image bits 8 columns 64 lines 64 compression 0\n";

static LISTED: [&[Step]; 1] = [&[
    MADE,
    Step::Reads(&AFTER_700),
    Step::CallEnding("receive", AFTER_SILENCE, DONE),
    Step::CallEnding("list", LAST_LISTED, DONE),
    Step::Call("show 7", IMAGE, DONE),
    Step::Call("show 63", "", End(7, "station: no such file, count 63\n")),
]];

static FULL: [&[Step]; 2] = [
    &[
        Step::Call("init 41666", "shelf capacity 41666\n", DONE),
        Step::Reads(&AFTER_700),
        Step::CallEnding("receive", AFTER_SILENCE, DONE),
    ],
    &[
        Step::Call("init 41665", "shelf capacity 41665\n", DONE),
        Step::Reads(&AFTER_700),
        Step::CallEnding(
            "receive",
            "shelved 61 vc 5 apid 200 counter 55 bytes 237 packets 1\n",
            End(10, "station: capacity: needs 41666 of 41665\n"),
        ),
        Step::Call(
            "extract 62",
            "",
            End(7, "station: no such file, count 62\n"),
        ),
    ],
];

static SOURCE_FAILS: [&[Step]; 1] = [&[
    MADE,
    Step::Reads(&[FRAMES]),
    Step::SourceFails(131_072),
    Step::CallEnding(
        "receive",
        "symbols 131072 frames 8 restored 8 lost 0 packets 56 files 7 left 0 stop fault\n",
        SOURCE_FAILED,
    ),
    Step::Call("extract 7", "", End(7, "station: no such file, count 7\n")),
]];

static OUTPUT_FAILS: [&[Step]; 1] = [&[
    Step::Allows(0),
    Step::OutFails(0),
    Step::Call("make 1 1 0 --output frames", "", OUTPUT_FAILED),
]];

static OTHERS: [&[Step]; 1] = [&[
    Step::Allows(0),
    Step::Call("make 1 0 0", "", USAGE),
    Step::Call("make 1 65537 0", "", USAGE),
    Step::Call("make 1 1 17", "", USAGE),
    Step::Call("make 18446744073709551616 1 0", "", USAGE),
    Step::Call("make 1 1 0 --output files", "", USAGE),
    Step::Call("make 1 1 0 --input blocks", "", USAGE),
]];

/// An empty shelf of the capacity 65,536.
pub(crate) fn shelf(alloc: Global) -> Result<MemDisk, Fail> {
    hold_on(alloc, disk(alloc, &[], 10_000)?, &[MADE], 0)
}

/// Whether `receive` ends with this line.
fn receives(alloc: Global, case: &str, symbols: &[i8], last: &str) -> Result<bool, Fail> {
    let bytes = bytes_of(alloc, symbols)?;
    let call = faultless("receive", &bytes, 65_536);
    called(alloc, &mut shelf(alloc)?, &call)?.ended_with(case, last.as_bytes(), DONE)
}

/// The symbols of eight frames.
fn eight_frames(alloc: Global) -> Result<Vec<i8>, Fail> {
    let bytes = written(alloc, "make 1 8 0", 8 * FRAME_SYMBOLS)?;
    let mut symbols = Vec::new(alloc);
    for byte in &bytes {
        symbols.push(byte.cast_signed())?;
    }
    Ok(symbols)
}

const EIGHT: &str =
    "symbols 131072 frames 8 restored 8 lost 0 packets 56 files 7 left 0 stop end\n";

const SEVEN: &str =
    "symbols 131072 frames 7 restored 7 lost 0 packets 42 files 7 left 0 stop end\n";

#[test]
fn missed_markers_lose_nothing(rt: HostRuntime) -> Result<(), Fail> {
    let alloc = rt.alloc();
    let mut symbols = eight_frames(alloc)?;
    for number in 1..=3 {
        leave_hits(&mut symbols, number, 0);
    }
    assert!(rt; receives(alloc, "three markers are missed", &symbols, EIGHT)?);
    silence(&mut symbols, 4 * FRAME_SYMBOLS, FRAME_SYMBOLS);
    assert!(rt; receives(alloc, "a frame is silent too", &symbols, SEVEN)?);
    Ok(())
}

/// 700 symbols of 0, and then 64 frames.
pub(crate) fn after_silence(alloc: Global) -> Result<Vec<u8>, Fail> {
    input_of(alloc, &AFTER_700)
}

#[test]
fn one_frame_is_decoded_in_each_form(rt: HostRuntime) -> Result<(), Fail> {
    hold_in(rt.alloc(), &[4_096], &EACH_FORM)
}

#[test]
fn one_frame_needs_all_its_symbols(rt: HostRuntime) -> Result<(), Fail> {
    hold_in(rt.alloc(), &[65_536], &ALL_SYMBOLS)
}

#[test]
fn files_are_shelved_however_the_reads_are_cut(rt: HostRuntime) -> Result<(), Fail> {
    hold_in(rt.alloc(), &[1, 4_096, 65_536], &ANY_READS)?;
    hold_in(rt.alloc(), &[65_536], &SIXTEEN_WRONG)
}

#[test]
fn shelved_files_are_listed_and_shown(rt: HostRuntime) -> Result<(), Fail> {
    hold_in(rt.alloc(), &[65_536], &LISTED)
}

#[test]
fn all_files_fit_or_the_last_one_does_not(rt: HostRuntime) -> Result<(), Fail> {
    hold_in(rt.alloc(), &[4_096], &FULL)
}

#[test]
fn a_source_fails_after_eight_frames(rt: HostRuntime) -> Result<(), Fail> {
    hold_in(rt.alloc(), &[4_096], &SOURCE_FAILS)
}

#[test]
fn an_output_that_fails_got_a_front_of_the_stream(rt: HostRuntime) -> Result<(), Fail> {
    hold(rt.alloc(), &OUTPUT_FAILS)
}

#[test]
fn other_streams_are_refused(rt: HostRuntime) -> Result<(), Fail> {
    hold(rt.alloc(), &OTHERS)
}
