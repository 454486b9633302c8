//! Coded lines, written as texts of 0 and 1, and what they give. What the texts stand for was worked out by hand from
//! the standard, and agrees with `reference/lines.py`.

use crate::bits::bytes_of;
use lr_bits::{NoMemory, Pixels};
use lr_rice::{RiceFault, decode_into, decode_lines};
use std::alloc::Global;
use std::test::Fail;

/// How lines are coded, and how many are read: the bits of a sample, the samples of a block, the columns and the lines.
#[derive(Clone, Copy)]
struct Shape(u32, u32, u32, u32);

/// What comes of a text.
#[derive(Clone, Copy, Debug)]
enum Wanted {
    Samples(&'static [u16]),
    /// This many samples, all of this value.
    All(usize, u16),
    Fault(RiceFault),
}

/// How lines are coded, a text, and what it gives.
struct Case(Shape, &'static str, Wanted);

/// The samples of coded lines; none where there are no lines of such a shape.
fn decoded_pixels(alloc: Global, shape: Shape, coded: &[u8]) -> Result<Pixels, RiceFault> {
    let Shape(bits, block, columns, lines) = shape;
    let mut pixels = Pixels::new(alloc);
    if bits >= 5
        && bits <= 16
        && block >= 2
        && block <= 64
        && block % 2 == 0
        && columns >= 1
        && columns <= 65_535
        && lines <= 65_535
        && coded.len() < 1 << 61
    {
        decode_lines(coded, bits, block, columns, lines, &mut pixels)?;
    }
    Ok(pixels)
}

/// The kind of a fault, and its line.
fn told(fault: RiceFault) -> (u8, u32) {
    match fault {
        RiceFault::Ended { line } => (0, line),
        RiceFault::OutOfRange { line } => (1, line),
        RiceFault::RunPastSegment { line } => (2, line),
        RiceFault::NoMemory => (3, 0),
    }
}

fn is_wanted(came: Result<&[u16], RiceFault>, wanted: Wanted) -> bool {
    match (came, wanted) {
        (Ok(pixels), Wanted::Samples(samples)) => *pixels == *samples,
        (Ok(pixels), Wanted::All(count, value)) => {
            pixels.len() == count && pixels.iter().all(|sample| *sample == value)
        }
        (Err(fault), Wanted::Fault(other)) => told(fault) == told(other),
        _ => false,
    }
}

/// That a text gives this.
fn gives(alloc: Global, shape: Shape, text: &str, wanted: Wanted) -> Result<(), Fail> {
    let coded = bytes_of(alloc, text)?;
    let outcome = decoded_pixels(alloc, shape, coded.as_slice());
    let came = match &outcome {
        Ok(pixels) => Ok(pixels.as_slice()),
        Err(fault) => Err(*fault),
    };
    if is_wanted(came, wanted) {
        return Ok(());
    }
    Err(Fail::new(format_args!("{text:?} gives {came:?}, and not {wanted:?}")))
}

/// That each text gives what it must.
fn hold(alloc: Global, cases: &[Case]) -> Result<(), Fail> {
    for Case(shape, text, wanted) in cases {
        gives(alloc, *shape, text, *wanted)?;
    }
    Ok(())
}

/// One line of one block of 8 samples of 8 bits.
const LINE: Shape = Shape(8, 8, 8, 1);

const ENDED: Wanted = Wanted::Fault(RiceFault::Ended { line: 0 });

const RANGE: Wanted = Wanted::Fault(RiceFault::OutOfRange { line: 0 });

const PAST: Wanted = Wanted::Fault(RiceFault::RunPastSegment { line: 0 });

const UNEVEN: Wanted = Wanted::Samples(&[5, 6, 4, 5, 5, 5, 5, 5]);

static OPTIONS: [Case; 5] = [
    Case(LINE, "0000 00000101 1", Wanted::Samples(&[5; 8])),
    Case(LINE, "001 00000101 001 0001 001 1 1 1 1", UNEVEN),
    Case(LINE, "010 00000101 01 01 01 1 1 1 1 0 1 0 0 0 0 0", UNEVEN),
    Case(
        LINE,
        "0001 00000101 000001 000000001 1 1",
        Wanted::Samples(&[5, 6, 5, 6, 6, 6, 6, 6]),
    ),
    Case(
        LINE,
        "111 00000101 00000010 00000011 00000010 00000000 00000000 00000000 00000000",
        UNEVEN,
    ),
];

static EARLY_ENDS: [Case; 8] = [
    // The identifier, its fourth bit, the reference.
    Case(LINE, "", ENDED),
    Case(Shape(16, 8, 8, 1), "0001 0000", ENDED),
    Case(LINE, "00100000", ENDED),
    // A sequence, the low bits, a number, the sequence of a pair, and that of a run.
    Case(LINE, "001 00000101 1 01 00", ENDED),
    Case(LINE, "011 00000101 1 1 1 1 1 1 1 00 00 00", ENDED),
    Case(LINE, "111 00000101 00000", ENDED),
    Case(LINE, "0001 00000101 1 1 1 0", ENDED),
    Case(LINE, "0000 00000101 0000", ENDED),
];

/// The bytes 00; 00 04; 00 00 80; and 20, 32 bytes of 00, 10, whose first sequence is one too long.
static SHORT_STRINGS: [Case; 4] = [
    Case(LINE, "00000000", ENDED),
    Case(LINE, "00000000 00000100", PAST),
    Case(LINE, "00000000 00000000 10000000", Wanted::All(8, 0)),
    Case(LINE, "001 00000000 z256 1 0000", RANGE),
];

/// Two blocks: the first has the sixteen bits, and the second one's identifier has three bits and no fourth one.
const TWO_BLOCKS: Shape = Shape(8, 2, 4, 1);

static IDENTIFIERS: [Case; 3] = [
    Case(TWO_BLOCKS, "0010 0000101 01 000", ENDED),
    Case(TWO_BLOCKS, "001 00000101 01 000", ENDED),
    Case(
        TWO_BLOCKS,
        "001 00000101 01 0000 1",
        Wanted::Samples(&[5, 4, 4, 4]),
    ),
];

const ONE_BLOCK: Shape = Shape(5, 2, 2, 1);

static VALUES: [Case; 6] = [
    // A sequence of 31 is a value, and one of 32 isn't.
    Case(ONE_BLOCK, "001 00000 z32 1", RANGE),
    Case(ONE_BLOCK, "001 00000 z31 1", Wanted::Samples(&[0, 31])),
    // Split by one bit: 15 and 1 are 31; 16 is too great, but only once its low bit is there.
    Case(ONE_BLOCK, "010 00000 z15 1 1", Wanted::Samples(&[0, 31])),
    Case(ONE_BLOCK, "010 00000 z16 1 0", RANGE),
    Case(ONE_BLOCK, "010 00000 z31 1", ENDED),
    // The first value is too great, and the second one's low bits aren't there.
    Case(Shape(5, 4, 4, 1), "010 00000 1 z16 1 1 1 0", RANGE),
];

const TWO_PAIRS: Shape = Shape(5, 4, 4, 1);

/// The pairs (32, 0) and (0, 32) have the numbers 528 and 560. The first value of a line's first pair isn't tested.
static PAIRS: [Case; 4] = [
    Case(
        TWO_PAIRS,
        "0001 00011 z528 1 1",
        Wanted::Samples(&[3, 3, 3, 3]),
    ),
    Case(TWO_PAIRS, "0001 00011 z560 1 1", RANGE),
    Case(TWO_PAIRS, "0001 00011 1 z528 1", RANGE),
    Case(TWO_PAIRS, "0001 00011 1 z560 1", RANGE),
];

/// Seventy blocks of two: a segment of 64 and one of 6.
const TWO_SEGMENTS: Shape = Shape(8, 2, 140, 1);

static RUNS: [Case; 9] = [
    Case(
        TWO_SEGMENTS,
        "0000 00000111 00001 0000 00001",
        Wanted::All(140, 7),
    ),
    Case(
        TWO_SEGMENTS,
        "0000 00000111 z64 1 0000 0000001",
        Wanted::All(140, 7),
    ),
    Case(TWO_SEGMENTS, "0000 00000111 00001 0000 00000001", PAST),
    Case(TWO_SEGMENTS, "0000 00000111 z65 1", PAST),
    // One block is left: a run of one, or to the end of the segment.
    Case(LINE, "0000 00000111 00001", Wanted::All(8, 7)),
    Case(LINE, "0000 00000111 01", PAST),
    Case(LINE, "0000 00000111 0001", PAST),
    // Three blocks are left after the first.
    Case(
        Shape(8, 2, 8, 1),
        "001 00000111 1 0000 001",
        Wanted::All(8, 7),
    ),
    Case(Shape(8, 2, 8, 1), "001 00000111 1 0000 0001", PAST),
];

const FIVE_COLUMNS: Shape = Shape(5, 8, 5, 2);

static PAST_THE_COLUMNS: [Case; 4] = [
    Case(
        FIVE_COLUMNS,
        "0000 00110 1 0000 00110 1",
        Wanted::All(10, 6),
    ),
    Case(
        FIVE_COLUMNS,
        "001 00110 1 1 1 1 1 001 1 0000 00110 1",
        Wanted::All(10, 6),
    ),
    Case(FIVE_COLUMNS, "001 00110 1 1 1 1 1 1 z32 1", RANGE),
    Case(FIVE_COLUMNS, "001 00110 1 1 1 1 1 1", ENDED),
];

const TWO_LINES: &str = "0000 00000101 1 0000 00001001 1";

static LINES_OF_FAULTS: [Case; 4] = [
    Case(
        Shape(8, 8, 8, 3),
        TWO_LINES,
        Wanted::Fault(RiceFault::Ended { line: 2 }),
    ),
    Case(
        Shape(8, 8, 8, 3),
        "0000 00000101 1 0000 00001001 01",
        Wanted::Fault(RiceFault::RunPastSegment { line: 1 }),
    ),
    Case(Shape(8, 8, 2, 2), TWO_LINES, Wanted::Samples(&[5, 5, 9, 9])),
    Case(Shape(8, 8, 2, 0), "", Wanted::Samples(&[])),
];

#[test]
fn each_option_gives_its_samples(rt: HostRuntime) -> Result<(), Fail> {
    hold(rt.alloc(), &OPTIONS)
}

#[test]
fn what_ends_too_early_is_named(rt: HostRuntime) -> Result<(), Fail> {
    hold(rt.alloc(), &EARLY_ENDS)
}

#[test]
fn short_strings_have_their_faults(rt: HostRuntime) -> Result<(), Fail> {
    hold(rt.alloc(), &SHORT_STRINGS)
}

#[test]
fn an_identifier_may_end_in_its_last_bit(rt: HostRuntime) -> Result<(), Fail> {
    hold(rt.alloc(), &IDENTIFIERS)
}

#[test]
fn a_value_is_tested_at_its_last_bit(rt: HostRuntime) -> Result<(), Fail> {
    hold(rt.alloc(), &VALUES)
}

#[test]
fn both_values_of_a_pair_are_tested(rt: HostRuntime) -> Result<(), Fail> {
    hold(rt.alloc(), &PAIRS)
}

#[test]
fn a_run_stays_in_its_segment(rt: HostRuntime) -> Result<(), Fail> {
    hold(rt.alloc(), &RUNS)
}

#[test]
fn samples_past_the_columns_are_tested_and_dropped(rt: HostRuntime) -> Result<(), Fail> {
    hold(rt.alloc(), &PAST_THE_COLUMNS)
}

#[test]
fn the_line_of_a_fault_is_told(rt: HostRuntime) -> Result<(), Fail> {
    hold(rt.alloc(), &LINES_OF_FAULTS)
}

/// Lines have up to 65,535 columns: 1,024 blocks of 64, that is sixteen segments, each of them one zero block.
#[test]
fn lines_have_up_to_65535_columns(rt: HostRuntime) -> Result<(), Fail> {
    let mut text = String::new(rt.alloc());
    text.push_str("00000 1010101010101010 00001")?;
    for _ in 1..16 {
        text.push_str(" 00000 00001")?;
    }
    let shape = Shape(16, 64, 65_535, 1);
    gives(
        rt.alloc(),
        shape,
        text.as_str(),
        Wanted::All(65_535, 0xAAAA),
    )
}

/// That blocks of this size are read: a zero block, and one of values that are 0.
fn reads_blocks(alloc: Global, block: u8) -> Result<(), Fail> {
    let mut text = String::new(alloc);
    text.push_str("00000 00000000011 1 0001 ")?;
    for _ in 0..block {
        text.push_str("1")?;
    }
    let shape = Shape(11, u32::from(block), 2 * u32::from(block), 1);
    let wanted = Wanted::All(2 * usize::from(block), 3);
    gives(alloc, shape, text.as_str(), wanted)
}

#[test]
fn blocks_have_2_to_64_samples(rt: HostRuntime) -> Result<(), Fail> {
    for half in 1..33u8 {
        reads_blocks(rt.alloc(), 2 * half)?;
    }
    Ok(())
}

/// Whether a refusal leaves what was there, and lines come after it.
fn appends(alloc: Global) -> Result<bool, NoMemory> {
    let mut pixels = Pixels::new(alloc);
    pixels.push(77)?;
    let refused = decode_lines(&[0x00, 0x58], 8, 8, 8, 2, &mut pixels).is_err();
    let left = pixels.as_slice().len() == 1;
    let read = decode_lines(&[0x00, 0x58], 8, 8, 8, 1, &mut pixels).is_ok();
    let all = pixels.as_slice() == [77, 5, 5, 5, 5, 5, 5, 5, 5].as_slice();
    Ok(refused && left && read && all)
}

#[test]
fn lines_are_appended_or_none(rt: HostRuntime) -> Result<(), Fail> {
    assert!(rt; appends(rt.alloc())?);
    Ok(())
}

#[test]
fn lines_are_written_into_places(rt: HostRuntime) -> Result<(), Fail> {
    let mut places = [9u16; 16];
    assert!(rt; decode_into(&[0x00, 0x58, 0x00, 0x58], 8, 8, 8, 2, &mut places).is_ok());
    assert!(rt; places == [5, 5, 5, 5, 5, 5, 5, 5, 0, 0, 0, 0, 0, 0, 0, 0]);
    Ok(())
}
