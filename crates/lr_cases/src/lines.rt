//! Drawn strings, read as coded lines.

ghost use Rattle.std.specs.Prelude.{◌≡◌, ◌<◌, ◌≤◌, ◌%◌, ◌^◌, IfOk, vec_len};

use crate::draw::Draw;
use lr_bits::{NoMemory, Pixels};
use lr_rice::{RiceFault, decode_lines};
use std::alloc::{AllocError, Global};

pub const STRINGS: u32 = 6000;

/// How many strings begin with lines, how many have a fault of each kind, and a checksum of the samples and the faults.
#[derive(Clone, Copy)]
pub struct Tally {
    pub lines: u32,
    pub ended: u32,
    pub range: u32,
    pub run: u32,
    pub checksum: u64,
}

/// How lines are coded, and how many are read.
#[derive(Clone, Copy)]
struct Case {
    bits: u32,
    block: u32,
    columns: u32,
    lines: u32,
    ghost bits_fit: { (5 ≤ bits) × (bits ≤ 16) },
    ghost block_fits: { (2 ≤ block) × (block ≤ 64) × (block % 2 ≡ 0) },
    ghost columns_fit: { (1 ≤ columns) × (columns ≤ 65535) },
    ghost lines_fit: { lines ≤ 65535 },
}

fn drawn_case(draw: &mut Draw) -> Case {
    let bits = 5 + draw.below(12);
    let half = 1 + draw.below(32);
    let most = if draw.byte() < 192 { 40 } else { 900 };
    let columns = 1 + draw.below(most);
    let lines = draw.below(4);
    Case {
        bits,
        block: 2 * half,
        columns,
        lines,
    }
}

fn drawn_string(alloc: Global, draw: &mut Draw) -> Result<Vec<u8>, AllocError>
    ensures { IfOk result (λ string. vec_len string < 2 ^ 16) }
{
    let most = if draw.byte() < 128 { 40 } else { 400 };
    let size = draw.below(most);
    let mut string = Vec::new(alloc);
    for _ in 0..size {
        string.push(draw.byte())?;
    }
    Ok(string)
}

/// The checksum of these samples.
fn checksum_of(samples: &[u16]) -> u64 {
    let mut sum = 0u64;
    for sample in samples {
        sum = sum.wrapping_mul(31).wrapping_add(u64::from(*sample));
    }
    sum
}

/// A number for each fault.
fn number_of(kind: u64, line: u32) -> u64 {
    kind.wrapping_mul(65_599).wrapping_add(u64::from(line))
}

/// Decodes one drawn string, and takes what comes of it into the tally.
fn add_string(alloc: Global, draw: &mut Draw, tally: &mut Tally) -> Result<(), NoMemory> {
    let case = drawn_case(draw);
    let string = drawn_string(alloc, draw)?;
    let mut pixels = Pixels::new(alloc);
    let told = match decode_lines(
        &string,
        case.bits,
        case.block,
        case.columns,
        case.lines,
        &mut pixels,
    ) {
        Ok(()) => {
            tally.lines = tally.lines.saturating_add(1);
            checksum_of(pixels.as_slice())
        }
        Err(RiceFault::Ended { line }) => {
            tally.ended = tally.ended.saturating_add(1);
            number_of(1, line)
        }
        Err(RiceFault::OutOfRange { line }) => {
            tally.range = tally.range.saturating_add(1);
            number_of(2, line)
        }
        Err(RiceFault::RunPastSegment { line }) => {
            tally.run = tally.run.saturating_add(1);
            number_of(3, line)
        }
        Err(RiceFault::NoMemory) => return Err(NoMemory),
    };
    tally.checksum = tally.checksum.wrapping_mul(65_599).wrapping_add(told);
    Ok(())
}

/// Decodes all strings.
pub fn add_strings(alloc: Global) -> Result<Tally, NoMemory> {
    let mut draw = Draw::new(19);
    let mut tally = Tally {
        lines: 0,
        ended: 0,
        range: 0,
        run: 0,
        checksum: 0,
    };
    for _ in 0..STRINGS {
        add_string(alloc, &mut draw, &mut tally)?;
    }
    Ok(tally)
}
