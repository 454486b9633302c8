//! Lines, and the strings that they are coded as, written as texts of 0 and 1. They were worked out by hand from the
//! standard; libaec decodes them to the same samples.

ghost use Rattle.std.specs.Prelude.{◌≡◌, ◌↔◌, ◌<◌, ◌≤◌, ◌^◌, ◌⊎◌, All, IsTrue, length};

use crate::bits::bytes_of;
use lr_bits::{Bytes, NoMemory};
use lr_rice_coder::{CodeFault, code_line};
use std::alloc::Global;
use std::test::Fail;

/// Whether each sample is below two to the power of bits.
fn are_small(samples: &[u16], bits: u32) -> bool
    requires { bits ≤ 16 }
    ensures { IsTrue result ↔ All (λ sample. sample < 2 ^ bits) samples.now }
{
    let limit = 1u32 << bits;
    samples.iter().all(|sample| u32::from(*sample) < limit)
}

/// Whether a line can be coded: 5 to 16 bits, 1 to 65,535 samples.
fn is_line(samples: &[u16], bits: u32) -> bool
    ensures bits { IsTrue result → 5 ≤ bits }
    ensures most { IsTrue result → bits ≤ 16 }
    ensures some { IsTrue result → 1 ≤ length samples.now }
    ensures few { IsTrue result → length samples.now ≤ 65535 }
    ensures small { IsTrue result → All (λ sample. sample < 2 ^ bits) samples.now }
{
    if bits < 5 || bits > 16 || samples.is_empty() || samples.len() > 65_535 {
        return false;
    }
    are_small(samples, bits)
}

/// Whether the line is coded as the bytes of this text, in blocks of 8 samples. Where it isn't, the failure has both.
fn codes(alloc: Global, samples: &[u16], bits: u32, text: &str) -> Result<bool, Fail> {
    let mut out = Bytes::new(alloc);
    if !is_line(samples, bits) {
        return Err(Fail::from("no line"));
    }
    code_line(alloc, samples, bits, 8, &mut out)?;
    let wanted = bytes_of(alloc, text)?;
    let (came, wanted) = (out.as_slice(), wanted.as_slice());
    if *came == *wanted {
        return Ok(true);
    }
    Err(Fail::new(format_args!("{samples:?} of {bits} bits are {came:?}, and not {wanted:?}")))
}

/// Whether the line takes too many bytes, and leaves what stood there.
fn is_long(alloc: Global, samples: &[u16], bits: u32) -> Result<bool, NoMemory> {
    if !is_line(samples, bits) {
        return Ok(false);
    }
    let mut out = Bytes::new(alloc);
    out.extend(&[7])?;
    let answer = code_line(alloc, samples, bits, 64, &mut out);
    Ok(matches!(answer, Err(CodeFault::Long)) && out.as_slice() == [7].as_slice())
}

/// This many samples, in turn 0 and the greatest one.
fn alternating(alloc: Global, count: usize) -> Result<Vec<u16>, NoMemory> {
    let mut samples = Vec::new(alloc);
    for i in 0..count {
        samples.push(if i % 2 == 0 { 0 } else { u16::MAX })?;
    }
    Ok(samples)
}

/// Samples, how many bits each has, and the text of the bytes that they are coded as, in blocks of 8.
struct Case(&'static [u16], u32, &'static str);

/// That the samples of each case are coded so.
fn are_coded(alloc: Global, cases: &[Case]) -> Result<(), Fail> {
    for Case(samples, bits, text) in cases {
        codes(alloc, samples, *bits, text)?;
    }
    Ok(())
}

static EQUAL: [Case; 4] = [
    Case(&[5; 8], 8, "0000 00000101 1"),
    Case(&[5], 8, "0000 00000101 1"),
    Case(&[5; 32], 8, "0000 00000101 0001"),
    // From five blocks on the number 4 stands for all blocks up to the segment's end.
    Case(&[5; 40], 8, "0000 00000101 00001"),
];

static RUNS: [Case; 2] = [
    Case(
        &[
            5, 5, 5, 5, 5, 5, 5, 5, 5, 5, 5, 5, 5, 5, 5, 5, 5, 5, 5, 5, 5, 5, 5, 5, 5, 5, 5, 5, 5,
            5, 5, 5, 5, 5, 5, 5, 5, 5, 5, 5, 5, 6, 4, 5, 5, 5, 5, 5, 5, 5, 5, 5, 5, 5, 5, 5,
        ],
        8,
        "0000 00000101 000001 001 1 001 0001 001 1111 0000 1",
    ),
    // 65 blocks are a segment of 64, and one more.
    Case(&[5; 520], 8, "0000 00000101 00001 0000 1"),
];

static SMALL_DIFFERENCES: [Case; 2] = [
    Case(
        &[5, 6, 4, 5, 5, 5, 5, 5],
        8,
        "001 00000101 001 0001 001 1111",
    ),
    // In the second block pairs are as long as sequences, 14 bits, and come first.
    Case(
        &[5, 6, 4, 5, 5, 5, 5, 5, 5, 5, 5, 4, 4, 3, 3, 2],
        8,
        "001 00000101 001 0001 001 1111 0001 1 001 001 001",
    ),
];

/// A zero stands in place of the reference, so the values 0, 0, 0, 0, 0, 0, 0 and 1 are four pairs.
static FIRST_PAIRS: [Case; 1] = [Case(&[5, 5, 5, 5, 5, 5, 5, 4], 8, "0001 00000101 1 1 1 001")];

static SPLIT: [Case; 2] = [
    // The values 8, 9, 16, 11, 18, 13 and 18 are split by 3 bits.
    Case(
        &[100, 104, 99, 107, 101, 110, 103, 112],
        8,
        "100 01100100 01 01 001 01 001 01 001 000 001 000 011 010 101 010",
    ),
    // At 12 bits the values 20, 39, 60, 69, 90, 119 and 62 are split by 5.
    Case(
        &[1000, 1010, 990, 1020, 985, 1030, 970, 1001],
        12,
        "0110 001111101000 1 01 01 001 001 0001 01 10100 00111 11100 00101 11010 10111 11110",
    ),
];

static FOUR_BITS: [Case; 4] = [
    Case(&[300; 8], 9, "00000 100101100 1"),
    Case(
        &[300, 300, 300, 300, 300, 300, 300, 299],
        10,
        "00001 0100101100 1 1 1 001",
    ),
    Case(
        &[0, 511, 0, 511, 0, 511, 0, 511],
        9,
        "1111 000000000 111111111 111111111 111111111 111111111 111111111 111111111 111111111",
    ),
    Case(
        &[
            20, 20, 20, 20, 20, 20, 20, 20, 20, 21, 20, 20, 20, 20, 20, 20,
        ],
        16,
        "00000 0000000000010100 1 00001 000001 01 1 1",
    ),
];

static GREAT_DIFFERENCES: [Case; 1] = [Case(
    &[0, 31, 0, 31, 0, 31, 0, 31],
    5,
    "111 00000 11111 11111 11111 11111 11111 11111 11111",
)];

#[test]
fn equal_samples_are_a_zero_block(rt: HostRuntime) -> Result<(), Fail> {
    are_coded(rt.alloc(), &EQUAL)
}

#[test]
fn a_run_before_the_end_has_its_own_number(rt: HostRuntime) -> Result<(), Fail> {
    are_coded(rt.alloc(), &RUNS)
}

#[test]
fn small_differences_are_sequences_or_pairs(rt: HostRuntime) -> Result<(), Fail> {
    are_coded(rt.alloc(), &SMALL_DIFFERENCES)
}

#[test]
fn pairs_win_in_a_first_block(rt: HostRuntime) -> Result<(), Fail> {
    are_coded(rt.alloc(), &FIRST_PAIRS)
}

#[test]
fn values_are_split(rt: HostRuntime) -> Result<(), Fail> {
    are_coded(rt.alloc(), &SPLIT)
}

#[test]
fn identifiers_have_four_bits_from_nine_on(rt: HostRuntime) -> Result<(), Fail> {
    are_coded(rt.alloc(), &FOUR_BITS)
}

#[test]
fn great_differences_are_uncoded(rt: HostRuntime) -> Result<(), Fail> {
    are_coded(rt.alloc(), &GREAT_DIFFERENCES)
}

#[test]
fn a_long_line_is_refused(rt: HostRuntime) -> Result<(), Fail> {
    let alloc = rt.alloc();
    let samples = alternating(alloc, 40_000)?;
    assert!(rt; is_long(alloc, &samples, 16)?);
    Ok(())
}
