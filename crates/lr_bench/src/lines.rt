//! Coded lines on standard input: decoded again and again, or once, for their samples.

ghost use Rattle.std.specs.Prelude.{◌≡◌, ◌<◌, ◌≤◌, ◌%◌, ◌^◌};

use crate::shelf::Trouble;
use lr_bits::Pixels;
use lr_rice::decode_into;
use std::io::{self, Read, Write};

/// How lines are coded, and how many there are.
#[derive(Clone, Copy)]
pub(crate) struct Shape {
    pub(crate) bits: u32,
    pub(crate) block: u32,
    pub(crate) columns: u32,
    pub(crate) lines: u32,
    ghost bits_fit: { (5 ≤ bits) × (bits ≤ 16) },
    ghost block_fits: { (2 ≤ block) × (block ≤ 64) × (block % 2 ≡ 0) },
    ghost columns_fit: { (1 ≤ columns) × (columns ≤ 65535) },
    ghost lines_fit: { lines ≤ 65535 },
}

/// The word at this place, read as a number.
pub(crate) fn number_at(words: &[String], place: usize) -> Option<u32> {
    words.get(place)?.as_str().parse::<u32>().ok()
}

/// The shape that the first four words tell.
pub(crate) fn shape_of(words: &[String]) -> Option<Shape> {
    let bits = number_at(words, 0)?;
    let block = number_at(words, 1)?;
    let columns = number_at(words, 2)?;
    let lines = number_at(words, 3)?;
    if bits < 5 || bits > 16 || block < 2 || block > 64 || block % 2 != 0 {
        return None;
    }
    if columns < 1 || columns > 65535 || lines > 65535 {
        return None;
    }
    Some(Shape {
        bits,
        block,
        columns,
        lines,
    })
}

/// Decodes the lines into these places, and answers whether all are there.
#[inline(never)]
fn decode(coded: &[u8], shape: Shape, places: &mut [u16]) -> bool {
    let Shape {
        bits,
        block,
        columns,
        lines,
    } = shape;
    if coded.len() >= 1 << 61 || places.len() != columns as usize * lines as usize {
        return false;
    }
    decode_into(coded, bits, block, columns, lines, places).is_ok()
}

fn checksum_of(samples: &[u16]) -> u64 {
    let mut sum = 0u64;
    for sample in samples {
        sum = sum.wrapping_mul(31).wrapping_add(u64::from(*sample));
    }
    sum
}

/// Writes the samples, one byte each up to 8 bits, else two, the first one most significant.
fn write_samples(rt: &HostRuntime, bits: u32, samples: &[u16]) -> Result<(), Trouble> {
    let mut out = io::BufWriter::new(rt.alloc(), io::writer(rt))?;
    for sample in samples {
        let bytes = sample.to_be_bytes();
        out.write_all(if bits <= 8 { &bytes[1..] } else { &bytes })?;
    }
    out.flush()?;
    Ok(())
}

/// The names `lines` and `samples`: the words are BITS BLOCK COLUMNS LINES ROUNDS. The lines on standard input are
/// decoded this many times; then a line tells a checksum of the samples, or the samples are written.
pub fn run(rt: &HostRuntime, name: &str, words: &[String]) -> Result<(), Trouble> {
    let (Some(shape), Some(rounds)) = (shape_of(words), number_at(words, 4)) else {
        return Ok(eprintln!(rt; "usage: {name} BITS BLOCK COLUMNS LINES ROUNDS")?);
    };
    let mut coded = Vec::new(rt.alloc());
    rt.stdin().read_to_end(&mut coded)?;
    let mut pixels = Pixels::zeros(rt.alloc(), shape.columns as usize * shape.lines as usize)?;
    let mut read = true;
    for _ in 0..rounds {
        read &= decode(&coded, shape, pixels.as_mut_slice());
    }
    if name == "samples" && read {
        return write_samples(rt, shape.bits, pixels.as_slice());
    }
    let sum = checksum_of(pixels.as_slice());
    println!(rt; "{name} {read} {rounds} {sum:016x}")?;
    Ok(())
}
