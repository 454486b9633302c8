//! Samples on standard input, whose lines are coded again and again, or once, for their bytes.

ghost use Rattle.std.specs.Prelude.{◌↔◌, ◌<◌, ◌≤◌, ◌^◌, All, IsTrue};

use crate::lines::{Shape, number_at, shape_of};
use crate::shelf::Trouble;
use crate::sums::sum_with_bytes;
use lr_bits::{Bytes, NoMemory};
use lr_rice_coder::code_line;
use std::alloc::Global;
use std::io::{self, Read, Write};

/// Whether each sample is below two to the power of bits.
fn are_small(samples: &[u16], bits: u32) -> bool
    requires { bits ≤ 16 }
    ensures { IsTrue result ↔ All (λ sample. sample < 2 ^ bits) samples.now }
{
    let limit = 1u32 << bits;
    samples.iter().all(|sample| u32::from(*sample) < limit)
}

/// Appends the coding of a line, and answers whether it has one.
#[inline(never)]
fn code(alloc: Global, row: &[u16], shape: Shape, out: &mut Bytes) -> bool {
    let Shape { bits, block, .. } = shape;
    if row.is_empty() || row.len() > 65_535 || !are_small(row, bits) {
        return false;
    }
    if block != 8 && block != 16 && block != 32 && block != 64 {
        return false;
    }
    code_line(alloc, row, bits, block, out).is_ok()
}

/// Codes each line, and answers whether all have a coding.
fn code_all(alloc: Global, samples: &[u16], shape: Shape, out: &mut Bytes) -> bool {
    let mut coded = true;
    for row in samples.chunks_exact(shape.columns as usize) {
        coded &= code(alloc, row, shape, out);
    }
    coded
}

/// The samples in these bytes, one byte each up to 8 bits, else two, the first one most significant.
fn samples_of(alloc: Global, bits: u32, bytes: &[u8]) -> Result<Vec<u16>, NoMemory> {
    let mut samples = Vec::new(alloc);
    if bits <= 8 {
        for byte in bytes {
            samples.push(u16::from(*byte))?;
        }
        return Ok(samples);
    }
    for pair in bytes.chunks_exact(2) {
        if let [high, low] = pair {
            samples.push(u16::from_be_bytes([*high, *low]))?;
        }
    }
    Ok(samples)
}

/// The names `code` and `coded`: the words are BITS BLOCK COLUMNS LINES ROUNDS. The lines whose samples stand on
/// standard input are coded this many times; then a line tells a checksum of their bytes, or the bytes are written,
/// each line filled to whole bytes.
pub fn run(rt: &HostRuntime, name: &str, words: &[String]) -> Result<(), Trouble> {
    let (Some(shape), Some(rounds)) = (shape_of(words), number_at(words, 4)) else {
        return Ok(eprintln!(rt; "usage: {name} BITS BLOCK COLUMNS LINES ROUNDS")?);
    };
    let mut bytes = Vec::new(rt.alloc());
    rt.stdin().read_to_end(&mut bytes)?;
    let samples = samples_of(rt.alloc(), shape.bits, &bytes)?;
    let mut out = Bytes::new(rt.alloc());
    let mut coded = true;
    for _ in 0..rounds {
        out.truncate(0);
        coded &= code_all(rt.alloc(), &samples, shape, &mut out);
    }
    if name == "coded" && coded {
        let mut writer = io::BufWriter::new(rt.alloc(), io::writer(rt))?;
        writer.write_all(out.as_slice())?;
        writer.flush()?;
        return Ok(());
    }
    let sum = sum_with_bytes(0, out.as_slice());
    println!(rt; "{name} {coded} {rounds} {sum:016x}")?;
    Ok(())
}
