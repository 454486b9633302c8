//! Lines, part by part.

ghost use Rattle.std.specs.Prelude.{◌≡◌, ◌<◌, ◌≤◌, ◌*◌, ◌+◌, ◌-◌, ◌%◌, ◌^◌, ◌++◌, All, Err, IfErr, IfOk, OnErr, OnOk};
ghost use Rattle.std.specs.Prelude.{length};
ghost use Rattle.lr_bits.specs.Sizes.{most_body_bytes};
ghost use Rattle.lr_rice.specs.CodedLines.{block_count, form_of, left_in_segment};
ghost use Rattle.lr_rice_coder.specs.Coded.{AppendsLine, ArePaddedBits, IsBlockSize, IsFault};
ghost use Rattle.lr_rice_coder.specs.declared.fault.CodeFault.TheVariants.{Long};
ghost use Rattle.lr_rice_coder.specs.Shortest.{run_number, shortest_string};
ghost use Rattle.lr_rice_coder.specs.Writing.{IsReadyLine, IsWritten, form_in, line_string};

use crate::CodeFault;
use crate::block::{write_block, write_head};
use crate::cost::shortest_option;
use crate::values::{places_of, run_at};
use crate::writer::BitWriter;
use lr_bits::{Bytes, MOST_BODY_BYTES, NoMemory};
use lr_rice::{BlockOption, SEGMENT_BLOCKS};
use std::alloc::Global;

/// Appends the shortest coding of a line of these samples, filled with zeros to whole bytes. A block has 8, 16, 32 or
/// 64 samples. A refusal leaves the bytes as they were.
pub fn code_line(
    alloc: Global,
    samples: &[u16],
    bits: u32,
    block: u32,
    out: &mut Bytes,
) -> Result<(), CodeFault>
    requires bits { (5 ≤ bits) × (bits ≤ 16) }
    requires block { IsBlockSize block }
    requires columns { (1 ≤ length samples.now) × (length samples.now ≤ 65535) }
    requires small { All (λ sample. sample < 2 ^ bits) samples.now }
    ensures ok { OnOk result
        (AppendsLine (form_of bits block (length samples.now)) samples.now out.old out.new) }
    ensures fault { IfErr result (IsFault (form_of bits block (length samples.now)) samples.now) }
    ensures err { OnErr result (out.new ≡ out.old) }
{
    let Ok(bytes) = line_bytes(alloc, samples, bits, block) else {
        return Err(CodeFault::NoMemory);
    };
    append(&bytes, out)
}

/// Appends the bytes of a line, if they are no more than a body has.
fn append(bytes: &[u8], out: &mut Bytes) -> Result<(), CodeFault>
    ensures small { All (λ byte. byte < 256) bytes.now }
    ensures short { OnOk result (length bytes.now ≤ most_body_bytes) }
    ensures ok { OnOk result (out.new ≡ out.old ++ bytes.now) }
    ensures long { result ≡ Err Long → most_body_bytes < length bytes.now }
    ensures err { OnErr result (out.new ≡ out.old) }
{
    if bytes.len() > MOST_BODY_BYTES {
        return Err(CodeFault::Long);
    }
    let Ok(()) = out.extend(bytes) else {
        return Err(CodeFault::NoMemory);
    };
    Ok(())
}

/// The bytes of the shortest coding.
fn line_bytes(alloc: Global, samples: &[u16], bits: u32, block: u32) -> Result<Vec<u8>, NoMemory>
    requires bits { (5 ≤ bits) × (bits ≤ 16) }
    requires block { IsBlockSize block }
    requires columns { (1 ≤ length samples.now) × (length samples.now ≤ 65535) }
    requires small { All (λ sample. sample < 2 ^ bits) samples.now }
    ensures { IfOk result (λ bytes.
        ArePaddedBits bytes.items (shortest_string (form_of bits block (length samples.now)) samples.now)) }
{
    let places = places_of(alloc, samples, bits, block)?;
    let line = Line {
        bits,
        block,
        columns: samples.len(),
        reference: u32::from(samples[0]),
        places: &places,
    };
    let mut writer = BitWriter::new(alloc);
    write_line(&mut writer, &line)?;
    writer.finish()
}

/// A line as it is written.
#[derive(Clone, Copy)]
pub(crate) struct Line<'a> {
    /// How many bits a sample has.
    bits: u32,
    /// How many samples a block has.
    block: u32,
    /// How many samples the line has.
    columns: usize,
    /// The first sample.
    reference: u32,
    /// The values of all places of its blocks.
    places: &'a [u32],
}

/// Writes the line, part by part.
fn write_line(writer: &mut BitWriter, line: &Line) -> Result<(), NoMemory>
    requires { IsReadyLine line.now }
    ensures { OnOk result (writer.new ≡ writer.old ++ line_string line.now) }
{
    let blocks = block_count(line);
    let mut at = 0;
    while at < blocks {
        at += write_part(writer, line, at)?;
    }
    Ok(())
}

/// How many blocks the line has.
fn block_count(line: &Line) -> usize
    requires { IsReadyLine line.now }
    ensures { result ≡ block_count (form_in line.now) }
{
    let size = line.block as usize;
    (line.columns + size - 1) / size
}

/// Writes the part at this block of the line, and answers how many blocks it stands for.
fn write_part(writer: &mut BitWriter, line: &Line, at: usize) -> Result<usize, NoMemory>
    requires line { IsReadyLine line.now }
    requires inside { at < block_count (form_in line.now) }
    ensures { IfOk result (IsWritten line.now at writer.old writer.new) }
{
    let first = at == 0;
    let left = left_in_segment(line, at);
    let run = run_at(line.places, line.block, at, left);
    if run > 0 {
        write_head(
            writer,
            line.bits,
            first,
            BlockOption::ZeroBlock,
            line.reference,
        )?;
        writer.sequence(run_number(left, run) as u64)?;
        return Ok(run);
    }
    let start = at * line.block as usize;
    let places = &line.places[start..start + line.block as usize];
    let option = shortest_option(line.bits, first, places);
    write_head(writer, line.bits, first, option, line.reference)?;
    write_block(writer, line.bits, first, option, places)?;
    Ok(1)
}

/// How many blocks are left in the segment, the one at this place counted.
fn left_in_segment(line: &Line, at: usize) -> usize
    requires line { IsReadyLine line.now }
    requires inside { at < block_count (form_in line.now) }
    ensures { result ≡ left_in_segment (form_in line.now) at }
{
    (SEGMENT_BLOCKS - at % SEGMENT_BLOCKS).min(block_count(line) - at)
}

/// The number of a zero block for this run, where this many blocks are left in the segment.
fn run_number(left: usize, run: usize) -> usize
    requires { 1 ≤ run }
    ensures { result ≡ run_number left run }
{
    if run < 5 {
        run - 1
    } else if run == left {
        4
    } else {
        run
    }
}
