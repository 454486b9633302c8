//! Blocks, written.

ghost use Rattle.std.specs.Prelude.{◌≡◌, ◌<◌, ◌≤◌, ◌/◌, ◌%◌, ◌^◌, ◌++◌, true, All, OnOk, length, slice_index};
ghost use Rattle.std.specs.List.{flat_map};
ghost use Rattle.lr_bits.specs.Bits.{number_bits, zeros_and_one};
ghost use Rattle.lr_rice.specs.CodedLines.{IsOption, body_string, head_string, identifier, pairs_string};
ghost use Rattle.lr_rice.specs.Samples.{IsSingle};
ghost use Rattle.lr_rice_coder.specs.Shortest.{block_in, block_values};

use crate::cost::{number_of, width_of};
use crate::writer::BitWriter;
use lr_bits::NoMemory;
use lr_rice::BlockOption;

/// Writes the identifier of an option, and in a line's first block the reference.
pub(crate) fn write_head(
    writer: &mut BitWriter,
    bits: u32,
    first: bool,
    option: BlockOption,
    reference: u32,
) -> Result<(), NoMemory>
    requires bits { bits ≤ 16 }
    requires option { IsOption bits option }
    requires reference { reference < 2 ^ bits }
    ensures { OnOk result (writer.new ≡ writer.old ++ head_string bits first reference option) }
{
    write_identifier(writer, bits, option)?;
    if first {
        return writer.number(bits, u64::from(reference));
    }
    Ok(())
}

/// Writes the identifier of an option.
fn write_identifier(writer: &mut BitWriter, bits: u32, option: BlockOption) -> Result<(), NoMemory>
    requires { IsOption bits option }
    ensures { OnOk result (writer.new ≡ writer.old ++ identifier bits option) }
{
    let width = width_of(bits);
    match option {
        BlockOption::ZeroBlock => writer.number(width + 1, 0),
        BlockOption::SecondExtension => writer.number(width + 1, 1),
        BlockOption::Split(low_bits) => writer.number(width, u64::from(low_bits) + 1),
        BlockOption::Uncoded => writer.number(width, (1 << width) - 1),
    }
}

/// Writes what stands after the identifier and the reference of a block.
pub(crate) fn write_block(
    writer: &mut BitWriter,
    bits: u32,
    first: bool,
    option: BlockOption,
    places: &[u32],
) -> Result<(), NoMemory>
    requires bits { bits ≤ 16 }
    requires some { 1 ≤ length places.now }
    requires even { length places.now % 2 ≡ 0 }
    requires small { All (λ value. value < 2 ^ bits) places.now }
    requires clear { first ≡ true → slice_index places.now 0 ≡ 0 }
    requires single { IsSingle option }
    requires option { IsOption bits option }
    ensures { OnOk result (writer.new ≡ writer.old
        ++ body_string bits first (block_in option (block_values first places.now))) }
{
    let values = &places[usize::from(first)..];
    match option {
        BlockOption::SecondExtension => write_pairs(writer, places),
        BlockOption::Split(low_bits) => {
            write_highs(writer, low_bits, values)?;
            write_lows(writer, low_bits, values)
        }
        BlockOption::Uncoded => write_lows(writer, bits, values),
        BlockOption::ZeroBlock => unreachable!(),
    }
}

/// Writes the sequences of the pairs.
fn write_pairs(writer: &mut BitWriter, places: &[u32]) -> Result<(), NoMemory>
    requires even { length places.now % 2 ≡ 0 }
    requires small { All (λ value. value ≤ 65535) places.now }
    ensures { OnOk result (writer.new ≡ writer.old ++ pairs_string places.now) }
{
    for i in 0..places.len() / 2 {
        writer.sequence(number_of(places[2 * i], places[2 * i + 1]))?;
    }
    Ok(())
}

/// Writes the sequences of the high parts of values that are split.
fn write_highs(writer: &mut BitWriter, low_bits: u32, values: &[u32]) -> Result<(), NoMemory>
    requires { low_bits < 32 }
    ensures { OnOk result (writer.new ≡ writer.old
        ++ flat_map (λ value. zeros_and_one (value / 2 ^ low_bits)) values.now) }
{
    for value in values {
        writer.sequence(u64::from(*value >> low_bits))?;
    }
    Ok(())
}

/// Writes the low bits of values, this many of each.
fn write_lows(writer: &mut BitWriter, low_bits: u32, values: &[u32]) -> Result<(), NoMemory>
    requires { low_bits ≤ 16 }
    ensures { OnOk result (writer.new ≡ writer.old ++ flat_map (number_bits low_bits) values.now) }
{
    for value in values {
        writer.number(low_bits, u64::from(*value % (1 << low_bits)))?;
    }
    Ok(())
}
