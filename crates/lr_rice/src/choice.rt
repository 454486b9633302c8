//! The options of a block, and their identifiers.

ghost use Rattle.std.specs.Prelude.{◌≡◌, ◌≤◌, ◌++◌, IfOk, OnErr};
ghost use Rattle.lr_rice.specs.CodedLines.{IsOption, identifier, short_width};
ghost use Rattle.lr_rice.specs.LineFaults.{NoIdentifier};

use lr_bits::{BitReader, Ended};

/// How a block is coded. A split by 0 bits is the fundamental sequence.
#[derive(Clone, Copy)]
pub enum BlockOption {
    /// A run of blocks whose mapped values are all 0.
    ZeroBlock,
    /// The mapped values in pairs.
    SecondExtension,
    /// The mapped values without this many low bits, and then those bits.
    Split(u32),
    /// The mapped values as they are.
    Uncoded,
}

/// Reads the identifier of an option.
#[inline(always)]
pub(crate) fn read_identifier(reader: &mut BitReader<'_>, bits: u32) -> Result<BlockOption, Ended>
    requires least { 5 ≤ bits }
    requires most { bits ≤ 16 }
    ensures option { IfOk result (λ option. IsOption bits option) }
    ensures ok { IfOk result (λ option. reader.old ≡ identifier bits option ++ reader.new) }
    ensures err { OnErr result (NoIdentifier bits reader.old) }
{
    let width = short_width(bits);
    let number = reader.bits(width)?;
    if number == 0 {
        let second = reader.bit()?;
        return Ok(if second {
            BlockOption::SecondExtension
        } else {
            BlockOption::ZeroBlock
        });
    }
    if number + 1 == 1 << width {
        return Ok(BlockOption::Uncoded);
    }
    Ok(BlockOption::Split(number as u32 - 1))
}

/// How many bits an identifier has that isn't of a zero block or a second extension.
#[inline(always)]
fn short_width(bits: u32) -> u32
    ensures value { result ≡ short_width bits }
    ensures least { 3 ≤ result }
    ensures most { result ≤ 4 }
{
    if bits <= 8 { 3 } else { 4 }
}
