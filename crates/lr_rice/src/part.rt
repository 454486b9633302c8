//! A part of a line: a run of zero blocks, or one block.

ghost use Rattle.std.specs.Prelude.{◌<◌, ◌≤◌, ◌*◌, ◌-◌, IfErr, IfOk};
ghost use Rattle.lr_rice.specs.CodedLines.{IsOption, greatest};
ghost use Rattle.lr_rice.specs.LineFaults.{BodyFails, RunFails};
ghost use Rattle.lr_rice.specs.Samples.{IsRun, IsSingle, WritesPart, site_of};
ghost use Rattle.lr_rice.specs.declared.choice.BlockOption.TheVariants.{ZeroBlock};

use crate::samples::{most_of, repeat_sample, write_samples};
use crate::site::Site;
use crate::values::read_block;
use crate::{BlockOption, Cause};
use lr_bits::BitReader;

/// How many blocks were decoded, and their last sample.
#[derive(Drop)]
pub(crate) struct Decoded {
    pub blocks: u32,
    pub last: u64,
}

/// Decodes what stands after the identifier and the reference, and writes the samples after the sample `p` as far as
/// there are places.
pub(crate) fn decode_part(
    reader: &mut BitReader<'_>,
    site: Site,
    option: BlockOption,
    p: u64,
    out: &mut [u16],
) -> Result<Decoded, Cause>
    requires sample { p ≤ greatest site.bits }
    requires option { IsOption site.bits option }
    ensures ok { IfOk result (λ decoded. WritesPart (site_of site) option reader.old reader.new (record {
      before = p;
      old = out.old;
      new = out.new;
      blocks = decoded.blocks;
      last = decoded.last;
    })) }
    ensures err { IfErr result (λ cause. BodyFails (site_of site) option reader.old cause) }
{
    match option {
        BlockOption::ZeroBlock => decode_run(reader, site, p, out),
        single => decode_block(reader, site, single, p, out),
    }
}

/// Decodes a zero block.
fn decode_run(
    reader: &mut BitReader<'_>,
    site: Site,
    p: u64,
    out: &mut [u16],
) -> Result<Decoded, Cause>
    requires { p ≤ greatest site.bits }
    ensures ok { IfOk result (λ decoded. WritesPart (site_of site) ZeroBlock reader.old reader.new (record {
      before = p;
      old = out.old;
      new = out.new;
      blocks = decoded.blocks;
      last = decoded.last;
    })) }
    ensures err { IfErr result (BodyFails (site_of site) ZeroBlock reader.old) }
{
    let most = most_of(site.bits);
    let blocks = read_run(reader, site.left)?;
    repeat_sample(most, p, (blocks * site.block) as usize, out);
    Ok(Decoded { blocks, last: p })
}

/// Decodes a block in one of the other options.
fn decode_block(
    reader: &mut BitReader<'_>,
    site: Site,
    option: BlockOption,
    p: u64,
    out: &mut [u16],
) -> Result<Decoded, Cause>
    requires sample { p ≤ greatest site.bits }
    requires option { IsOption site.bits option }
    requires single { IsSingle option }
    ensures ok { IfOk result (λ decoded. WritesPart (site_of site) option reader.old reader.new (record {
      before = p;
      old = out.old;
      new = out.new;
      blocks = decoded.blocks;
      last = decoded.last;
    })) }
    ensures err { IfErr result (λ cause. BodyFails (site_of site) option reader.old cause) }
{
    let most = most_of(site.bits);
    let mut values = [0; 64];
    let places = &mut values[..site.block as usize];
    read_block(reader, site, option, places)?;
    let last = write_samples(most, p, places, out);
    Ok(Decoded { blocks: 1, last })
}

/// Reads the run of a zero block, where this many blocks are left in the segment.
fn read_run(reader: &mut BitReader<'_>, left: u32) -> Result<u32, Cause>
    requires { left ≤ 64 }
    ensures ok { IfOk result (λ blocks. IsRun left blocks reader.old reader.new) }
    ensures err { IfErr result (λ cause. RunFails left reader.old cause) }
{
    let Ok(number) = reader.zeros() else {
        return Err(Cause::Ended);
    };
    let run = match number {
        0..=3 => number + 1,
        4 => u64::from(left),
        _ => number,
    };
    if run > u64::from(left) {
        return Err(Cause::RunPastSegment);
    }
    Ok(run as u32)
}
