//! Lines one after another.

ghost use Rattle.std.specs.Prelude.{◌≡◌, ◌<◌, ◌≤◌, ◌*◌, ◌%◌, ◌^◌, ℕ, List, IfErr, IsOk, OnErr, OnOk, length};
ghost use Rattle.lr_rice.specs.declared.fault.RiceFault.TheVariants.{NoMemory};
ghost use Rattle.lr_bits.specs.Bits.{bits_of};
ghost use Rattle.lr_rice.specs.CodedLines.{BeginsWithLines, GrowsByLines, form_of};
ghost use Rattle.lr_rice.specs.LineFaults.{LinesFail, LinesFailOrMemory};

use crate::RiceFault;
use crate::line::decode_line;
use lr_bits::{BitReader, Pixels};

/// Appends the samples of this many lines, with which the bytes begin. The memory for all of them is taken before the
/// first line is read. A refusal leaves the pixels as they were.
pub fn decode_lines(
    coded: &[u8],
    bits: u32,
    block: u32,
    columns: u32,
    lines: u32,
    out: &mut Pixels,
) -> Result<(), RiceFault>
    requires size { length coded.now < 2 ^ 61 }
    requires bits { (5 ≤ bits) × (bits ≤ 16) }
    requires block { (2 ≤ block) × (block ≤ 64) × (block % 2 ≡ 0) }
    requires columns { (1 ≤ columns) × (columns ≤ 65535) }
    requires lines { lines ≤ 65535 }
    ensures ok { OnOk result (GrowsByLines (form_of bits block columns) lines (bits_of coded.now) out.old out.new) }
    ensures fault { IfErr result (LinesFailOrMemory (form_of bits block columns) lines (bits_of coded.now)) }
    ensures exact { (samples : List ℕ) → BeginsWithLines (form_of bits block columns) lines samples (bits_of coded.now)
        → IfErr result (λ fault. fault ≡ NoMemory) }
    ensures err { OnErr result (out.new ≡ out.old) }
{
    let before = out.as_slice().len();
    let Ok(()) = out.grow(columns as usize * lines as usize) else {
        return Err(RiceFault::NoMemory);
    };
    let places = &mut out.as_mut_slice()[before..];
    match decode_into(coded, bits, block, columns, lines, places) {
        Ok(()) => Ok(()),
        Err(fault) => {
            out.truncate(before);
            Err(fault)
        }
    }
}

/// Writes the samples of this many lines, with which the bytes begin. This takes no memory. After a refusal the places
/// may hold anything.
pub fn decode_into(
    coded: &[u8],
    bits: u32,
    block: u32,
    columns: u32,
    lines: u32,
    out: &mut [u16],
) -> Result<(), RiceFault>
    requires size { length coded.now < 2 ^ 61 }
    requires bits { (5 ≤ bits) × (bits ≤ 16) }
    requires block { (2 ≤ block) × (block ≤ 64) × (block % 2 ≡ 0) }
    requires columns { (1 ≤ columns) × (columns ≤ 65535) }
    requires lines { lines ≤ 65535 }
    requires places { length out.old ≡ columns * lines }
    ensures ok { OnOk result (BeginsWithLines (form_of bits block columns) lines out.new (bits_of coded.now)) }
    ensures err { IfErr result (LinesFail (form_of bits block columns) lines (bits_of coded.now)) }
    ensures exact { (samples : List ℕ) → BeginsWithLines (form_of bits block columns) lines samples (bits_of coded.now)
        → IsOk result }
{
    let columns = columns as usize;
    let mut reader = BitReader::new(coded);
    for line in 0..lines {
        let start = columns * line as usize;
        let row = &mut out[start..start + columns];
        match decode_line(&mut reader, bits, block, row) {
            Ok(()) => {}
            Err(cause) => return Err(cause.in_line(line)),
        }
    }
    Ok(())
}
