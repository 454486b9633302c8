//! The engine that decodes one line, part by part.

ghost use Rattle.std.specs.Prelude.{◌≡◌, ◌<◌, ◌≤◌, ◌*◌, ◌-◌, ◌%◌, ◌++◌, ℕ, List, IfErr, OnOk, length};
ghost use Rattle.lr_rice.specs.CodedLines.{IsLine, form_of};
ghost use Rattle.lr_rice.specs.LineFaults.{LineFails};

use crate::Cause;
use crate::choice::read_identifier;
use crate::part::decode_part;
use crate::site::Site;
use lr_bits::BitReader;

/// The blocks of a segment, which a run of zero blocks never passes (CCSDS 121.0-B).
pub const SEGMENT_BLOCKS: usize = 64;

/// Decodes a line with as many columns as there are places.
pub(crate) fn decode_line(
    reader: &mut BitReader<'_>,
    bits: u32,
    block: u32,
    out: &mut [u16],
) -> Result<(), Cause>
    requires least_bits { 5 ≤ bits }
    requires most_bits { bits ≤ 16 }
    requires least_block { 2 ≤ block }
    requires most_block { block ≤ 64 }
    requires even { block % 2 ≡ 0 }
    requires some { 1 ≤ length out.old }
    requires few { length out.old < 65536 }
    ensures ok { OnOk result ((coding : List ℕ) × IsLine (form_of bits block (length out.old)) out.new coding
        × (reader.old ≡ coding ++ reader.new)) }
    ensures err { IfErr result (λ cause. LineFails (form_of bits block (length out.old)) reader.old cause) }
{
    let size = block as usize;
    let blocks = (out.len() + size - 1) / size;
    let Ok(mut option) = read_identifier(reader, bits) else {
        return Err(Cause::Ended);
    };
    let Ok(reference) = reader.bits(bits) else {
        return Err(Cause::Ended);
    };
    let mut last = reference;
    let mut at = 0;
    loop {
        let site = Site {
            bits,
            block,
            first: at == 0,
            left: (SEGMENT_BLOCKS - at % SEGMENT_BLOCKS).min(blocks - at) as u32,
        };
        let part = decode_part(reader, site, option, last, &mut out[at * size..]);
        let decoded = match part {
            Ok(decoded) => decoded,
            Err(cause) => return Err(cause),
        };
        at += decoded.blocks as usize;
        last = decoded.last;
        if at >= blocks {
            return Ok(());
        }
        let Ok(next) = read_identifier(reader, bits) else {
            return Err(Cause::Ended);
        };
        option = next;
    }
}
