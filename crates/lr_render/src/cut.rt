//! Cutting strips out of a data field.

ghost use Rattle.std.specs.Prelude.{◌≡◌, ◌<◌, ◌≤◌, ◌+◌, ◌*◌, ◌^◌, IfOk, length, min};
ghost use Rattle.lr_image.specs.Shapes.{IsCoding, IsSize};
ghost use Rattle.lr_render.specs.Tiling.{coded_strip, line_start, plain_strip, strip_lines};

use crate::strip::{Coding, Strip, StripSource};
use lr_bits::{Bytes, NoMemory};
use lr_headers::{Lossless, Structure};
use std::alloc::Global;

/// The most lines of a strip whose pixels aren't compressed.
pub const MOST_STRIP_LINES: u32 = 64;

/// The most pixels of such a strip, if it has more than one line. So a strip and its pixels take less than 1 MiB.
pub const MOST_STRIP_PIXELS: u32 = 65_536;

/// How many lines the next strip has of an image that isn't compressed, where this many are left.
pub(crate) fn next_lines(structure: Structure, left: u32) -> u32
    requires { 1 ≤ structure.columns }
    ensures { result ≡ min (strip_lines structure) left }
{
    let whole = MOST_STRIP_LINES
        .min(MOST_STRIP_PIXELS / u32::from(structure.columns))
        .max(1);
    whole.min(left)
}

/// At which bit of the data field a line begins, in an image that isn't compressed.
fn line_start(structure: Structure, line: u32) -> u64
    ensures { result ≡ line_start structure line }
{
    u64::from(structure.bits) * (u64::from(structure.columns) * u64::from(line))
}

/// The strip of this many lines from one on, of an image that isn't compressed.
pub(crate) fn plain_strip(
    alloc: Global,
    field: &[u8],
    structure: Structure,
    from: u32,
    lines: u32,
) -> Result<Strip, NoMemory>
    requires size { IsSize 1 structure }
    requires few { length field.now < 2 ^ 32 }
    requires lines { from + lines ≤ structure.lines }
    requires all { line_start structure structure.lines ≤ 8 * length field.now }
    ensures { IfOk result (λ strip. strip ≡ plain_strip structure field.now from lines) }
{
    let start = line_start(structure, from);
    let bits = line_start(structure, lines);
    let first_bit = start % 8;
    let first = (start / 8) as usize;
    let count = ((first_bit + bits + 7) / 8) as usize;
    let bytes = Bytes::copy_of(alloc, &field[first..first + count])?;
    let source = StripSource {
        bytes,
        coding: Coding::Plain {
            first_bit: first_bit as u8,
        },
        bits: structure.bits,
        columns: u32::from(structure.columns),
        lines,
    };
    Strip::new(alloc, source)
}

/// The strip of a piece that gives this many lines.
pub(crate) fn coded_strip(
    alloc: Global,
    piece: &[u8],
    structure: Structure,
    lossless: Lossless,
    lines: u32,
) -> Result<Strip, NoMemory>
    requires size { IsSize 5 structure }
    requires coding { IsCoding lossless }
    requires short { length piece.now < 2 ^ 61 }
    requires lines { lines ≤ 65535 }
    ensures { IfOk result (λ strip. strip ≡ coded_strip structure lossless piece.now lines) }
{
    let bytes = Bytes::copy_of(alloc, piece)?;
    let source = StripSource {
        bytes,
        coding: Coding::Coded {
            block: lossless.block,
        },
        bits: structure.bits,
        columns: u32::from(structure.columns),
        lines,
    };
    Strip::new(alloc, source)
}
