//! Decoding a strip.

ghost use Rattle.std.specs.Prelude.{◌≡◌, ◌*◌, length, replicate};
ghost use Rattle.lr_render.specs.Strips.{IsDecodedStrip, IsStrip};
ghost use Rattle.lr_render.specs.declared.strip.Coding.TheVariants.{Coded};

use crate::strip::{Coding, StripSource};
use lr_image::read_pixels;
use lr_rice::{RiceFault, decode_into};

/// Writes the pixels of a strip, or pixels of 0 where its lines have a fault, and answers that. This takes no memory.
pub(crate) fn decode(source: &StripSource, pixels: &mut [u16]) -> Option<RiceFault>
    requires strip { IsStrip source.now }
    requires room { length pixels.old ≡ source.now.columns * source.now.lines }
    ensures { IsDecodedStrip source.now result pixels.new }
{
    match source.coding {
        Coding::Plain { first_bit } => {
            read_pixels(
                source.bytes.as_slice(),
                u32::from(first_bit),
                source.bits,
                pixels,
            );
            None
        }
        Coding::Coded { block } => decode_coded(source, block, pixels),
    }
}

/// Decodes a strip that is coded without loss, in blocks of this size.
fn decode_coded(source: &StripSource, block: u8, pixels: &mut [u16]) -> Option<RiceFault>
    requires strip { IsStrip source.now }
    requires block { source.now.coding ≡ Coded block }
    requires room { length pixels.old ≡ source.now.columns * source.now.lines }
    ensures { IsDecodedStrip source.now result pixels.new }
{
    let bits = u32::from(source.bits);
    let coded = source.bytes.as_slice();
    match decode_into(
        coded,
        bits,
        u32::from(block),
        source.columns,
        source.lines,
        pixels,
    ) {
        Ok(()) => None,
        Err(fault) => {
            pixels.fill(0);
            Some(fault)
        }
    }
}
