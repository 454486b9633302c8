//! Pixels that are coded without loss.

ghost use Rattle.std.specs.Prelude.{◌≡◌, ◌<◌, ◌≤◌, ◌^◌, ◌⊎◌, IfErr, IfOk, OnOk, length};
ghost use Rattle.lr_bits.specs.Bits.{bits_of};
ghost use Rattle.lr_rice.specs.CodedLines.{GrowsByLines};
ghost use Rattle.lr_image.specs.Pieces.{GiveLines, LackLines, PieceFails, pieces_after};
ghost use Rattle.lr_image.specs.Images.{line_form};
ghost use Rattle.lr_image.specs.Shapes.{IsCoding, IsSize};
ghost use Rattle.lr_image.specs.declared.fault.ImageFault.TheVariants.{NoMemory};

use crate::pieces::{first_piece, next_piece};
use crate::room::room_for;
use crate::{ImageFault, Shape};
use lr_bits::{MissionFile, Pixels};
use lr_headers::{Lossless, Structure};
use lr_rice::{RiceFault, decode_lines};
use std::alloc::Global;

/// The samples of all lines, from the bodies of the file after this many bytes.
pub(crate) fn coded_pixels(
    alloc: Global,
    file: &MissionFile,
    skipped: usize,
    structure: Structure,
    lossless: Lossless,
) -> Result<Pixels, ImageFault>
    requires size { IsSize 5 structure }
    requires coding { IsCoding lossless }
    ensures ok { IfOk result (GiveLines (line_form structure lossless) lossless.lines structure.lines
        (pieces_after skipped file.now.bodies)) }
    ensures err { IfErr result (λ fault. (fault ≡ NoMemory) ⊎ LackLines (line_form structure lossless)
        lossless.lines structure.lines (pieces_after skipped file.now.bodies) fault) }
{
    let all = u32::from(structure.lines);
    let each = u32::from(lossless.lines);
    let mut place = first_piece(skipped);
    let shape = Shape {
        structure,
        lossless: Some(lossless),
    };
    let Ok(mut pixels) = room_for(alloc, file, skipped, shape) else {
        return Err(ImageFault::NoMemory);
    };
    pixels.truncate(0);
    let mut number = 0;
    let mut done = 0;
    while done < all {
        let Some(piece) = next_piece(file, &mut place) else {
            return Err(ImageFault::Short {
                pixels: u64::from(done) * u64::from(structure.columns),
            });
        };
        let lines = each.min(all - done);
        match decode_piece(piece, structure, lossless, lines, number, &mut pixels) {
            Ok(()) => {}
            Err(fault) => return Err(fault),
        }
        done += lines;
        number += 1;
    }
    Ok(pixels)
}

/// Appends the samples of the lines of a piece, or nothing. Pieces count from 0.
fn decode_piece(
    piece: &[u8],
    structure: Structure,
    lossless: Lossless,
    lines: u32,
    number: u32,
    pixels: &mut Pixels,
) -> Result<(), ImageFault>
    requires size { IsSize 5 structure }
    requires coding { IsCoding lossless }
    requires short { length piece.now < 2 ^ 61 }
    requires lines { lines ≤ 65535 }
    ensures ok { OnOk result (GrowsByLines (line_form structure lossless) lines (bits_of piece.now)
        pixels.old pixels.new) }
    ensures err { IfErr result (λ fault. (fault ≡ NoMemory)
        ⊎ PieceFails (line_form structure lossless) lines number piece.now fault) }
{
    let bits = u32::from(structure.bits);
    let block = u32::from(lossless.block);
    let columns = u32::from(structure.columns);
    match decode_lines(piece, bits, block, columns, lines, pixels) {
        Ok(()) => Ok(()),
        Err(RiceFault::NoMemory) => Err(ImageFault::NoMemory),
        Err(fault) => Err(ImageFault::Rice {
            piece: number,
            fault,
        }),
    }
}
