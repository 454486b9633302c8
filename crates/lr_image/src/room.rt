//! Memory for the pixels of an image.

ghost use Rattle.std.specs.Prelude.{◌≡◌, Some, IfOk, replicate};
ghost use Rattle.lr_image.specs.Pieces.{pieces_after};
ghost use Rattle.lr_image.specs.Places.{IsPlaceIn, pieces_at};
ghost use Rattle.lr_image.specs.Room.{most_lines, most_pixels_for};

use crate::Shape;
use crate::pieces::{PiecePlace, first_piece, next_piece};
use lr_bits::{MissionFile, NoMemory, Pixels};
use lr_headers::{Lossless, Structure};
use std::alloc::Global;

/// The bits of the shortest identifier, which begins each line. After it stands a sample.
const IDENTIFIER_BITS: u64 = 3;

/// Pixels of 0, as many as an image of this shape has at most, where this many bytes of the file come before its data
/// field. The memory is taken in one piece.
pub(crate) fn room_for(
    alloc: Global,
    file: &MissionFile,
    skipped: usize,
    shape: Shape,
) -> Result<Pixels, NoMemory>
    ensures { IfOk result
        (λ pixels. pixels ≡ replicate (most_pixels_for shape (pieces_after skipped file.now.bodies)) 0) }
{
    Pixels::zeros(alloc, most_pixels(file, skipped, shape))
}

/// How many pixels an image of this shape has at most, where this many bytes of the file come before its data field:
/// those of no more lines than the header claims, and where the image is coded without loss of no more than the pieces
/// of the file can have.
pub fn most_pixels(file: &MissionFile, skipped: usize, shape: Shape) -> usize
    ensures { result ≡ most_pixels_for shape (pieces_after skipped file.now.bodies) }
{
    let Shape {
        structure,
        lossless,
    } = shape;
    let lines = match lossless {
        None => u32::from(structure.lines),
        Some(lossless) => most_lines(file, first_piece(skipped), structure, lossless),
    };
    usize::from(structure.columns) * lines as usize
}

/// How many lines of an image of this structure the pieces from this place on have at most: no more than a packet may
/// have, nor than the bits of a piece can code.
fn most_lines(
    file: &MissionFile,
    first: PiecePlace,
    structure: Structure,
    lossless: Lossless,
) -> u32
    requires { IsPlaceIn file.now first }
    ensures { result ≡ most_lines structure (Some lossless) (pieces_at file.now first) }
{
    let all = u32::from(structure.lines);
    let each = u64::from(lossless.lines);
    let least_bits = u64::from(structure.bits) + IDENTIFIER_BITS;
    let mut place = first;
    let mut lines = 0u32;
    while let Some(piece) = next_piece(file, &mut place) {
        let here = (8 * piece.len() as u64 / least_bits).min(each);
        lines = all.min(lines.saturating_add(here as u32));
    }
    lines
}
