//! Images as PGM, put to `out`.
ghost use Rattle.std.specs.Prelude.{◌≡◌, ◌<◌, ◌^◌, All, Ok, IfErr, OnOk, OnErr, length};
ghost use Rattle.std.specs.List.{flat_map};
ghost use Rattle.lr_image.specs.Pgm.{head_text, pgm_text, pixel_bytes};
ghost use Rattle.lr_causes.specs.Puts.{Puts, PutFails};
ghost use Rattle.lr_cmd_shelf.specs.Steps.{TextStops};

use lr_bits::Bytes;
use lr_causes::{Cause, Party, put_text};
use lr_image::{Image, pgm_head, write_pixels};
use lr_io::Sink;
use std::alloc::Global;

/// How many pixels are put at once, at most.
const PIECE_PIXELS: usize = 16_384;

/// How many bytes they have, at most.
const PIECE_BYTES: usize = 2 * PIECE_PIXELS;

/// Puts an image as PGM. Memory is taken for its head alone, before the first byte is put.
pub fn put_pgm<O: Sink>(alloc: Global, image: &Image, out: &mut O) -> Result<(), Cause>
    ensures put { OnOk result (Puts O.Sink (pgm_text image.now) out.old out.new) }
    ensures stopped { IfErr result (λ cause. TextStops O.Sink (Ok (pgm_text image.now)) cause out.old out.new) }
{
    let mut head = Bytes::new(alloc);
    pgm_head(alloc, image, &mut head)?;
    put_image(head.as_slice(), image, out)
}

/// Puts the head of an image, and then its pixels.
fn put_image<O: Sink>(head: &[u8], image: &Image, out: &mut O) -> Result<(), Cause>
    requires { head.now ≡ head_text image.now }
    ensures put { OnOk result (Puts O.Sink (pgm_text image.now) out.old out.new) }
    ensures cause { IfErr result (λ cause. cause ≡ Cause.Failed Party.Output) }
    ensures failed { OnErr result (PutFails O.Sink (pgm_text image.now) out.old out.new) }
    ensures some { OnErr result (0 < length (pgm_text image.now)) }
{
    if let Err(cause) = put_text(head, out) {
        return Err(cause);
    }
    put_pixels(image.pixels(), image.bits(), out)
}

/// Puts the bytes of pixels, piece by piece.
fn put_pixels<O: Sink>(pixels: &[u16], bits: u8, out: &mut O) -> Result<(), Cause>
    requires { All (λ pixel. pixel < 2 ^ bits) pixels.now }
    ensures put { OnOk result (Puts O.Sink (flat_map (pixel_bytes bits) pixels.now) out.old out.new) }
    ensures cause { IfErr result (λ cause. cause ≡ Cause.Failed Party.Output) }
    ensures failed { OnErr result (PutFails O.Sink (flat_map (pixel_bytes bits) pixels.now) out.old out.new) }
{
    let mut piece = [0; PIECE_BYTES];
    let mut rest = pixels;
    while !rest.is_empty() {
        let (front, back) = rest.split_at(rest.len().min(PIECE_PIXELS));
        let count = write_pixels(front, bits, &mut piece);
        if let Err(cause) = put_text(&piece[..count], out) {
            return Err(cause);
        }
        rest = back;
    }
    Ok(())
}
