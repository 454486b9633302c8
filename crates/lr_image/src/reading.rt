//! Images of mission files.

ghost use Rattle.std.specs.Prelude.{◌≡◌, ◌≤◌, ◌⊎◌, IfErr, IfOk, Some, length};
ghost use Rattle.lr_bits.specs.File.{proper_of};
ghost use Rattle.lr_image.specs.Images.{HasImageFaultOrMemory, HasPixels, IsImageOf, LacksPixels};
ghost use Rattle.lr_image.specs.Shapes.{IsShape};
ghost use Rattle.lr_headers.specs.Tiling.{first_fault};
ghost use Rattle.lr_headers.specs.declared.fault.HeaderFault.{HeaderFault};
ghost use Rattle.lr_image.specs.declared.fault.ImageFault.TheVariants.{Headers, NoMemory};

use crate::coded::coded_pixels;
use crate::image::whole_image;
use crate::layout::layout_of;
use crate::plain::plain_pixels;
use crate::{Image, ImageFault, Shape};
use lr_bits::{MissionFile, Pixels, TRANSPORT_HEADER_BYTES};
use std::alloc::Global;

/// The image of a mission file.
pub fn image_of(alloc: Global, file: &MissionFile) -> Result<Image, ImageFault>
    ensures ok { IfOk result (IsImageOf file.now) }
    ensures err { IfErr result (HasImageFaultOrMemory file.now) }
    // A fault of the header's first record is found before memory is taken.
    ensures first { (known : HeaderFault) → first_fault (proper_of file.now) ≡ Some known
        → IfErr result (λ fault. fault ≡ Headers known) }
{
    let layout = layout_of(alloc, file)?;
    let pixels = pixels_of(alloc, file, layout.header_bytes, layout.shape)?;
    let structure = layout.shape.structure;
    Ok(whole_image(
        structure.bits,
        u32::from(structure.columns),
        u32::from(structure.lines),
        pixels,
    ))
}

/// The pixels of an image of this shape, from what stands after a header of this many bytes.
fn pixels_of(
    alloc: Global,
    file: &MissionFile,
    header: usize,
    shape: Shape,
) -> Result<Pixels, ImageFault>
    requires shape { IsShape shape }
    requires inside { header ≤ length (proper_of file.now) }
    ensures ok { IfOk result (HasPixels file.now header shape.structure shape.lossless) }
    ensures err { IfErr result (λ fault. (fault ≡ NoMemory)
        ⊎ LacksPixels file.now header shape.structure shape.lossless fault) }
{
    let proper = file.proper();
    let structure = shape.structure;
    match shape.lossless {
        None => {
            let count = usize::from(structure.columns) * usize::from(structure.lines);
            plain_pixels(alloc, &proper[header..], structure.bits, count)
        }
        Some(lossless) => {
            let skipped = TRANSPORT_HEADER_BYTES + header;
            coded_pixels(alloc, file, skipped, structure, lossless)
        }
    }
}
