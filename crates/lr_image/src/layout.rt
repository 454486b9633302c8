//! Where the pixels of an image stand in its file.

ghost use Rattle.std.specs.Prelude.{◌≡◌, ◌≤◌, ◌⊎◌, IfErr, IfOk, Some, length};
ghost use Rattle.lr_bits.specs.File.{proper_of};
ghost use Rattle.lr_image.specs.Images.{HasLayout, HasNoLayout};
ghost use Rattle.lr_image.specs.Shapes.{IsShape};
ghost use Rattle.lr_headers.specs.Tiling.{first_fault};
ghost use Rattle.lr_headers.specs.declared.fault.HeaderFault.{HeaderFault as HeaderFault'};
ghost use Rattle.lr_image.specs.declared.fault.ImageFault.TheVariants.{Headers, NoMemory};

use crate::shape::shape_of;
use crate::{ImageFault, Shape};
use lr_bits::MissionFile;
use lr_headers::{HeaderFault, Records};
use std::alloc::Global;

/// What the header of an image says, and how many bytes it has. The data field comes after them.
#[derive(Clone, Copy)]
pub struct Layout {
    pub header_bytes: usize,
    pub shape: Shape,
}

/// The layout of a mission file's image, or the first fault of a header that isn't one of an image.
pub fn layout_of(alloc: Global, file: &MissionFile) -> Result<Layout, ImageFault>
    ensures ok { IfOk result (HasLayout file.now) }
    ensures sound { IfOk result (λ layout. IsShape layout.shape) }
    ensures inside { IfOk result (λ layout. layout.header_bytes ≤ length (proper_of file.now)) }
    ensures err { IfErr result (λ fault. (fault ≡ NoMemory) ⊎ HasNoLayout file.now fault) }
    // A fault of the header's first record is found before memory is taken.
    ensures first { (known : HeaderFault') → first_fault (proper_of file.now) ≡ Some known
        → IfErr result (λ fault. fault ≡ Headers known) }
{
    let records = match Records::read(alloc, file.proper()) {
        Ok(records) => records,
        Err(HeaderFault::NoMemory) => return Err(ImageFault::NoMemory),
        Err(fault) => return Err(ImageFault::Headers(fault)),
    };
    let shape = shape_of(&records)?;
    let header_bytes = records.header_length() as usize;
    Ok(Layout {
        header_bytes,
        shape,
    })
}
