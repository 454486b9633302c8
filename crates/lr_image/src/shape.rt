//! What the header of an image says.

ghost use Rattle.std.specs.Prelude.{◌≡◌, Ok, IfNone, IfOk};
ghost use Rattle.lr_image.specs.Shapes.{IsCoding, IsShape, IsSize, coded_shape, lossless_fault, lossless_shape};
ghost use Rattle.lr_image.specs.Shapes.{plain_shape, shape_of, size_fault};

use crate::ImageFault;
use lr_headers::{Lossless, Records, Structure};

/// The greatest number of pixels of an image.
pub const MOST_PIXELS: u64 = 268_435_456;

/// The flag of a lossless record that has to be set.
const NEEDED_FLAG: u16 = 32;

/// What an image's header says: its structure, and how its lines are coded, if they are.
#[derive(Clone, Copy)]
pub struct Shape {
    pub structure: Structure,
    pub lossless: Option<Lossless>,
}

/// What the header of an image says, or the first fault of a header that isn't one.
pub fn shape_of(records: &Records) -> Result<Shape, ImageFault>
    ensures value { result ≡ shape_of records.now }
    ensures sound { IfOk result IsShape }
{
    let kind = records.file_type();
    if kind != 0 {
        return Err(ImageFault::NotImage { kind });
    }
    let Some(structure) = records.structure() else {
        return Err(ImageFault::NoStructure);
    };
    if records.is_encrypted() {
        return Err(ImageFault::Encrypted);
    }
    coded_shape(structure, records.lossless())
}

fn coded_shape(structure: Structure, lossless: Option<Lossless>) -> Result<Shape, ImageFault>
    ensures value { result ≡ coded_shape structure lossless }
    ensures sound { IfOk result IsShape }
{
    match structure.compression {
        0 => plain_shape(structure),
        1 => lossless_shape(structure, lossless),
        value => Err(ImageFault::Compression { value }),
    }
}

fn plain_shape(structure: Structure) -> Result<Shape, ImageFault>
    ensures value { result ≡ plain_shape structure }
    ensures sound { IfOk result IsShape }
{
    if let Some(fault) = size_fault(structure, 1) {
        return Err(fault);
    }
    Ok(Shape {
        structure,
        lossless: None,
    })
}

fn lossless_shape(structure: Structure, lossless: Option<Lossless>) -> Result<Shape, ImageFault>
    ensures value { result ≡ lossless_shape structure lossless }
    ensures sound { IfOk result IsShape }
{
    let Some(coding) = lossless else {
        return Err(ImageFault::Compression { value: 1 });
    };
    if let Some(fault) = size_fault(structure, 5) {
        return Err(fault);
    }
    if let Some(fault) = lossless_fault(coding) {
        return Err(fault);
    }
    Ok(Shape {
        structure,
        lossless: Some(coding),
    })
}

/// The fault of an image's depth and size, where a pixel has at least this many bits.
#[tactic(auto, unfolding(crate::specs::Shapes::size_fault))]
fn size_fault(structure: Structure, least: u8) -> Option<ImageFault>
    ensures value { result ≡ size_fault least structure }
    ensures sound { IfNone result (IsSize least structure) }
{
    let Structure {
        bits,
        columns,
        lines,
        ..
    } = structure;
    if bits < least || bits > 16 {
        return Some(ImageFault::Depth { bits });
    }
    if columns == 0 || lines == 0 {
        return Some(ImageFault::Empty);
    }
    let pixels = u64::from(columns) * u64::from(lines);
    if pixels > MOST_PIXELS {
        return Some(ImageFault::TooLarge { pixels });
    }
    None
}

/// The fault of a lossless record.
#[tactic(auto, unfolding(crate::specs::Shapes::lossless_fault))]
fn lossless_fault(lossless: Lossless) -> Option<ImageFault>
    ensures value { result ≡ lossless_fault lossless }
    ensures sound { IfNone result (IsCoding lossless) }
{
    let Lossless {
        flags,
        block,
        lines,
    } = lossless;
    if flags / NEEDED_FLAG % 2 == 0 {
        return Some(ImageFault::Flags { flags });
    }
    if block % 2 != 0 || block < 2 || block > 64 {
        return Some(ImageFault::BlockSize { block });
    }
    if lines == 0 {
        return Some(ImageFault::LinesPerPacket);
    }
    None
}
