//! The cause of each error.
ghost use Rattle.std.specs.Prelude.{◌≡◌};
ghost use Rattle.lr_causes.specs.Causes.{cause_of_fault};
ghost use Rattle.lr_refusals.specs.Errors.{IsFileOrGone, answer_by, assembly_fault, cause_of, image_fault};

use lr_causes::{Cause, ExportFault, Party, Refusal};
use lr_image::ImageFault;
use lr_segment::AssembleFault;
use lr_shelf::{ShelfError, Stored};

/// The cause of what a call on a shelf answers. A shelf that failed before answers as a disk that fails.
pub fn shelf_cause(error: ShelfError) -> Cause
    ensures { result ≡ cause_of error }
{
    match error {
        ShelfError::Disk | ShelfError::Failed => Cause::Failed(Party::Disk),
        ShelfError::NotAShelf { at } => Cause::Refused(Refusal::NotAShelf { at }),
        ShelfError::NotEmpty { length } => Cause::Refused(Refusal::NotEmpty { length }),
        ShelfError::Capacity { needed, capacity } => {
            Cause::Refused(Refusal::Capacity { needed, capacity })
        }
        ShelfError::NoSuchFile { count } => Cause::Refused(Refusal::NoSuchFile { count }),
        ShelfError::Crc { .. } => Cause::Refused(Refusal::BadChecksum),
        ShelfError::NoMemory => Cause::NoMemory,
        ShelfError::Discarded => Cause::Refused(Refusal::Discarded),
    }
}

/// What a call on a shelf gave, or the cause of its error. So want of memory comes of that call's alone, and what it
/// refuses keeps its own cause.
pub fn shelf_answer<T>(answer: Result<T, ShelfError>) -> Result<T, Cause>
    ensures { result ≡ answer_by answer }
{
    match answer {
        Ok(given) => Ok(given),
        Err(error) => Err(shelf_cause(error)),
    }
}

/// What an entry gives, by what the shelf answers for it: its file, nothing where it is gone, or the error's cause.
pub fn file_or_gone(found: Result<Stored, ShelfError>) -> Result<Option<Stored>, Cause>
    ensures { IsFileOrGone found result }
{
    match found {
        Ok(stored) => Ok(Some(stored)),
        Err(error) => match error {
            ShelfError::Discarded => Ok(None),
            refused => Err(shelf_cause(refused)),
        },
    }
}

/// The fault of an image; want of memory is none.
fn image_export_fault(fault: ImageFault) -> Option<ExportFault>
    ensures { result ≡ image_fault fault }
{
    match fault {
        ImageFault::Headers(_) => Some(ExportFault::Headers),
        ImageFault::NotImage { .. } => Some(ExportFault::NotImage),
        ImageFault::NoStructure => Some(ExportFault::NoStructure),
        ImageFault::Encrypted => Some(ExportFault::Encrypted),
        ImageFault::Compression { .. } => Some(ExportFault::Compression),
        ImageFault::Depth { .. } => Some(ExportFault::Depth),
        ImageFault::Empty => Some(ExportFault::Empty),
        ImageFault::TooLarge { .. } => Some(ExportFault::TooLarge),
        ImageFault::Flags { .. } => Some(ExportFault::Flags),
        ImageFault::BlockSize { .. } => Some(ExportFault::BlockSize),
        ImageFault::LinesPerPacket => Some(ExportFault::LinesPerPacket),
        ImageFault::Rice { .. } => Some(ExportFault::Rice),
        ImageFault::Short { .. } => Some(ExportFault::Short),
        ImageFault::NoMemory => None,
    }
}

/// The fault of an assembly; want of memory is none.
fn assembly_export_fault(fault: AssembleFault) -> Option<ExportFault>
    ensures { result ≡ assembly_fault fault }
{
    match fault {
        AssembleFault::Empty => Some(ExportFault::Empty),
        AssembleFault::TooLarge { .. } => Some(ExportFault::TooLarge),
        AssembleFault::Depths { .. } => Some(ExportFault::Depths),
        AssembleFault::Outside => Some(ExportFault::Outside),
        AssembleFault::NoMemory => None,
    }
}

/// No PGM can be put for this fault of an image, or memory was refused.
pub fn image_cause(fault: ImageFault) -> Cause
    ensures { result ≡ cause_of_fault (image_fault fault) }
{
    Cause::of_fault(image_export_fault(fault))
}

/// No PGM can be put for this fault of an assembly, or memory was refused.
pub fn assembly_cause(fault: AssembleFault) -> Cause
    ensures { result ≡ cause_of_fault (assembly_fault fault) }
{
    Cause::of_fault(assembly_export_fault(fault))
}
