//! What stands at an entry.
ghost use Rattle.std.specs.Prelude.{◌≡◌, ◌≢◌, ◌<◌, false, length, Err, IfOk, IfErr, OnOk};
ghost use Rattle.lr_shelf.specs.Kept.{kept_by};
ghost use Rattle.lr_cmd_shelf.specs.Steps.{ReadsOnly};
ghost use Rattle.lr_cmd_render.specs.Contents.{IsContent, IsContentOf, ReadStops, content_by};

use lr_bits::NoMemory;
use lr_causes::Cause;
use lr_disk::Disk;
use lr_image::ImageFault;
use lr_refusals::file_or_gone;
use lr_render::Plan;
use lr_shelf::{Shelf, Stored};
use std::alloc::Global;

/// What an entry of a shelf holds.
#[derive(Drop)]
pub(crate) enum Content {
    /// It is gone.
    Gone,
    /// A file that has no image.
    NoImage,
    /// A file whose image can be cut into strips.
    Image(Plan),
}

/// What a file holds by its plan, unless memory was refused for that.
fn content_by(planned: Result<Plan, ImageFault>) -> Result<Content, NoMemory>
    ensures content { IfOk result (λ content. (content ≡ content_by planned)
        × (planned ≢ Err ImageFault.NoMemory)) }
    ensures refused { IfErr result (λ _. planned ≡ Err ImageFault.NoMemory) }
{
    match planned {
        Ok(plan) => Ok(Content::Image(plan)),
        Err(fault) => match fault {
            ImageFault::NoMemory => Err(NoMemory),
            _ => Ok(Content::NoImage),
        },
    }
}

/// What a file holds.
fn content_of(alloc: Global, stored: Stored) -> Result<Content, NoMemory>
    ensures { IfOk result (IsContentOf stored) }
{
    let Stored { file, .. } = stored;
    content_by(Plan::new(alloc, file))
}

/// Reads the entry of this number.
pub(crate) fn read_content<D: Disk>(
    alloc: Global,
    number: u64,
    shelf: &mut Shelf,
    disk: &mut D,
) -> Result<Content, Cause>
    requires there { number < length (kept_by shelf.old).way.entries }
    requires working { (kept_by shelf.old).failed ≡ false }
    ensures reads { ReadsOnly D.Disk shelf.old shelf.new disk.old disk.new }
    ensures same { OnOk result (D.faults disk.new ≡ D.faults disk.old) }
    ensures content { IfOk result (IsContent D.Disk (kept_by shelf.old).way number disk.old) }
    ensures stops { IfErr result (λ cause. ReadStops D.Disk (kept_by shelf.old).way number cause disk.old disk.new) }
{
    match file_or_gone(shelf.get(disk, number)) {
        Ok(Some(stored)) => match content_of(alloc, stored) {
            Ok(content) => Ok(content),
            Err(NoMemory) => Err(Cause::NoMemory),
        },
        Ok(None) => Ok(Content::Gone),
        Err(cause) => Err(cause),
    }
}
