//! The strips of an image, given one after another and kept again.

ghost use Rattle.std.specs.Prelude.{◌≡◌, ◌<◌, ◌*◌, ◌^◌, ◌⊎◌, None, Some, IfErr, IfNone, IfOk, IfSome, length};
ghost use Rattle.lr_image.specs.Plain.{PixelsFail};
ghost use Rattle.lr_image.specs.Images.{HasLayout};
ghost use Rattle.lr_image.specs.Shapes.{IsShape};
ghost use Rattle.lr_bits.specs.File.{proper_of};
ghost use Rattle.lr_headers.specs.Tiling.{first_fault};
ghost use Rattle.lr_headers.specs.declared.fault.HeaderFault.{HeaderFault};
ghost use Rattle.lr_image.specs.declared.fault.ImageFault.TheVariants.{Headers, NoMemory as WantOfMemory};
ghost use Rattle.lr_render.specs.Giving.{CanBeCut, HasEnough};
ghost use Rattle.lr_render.specs.Plans.{HasNoPlan};

use crate::done::DoneStrip;
use crate::giving::Giving;
use crate::keeping::Keeping;
use crate::strip::Strip;
use lr_bits::{MissionFile, NoMemory, Pixels, TRANSPORT_HEADER_BYTES};
use lr_image::{
    Image, ImageFault, Layout, Shape, first_piece, layout_of, missing_pixels, whole_image,
};
use std::alloc::Global;
use std::marker::Model;

/// The strips of the image of a mission file, and what was kept of them. The plan owns the file.
#[derive(Drop)]
pub struct Plan {
    alloc: Global,
    file: MissionFile,
    layout: Layout,
    giving: Giving,
    keeping: Keeping,
}

impl Model for Plan {
    ghost use Rattle.lr_render.specs.Plans.{PlanView};
    ghost use Rattle.lr_render.specs.Standing.{IsPlan, plan_view};

    ghost Value = { PlanView };

    ghost view = { λ p. plan_view p.file p.layout p.giving p.keeping };

    ghost invariant = { λ p. IsPlan p.file p.layout p.giving p.keeping };
}

/// The fault of an image of this shape that isn't compressed, and some of whose pixels this data field lacks.
fn plain_fault(field: &[u8], shape: Shape) -> Option<ImageFault>
    requires shape { IsShape shape }
    requires few { length field.now < 2 ^ 32 }
    ensures some { IfSome result (PixelsFail shape.structure.bits (shape.structure.columns * shape.structure.lines)
        field.now) }
    ensures plain { IfSome result (λ _. shape.lossless ≡ None) }
    ensures none { IfNone result (HasEnough shape.structure shape.lossless field.now) }
{
    match shape.lossless {
        Some(_) => None,
        None => {
            let structure = shape.structure;
            let count = usize::from(structure.columns) * usize::from(structure.lines);
            missing_pixels(field, structure.bits, count)
        }
    }
}

/// The layout of a file's image that can be cut into strips.
fn layout_to_cut(alloc: Global, file: &MissionFile) -> Result<Layout, ImageFault>
    ensures ok { IfOk result (HasLayout file.now) }
    ensures cut { IfOk result (CanBeCut file.now) }
    ensures err { IfErr result (λ fault. (fault ≡ WantOfMemory) ⊎ HasNoPlan file.now fault) }
    ensures first { (known : HeaderFault) → first_fault (proper_of file.now) ≡ Some known
        → IfErr result (λ fault. fault ≡ Headers known) }
{
    let layout = layout_of(alloc, file)?;
    let field = &file.proper()[layout.header_bytes..];
    match plain_fault(field, layout.shape) {
        Some(fault) => Err(fault),
        None => Ok(layout),
    }
}

impl Plan {
    ghost use Rattle.std.specs.Prelude.{◌≡◌, ◌<◌, ◌≤◌, ◌+◌, ◌⊎◌, IfErr, IfOk, OnErr, OnOk, Some, length};
    ghost use Rattle.lr_bits.specs.File.{proper_of};
    ghost use Rattle.lr_headers.specs.Tiling.{first_fault};
    ghost use Rattle.lr_headers.specs.declared.fault.HeaderFault.{HeaderFault};
    ghost use Rattle.lr_image.specs.declared.fault.ImageFault.TheVariants.{Headers, NoMemory as WantOfMemory};
    ghost use Rattle.lr_image.specs.Images.{HasOutcome};
    ghost use Rattle.lr_render.specs.Plans.{GivesNext, HasNoPlan, IsNewPlan, IsStripAt, planned_strips};

    /// The plan of a file's image. It takes no memory for pixels. Where it is refused the file is let go.
    pub fn new(alloc: Global, file: MissionFile) -> Result<Plan, ImageFault>
        ensures ok { IfOk result (IsNewPlan file) }
        ensures err { IfErr result (λ fault. (fault ≡ WantOfMemory) ⊎ HasNoPlan file fault) }
        // A fault of the header's first record is found before memory is taken.
        ensures first { (known : HeaderFault) → first_fault (proper_of file) ≡ Some known
            → IfErr result (λ fault. fault ≡ Headers known) }
    {
        let layout = match layout_to_cut(alloc, &file) {
            Ok(layout) => layout,
            Err(fault) => return Err(fault),
        };
        let skipped = TRANSPORT_HEADER_BYTES + layout.header_bytes;
        Ok(Plan {
            alloc,
            file,
            layout,
            giving: Giving {
                strips: 0,
                lines: 0,
                place: first_piece(skipped),
            },
            keeping: Keeping {
                strips: 0,
                lines: 0,
                pixels: Pixels::new(alloc),
                fault: None,
            },
        })
    }

    /// The next strip, if one is left.
    pub fn next_strip(&mut self) -> Result<Option<Strip>, NoMemory>
        ensures ok { IfOk result (GivesNext self.old self.new) }
        ensures err { OnErr result (self.new ≡ self.old) }
        ensures few { self.new.given ≤ 65535 }
    {
        self.giving.next(self.alloc, &self.file, self.layout)
    }

    /// Keeps what came of the oldest strip that was given and not yet kept. The first strip that has pixels takes the
    /// memory for those of all strips (`lr_image::most_pixels`): for no more lines than the file can have. Where that
    /// is refused the plan is as it was, and the strip is let go.
    pub fn keep(&mut self, strip: DoneStrip) -> Result<(), NoMemory>
        requires given { self.old.kept < self.old.given }
        requires oldest { IsStripAt self.old self.old.kept strip }
        ensures ok { OnOk result (self.new ≡ record self.old { kept = self.old.kept + 1 }) }
        ensures err { OnErr result (self.new ≡ self.old) }
    {
        self.keeping
            .take(self.alloc, &self.file, self.layout, &strip)
    }

    /// The image, once every strip was given and kept, or its first fault. It takes no memory.
    pub fn finish(self) -> Result<Image, ImageFault>
        requires { self.kept ≡ length (planned_strips self) }
        ensures { HasOutcome self.file result }
    {
        let Plan {
            layout,
            keeping,
            ..
        } = self;
        let Keeping {
            lines,
            pixels,
            fault,
            ..
        } = keeping;
        if let Some(fault) = fault {
            return Err(fault);
        }
        let structure = layout.shape.structure;
        let columns = u32::from(structure.columns);
        let all = u32::from(structure.lines);
        if lines < all {
            return Err(ImageFault::Short {
                pixels: u64::from(lines) * u64::from(columns),
            });
        }
        Ok(whole_image(structure.bits, columns, all, pixels))
    }
}
