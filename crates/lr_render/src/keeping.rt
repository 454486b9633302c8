//! How what comes of strips is kept.

ghost use Rattle.std.specs.Prelude.{◌≡◌, ◌++◌, IsSome, OnErr, OnOk};
ghost use Rattle.lr_image.specs.declared.fault.ImageFault.TheVariants.{Rice};
ghost use Rattle.lr_render.specs.Giving.{CanBeCut};
ghost use Rattle.lr_render.specs.Keeping.{CanCount, TakesStrip};

use crate::done::DoneStrip;
use lr_bits::{MissionFile, NoMemory, Pixels, TRANSPORT_HEADER_BYTES};
use lr_image::{ImageFault, Layout, most_pixels};
use lr_rice::RiceFault;
use std::alloc::Global;

/// What was kept of the strips of an image.
#[derive(Drop)]
pub(crate) struct Keeping {
    /// How many were kept.
    pub strips: u32,
    /// How many lines those before the first fault have.
    pub lines: u32,
    /// Their pixels.
    pub pixels: Pixels,
    /// The fault of the first strip that has one.
    pub fault: Option<ImageFault>,
}

impl Keeping {
    /// Takes what came of the next strip of this file's image. The first pixels take the memory for all that it has at
    /// most.
    pub(crate) fn take(
        &mut self,
        alloc: Global,
        file: &MissionFile,
        layout: Layout,
        strip: &DoneStrip,
    ) -> Result<(), NoMemory>
        requires count { CanCount self.old strip.now }
        requires cut { CanBeCut file.now layout }
        ensures ok { OnOk result (TakesStrip self.old self.new strip.now) }
        // After a fault no pixels are kept, so no memory is asked for.
        ensures sure { IsSome self.old.fault → OnErr result ⊥ }
        ensures err { OnErr result (self.new ≡ self.old) }
    {
        if self.fault.is_some() {
            self.strips += 1;
            return Ok(());
        }
        match strip.outcome() {
            Ok(pixels) => {
                append(alloc, file, layout, &mut self.pixels, pixels)?;
                self.lines += strip.lines();
            }
            Err(fault) => self.fault = Some(fault_at(self.strips, fault)),
        }
        self.strips += 1;
        Ok(())
    }
}

/// The fault of an image whose strip of this number has a fault.
fn fault_at(number: u32, fault: RiceFault) -> ImageFault
    ensures { result ≡ Rice number fault }
{
    ImageFault::Rice {
        piece: number,
        fault,
    }
}

/// Appends pixels, or none of them. The first ones take the memory for all that the file's image has at most.
fn append(
    alloc: Global,
    file: &MissionFile,
    layout: Layout,
    kept: &mut Pixels,
    pixels: &[u16],
) -> Result<(), NoMemory>
    requires { CanBeCut file.now layout }
    ensures ok { OnOk result (kept.new ≡ kept.old ++ pixels.now) }
    ensures err { OnErr result (kept.new ≡ kept.old) }
{
    if kept.as_slice().is_empty() {
        let skipped = TRANSPORT_HEADER_BYTES + layout.header_bytes;
        *kept = Pixels::with_capacity(alloc, most_pixels(file, skipped, layout.shape))?;
    }
    kept.extend(pixels)
}
