//! The segments so far.

ghost use Rattle.std.specs.Prelude.{◌≡◌, ◌*◌, ◌≤◌, ◌↔◌, ◌⊎◌, [], List, Some, None, IfNone, IfOk, IfErr, IsOk, OnOk};
ghost use Rattle.std.specs.Prelude.{OnErr, count_by, not};
ghost use Rattle.lr_image.specs.Shapes.{most_pixels};
ghost use Rattle.lr_segment.specs.Canvas.{
  AddsMember,
  HasSizeOf,
  IsAssembled,
  Member,
  CanvasStandsFor,
  add_fault,
  member,
};
ghost use Rattle.lr_segment.specs.Canvas.{new_fault};
ghost use Rattle.lr_segment.specs.declared.fault.AssembleFault.{AssembleFault as Fault};
ghost use Rattle.lr_segment.specs.declared.fault.AssembleFault.TheVariants.{NoMemory};

use crate::AssembleFault;
use crate::rows::{Place, put_lines};
use lr_bits::Pixels;
use lr_headers::Segment;
use lr_image::{Image, MOST_PIXELS};
use std::alloc::Global;
use std::marker::Model;

/// The segments so far: the whole image, whose pixels are 0 where no segment covers, and where some segment does.
#[derive(Drop)]
pub struct Assembly {
    bits: u8,
    columns: u16,
    lines: u16,
    pixels: Pixels,
    covered: Vec<bool>,
}

impl Model for Assembly {
    ghost use Rattle.lr_segment.specs.Canvas.{Canvas, IsCanvas, canvas};

    ghost Value = { Canvas };

    ghost view = { λ a. canvas a.bits a.columns a.lines a.pixels a.covered.items };

    ghost invariant = { λ a. IsCanvas (canvas a.bits a.columns a.lines a.pixels a.covered.items) };
}

impl Assembly {
    /// No segments yet, of an image whose size is the one that this segment names. Refused before memory is taken, in
    /// this order, with `Empty` and `TooLarge`.
    pub fn new(alloc: Global, segment: &Segment, bits: u8) -> Result<Self, AssembleFault>
        requires { (1 ≤ bits) × (bits ≤ 16) }
        ensures stands { IfOk result (λ canvas. CanvasStandsFor canvas []) }
        ensures kept { IfOk result (HasSizeOf segment.now bits) }
        ensures accepted { IfOk result (λ canvas. new_fault segment.now ≡ None) }
        ensures refused { IfErr result (λ fault. (fault ≡ NoMemory) ⊎ (new_fault segment.now ≡ Some fault)) }
        // The size is looked at before memory is taken.
        ensures first { (known : Fault) → new_fault segment.now ≡ Some known → IfErr result (λ fault. fault ≡ known) }
    {
        if let Some(fault) = new_fault(segment) {
            return Err(fault);
        }
        let count = usize::from(segment.columns) * usize::from(segment.lines);
        let Ok(pixels) = Pixels::zeros(alloc, count) else {
            return Err(AssembleFault::NoMemory);
        };
        let Ok(covered) = vec![in alloc; false; count] else {
            return Err(AssembleFault::NoMemory);
        };
        Ok(Assembly {
            bits,
            columns: segment.columns,
            lines: segment.lines,
            pixels,
            covered,
        })
    }

    /// Adds a segment, whose pixels replace those of earlier ones, or changes nothing. Refused, in this order, with
    /// `Depths` and `Outside`. This takes no memory.
    pub fn add(&mut self, image: &Image, segment: &Segment) -> Result<(), AssembleFault>
        ensures accepted { IsOk result ↔ (add_fault self.old (member image.now segment.now) ≡ None) }
        ensures refused { IfErr result (λ fault. add_fault self.old (member image.now segment.now) ≡ Some fault) }
        ensures ok { OnOk result (AddsMember self.old (member image.now segment.now) self.new) }
        ensures err { OnErr result (self.new ≡ self.old) }
    {
        if image.bits() != self.bits {
            return Err(AssembleFault::Depths {
                kept: self.bits,
                given: image.bits(),
            });
        }
        let right = u64::from(segment.start_column) + u64::from(image.columns());
        let bottom = u64::from(segment.start_line) + u64::from(image.lines());
        if right > u64::from(self.columns) || bottom > u64::from(self.lines) {
            return Err(AssembleFault::Outside);
        }
        let place = Place {
            whole: usize::from(self.columns),
            column: usize::from(segment.start_column),
            line: usize::from(segment.start_line),
            width: image.columns() as usize,
        };
        put_lines(
            self.pixels.as_mut_slice(),
            &mut self.covered,
            place,
            image.pixels(),
            image.lines() as usize,
        );
        Ok(())
    }

    /// The whole image, and how many of its pixels no segment covers. This takes no memory.
    pub fn finish(self) -> (Image, u64)
        ensures { (members : List Member) → CanvasStandsFor self members → IsAssembled self members result.0 result.1 }
    {
        let Assembly {
            bits,
            columns,
            lines,
            pixels,
            covered,
        } = self;
        let uncovered = count_uncovered(&covered);
        let Some(image) = Image::build(bits, u32::from(columns), u32::from(lines), pixels) else {
            unreachable!();
        };
        (image, uncovered)
    }
}

/// Why no assembly is made for an image of the size that this segment names.
fn new_fault(segment: &Segment) -> Option<AssembleFault>
    ensures value { result ≡ new_fault segment.now }
    ensures some { IfNone result (1 ≤ segment.now.columns) }
    ensures few { IfNone result (segment.now.columns * segment.now.lines ≤ most_pixels) }
{
    if segment.columns == 0 || segment.lines == 0 {
        return Some(AssembleFault::Empty);
    }
    let pixels = u64::from(segment.columns) * u64::from(segment.lines);
    if pixels > MOST_PIXELS {
        return Some(AssembleFault::TooLarge { pixels });
    }
    None
}

/// How many places aren't covered.
fn count_uncovered(covered: &[bool]) -> u64
    ensures { result ≡ count_by (λ one. not one) covered.now }
{
    covered.iter().filter(|one| !**one).count() as u64
}
