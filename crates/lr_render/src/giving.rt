//! How the strips of an image are given.

ghost use Rattle.std.specs.Prelude.{◌≡◌, ◌-◌, [], Some, None, IfOk, OnErr};
ghost use Rattle.lr_image.specs.Places.{pieces_at};
ghost use Rattle.lr_image.specs.Images.{data_field};
ghost use Rattle.lr_image.specs.Shapes.{IsCoding};
ghost use Rattle.lr_render.specs.Giving.{CanBeCut, GivesStrip, GivesWithin, strips_left};
ghost use Rattle.lr_render.specs.Tiling.{coded_strips, strips_after};

use crate::cut::{coded_strip, next_lines, plain_strip};
use crate::strip::Strip;
use lr_bits::{MissionFile, NoMemory};
use lr_headers::Lossless;
use lr_image::{Layout, PiecePlace, next_piece};
use std::alloc::Global;

/// How far the strips of an image were given.
#[derive(Clone, Copy)]
pub(crate) struct Giving {
    /// How many were given.
    pub strips: u32,
    /// How many lines these have.
    pub lines: u32,
    /// Where the next piece stands, if the image is coded without loss.
    pub place: PiecePlace,
}

impl Giving {
    /// The next strip of the file's image, if one is left.
    pub(crate) fn next(
        &mut self,
        alloc: Global,
        file: &MissionFile,
        layout: Layout,
    ) -> Result<Option<Strip>, NoMemory>
        requires cut { CanBeCut file.now layout }
        requires within { GivesWithin file.now layout.shape.structure self.old }
        ensures ok { IfOk result (GivesStrip file.now layout.shape.structure (record {
          old = self.old;
          new = self.new;
          before = strips_left file.now layout self.old;
          after = strips_left file.now layout self.new;
        })) }
        ensures err { OnErr result (self.new ≡ self.old) }
    {
        match layout.shape.lossless {
            None => self.next_plain(alloc, file, layout),
            Some(lossless) => self.next_coded(alloc, file, layout, lossless),
        }
    }

    /// The next strip of an image that isn't compressed.
    fn next_plain(
        &mut self,
        alloc: Global,
        file: &MissionFile,
        layout: Layout,
    ) -> Result<Option<Strip>, NoMemory>
        requires cut { CanBeCut file.now layout }
        requires plain { layout.shape.lossless ≡ None }
        requires within { GivesWithin file.now layout.shape.structure self.old }
        ensures ok { IfOk result (GivesStrip file.now layout.shape.structure (record {
          old = self.old;
          new = self.new;
          before = strips_after layout.shape.structure None (data_field file.now layout.header_bytes) self.old.lines [];
          after = strips_after layout.shape.structure None (data_field file.now layout.header_bytes) self.new.lines [];
        })) }
        ensures err { OnErr result (self.new ≡ self.old) }
    {
        let structure = layout.shape.structure;
        let left = u32::from(structure.lines) - self.lines;
        if left == 0 {
            return Ok(None);
        }
        let field = &file.proper()[layout.header_bytes..];
        let lines = next_lines(structure, left);
        let strip = plain_strip(alloc, field, structure, self.lines, lines)?;
        self.lines += lines;
        self.strips += 1;
        Ok(Some(strip))
    }

    /// The next strip of an image that is coded without loss.
    fn next_coded(
        &mut self,
        alloc: Global,
        file: &MissionFile,
        layout: Layout,
        lossless: Lossless,
    ) -> Result<Option<Strip>, NoMemory>
        requires cut { CanBeCut file.now layout }
        requires coded { layout.shape.lossless ≡ Some lossless }
        requires within { GivesWithin file.now layout.shape.structure self.old }
        ensures ok { IfOk result (GivesStrip file.now layout.shape.structure (record {
          old = self.old;
          new = self.new;
          before = coded_strips layout.shape.structure lossless (layout.shape.structure.lines - self.old.lines)
              (pieces_at file.now self.old.place);
          after = coded_strips layout.shape.structure lossless (layout.shape.structure.lines - self.new.lines)
              (pieces_at file.now self.new.place);
        })) }
        ensures err { OnErr result (self.new ≡ self.old) }
    {
        let structure = layout.shape.structure;
        let left = u32::from(structure.lines) - self.lines;
        if left == 0 {
            return Ok(None);
        }
        let mut place = self.place;
        let Some(piece) = next_piece(file, &mut place) else {
            return Ok(None);
        };
        let lines = u32::from(lossless.lines).min(left);
        let strip = coded_strip(alloc, piece, structure, lossless, lines)?;
        self.place = place;
        self.lines += lines;
        self.strips += 1;
        Ok(Some(strip))
    }
}
