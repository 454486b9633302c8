//! What a strip is.

ghost use Rattle.std.specs.Prelude.{◌≡◌, IfOk};
ghost use Rattle.lr_render.specs.Strips.{IsStrip};

use lr_bits::{Bytes, NoMemory, Pixels};
use std::alloc::Global;
use std::marker::Model;

/// How the pixels of a strip stand in its bytes.
#[derive(Clone, Copy)]
pub enum Coding {
    /// One after another, from this bit of the first byte on, which is one of its eight.
    Plain { first_bit: u8 },
    /// Line after line without loss (CCSDS 121.0-B), in blocks of this many samples.
    Coded { block: u8 },
}

/// What the pixels of a strip are read from: whole lines of an image, the first one first.
#[derive(Drop)]
pub struct StripSource {
    /// The bytes in which the pixels stand.
    pub bytes: Bytes,
    /// How they stand there.
    pub coding: Coding,
    /// The bits of a pixel.
    pub bits: u8,
    /// The pixels of a line.
    pub columns: u32,
    /// The lines of the strip.
    pub lines: u32,
}

/// A strip to be decoded, with the memory for its pixels. It is seen as what they are read from.
#[derive(Drop)]
pub struct Strip {
    pub(crate) source: StripSource,
    pub(crate) pixels: Pixels,
}

impl Model for Strip {
    ghost use Rattle.std.specs.Prelude.{◌≡◌, ◌*◌, length};
    ghost use Rattle.lr_render.specs.declared.strip.StripSource.{StripSource};
    ghost use Rattle.lr_render.specs.Strips.{IsStrip};

    ghost Value = { StripSource };

    ghost view = { λ s. s.source };

    ghost invariant = { λ s. IsStrip s.source × (length s.pixels ≡ s.source.columns * s.source.lines) };
}

impl Strip {
    /// A strip of this source, with memory for its pixels.
    pub fn new(alloc: Global, source: StripSource) -> Result<Strip, NoMemory>
        requires { IsStrip source }
        ensures { IfOk result (λ strip. strip ≡ source) }
    {
        let count = source.columns as usize * source.lines as usize;
        let pixels = Pixels::zeros(alloc, count)?;
        Ok(Strip { source, pixels })
    }
}
