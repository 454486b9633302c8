//! A list of pixels of 16 bits that grows. It is seen as the list.

ghost use Rattle.std.specs.Prelude.{◌≡◌, ◌+◌, ◌<◌, ◌^◌, ◌++◌, ◌∷◌, [], IfOk, OnOk, OnErr, length, replicate, take};
ghost use Rattle.std.specs.Borrow.{sem};
ghost use Rattle.lr_bits.specs.Pixels.{LendsPixels};

use crate::NoMemory;
use std::alloc::Global;
use std::marker::Model;

/// A list of pixels that grows at its end.
#[derive(Drop)]
pub struct Pixels {
    pixels: Vec<u16>,
}

impl Model for Pixels {
    ghost use Rattle.std.specs.Prelude.{List, ℕ};

    ghost Value = { List ℕ };

    ghost view = { λ p. p.pixels.items };
}

impl Pixels {
    /// No pixels. This takes no memory.
    pub fn new(alloc: Global) -> Self
        ensures { result ≡ [] }
    {
        Pixels {
            pixels: Vec::new(alloc),
        }
    }

    /// No pixels, and the memory for `count` of them.
    pub fn with_capacity(alloc: Global, count: usize) -> Result<Self, NoMemory>
        ensures { IfOk result (λ pixels. pixels ≡ []) }
    {
        let pixels = Vec::with_capacity(alloc, count)?;
        Ok(Pixels { pixels })
    }

    /// `count` pixels of 0.
    pub fn zeros(alloc: Global, count: usize) -> Result<Self, NoMemory>
        ensures { IfOk result (λ pixels. pixels ≡ replicate count 0) }
    {
        let mut pixels = Pixels::new(alloc);
        pixels.grow(count)?;
        Ok(pixels)
    }

    /// Appends the pixel, or leaves the list as it is.
    pub fn push(&mut self, value: u16) -> Result<(), NoMemory>
        ensures ok { OnOk result (self.new ≡ self.old ++ value ∷ []) }
        ensures err { OnErr result (self.new ≡ self.old) }
    {
        self.pixels.push(value)?;
        Ok(())
    }

    /// Appends these pixels, or leaves the list as it is.
    pub fn extend(&mut self, more: &[u16]) -> Result<(), NoMemory>
        ensures ok { OnOk result (self.new ≡ self.old ++ more.now) }
        ensures err { OnErr result (self.new ≡ self.old) }
    {
        self.pixels.extend_from_slice(more)?;
        Ok(())
    }

    /// Appends `count` pixels of 0, or leaves the list as it is.
    pub fn grow(&mut self, count: usize) -> Result<(), NoMemory>
        ensures ok { OnOk result (self.new ≡ self.old ++ replicate count 0) }
        ensures err { OnErr result (self.new ≡ self.old) }
    {
        let Some(length) = self.pixels.len().checked_add(count) else {
            return Err(NoMemory);
        };
        self.pixels.resize(length, 0)?;
        Ok(())
    }

    /// Keeps the first `count` pixels, or all, where there are no more. This takes no memory.
    pub fn truncate(&mut self, count: usize)
        ensures { self.new ≡ take count self.old }
    {
        self.pixels.truncate(count);
    }

    /// All pixels of the list.
    pub fn as_slice(&self) -> &[u16]
        ensures { result.now ≡ self.now }
    {
        &self.pixels
    }

    /// The pixels, to be written.
    pub fn as_mut_slice(&mut self) -> &mut [u16]
        ensures* writes_back { sem 𝓛 (LendsPixels self.entry result) }
        ensures value { result.now ≡ self.old }
    {
        &mut self.pixels
    }
}
