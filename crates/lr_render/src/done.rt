//! A strip that was decoded.

ghost use Rattle.std.specs.Prelude.{◌≡◌, ◌*◌, IfErr, IfOk, Option, length};
ghost use Rattle.lr_rice.specs.declared.fault.RiceFault.{RiceFault};
ghost use Rattle.lr_render.specs.Strips.{FailsWith, GivesPixels, IsDecodedStrip};

use crate::strip::StripSource;
use lr_bits::Pixels;
use lr_rice::RiceFault;
use std::marker::Model;

/// A strip with its pixels, or with the fault of its lines and pixels of 0. It is seen as what the pixels were read
/// from, since a strip has only one outcome.
#[derive(Drop)]
pub struct DoneStrip {
    pub(crate) source: StripSource,
    pub(crate) pixels: Pixels,
    pub(crate) fault: Option<RiceFault>,
}

impl Model for DoneStrip {
    ghost use Rattle.std.specs.Prelude.{◌≡◌, ◌*◌, length};
    ghost use Rattle.lr_render.specs.declared.strip.StripSource.{StripSource};
    ghost use Rattle.lr_render.specs.Strips.{IsDecodedStrip, IsStrip};

    ghost Value = { StripSource };

    ghost view = { λ s. s.source };

    ghost invariant = { λ s. IsStrip s.source × (length s.pixels ≡ s.source.columns * s.source.lines)
        × IsDecodedStrip s.source s.fault s.pixels };
}

impl DoneStrip {
    /// How many lines it has.
    pub fn lines(&self) -> u32
        ensures { result ≡ self.now.lines }
    {
        self.source.lines
    }

    /// Its pixels, line after line, or the fault of its lines.
    pub fn outcome(&self) -> Result<&[u16], RiceFault>
        ensures pixels { IfOk result (λ pixels. GivesPixels self.now pixels.now) }
        ensures whole { IfOk result (λ pixels. length pixels.now ≡ self.now.columns * self.now.lines) }
        ensures fault { IfErr result (FailsWith self.now) }
    {
        match self.fault {
            None => Ok(self.pixels.as_slice()),
            Some(fault) => Err(fault),
        }
    }

    /// Its pixels, line after line, each of them 0 where its lines have a fault.
    pub fn pixels(&self) -> &[u16]
        ensures { (fault : Option RiceFault) × IsDecodedStrip self.now fault result.now }
    {
        // So the proof sees what the strip keeps.
        let _ = &self.fault;
        self.pixels.as_slice()
    }
}
