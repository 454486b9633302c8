//! The work on a strip.

use crate::decode::decode;
use crate::done::DoneStrip;
use crate::strip::Strip;
use lr_gatecore::Work;

/// Decodes strips, one after another. Nothing lasts from one to the next.
#[derive(Clone, Copy)]
pub struct RenderWork;

impl RenderWork {
    /// It takes no memory.
    pub fn new() -> RenderWork {
        RenderWork
    }
}

impl Work for RenderWork {
    type Job = Strip;

    type Done = DoneStrip;

    ghost gives = { λ strip. strip };

    /// Decodes the strip. It takes no memory.
    fn run(&mut self, job: Strip) -> DoneStrip {
        let Strip { source, mut pixels } = job;
        let fault = decode(&source, pixels.as_mut_slice());
        DoneStrip {
            source,
            pixels,
            fault,
        }
    }
}
