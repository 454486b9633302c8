//! The work on a window.

ghost use Rattle.std.specs.Prelude.{◌≡◌};
ghost use Rattle.lr_frame.specs.Outcomes.{redecoded_outcome};
ghost use Rattle.lr_trellis.specs.Path.{bytes_of_bits, nearest_path};

use lr_bits::{BLOCK_BYTES, NoMemory, Outcome};
use lr_block::outcome_of;
use lr_conv::Passes;
use lr_gatecore::Work;
use lr_lanes::{LaneScratch, nearest_narrow_lanes};
use lr_lock::Window;
use lr_redecode::Redecoder;
use lr_rs::RsScratch;
use std::alloc::Global;

/// A window that is done with, and the outcome of its frame.
#[derive(Drop)]
pub struct FrameDone {
    /// The window, as it was.
    pub window: Window,
    pub outcome: Outcome,
}

/// Leads windows to outcomes, one after another. Nothing lasts from one to the next.
#[derive(Drop)]
pub struct FrameWork {
    lanes: LaneScratch,
    words: RsScratch,
    redecoder: Redecoder,
}

impl FrameWork {
    /// Room for the work, some 80,000 bytes: that for further passes too, so that no window needs memory.
    pub fn new(alloc: Global) -> Result<Self, NoMemory> {
        let lanes = LaneScratch::new(alloc)?;
        let redecoder = Redecoder::new(alloc)?;
        Ok(FrameWork {
            lanes,
            words: RsScratch::new(),
            redecoder,
        })
    }

    /// The outcome of a window's frame, under the window's line code, after as many passes as the window says. Only a
    /// frame that is lost in the first pass has further ones. It takes no memory.
    pub fn outcome(&mut self, window: &Window) -> Outcome
        ensures { result ≡ redecoded_outcome window.now.line window.now.passes window.now.symbols }
    {
        let mut block = [0; BLOCK_BYTES];
        nearest_narrow_lanes(window.line(), window.symbols(), &mut self.lanes, &mut block);
        match window.passes() {
            Passes::One => outcome_of(&block, &mut self.words),
            passes => self.redecoded(window, passes, &block),
        }
    }

    /// The outcome of a window's frame after some passes, from the bytes of its nearest path. What the first pass
    /// restores stays, so further ones are made only where it loses the frame.
    fn redecoded(&mut self, window: &Window, passes: Passes, path: &[u8; BLOCK_BYTES]) -> Outcome
        requires { path.now ≡ bytes_of_bits (nearest_path window.now.line window.now.symbols) }
        ensures { result ≡ redecoded_outcome window.now.line passes window.now.symbols }
    {
        match outcome_of(path, &mut self.words) {
            Outcome::Restored(corrected, frame) => Outcome::Restored(corrected, frame),
            Outcome::Lost(_) => self.redecoder.outcome(
                window.line(),
                passes,
                window.symbols(),
                path,
                self.lanes.words(),
                &mut self.words,
            ),
        }
    }
}

impl Work for FrameWork {
    ghost use Rattle.lr_frame.specs.Hands.{done_of};

    type Job = Window;

    type Done = FrameDone;

    ghost gives = { done_of };

    /// Gives the window back with its outcome. It takes no memory.
    fn run(&mut self, job: Window) -> FrameDone {
        let outcome = self.outcome(&job);
        FrameDone {
            window: job,
            outcome,
        }
    }
}
