//! What a path needs room for.

ghost use Rattle.std.specs.Prelude.{◌≡◌, length, vec_len};
ghost use Rattle.lr_trellis.specs.Words.{IsDecided};
ghost use Rattle.lr_trellis.specs.declared.scratch.TheConstants.{MOST_STEPS};

use crate::forward::forward;
use crate::narrow_forward::narrow_forward;
use lr_bits::{NoMemory, WINDOW_SYMBOLS};
use lr_conv::LineCode;
use lr_trellis::MOST_STEPS;
use std::alloc::Global;

/// Room for the decisions of a window. What it holds before a call has no bearing on the answer, so one serves any
/// number of windows.
#[derive(Drop)]
pub struct LaneScratch {
    pub(crate) words: Vec<u64>,
    ghost whole: { vec_len words ≡ MOST_STEPS },
}

impl LaneScratch {
    /// Room for the decisions of a frame's window, in 8,165 words of eight bytes.
    pub fn new(alloc: Global) -> Result<LaneScratch, NoMemory> {
        let words = vec![in alloc; 0u64; MOST_STEPS]?;
        Ok(LaneScratch { words })
    }

    /// The words of the decisions, for another decoder of the same windows between two calls.
    pub fn words(&mut self) -> &mut [u64]
        ensures { length result.now ≡ MOST_STEPS }
    {
        &mut self.words
    }

    /// Keeps the decisions of a frame's window, and answers the least costs after them.
    pub(crate) fn decide(&mut self, line: LineCode, window: &[i8]) -> [u32; 64]
        requires { length window.now ≡ WINDOW_SYMBOLS }
        ensures { IsDecided line window.now MOST_STEPS self.new.words.items result }
    {
        forward(line, window, MOST_STEPS, &mut self.words)
    }

    /// Keeps the same decisions and answers the same costs, by lanes of sixteen bits.
    pub(crate) fn decide_by_narrow_lanes(&mut self, line: LineCode, window: &[i8]) -> [u32; 64]
        requires { length window.now ≡ WINDOW_SYMBOLS }
        ensures { IsDecided line window.now MOST_STEPS self.new.words.items result }
    {
        narrow_forward(line, window, MOST_STEPS, &mut self.words)
    }
}
