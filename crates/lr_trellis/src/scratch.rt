//! What a path needs room for.

ghost use Rattle.std.specs.Prelude.{◌≡◌, ◌*◌, ◌≤◌, length, vec_len};
ghost use Rattle.lr_trellis.specs.Words.{IsDecided};
ghost use Rattle.lr_trellis.specs.declared.scratch.TheConstants.{MOST_STEPS};

use crate::steps::forward;
use lr_bits::{BLOCK_BYTES, NoMemory};
use lr_conv::LineCode;
use std::alloc::Global;

/// The most steps whose decisions are kept: those of the bits of a block, and of five bits of the next marker.
pub const MOST_STEPS: usize = 8 * BLOCK_BYTES + 5;

/// Room for the decisions of a path. What it holds before a call has no bearing on the answer, so one serves any number
/// of windows.
#[derive(Drop)]
pub struct TrellisScratch {
    pub(crate) words: Vec<u64>,
    ghost whole: { vec_len words ≡ MOST_STEPS },
}

impl TrellisScratch {
    /// Room for the decisions of a frame's window, in 8,165 words of eight bytes.
    pub fn new(alloc: Global) -> Result<TrellisScratch, NoMemory> {
        let words = vec![in alloc; 0u64; MOST_STEPS]?;
        Ok(TrellisScratch { words })
    }

    /// Keeps the decisions of the first `steps` steps of a window, and answers the least costs after them.
    pub(crate) fn decide(&mut self, line: LineCode, window: &[i8], steps: usize) -> [u32; 64]
        requires steps { steps ≤ MOST_STEPS }
        requires window { 2 * steps ≤ length window.now }
        ensures { IsDecided line window.now steps self.new.words.items result }
    {
        forward(line, window, steps, &mut self.words)
    }
}
