//! The passes over a window.

ghost use Rattle.std.specs.Prelude.{◌≡◌, ◌+◌, ◌*◌, length, vec_len};
ghost use Rattle.lr_bits.specs.declared.sizes.TheConstants.{BLOCK_BYTES};
ghost use Rattle.lr_conv.specs.Passes.{number_of};
ghost use Rattle.lr_trellis.specs.Path.{bytes_of_bits, nearest_path};
ghost use Rattle.lr_redecode.specs.Redecoded.{block_by, outcome_after};

use crate::known::{Known, count_of, known_with, outcome_of};
use crate::pins::fill_pins;
use lr_bits::{BLOCK_BYTES, NoMemory, Outcome, WINDOW_SYMBOLS};
use lr_block::derandomise;
use lr_conv::{LineCode, Passes};
use lr_pinned::nearest_pinned;
use lr_rs::RsScratch;
use lr_trellis::MOST_STEPS;
use std::alloc::Global;

/// How many passes there are after the first.
fn further_passes(passes: Passes) -> usize
    ensures { result + 1 ≡ number_of passes }
{
    match passes {
        Passes::One => 0,
        Passes::Two => 1,
        Passes::Three => 2,
        Passes::Four => 3,
    }
}

/// Room for the pins of a window. What it holds before a call has no bearing on the answer.
#[derive(Drop)]
pub struct Redecoder {
    pins: Vec<Option<bool>>,
    ghost whole: { vec_len pins ≡ 8 * BLOCK_BYTES },
}

impl Redecoder {
    /// Room for the 8,160 pins of a window.
    pub fn new(alloc: Global) -> Result<Redecoder, NoMemory> {
        let pins = vec![in alloc; None; 8 * BLOCK_BYTES]?;
        Ok(Redecoder { pins })
    }

    /// The block of the nearest path that agrees with what is known, without the randomiser's sequence.
    fn fill_block(
        &mut self,
        line: LineCode,
        window: &[i8],
        known: &[Known; 4],
        decisions: &mut [u64],
        block: &mut [u8; BLOCK_BYTES],
    )
        requires window { length window.now ≡ WINDOW_SYMBOLS }
        requires decisions { length decisions.old ≡ MOST_STEPS }
        ensures { block.new ≡ block_by line window.now known.now }
    {
        fill_pins(known, &mut self.pins);
        nearest_pinned(line, window, &self.pins, decisions, block);
        derandomise(block);
    }

    /// The outcome of a window after some passes, from the bytes of its nearest path. A further pass is made only where
    /// the one before it restored a word, and not all four are known. It takes no memory: `decisions` is room for those
    /// of a path, and `words` for those of a word.
    pub fn outcome(
        &mut self,
        line: LineCode,
        passes: Passes,
        window: &[i8],
        path: &[u8; BLOCK_BYTES],
        decisions: &mut [u64],
        words: &mut RsScratch,
    ) -> Outcome
        requires window { length window.now ≡ WINDOW_SYMBOLS }
        requires path { path.now ≡ bytes_of_bits (nearest_path line window.now) }
        requires decisions { length decisions.old ≡ MOST_STEPS }
        ensures { result ≡ outcome_after line window.now (number_of passes) }
    {
        let mut first = *path;
        derandomise(&mut first);
        let mut known = known_with(&[None; 4], &first, words);
        let mut before = 0;
        for turn in 0..further_passes(passes) {
            let count = count_of(&known);
            if before < count && count < 4 {
                before = count;
                let mut block = [0u8; BLOCK_BYTES];
                self.fill_block(line, window, &known, decisions, &mut block);
                known = known_with(&known, &block, words);
            }
        }
        outcome_of(&first, &known)
    }
}
