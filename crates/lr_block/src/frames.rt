//! The frame in a block.
#![tactic(auto)]

ghost use Rattle.std.specs.Prelude.{◌≡◌, ◌<◌, ℕ, take};
ghost use Rattle.lr_block.specs.Blocks.{information_of, word_of};

use lr_bits::{BLOCK_BYTES, FRAME_BYTES};
use lr_rs::INFORMATION_BYTES;

/// Copies the information out of a block: the first 223 bytes of each word, interleaved as in the block.
pub fn information(block: &[u8; BLOCK_BYTES], frame: &mut [u8; FRAME_BYTES])
    ensures frame { frame.new ≡ take FRAME_BYTES block.now }
    ensures words { (k : ℕ) → k < 4 → information_of frame.new k ≡ take INFORMATION_BYTES (word_of block.now k) }
{
    frame.copy_from_slice(&block[..FRAME_BYTES]);
}
