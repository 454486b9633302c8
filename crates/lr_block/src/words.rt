//! The four words of a block.
#![tactic(auto)]

ghost use Rattle.std.specs.Prelude.{◌≡◌, ◌≢◌, ◌<◌, ℕ};
ghost use Rattle.lr_block.specs.Blocks.{word_of};

use lr_bits::BLOCK_BYTES;
use lr_rs::WORD_BYTES;

/// Copies a word out of a block.
pub fn take_word(block: &[u8; BLOCK_BYTES], k: usize, word: &mut [u8; WORD_BYTES])
    requires { k < 4 }
    ensures { word.new ≡ word_of block.now k }
{
    for i in 0..WORD_BYTES {
        word[i] = block[4 * i + k];
    }
}

/// Copies a word into a block.
pub fn put_word(block: &mut [u8; BLOCK_BYTES], k: usize, word: &[u8; WORD_BYTES])
    requires { k < 4 }
    ensures put { word_of block.new k ≡ word.now }
    ensures kept { (j : ℕ) → j < 4 → j ≢ k → word_of block.new j ≡ word_of block.old j }
{
    for i in 0..WORD_BYTES {
        block[4 * i + k] = word[i];
    }
}
