//! Encoding a frame.
#![tactic(auto)]

ghost use Rattle.std.specs.Prelude.{◌≡◌, ◌<◌, ℕ, List, take};
ghost use Rattle.lr_rs.specs.Words.{IsCodeword, IsWord};
ghost use Rattle.lr_block.specs.Blocks.{IsEncoded, information_of, word_of};

use crate::words::put_word;
use lr_bits::{BLOCK_BYTES, FRAME_BYTES};
use lr_rs::{INFORMATION_BYTES, WORD_BYTES, encode};

/// Copies the information of a word out of a frame.
fn take_information(frame: &[u8; FRAME_BYTES], k: usize, information: &mut [u8; INFORMATION_BYTES])
    requires { k < 4 }
    ensures { information.new ≡ information_of frame.now k }
{
    for i in 0..INFORMATION_BYTES {
        information[i] = frame[4 * i + k];
    }
}

/// Encodes a frame: the block of four codewords whose information is the frame. The block isn't randomised.
pub fn encode_block(frame: &[u8; FRAME_BYTES], block: &mut [u8; BLOCK_BYTES])
    ensures encoded { IsEncoded frame.now block.new }
    ensures only { (b : List ℕ) → IsEncoded frame.now b → b ≡ block.new }
{
    let mut information = [0u8; INFORMATION_BYTES];
    let mut word = [0u8; WORD_BYTES];
    for k in 0..4 {
        take_information(frame, k, &mut information);
        encode(&information, &mut word);
        put_word(block, k, &word);
    }
}
