//! Restoring a block.
#![tactic(auto)]

ghost use Rattle.std.specs.Prelude.{◌≡◌, ◌↔◌, ◌<◌, ℕ, List, IfOk, IfErr, OnOk, OnErr, IsTrue};
ghost use Rattle.lr_rs.specs.Words.{IsCodeword, IsRestored, distance};
ghost use Rattle.lr_block.specs.Blocks.{IsFirstLost, IsRestoredBlock, changes_of, word_of};

use crate::words::{put_word, take_word};
use lr_bits::{BLOCK_BYTES, Corrected};
use lr_rs::{Remainder, RsScratch, WORD_BYTES, restore};

/// The first word of a block, 0 to 3, that has no codeword within sixteen bytes.
#[derive(Drop)]
pub struct BlockLost(pub u8);

/// Copies a word out of a block and restores it. Answers how many of its bytes were changed.
fn restore_word(
    block: &[u8; BLOCK_BYTES],
    k: u8,
    word: &mut [u8; WORD_BYTES],
    scratch: &mut RsScratch,
) -> Result<u8, BlockLost>
    requires { k < 4 }
    ensures restored { OnOk result (IsRestored (word_of block.now k) word.new) }
    ensures changed { IfOk result (λ n. n ≡ distance WORD_BYTES (word_of block.now k) word.new) }
    ensures named { IfErr result (λ lost. lost.0 ≡ k) }
    ensures lost { OnErr result ((c : List ℕ) → IsRestored (word_of block.now k) c → ⊥) }
{
    take_word(block, k as usize, word);
    match restore(word, scratch) {
        Ok(changed) => Ok(changed),
        Err(_) => Err(BlockLost(k)),
    }
}

/// Whether all four words of a block are codewords: their remainders are found in one walk over the block.
fn are_codewords(block: &[u8; BLOCK_BYTES]) -> bool
    ensures { IsTrue result ↔ ((k : ℕ) → k < 4 → IsCodeword (word_of block.now k)) }
{
    let mut first = Remainder::new();
    let mut second = Remainder::new();
    let mut third = Remainder::new();
    let mut fourth = Remainder::new();
    for i in 0..WORD_BYTES {
        first = first.with_byte(block[4 * i]);
        second = second.with_byte(block[4 * i + 1]);
        third = third.with_byte(block[4 * i + 2]);
        fourth = fourth.with_byte(block[4 * i + 3]);
    }
    let in_first = first.is_of_codeword();
    let in_second = second.is_of_codeword();
    let in_third = third.is_of_codeword();
    let in_fourth = fourth.is_of_codeword();
    in_first & in_second & in_third & in_fourth
}

/// Restores the words of a block one by one, as `restore_block` says.
fn restore_words(
    block: &mut [u8; BLOCK_BYTES],
    scratch: &mut RsScratch,
) -> Result<Corrected, BlockLost>
    ensures restored { OnOk result (IsRestoredBlock block.old block.new) }
    ensures changed { IfOk result (λ corrected. corrected.0 ≡ changes_of block.old block.new) }
    ensures lost { IfErr result (λ lost. IsFirstLost block.old lost.0) }
    ensures same { OnErr result (block.new ≡ block.old) }
{
    let mut first = [0u8; WORD_BYTES];
    let mut second = [0u8; WORD_BYTES];
    let mut third = [0u8; WORD_BYTES];
    let mut fourth = [0u8; WORD_BYTES];
    let in_first = restore_word(block, 0, &mut first, scratch)?;
    let in_second = restore_word(block, 1, &mut second, scratch)?;
    let in_third = restore_word(block, 2, &mut third, scratch)?;
    let in_fourth = restore_word(block, 3, &mut fourth, scratch)?;
    put_word(block, 0, &first);
    put_word(block, 1, &second);
    put_word(block, 2, &third);
    put_word(block, 3, &fourth);
    Ok(Corrected([in_first, in_second, in_third, in_fourth]))
}

/// Restores a block: each of its four words becomes the codeword that differs from it in at most sixteen bytes
/// (CCSDS 131.0-B, section 4). Answers how many bytes of each word were changed; or names the first word that has no
/// such codeword, and leaves the block.
pub fn restore_block(
    block: &mut [u8; BLOCK_BYTES],
    scratch: &mut RsScratch,
) -> Result<Corrected, BlockLost>
    ensures restored { OnOk result (IsRestoredBlock block.old block.new) }
    ensures changed { IfOk result (λ corrected. corrected.0 ≡ changes_of block.old block.new) }
    ensures lost { IfErr result (λ lost. IsFirstLost block.old lost.0) }
    ensures same { OnErr result (block.new ≡ block.old) }
{
    if are_codewords(block) {
        return Ok(Corrected([0; 4]));
    }
    restore_words(block, scratch)
}
