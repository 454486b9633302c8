//! What is known of a block's words.

ghost use Rattle.std.specs.Prelude.{◌≡◌, ◌<◌, ◌∷◌, [], Some, None};
ghost use Rattle.lr_block.specs.Blocks.{word_of};
ghost use Rattle.lr_block.specs.Outcomes.{restored_of};
ghost use Rattle.lr_redecode.specs.Redecoded.{count_known, known_or, outcome_at, outcome_by, with_block};
ghost use Rattle.lr_rs.specs.Words.{distance};

use lr_bits::{BLOCK_BYTES, Corrected, FRAME_BYTES, Outcome};
use lr_block::{information, put_word, take_word};
use lr_rs::{RsScratch, WORD_BYTES, distance_of, restore};

/// A codeword, or nothing where none is known.
pub(crate) type Known = Option<[u8; WORD_BYTES]>;

/// The codeword that a word of a block is restored to, or nothing where it is beyond sixteen wrong bytes.
fn restored_word(block: &[u8; BLOCK_BYTES], k: usize, scratch: &mut RsScratch) -> Known
    requires { k < 4 }
    ensures { result ≡ restored_of (word_of block.now k) }
{
    let mut word = [0u8; WORD_BYTES];
    take_word(block, k, &mut word);
    match restore(&mut word, scratch) {
        Ok(_) => Some(word),
        Err(_) => None,
    }
}

/// What is known of a word with a block beside what was known: that stays.
fn known_or_restored(
    known: &Known,
    block: &[u8; BLOCK_BYTES],
    k: usize,
    scratch: &mut RsScratch,
) -> Known
    requires { k < 4 }
    ensures { result ≡ known_or known.now (restored_of (word_of block.now k)) }
{
    match known {
        Some(word) => Some(*word),
        None => restored_word(block, k, scratch),
    }
}

/// What is known of all four words with a block.
pub(crate) fn known_with(
    known: &[Known; 4],
    block: &[u8; BLOCK_BYTES],
    scratch: &mut RsScratch,
) -> [Known; 4]
    ensures { result ≡ with_block known.now block.now }
{
    [
        known_or_restored(&known[0], block, 0, scratch),
        known_or_restored(&known[1], block, 1, scratch),
        known_or_restored(&known[2], block, 2, scratch),
        known_or_restored(&known[3], block, 3, scratch),
    ]
}

/// How many words are known.
pub(crate) fn count_of(known: &[Known; 4]) -> usize
    ensures { result ≡ count_known known.now }
{
    usize::from(known[0].is_some())
        + usize::from(known[1].is_some())
        + usize::from(known[2].is_some())
        + usize::from(known[3].is_some())
}

/// How many bytes of a word of a block differ from a codeword: up to 255, where the codeword is of a later path.
fn changes(block: &[u8; BLOCK_BYTES], k: usize, codeword: &[u8; WORD_BYTES]) -> u8
    requires { k < 4 }
    ensures { result ≡ distance WORD_BYTES (word_of block.now k) codeword.now }
{
    let mut word = [0u8; WORD_BYTES];
    take_word(block, k, &mut word);
    distance_of(&word, codeword) as u8
}

/// The outcome where all four words are known, and the block of the first path.
fn restored(
    block: &[u8; BLOCK_BYTES],
    first: &[u8; WORD_BYTES],
    second: &[u8; WORD_BYTES],
    third: &[u8; WORD_BYTES],
    fourth: &[u8; WORD_BYTES],
) -> Outcome
    ensures { result ≡ outcome_at block.now
        (Some first.now ∷ Some second.now ∷ Some third.now ∷ Some fourth.now ∷ []) None }
{
    let mut whole = [0u8; BLOCK_BYTES];
    put_word(&mut whole, 0, first);
    put_word(&mut whole, 1, second);
    put_word(&mut whole, 2, third);
    put_word(&mut whole, 3, fourth);
    let mut frame = [0u8; FRAME_BYTES];
    information(&whole, &mut frame);
    let in_first = changes(block, 0, first);
    let in_second = changes(block, 1, second);
    let in_third = changes(block, 2, third);
    let in_fourth = changes(block, 3, fourth);
    Outcome::Restored(Corrected([in_first, in_second, in_third, in_fourth]), frame)
}

/// The outcome of what is known, and of the block of the first path.
pub(crate) fn outcome_of(block: &[u8; BLOCK_BYTES], known: &[Known; 4]) -> Outcome
    ensures { result ≡ outcome_by block.now known.now }
{
    match &known[0] {
        None => Outcome::Lost(0),
        Some(first) => match &known[1] {
            None => Outcome::Lost(1),
            Some(second) => match &known[2] {
                None => Outcome::Lost(2),
                Some(third) => match &known[3] {
                    None => Outcome::Lost(3),
                    Some(fourth) => restored(block, first, second, third, fourth),
                },
            },
        },
    }
}
