//! Encoding: the information, and after it the check bytes.
#![tactic(auto)]

ghost use Rattle.std.specs.Prelude.{◌≡◌, ℕ, ◌+◌, ◌<◌, ◌≤◌, slice_index, take, List};
ghost use Rattle.lr_gf.specs.Dual.{conventional_of};
ghost use Rattle.lr_rs.specs.Words.{IsWord, IsCodeword};

use crate::division::remainder_of;
use crate::sizes::{CHECK_BYTES, INFORMATION_BYTES, WORD_BYTES};
use lr_gf::{Gf, to_dual};

/// Writes the information, and zeros after it.
fn put_information(information: &[u8; INFORMATION_BYTES], word: &mut [u8; WORD_BYTES])
    ensures begins { (i : ℕ) → i < INFORMATION_BYTES → slice_index word.new i ≡ slice_index information.now i }
    ensures zeros { (i : ℕ) → INFORMATION_BYTES ≤ i → slice_index word.new i ≡ 0 }
{
    let zeros = [0u8; WORD_BYTES];
    *word = zeros;
    for i in 0..INFORMATION_BYTES {
        word[i] = information[i];
    }
}

/// Writes the check bytes after the information.
fn put_check(word: &mut [u8; WORD_BYTES], check: &[Gf; CHECK_BYTES])
    ensures kept { (i : ℕ) → i < INFORMATION_BYTES → slice_index word.new i ≡ slice_index word.old i }
    ensures bytes { (k : ℕ) → k < CHECK_BYTES → slice_index word.new (INFORMATION_BYTES + k) < 256 }
    ensures check { (k : ℕ) → k < CHECK_BYTES
        → conventional_of (slice_index word.new (INFORMATION_BYTES + k)) ≡ slice_index check.now k }
{
    for k in 0..CHECK_BYTES {
        let coefficient = check[k];
        word[INFORMATION_BYTES + k] = to_dual(coefficient.0);
    }
}

/// Encodes: the codeword that begins with the information.
pub fn encode(information: &[u8; INFORMATION_BYTES], word: &mut [u8; WORD_BYTES])
    ensures begins { take INFORMATION_BYTES word.new ≡ information.now }
    ensures word { IsWord word.new }
    ensures codeword { IsCodeword word.new }
    ensures only { (c : List ℕ) → IsWord c → IsCodeword c → take INFORMATION_BYTES c ≡ information.now
        → c ≡ word.new }
{
    put_information(information, word);
    let mut check = [Gf(0); CHECK_BYTES];
    remainder_of(word, &mut check);
    put_check(word, &check);
}
