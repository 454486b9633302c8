//! The correction of a word, and in how many bytes two words differ.
#![tactic(auto)]

ghost use Rattle.std.specs.Prelude.{◌≡◌, ◌≢◌, ℕ, ◌<◌, ◌≤◌, bit_xor, slice_index};
ghost use Rattle.lr_gf.specs.Dual.{conventional_of};
ghost use Rattle.lr_rs.specs.Words.{distance};

use crate::sizes::WORD_BYTES;
use lr_gf::{Gf, from_dual, to_dual};

/// Adds the error values to a word at their places.
pub(crate) fn correct(
    word: &mut [u8; WORD_BYTES],
    places: &[usize; WORD_BYTES],
    count: usize,
    errors: &[Gf; 16],
)
    requires count { count ≤ 16 }
    requires places { (l : ℕ) → l < count → slice_index places.now l < WORD_BYTES }
    requires different { (i j : ℕ) → i < count → j < count
        → slice_index places.now i ≡ slice_index places.now j → i ≡ j }
    ensures changed { (l : ℕ) → l < count
        → conventional_of (slice_index word.new (slice_index places.now l))
        ≡ bit_xor (conventional_of (slice_index word.old (slice_index places.now l)))
        (slice_index errors.now l) }
    ensures kept { (p : ℕ) → ((l : ℕ) → l < count → slice_index places.now l ≢ p)
        → slice_index word.new p ≡ slice_index word.old p }
{
    for l in 0..count {
        let place = places[l];
        let here = errors[l];
        word[place] = to_dual(from_dual(word[place]) ^ here.0);
    }
}

/// In how many places two words differ.
pub fn distance_of(a: &[u8; WORD_BYTES], b: &[u8; WORD_BYTES]) -> usize
    ensures value { result ≡ distance WORD_BYTES a.now b.now }
    ensures most { result ≤ WORD_BYTES }
{
    let mut count = 0;
    for i in 0..WORD_BYTES {
        if a[i] != b[i] {
            count += 1;
        }
    }
    count
}
