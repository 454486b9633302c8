//! The remainder of a word's polynomial, divided by the generator polynomial.
#![tactic(auto)]

ghost use Rattle.std.specs.Prelude.{◌≡◌, ◌↔◌, ℕ, ◌+◌, ◌<◌, ◌++◌, ◌∷◌, [], List, bit_xor, slice_index, length, IsTrue};
ghost use Rattle.lr_gf.specs.Field.{times};
ghost use Rattle.lr_rs.specs.Words.{IsCodeword, IsWord};
ghost use Rattle.lr_rs.specs.Division.{IsDivisionStep, IsWordRemainder, IsRemainderOf};

use crate::generator::generator_products;
use crate::sizes::{CHECK_BYTES, WORD_BYTES};
use lr_gf::{Gf, from_dual};
use std::marker::Model;
use std::simd::prelude::*;

/// Where a step's coefficients come from: each is the next one, and the last is the one that is taken in.
const NEXT: [usize; CHECK_BYTES] = [
    1, 2, 3, 4, 5, 6, 7, 8, 9, 10, 11, 12, 13, 14, 15, 16, 17, 18, 19, 20, 21, 22, 23, 24, 25, 26,
    27, 28, 29, 30, 31, 32,
];

/// Takes one more coefficient into the division.
#[inline(always)]
fn divide_step(remainder: u8x32, coefficient: u8) -> u8x32
    requires size { length remainder ≡ CHECK_BYTES }
    ensures { IsDivisionStep coefficient remainder result }
{
    let feedback = remainder.to_array()[0];
    remainder.shuffle(u8x32::splat(coefficient), NEXT) ^ generator_products(feedback)
}

/// The remainder of the bytes that were taken in so far, the first of them the highest coefficient. With one for each
/// word, a single walk over interleaved words divides them all.
#[derive(Drop)]
pub struct Remainder {
    lanes: u8x32,
}

impl Model for Remainder {
    ghost use Rattle.std.specs.Prelude.{◌≡◌, ℕ, List, length};
    ghost use Rattle.lr_rs.specs.declared.sizes.TheConstants.{CHECK_BYTES};

    ghost Value = { List ℕ };

    ghost view = { λ r. r.lanes };

    ghost invariant = { λ r. length r.lanes ≡ CHECK_BYTES };
}

impl Remainder {
    /// The remainder of no bytes.
    #[inline(always)]
    pub fn new() -> Remainder
        ensures { IsRemainderOf [] result }
    {
        Remainder {
            lanes: u8x32::splat(0),
        }
    }

    /// The remainder with one byte more.
    #[inline(always)]
    pub fn with_byte(self, byte: u8) -> Remainder
        ensures { (bytes : List ℕ) → IsRemainderOf bytes self → IsRemainderOf (bytes ++ byte ∷ []) result }
    {
        Remainder {
            lanes: divide_step(self.lanes, from_dual(byte)),
        }
    }

    /// Whether the word of these bytes is a codeword.
    #[inline(always)]
    pub fn is_of_codeword(&self) -> bool
        ensures { (word : List ℕ) → IsRemainderOf word self.now → length word ≡ WORD_BYTES →
            IsTrue result ↔ IsCodeword word }
    {
        let mut elements = [Gf(0); CHECK_BYTES];
        put_elements(self.lanes, &mut elements);
        are_zero(&elements)
    }
}

/// The elements that lanes hold.
#[inline(always)]
fn put_elements(lanes: u8x32, elements: &mut [Gf; CHECK_BYTES])
    requires size { length lanes ≡ CHECK_BYTES }
    ensures { elements.new ≡ lanes }
{
    let bytes = lanes.to_array();
    for k in 0..CHECK_BYTES {
        elements[k] = Gf(bytes[k]);
    }
}

/// Divides a word's polynomial: the remainder's coefficients, the highest first.
pub(crate) fn remainder_of(word: &[u8; WORD_BYTES], remainder: &mut [Gf; CHECK_BYTES])
    ensures remainder { IsWordRemainder word.now remainder.new }
    ensures word { IsWord word.now }
{
    let mut divided = Remainder::new();
    for byte in word {
        divided = divided.with_byte(*byte);
    }
    put_elements(divided.lanes, remainder);
}

/// Whether all elements are zero.
pub(crate) fn are_zero(elements: &[Gf; CHECK_BYTES]) -> bool
    ensures { IsTrue result ↔ ((k : ℕ) → k < CHECK_BYTES → slice_index elements.now k ≡ 0) }
{
    for k in 0..CHECK_BYTES {
        let here = elements[k];
        if here.0 != 0 {
            return false;
        }
    }
    true
}
