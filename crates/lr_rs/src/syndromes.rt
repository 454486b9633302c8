//! The syndromes, and the locators of a word's places.
#![tactic(auto)]

ghost use Rattle.std.specs.Prelude.{◌≡◌, ℕ, ◌+◌, ◌-◌, ◌*◌, ◌<◌, slice_index};
ghost use Rattle.lr_gf.specs.Field.{power, value_of};
ghost use Rattle.lr_rs.specs.Words.{locator};

use crate::sizes::{CHECK_BYTES, WORD_BYTES};
use lr_gf::{Gf, value};

/// The j-th root of the code.
fn root(j: u32) -> Gf
    requires { j < CHECK_BYTES }
    ensures { result ≡ power 2 (11 * (112 + j)) }
{
    Gf(2).pow(11 * (112 + j))
}

/// The locator of a place: the root that an error there gives the error locator polynomial.
pub(crate) fn locator_of(place: usize) -> Gf
    requires { place < WORD_BYTES }
    ensures { result ≡ locator place }
{
    Gf(2).pow((11 * (254 - place)) as u32)
}

/// The syndromes: the values of the remainder, which are those of the word, at the 32 roots.
pub(crate) fn syndromes_of(remainder: &[Gf; CHECK_BYTES], syndromes: &mut [Gf; CHECK_BYTES])
    ensures { (j : ℕ) → j < CHECK_BYTES
        → slice_index syndromes.new j ≡ value_of remainder.now (power 2 (11 * (112 + j))) }
{
    for j in 0..32u32 {
        syndromes[j as usize] = value(remainder, root(j));
    }
}
