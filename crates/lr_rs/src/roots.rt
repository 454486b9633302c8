//! The roots of the error locator polynomial, found place by place.
#![tactic(auto)]

ghost use Rattle.std.specs.Prelude.{◌≡◌, ℕ, ◌<◌, slice_index, length};
ghost use Rattle.lr_gf.specs.Sums.{sum_of};
ghost use Rattle.lr_gf.specs.Field.{times};
ghost use Rattle.lr_rs.specs.RootLists.{IsRootList, term_factor};

use crate::sizes::WORD_BYTES;
use crate::terms::next_term;
use lr_gf::Gf;

/// Leads each term from a place's locator to the next place's.
#[inline(always)]
fn step_terms(terms: &mut [Gf; 17])
    ensures stepped { (k : ℕ) → k < 16
        → slice_index terms.new k ≡ times (slice_index terms.old k) (term_factor k) }
    ensures constant { slice_index terms.new 16 ≡ slice_index terms.old 16 }
{
    for k in 0..16usize {
        let term = terms[k];
        terms[k] = Gf(next_term(term.0, k));
    }
}

/// The sum of the terms.
#[inline(always)]
fn sum_of_terms(terms: &[Gf; 17]) -> Gf
    ensures { result ≡ sum_of 17 (slice_index terms.now) }
{
    let mut sum = Gf(0);
    for k in 0..17usize {
        sum = sum.add(terms[k]);
    }
    sum
}

/// Lists the places whose locators are roots, and says how many they are.
pub(crate) fn find_roots(polynomial: &[Gf; 17], places: &mut [usize; WORD_BYTES]) -> usize
    requires { (k : ℕ) → slice_index polynomial.now k < 256 }
    ensures list { IsRootList polynomial.now WORD_BYTES result places.new }
    ensures long { length polynomial.now ≡ 17 }
{
    let mut terms = *polynomial;
    let mut count = 0;
    for place in 0..WORD_BYTES {
        step_terms(&mut terms);
        let here = sum_of_terms(&terms);
        if here.0 == 0 {
            places[count] = place;
            count += 1;
        }
    }
    count
}
