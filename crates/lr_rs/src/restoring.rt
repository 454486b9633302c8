//! Restoring: the codeword within sixteen bytes of a word.
#![tactic(auto)]

ghost use Rattle.std.specs.Prelude.{◌≡◌, ◌↔◌, IfOk, IsTrue, OnOk, OnErr, List, ℕ};
ghost use Rattle.lr_rs.specs.Words.{IsCodeword, IsRestored, IsWord, distance};
ghost use Rattle.lr_rs.specs.Division.{IsWordRemainder};

use crate::correction::{correct, distance_of};
use crate::division::{are_zero, remainder_of};
use crate::equations::{fill_equations, fill_key_equation};
use crate::roots::find_roots;
use crate::sizes::{CHECK_BYTES, WORD_BYTES};
use crate::syndromes::syndromes_of;
use lr_gf::{Gf, System};

/// How many bytes of a word may be wrong.
const MOST_ERRORS: usize = 16;

/// The terms of the polynomial whose roots tell the places of the errors.
const TERMS: usize = MOST_ERRORS + 1;

/// No codeword differs from the word in at most sixteen bytes.
#[derive(Drop)]
pub struct BeyondSixteen;

/// The working arrays of `restore`. Nothing in them lasts from one call to the next.
#[derive(Drop)]
pub struct RsScratch {
    remainder: [Gf; CHECK_BYTES],
    syndromes: [Gf; CHECK_BYTES],
    system: System,
    polynomial: [Gf; TERMS],
    places: [usize; WORD_BYTES],
    errors: [Gf; MOST_ERRORS],
    corrected: [u8; WORD_BYTES],
}

impl RsScratch {
    /// Fresh working arrays.
    pub fn new() -> RsScratch {
        RsScratch {
            remainder: [Gf(0); CHECK_BYTES],
            syndromes: [Gf(0); CHECK_BYTES],
            system: System::new(),
            polynomial: [Gf(0); TERMS],
            places: [0usize; WORD_BYTES],
            errors: [Gf(0); MOST_ERRORS],
            corrected: [0u8; WORD_BYTES],
        }
    }
}

/// Whether a word is a codeword; the remainder of its polynomial is written too.
fn is_codeword(word: &[u8; WORD_BYTES], remainder: &mut [Gf; CHECK_BYTES]) -> bool
    ensures codeword { IsTrue result ↔ IsCodeword word.now }
    ensures remainder { IsWordRemainder word.now remainder.new }
    ensures word { IsWord word.now }
{
    remainder_of(word, remainder);
    are_zero(remainder)
}

/// Restores a word: writes the codeword that differs from it in at most sixteen bytes, and says how
/// many bytes were changed; or answers `BeyondSixteen` where there is none, and leaves the word.
pub fn restore(word: &mut [u8; WORD_BYTES], scratch: &mut RsScratch) -> Result<u8, BeyondSixteen>
    ensures restored { OnOk result (IsRestored word.old word.new) }
    ensures changed { IfOk result (λ n. n ≡ distance WORD_BYTES word.old word.new) }
    ensures same { OnErr result (word.new ≡ word.old) }
    ensures none { OnErr result ((c : List ℕ) → IsRestored word.old c → ⊥) }
{
    if is_codeword(word, &mut scratch.remainder) {
        return Ok(0);
    }
    syndromes_of(&scratch.remainder, &mut scratch.syndromes);
    fill_key_equation(&mut scratch.system, &scratch.syndromes);
    if !scratch
        .system
        .kernel(MOST_ERRORS, TERMS, &mut scratch.polynomial)
    {
        return Err(BeyondSixteen);
    }
    let count = find_roots(&scratch.polynomial, &mut scratch.places);
    if count > MOST_ERRORS {
        return Err(BeyondSixteen);
    }
    let places = &scratch.places;
    fill_equations(&mut scratch.system, &scratch.syndromes, places, count);
    if let Err(_) = scratch.system.solve(count, &mut scratch.errors) {
        return Err(BeyondSixteen);
    }
    scratch.corrected = *word;
    correct(&mut scratch.corrected, places, count, &scratch.errors);
    if !is_codeword(&scratch.corrected, &mut scratch.remainder) {
        return Err(BeyondSixteen);
    }
    let changed = distance_of(word, &scratch.corrected);
    if changed > MOST_ERRORS {
        return Err(BeyondSixteen);
    }
    *word = scratch.corrected;
    Ok(changed as u8)
}
