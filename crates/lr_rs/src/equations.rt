//! The systems that restoring solves: the key equation, and the equations of the error values.
#![tactic(auto)]

ghost use Rattle.std.specs.Prelude.{◌≡◌, ◌≢◌, ℕ, ◌+◌, ◌-◌, ◌<◌, ◌≤◌, slice_index};
ghost use Rattle.lr_gf.specs.Field.{power};
ghost use Rattle.lr_gf.specs.Systems.{entry};
ghost use Rattle.lr_rs.specs.Words.{locator};
ghost use Rattle.lr_rs.specs.RootLists.{HasEquations};

use crate::sizes::{CHECK_BYTES, WORD_BYTES};
use crate::syndromes::locator_of;
use lr_gf::{Gf, System};

/// Fills a row of the key equation's system.
fn fill_key_row(system: &mut System, syndromes: &[Gf; CHECK_BYTES], i: usize)
    requires { i < 16 }
    ensures row { (k : ℕ) → k < 17
        → entry system.new i k ≡ slice_index syndromes.now (i + (16 - k)) }
    ensures kept { (r k : ℕ) → r < 16 → k < 17 → r ≢ i
        → entry system.new r k ≡ entry system.old r k }
{
    for k in 0..17 {
        system.set(i, k, syndromes[i + (16 - k)]);
    }
}

/// Fills the key equation's system: each vector of its kernel is a polynomial that is zero at the
/// locator of every error.
pub(crate) fn fill_key_equation(system: &mut System, syndromes: &[Gf; CHECK_BYTES])
    ensures { (i k : ℕ) → i < 16 → k < 17
        → entry system.new i k ≡ slice_index syndromes.now (i + (16 - k)) }
{
    for i in 0..16 {
        fill_key_row(system, syndromes, i);
    }
}

/// Fills one of the equations of the error values.
fn fill_equation(
    system: &mut System,
    syndromes: &[Gf; CHECK_BYTES],
    places: &[usize; WORD_BYTES],
    count: usize,
    j: usize,
)
    requires count { count ≤ 16 }
    requires j { j < count }
    requires places { (l : ℕ) → l < count → slice_index places.now l < WORD_BYTES }
    ensures left { (l : ℕ) → l < count
        → entry system.new j l ≡ power (locator (slice_index places.now l)) (112 + j) }
    ensures right { entry system.new j count ≡ slice_index syndromes.now j }
    ensures kept { (r k : ℕ) → r < 16 → k < 17 → r ≢ j
        → entry system.new r k ≡ entry system.old r k }
{
    for l in 0..count {
        system.set(j, l, locator_of(places[l]).pow((112 + j) as u32));
    }
    system.set(j, count, syndromes[j]);
}

/// Fills the equations of the error values at the roots: as many as there are roots.
pub(crate) fn fill_equations(
    system: &mut System,
    syndromes: &[Gf; CHECK_BYTES],
    places: &[usize; WORD_BYTES],
    count: usize,
)
    requires count { count ≤ 16 }
    requires places { (l : ℕ) → l < count → slice_index places.now l < WORD_BYTES }
    ensures { HasEquations count places.now (slice_index syndromes.now) (entry system.new) }
{
    for j in 0..count {
        fill_equation(system, syndromes, places, count, j);
    }
}
