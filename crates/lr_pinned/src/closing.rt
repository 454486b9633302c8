//! States that a pin closes.

ghost use Rattle.std.specs.Prelude.{◌≡◌, ◌+◌, ◌^◌, ◌<◌, ℕ, Option, Some, None, slice_index, slice_index_or};
ghost use Rattle.lr_pinned.specs.Steps.{pin_at, pin_cost};

use lr_conv::LineCode;
use lr_trellis::{FAR, bit_of};

/// The pin of a step; behind the pins there is none.
#[inline(always)]
pub(crate) fn pin_of(pins: &[Option<bool>], i: usize) -> Option<bool>
    ensures { result ≡ pin_at pins.now i }
{
    if i < pins.len() { pins[i] } else { None }
}

/// What a state costs more for its newest bit.
#[inline(always)]
fn closed_by(line: LineCode, pin: bool, state: usize) -> u32
    ensures { result ≡ pin_cost line (Some pin) state }
{
    if bit_of(line, state) == pin { 0 } else { FAR }
}

/// Closes the states whose newest bit isn't the known one.
#[inline(always)]
pub(crate) fn close(line: LineCode, pin: bool, costs: &mut [u32; 64])
    requires { (s : ℕ) → s < 64 → slice_index costs.old s + FAR < 2 ^ 32 }
    ensures { (s : ℕ) → s < 64 → slice_index costs.new s ≡ slice_index costs.old s + pin_cost line (Some pin) s }
{
    for s in 0..64usize {
        costs[s] += closed_by(line, pin, s);
    }
}
