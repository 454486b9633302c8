//! The forward pass over 64 states in lanes of sixteen bits.

ghost use Rattle.std.specs.Prelude.{◌≡◌, ◌+◌, ◌*◌, ◌%◌, ◌<◌, ◌≤◌, ◌^◌, ◌++◌, ℕ, length, slice_index};
ghost use Rattle.lr_trellis.specs.Words.{IsDecided};
ghost use Rattle.lr_lanes.specs.Lanes.{HasCosts, IsWithin, lane_of, pair_costs_of};

use crate::cost_rows::{first_costs, second_costs};
use crate::forward::{all_costs, forward, lanes_of};
use crate::lanes::{HALF_STEP, STEP_COST};
use crate::narrow_lanes::TURNED;
use crate::narrow_step::narrow_step;
use lr_conv::LineCode;
use lr_trellis::MOST_STEPS;
use std::simd::prelude::*;

/// The steps after which each state can be reached from each: one for each level of a state.
pub(crate) const FILLING_STEPS: usize = 6;

/// The most by which the costs of two states differ once these steps are made.
const SPREAD: u16 = FILLING_STEPS as u16 * STEP_COST;

/// What the lanes are kept near: a quarter of what one can hold, so another quarter can be added to each.
const MIDDLE: u16 = 1 << 14;

/// After so many steps the lanes are led back to the middle. Until then none passes an end of its room.
const STEPS_AWAY: usize = 32;

/// The lanes with the second and the third eight of them exchanged: from the order of the states, and back to it.
fn turned(lanes: u32x32) -> u32x32
    requires { length lanes ≡ 32 }
    ensures size { length result ≡ 32 }
    ensures value { (k : ℕ) → k < 32 → slice_index result k ≡ slice_index lanes (lane_of k) }
{
    lanes.swizzle(TURNED)
}

/// Lanes of sixteen bits near the middle, from costs that differ by little.
fn narrow_lanes_of(lanes: u32x32) -> u16x32
    requires size { length lanes ≡ 32 }
    requires small { (k : ℕ) → k < 32 → slice_index lanes k ≤ SPREAD }
    ensures size { length result ≡ 32 }
    ensures value { (k : ℕ) → k < 32 → slice_index result k ≡ MIDDLE + slice_index lanes k }
{
    lanes.cast::<u16>().strict_add(u16x32::splat(MIDDLE))
}

/// The costs of 32 states, from what is in their lanes and how far each cost and the middle together are above that.
fn state_costs(base: u32, lanes: u16x32) -> u32x32
    requires size { length lanes ≡ 32 }
    requires base { base < 2 ^ 31 }
    requires above { (k : ℕ) → k < 32 → MIDDLE ≤ base + slice_index lanes k }
    ensures size { length result ≡ 32 }
    ensures value { (k : ℕ) → k < 32 → slice_index result k + MIDDLE ≡ base + slice_index lanes k }
{
    let sums = lanes.cast::<u32>().strict_add(u32x32::splat(base));
    sums.strict_sub(u32x32::splat(u32::from(MIDDLE)))
}

/// What the steps from sixteen states cost in a step of a window.
#[inline(always)]
fn costs_at(line: LineCode, window: &[i8], step: usize) -> u16x16
    requires { 2 * step + 2 ≤ length window.now }
    ensures size { length result ≡ 16 }
    ensures value { HasCosts result (pair_costs_of line window.now step) }
{
    first_costs(window[2 * step]) + second_costs(line, window[2 * step + 1])
}

/// The lanes of all states, with room for a step, and how far each cost and the middle together are above its lane.
#[derive(Drop)]
struct Roomy {
    base: u32,
    low: u16x32,
    high: u16x32,
}

/// The lanes, led back to the middle where it is time for that.
#[inline(always)]
fn with_room(step: usize, base: u32, low: u16x32, high: u16x32) -> Roomy
    requires low { length low ≡ 32 }
    requires high { length high ≡ 32 }
    requires near { (s t : ℕ) → s < 64 → t < 64 →
        slice_index (low ++ high) s ≤ slice_index (low ++ high) t + SPREAD }
    requires within { IsWithin ((step + 31) % 32 + 1) (low ++ high) }
    requires base { base < 2 ^ 31 }
    requires above { MIDDLE ≤ base + slice_index (low ++ high) 0 }
    ensures low_size { length result.low ≡ 32 }
    ensures high_size { length result.high ≡ 32 }
    ensures same { (s : ℕ) → s < 64 →
        result.base + slice_index (result.low ++ result.high) s ≡ base + slice_index (low ++ high) s }
    ensures within { IsWithin (step % 32) (result.low ++ result.high) }
{
    if step % STEPS_AWAY != 0 {
        return Roomy { base, low, high };
    }
    let first = low.to_array()[0];
    Roomy {
        base: base + u32::from(first) - u32::from(MIDDLE),
        low: centred(low, first),
        high: centred(high, first),
    }
}

/// The lanes, moved by as much as takes one of them to the middle.
#[inline(always)]
fn centred(lanes: u16x32, first: u16) -> u16x32
    requires size { length lanes ≡ 32 }
    requires least { (k : ℕ) → k < 32 → first ≤ slice_index lanes k + MIDDLE }
    requires most { (k : ℕ) → k < 32 → slice_index lanes k + MIDDLE < 2 ^ 16 }
    ensures size { length result ≡ 32 }
    ensures value { (k : ℕ) → k < 32 → slice_index result k + first ≡ slice_index lanes k + MIDDLE }
{
    lanes
        .strict_add(u16x32::splat(MIDDLE))
        .strict_sub(u16x32::splat(first))
}

/// Keeps the words of decisions of the first `steps` steps, and answers the least costs after them. The cost of a state
/// is its lane and `base` less the middle. That number is the same for all, so a comparison of two lanes is that of
/// their costs.
pub(crate) fn narrow_forward(
    line: LineCode,
    window: &[i8],
    steps: usize,
    words: &mut [u64],
) -> [u32; 64]
    requires filled { FILLING_STEPS ≤ steps }
    requires steps { steps ≤ MOST_STEPS }
    requires words { steps ≤ length words.old }
    requires window { 2 * steps + 2 ≤ length window.now }
    ensures { IsDecided line window.now steps words.new result }
{
    let (first_low, first_high) = lanes_of(&forward(line, window, FILLING_STEPS, words));
    let mut low = narrow_lanes_of(turned(first_low));
    let mut high = narrow_lanes_of(turned(first_high));
    let mut base = 0u32;
    // All bits are set, as no slice has 2^63 elements, which the compiler doesn't make use of.
    let ones = !(words.len() as u64 >> 63);
    // The costs of a step are found in the turn before it, so that the sums needn't wait for them.
    let mut costs = costs_at(line, window, FILLING_STEPS);
    for i in FILLING_STEPS..steps {
        let roomy = with_room(i, base, low, high);
        let stepped = narrow_step(costs, roomy.low, roomy.high, ones);
        words[i] = stepped.word;
        base = roomy.base + u32::from(HALF_STEP);
        low = stepped.low;
        high = stepped.high;
        costs = costs_at(line, window, i + 1);
    }
    all_costs(
        turned(state_costs(base, low)),
        turned(state_costs(base, high)),
    )
}
