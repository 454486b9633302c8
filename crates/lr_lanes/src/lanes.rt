//! What a step does to 32 lanes at once.

ghost use Rattle.std.specs.Prelude.{◌≡◌, ◌+◌, ◌*◌, ◌/◌, ◌%◌, ◌^◌, ◌<◌, ◌≤◌, ◌++◌, ◌==◌, ℕ, min, nat_lt, length};
ghost use Rattle.std.specs.Prelude.{slice_index};
ghost use Rattle.std.specs.Int.{bit_at};
ghost use Rattle.lr_trellis.specs.Words.{branch_by};

use std::simd::prelude::*;

/// The most that a step costs: 254 for each of its two symbols.
pub(crate) const STEP_COST: u16 = lr_trellis::STEP_COST as u16;

/// Half of that. What a step with one level costs is as far above it as the step with the other level is below.
pub(crate) const HALF_STEP: u16 = STEP_COST / 2;

/// The pairs of symbols of the steps with the level 0 from the states 0 to 31.
const LEVEL_0_PAIRS: [usize; 32] = [
    1, 3, 2, 0, 2, 0, 1, 3, 1, 3, 2, 0, 2, 0, 1, 3, 0, 2, 3, 1, 3, 1, 0, 2, 0, 2, 3, 1, 3, 1, 0, 2,
];

/// The pairs of their steps with the level 1.
const LEVEL_1_PAIRS: [usize; 32] = [
    2, 0, 1, 3, 1, 3, 2, 0, 2, 0, 1, 3, 1, 3, 2, 0, 3, 1, 0, 2, 0, 2, 3, 1, 3, 1, 0, 2, 0, 2, 3, 1,
];

/// What the steps with the level 0 from the states 0 to 31 cost, by the costs of the four pairs of symbols.
#[inline(always)]
pub(crate) fn level_0_costs(costs: u32x4) -> u32x32
    requires { length costs ≡ 4 }
    ensures size { length result ≡ 32 }
    ensures value { (k : ℕ) → k < 32 → slice_index result k ≡ branch_by costs (2 * k) }
{
    costs.swizzle(LEVEL_0_PAIRS)
}

/// What their steps with the level 1 cost: those of the complements.
#[inline(always)]
pub(crate) fn level_1_costs(costs: u32x4) -> u32x32
    requires { length costs ≡ 4 }
    ensures size { length result ≡ 32 }
    ensures value { (k : ℕ) → k < 32 → slice_index result k ≡ branch_by costs (2 * k + 1) }
{
    costs.swizzle(LEVEL_1_PAIRS)
}

/// The costs of paths with one step more.
#[inline(always)]
pub(crate) fn path_costs(old: u32x32, costs: u32x32) -> u32x32
    requires sizes { length old ≡ 32 }
    requires costs_size { length costs ≡ 32 }
    requires old { (k : ℕ) → k < 32 → slice_index old k + STEP_COST < 2 ^ 32 }
    requires costs { (k : ℕ) → k < 32 → slice_index costs k ≤ STEP_COST }
    ensures size { length result ≡ 32 }
    ensures value { (k : ℕ) → k < 32 → slice_index result k ≡ slice_index old k + slice_index costs k }
{
    old.strict_add(costs)
}

/// The lesser of the costs of two ways, lane by lane, and a bit where it is the second. The first takes a tie.
#[inline(always)]
pub(crate) fn lesser_of(first: u32x32, second: u32x32) -> (u32x32, u64)
    requires first { length first ≡ 32 }
    requires second { length second ≡ 32 }
    ensures size { length result.0 ≡ 32 }
    ensures least { (k : ℕ) → k < 32 → slice_index result.0 k ≡ min (slice_index first k) (slice_index second k) }
    ensures seconds { (k : ℕ) → k < 32 →
        (bit_at result.1 k == 1) ≡ nat_lt (slice_index second k) (slice_index first k) }
    ensures small { result.1 < 2 ^ 32 }
{
    let is_first = first.simd_le(second);
    (is_first.select(first, second), (!is_first).to_bitmask())
}

/// Where the states 0 to 31 stand among the even states and, after these, the odd ones.
const LOW_PLACES: [usize; 32] = [
    0, 32, 1, 33, 2, 34, 3, 35, 4, 36, 5, 37, 6, 38, 7, 39, 8, 40, 9, 41, 10, 42, 11, 43, 12, 44,
    13, 45, 14, 46, 15, 47,
];

/// Where the states 32 to 63 stand there.
const HIGH_PLACES: [usize; 32] = [
    16, 48, 17, 49, 18, 50, 19, 51, 20, 52, 21, 53, 22, 54, 23, 55, 24, 56, 25, 57, 26, 58, 27, 59,
    28, 60, 29, 61, 30, 62, 31, 63,
];

/// The even states and the odd ones, interleaved: all states in the order of their numbers.
#[inline(always)]
pub(crate) fn states_in_order(evens: u32x32, odds: u32x32) -> (u32x32, u32x32)
    requires evens { length evens ≡ 32 }
    requires odds { length odds ≡ 32 }
    ensures low_size { length result.0 ≡ 32 }
    ensures high_size { length result.1 ≡ 32 }
    ensures even { (k : ℕ) → k < 32 → slice_index (result.0 ++ result.1) (2 * k) ≡ slice_index evens k }
    ensures odd { (k : ℕ) → k < 32 → slice_index (result.0 ++ result.1) (2 * k + 1) ≡ slice_index odds k }
{
    (
        evens.shuffle(odds, LOW_PLACES),
        evens.shuffle(odds, HIGH_PLACES),
    )
}
