//! What a step does to 32 lanes of sixteen bits at once. Each lane is that of a state by `lane_of`.

ghost use Rattle.std.specs.Prelude.{◌≡◌, ◌+◌, ◌-◌, ◌*◌, ◌/◌, ◌%◌, ◌^◌, ◌<◌, ◌≤◌, ◌++◌, ◌==◌, ℕ, min, nat_lt, not};
ghost use Rattle.std.specs.Prelude.{length, slice_index};
ghost use Rattle.std.specs.Int.{bit_at};
ghost use Rattle.lr_lanes.specs.Lanes.{lane_of, lowered};

use lr_trellis::decision_word;
use std::simd::prelude::*;

/// Where the states 0 to 31 stand in their lanes, and which states the lanes have: each of the two is the other.
pub(crate) const TURNED: [usize; 32] = [
    0, 1, 2, 3, 4, 5, 6, 7, 16, 17, 18, 19, 20, 21, 22, 23, 8, 9, 10, 11, 12, 13, 14, 15, 24, 25,
    26, 27, 28, 29, 30, 31,
];

/// Which of sixteen lanes of costs each of 32 lanes takes.
const TWICE: [usize; 32] = [
    0, 1, 2, 3, 4, 5, 6, 7, 8, 9, 10, 11, 12, 13, 14, 15, 0, 1, 2, 3, 4, 5, 6, 7, 8, 9, 10, 11, 12,
    13, 14, 15,
];

/// What the steps with the level 0 cost, for each of 32 lanes.
#[inline(always)]
pub(crate) fn lane_costs(costs: u16x16) -> u16x32
    requires { length costs ≡ 16 }
    ensures size { length result ≡ 32 }
    ensures value { (k : ℕ) → k < 32 → slice_index result k ≡ slice_index costs (k % 16) }
{
    costs.swizzle(TWICE)
}

/// The costs of paths with one step more, in sixteen bits.
#[inline(always)]
pub(crate) fn path_costs(old: u16x32, costs: u16x32) -> u16x32
    requires sizes { length old ≡ 32 }
    requires costs_size { length costs ≡ 32 }
    ensures size { length result ≡ 32 }
    ensures value { (k : ℕ) → k < 32 →
        slice_index result k ≡ (slice_index old k + slice_index costs k) % 2 ^ 16 }
{
    old + costs
}

/// The same where the step has the other level. What it costs less half of a step's most is the negative of that.
#[inline(always)]
pub(crate) fn other_path_costs(old: u16x32, costs: u16x32) -> u16x32
    requires sizes { length old ≡ 32 }
    requires costs_size { length costs ≡ 32 }
    ensures size { length result ≡ 32 }
    ensures value { (k : ℕ) → k < 32 → slice_index result k ≡ lowered (slice_index costs k) (slice_index old k) }
{
    old - costs
}

/// The lesser of the costs of two ways, lane by lane, and a bit for each state, set where it is the first. The first
/// takes a tie.
#[inline(always)]
pub(crate) fn lesser_of(first: u16x32, second: u16x32) -> (u16x32, u64)
    requires first { length first ≡ 32 }
    requires second { length second ≡ 32 }
    ensures size { length result.0 ≡ 32 }
    ensures least { (k : ℕ) → k < 32 → slice_index result.0 k ≡ min (slice_index first k) (slice_index second k) }
    ensures firsts { (k : ℕ) → k < 32 →
        (bit_at result.1 k == 1) ≡ not (nat_lt (slice_index second (lane_of k)) (slice_index first (lane_of k))) }
    ensures small { result.1 < 2 ^ 32 }
{
    let is_first = first.simd_le(second);
    let firsts = is_first.to_simd().swizzle(TURNED);
    (
        is_first.select(first, second),
        firsts.simd_lt(i16x32::splat(0)).to_bitmask(),
    )
}

/// The word of a step's decisions, from the bits of where the first way is taken to the even states and to the odd
/// ones. It is their complement. The compiler would take that of each lane if it knew that `ones` has all bits set.
#[inline(always)]
pub(crate) fn seconds_of(evens: u64, odds: u64, ones: u64) -> u64
    requires evens { evens < 2 ^ 32 }
    requires odds { odds < 2 ^ 32 }
    requires ones { ones ≡ 2 ^ 64 - 1 }
    ensures even { (k : ℕ) → k < 32 → (bit_at result k == 1) ≡ not (bit_at evens k == 1) }
    ensures odd { (k : ℕ) → k < 32 → (bit_at result (k + 32) == 1) ≡ not (bit_at odds k == 1) }
{
    decision_word(evens, odds) ^ ones
}

/// Where the states 0 to 31 stand among the lanes of the even states and, after these, of the odd ones.
const LOW_PLACES: [usize; 32] = [
    0, 32, 1, 33, 2, 34, 3, 35, 16, 48, 17, 49, 18, 50, 19, 51, 4, 36, 5, 37, 6, 38, 7, 39, 20, 52,
    21, 53, 22, 54, 23, 55,
];

/// Where the states 32 to 63 stand there.
const HIGH_PLACES: [usize; 32] = [
    8, 40, 9, 41, 10, 42, 11, 43, 24, 56, 25, 57, 26, 58, 27, 59, 12, 44, 13, 45, 14, 46, 15, 47,
    28, 60, 29, 61, 30, 62, 31, 63,
];

/// The even states and the odd ones, interleaved: all states in their lanes.
#[inline(always)]
pub(crate) fn all_states(evens: u16x32, odds: u16x32) -> (u16x32, u16x32)
    requires evens { length evens ≡ 32 }
    requires odds { length odds ≡ 32 }
    ensures low_size { length result.0 ≡ 32 }
    ensures high_size { length result.1 ≡ 32 }
    ensures even { (k : ℕ) → k < 32 →
        slice_index (result.0 ++ result.1) (lane_of (2 * k)) ≡ slice_index evens (lane_of k) }
    ensures odd { (k : ℕ) → k < 32 →
        slice_index (result.0 ++ result.1) (lane_of (2 * k + 1)) ≡ slice_index odds (lane_of k) }
{
    (
        evens.shuffle(odds, LOW_PLACES),
        evens.shuffle(odds, HIGH_PLACES),
    )
}
