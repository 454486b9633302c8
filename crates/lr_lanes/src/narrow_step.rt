//! One step of all paths, in lanes of sixteen bits.

ghost use Rattle.std.specs.Prelude.{◌≡◌, ◌+◌, ◌-◌, ◌*◌, ◌/◌, ◌%◌, ◌^◌, ◌<◌, ◌≤◌, ◌++◌, ℕ, List, min, nat_lt, length};
ghost use Rattle.std.specs.Prelude.{slice_index};
ghost use Rattle.lr_trellis.specs.Words.{branch_by, decision_of};
ghost use Rattle.lr_lanes.specs.Lanes.{HasCosts, in_order};

use crate::lanes::HALF_STEP;
use crate::narrow_lanes::{
    all_states, lane_costs, lesser_of, other_path_costs, path_costs, seconds_of,
};
use std::simd::prelude::*;

/// What a step in lanes of sixteen bits gives: the costs of the states 0 to 31 and of those above, each in its lane,
/// and the word of its decisions. Each lane is lower by half of a step's most than by the costs.
#[derive(Drop)]
pub(crate) struct NarrowStepResult {
    pub low: u16x32,
    pub high: u16x32,
    pub word: u64,
}

/// One step of all paths.
#[inline(always)]
pub(crate) fn narrow_step(costs: u16x16, low: u16x32, high: u16x32, ones: u64) -> NarrowStepResult
    requires costs_size { length costs ≡ 16 }
    requires low { length low ≡ 32 }
    requires high { length high ≡ 32 }
    requires least { (s : ℕ) → s < 64 → HALF_STEP ≤ slice_index (low ++ high) s }
    requires most { (s : ℕ) → s < 64 → slice_index (low ++ high) s + HALF_STEP < 2 ^ 16 }
    requires ones { ones ≡ 2 ^ 64 - 1 }
    ensures low_size { length result.low ≡ 32 }
    ensures high_size { length result.high ≡ 32 }
    ensures least { (pairs : List ℕ) → HasCosts costs pairs → (s : ℕ) → s < 64 →
        slice_index (in_order (result.low ++ result.high)) s + HALF_STEP ≡
        min (slice_index (in_order (low ++ high)) (s / 2) + branch_by pairs s)
        (slice_index (in_order (low ++ high)) (s / 2 + 32) + branch_by pairs (s + 64)) }
    ensures decided { (pairs : List ℕ) → HasCosts costs pairs → (s : ℕ) → s < 64 → decision_of result.word s ≡
        nat_lt (slice_index (in_order (low ++ high)) (s / 2 + 32) + branch_by pairs (s + 64))
        (slice_index (in_order (low ++ high)) (s / 2) + branch_by pairs s) }
{
    let costs = lane_costs(costs);
    let (evens, even_firsts) = lesser_of(path_costs(low, costs), other_path_costs(high, costs));
    let (odds, odd_firsts) = lesser_of(other_path_costs(low, costs), path_costs(high, costs));
    let (low, high) = all_states(evens, odds);
    NarrowStepResult {
        low,
        high,
        word: seconds_of(even_firsts, odd_firsts, ones),
    }
}
