//! One step of all paths, in lanes of 32 bits.

ghost use Rattle.std.specs.Prelude.{◌≡◌, ◌+◌, ◌/◌, ◌^◌, ◌<◌, ◌≤◌, ◌++◌, ℕ, min, nat_lt, length, slice_index};
ghost use Rattle.lr_trellis.specs.Words.{branch_by, decision_of};

use crate::lanes::{
    STEP_COST, lesser_of, level_0_costs, level_1_costs, path_costs, states_in_order,
};
use lr_trellis::decision_word;
use std::simd::prelude::*;

/// What a step gives: the least costs of the states 0 to 31 and of those above, and the word of its decisions.
#[derive(Drop)]
pub(crate) struct StepResult {
    pub low: u32x32,
    pub high: u32x32,
    pub word: u64,
}

/// One step of all paths.
#[inline(always)]
pub(crate) fn step(costs: &[u32; 4], low: u32x32, high: u32x32) -> StepResult
    requires costs { (m : ℕ) → branch_by costs.now m ≤ STEP_COST }
    requires low { length low ≡ 32 }
    requires high { length high ≡ 32 }
    requires old { (s : ℕ) → s < 64 → slice_index (low ++ high) s + STEP_COST < 2 ^ 32 }
    ensures low_size { length result.low ≡ 32 }
    ensures high_size { length result.high ≡ 32 }
    ensures least { (s : ℕ) → s < 64 → slice_index (result.low ++ result.high) s ≡
        min (slice_index (low ++ high) (s / 2) + branch_by costs.now s)
        (slice_index (low ++ high) (s / 2 + 32) + branch_by costs.now (s + 64)) }
    ensures decided { (s : ℕ) → s < 64 → decision_of result.word s ≡
        nat_lt (slice_index (low ++ high) (s / 2 + 32) + branch_by costs.now (s + 64))
        (slice_index (low ++ high) (s / 2) + branch_by costs.now s) }
{
    let costs = u32x4::from_array(*costs);
    let zeros = level_0_costs(costs);
    let ones = level_1_costs(costs);
    let (evens, even_word) = lesser_of(path_costs(low, zeros), path_costs(high, ones));
    let (odds, odd_word) = lesser_of(path_costs(low, ones), path_costs(high, zeros));
    let (low, high) = states_in_order(evens, odds);
    StepResult {
        low,
        high,
        word: decision_word(even_word, odd_word),
    }
}
