//! The forward pass over 64 states in lanes.

ghost use Rattle.std.specs.Prelude.{◌≡◌, ◌+◌, ◌*◌, ◌<◌, ◌≤◌, ◌++◌, ℕ, length, slice_index};
ghost use Rattle.lr_trellis.specs.Words.{IsDecided};

use crate::step::step;
use lr_conv::LineCode;
use lr_trellis::{MOST_STEPS, pair_costs, start_costs};
use std::simd::prelude::*;

/// The lanes of the lower states and of the upper ones, from the costs of the 64 states.
pub(crate) fn lanes_of(costs: &[u32; 64]) -> (u32x32, u32x32)
    ensures low_size { length result.0 ≡ 32 }
    ensures high_size { length result.1 ≡ 32 }
    ensures value { result.0 ++ result.1 ≡ costs.now }
{
    (
        u32x32::from_slice(&costs[..32]),
        u32x32::from_slice(&costs[32..]),
    )
}

/// The costs of the 64 states, from the lanes of the lower and the upper ones.
pub(crate) fn all_costs(low: u32x32, high: u32x32) -> [u32; 64]
    requires low { length low ≡ 32 }
    requires high { length high ≡ 32 }
    ensures { (s : ℕ) → s < 64 → slice_index result s ≡ slice_index (low ++ high) s }
{
    let mut costs = [0; 64];
    low.copy_to_slice(&mut costs[..32]);
    high.copy_to_slice(&mut costs[32..]);
    costs
}

/// Keeps the words of decisions of the first `steps` steps, and answers the least costs after them.
pub(crate) fn forward(line: LineCode, window: &[i8], steps: usize, words: &mut [u64]) -> [u32; 64]
    requires steps { steps ≤ MOST_STEPS }
    requires words { steps ≤ length words.old }
    requires window { 2 * steps ≤ length window.now }
    ensures { IsDecided line window.now steps words.new result }
{
    let (mut low, mut high) = lanes_of(&start_costs(line));
    for i in 0..steps {
        let costs = pair_costs(line, window[2 * i], window[2 * i + 1]);
        let stepped = step(&costs, low, high);
        words[i] = stepped.word;
        low = stepped.low;
        high = stepped.high;
    }
    all_costs(low, high)
}
