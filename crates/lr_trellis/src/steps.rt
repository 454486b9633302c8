//! The forward pass: the least cost of a path to each state, and which older state it came from.

ghost use Rattle.std.specs.Prelude.{◌≡◌, ◌+◌, ◌*◌, ◌/◌, ◌^◌, ◌<◌, ◌≤◌, ◌==◌, ℕ, min, nat_lt, length, slice_index};
ghost use Rattle.std.specs.Int.{bit_at};
ghost use Rattle.lr_trellis.specs.Trellis.{start_of, start_state};
ghost use Rattle.lr_trellis.specs.Words.{branch_by, decision_of, IsDecided};

use crate::costs::{STEP_COST, pair, pair_costs};
use crate::scratch::MOST_STEPS;
use lr_conv::LineCode;

/// More than any path costs: the most in each of its 8,166 steps, and 1.
pub const FAR: u32 = STEP_COST * (MOST_STEPS as u32 + 1) + 1;

/// The last six levels of the marker, in which a path begins.
const START: usize = 0b01_1101;

/// The same where a 1 is a change of level.
const START_OF_MARKS: usize = 0b10_1001;

/// The lesser of the costs of two ways, and whether it is the second. The first takes a tie.
#[inline(always)]
fn lesser_of(first: u32, second: u32) -> (u32, bool)
    ensures cost { result.0 ≡ min first second }
    ensures second { result.1 ≡ nat_lt second first }
{
    (first.min(second), second < first)
}

/// The word with a bit more, above those that it has.
#[inline(always)]
fn with_bit(word: u64, place: usize, bit: bool) -> u64
    requires low { place < 32 }
    requires small { word < 2 ^ place }
    ensures small { result < 2 ^ (place + 1) }
    ensures below { (k : ℕ) → k < place → bit_at result k ≡ bit_at word k }
    ensures at { (bit_at result place == 1) ≡ bit }
{
    word | u64::from(bit) << place
}

/// The word of a step, from the decisions at the even states and at the odd ones.
#[inline(always)]
pub fn decision_word(evens: u64, odds: u64) -> u64
    requires evens { evens < 2 ^ 32 }
    requires odds { odds < 2 ^ 32 }
    ensures low { (k : ℕ) → k < 32 → bit_at result k ≡ bit_at evens k }
    ensures high { (k : ℕ) → k < 32 → bit_at result (k + 32) ≡ bit_at odds k }
{
    evens | odds << 32
}

/// One step of all paths: the least cost of a path to each state, and the word of the decisions.
#[inline(always)]
pub fn step(costs: &[u32; 4], old: &[u32; 64], new: &mut [u32; 64]) -> u64
    requires costs { (m : ℕ) → branch_by costs.now m ≤ STEP_COST }
    requires old { (s : ℕ) → s < 64 → slice_index old.now s + STEP_COST < 2 ^ 32 }
    ensures least { (s : ℕ) → s < 64 → slice_index new.new s ≡
        min (slice_index old.now (s / 2) + branch_by costs.now s)
        (slice_index old.now (s / 2 + 32) + branch_by costs.now (s + 64)) }
    ensures decided { (s : ℕ) → s < 64 → decision_of result s ≡
        nat_lt (slice_index old.now (s / 2 + 32) + branch_by costs.now (s + 64))
        (slice_index old.now (s / 2) + branch_by costs.now s) }
{
    let mut evens = 0u64;
    let mut odds = 0u64;
    for j in 0..32usize {
        let symbols = pair(j);
        let near = costs[symbols];
        let far = costs[3 - symbols];
        let even = lesser_of(old[j] + near, old[j + 32] + far);
        let odd = lesser_of(old[j] + far, old[j + 32] + near);
        new[2 * j] = even.0;
        new[2 * j + 1] = odd.0;
        evens = with_bit(evens, j, even.1);
        odds = with_bit(odds, j, odd.1);
    }
    decision_word(evens, odds)
}

/// The state in which a path begins.
fn start(line: LineCode) -> usize
    ensures value { result ≡ start_state line }
    ensures below { result < 64 }
{
    if line.marks { START_OF_MARKS } else { START }
}

/// The costs of all states before the first step.
pub fn start_costs(line: LineCode) -> [u32; 64]
    ensures { (s : ℕ) → s < 64 → slice_index result s ≡ start_of line s }
{
    let mut costs = [FAR; 64];
    costs[start(line)] = 0;
    costs
}

/// Takes step `i`: keeps its word of decisions, and leaves the least costs after it in `new`.
#[inline(always)]
fn take_step(
    line: LineCode,
    window: &[i8],
    i: usize,
    words: &mut [u64],
    old: &[u32; 64],
    new: &mut [u32; 64],
)
    requires step { i < MOST_STEPS }
    requires words { i < length words.old }
    requires window { 2 * i + 2 ≤ length window.now }
    requires decided { IsDecided line window.now i words.old old.now }
    ensures { IsDecided line window.now (i + 1) words.new new.new }
{
    let costs = pair_costs(line, window[2 * i], window[2 * i + 1]);
    words[i] = step(&costs, old, new);
}

/// Keeps the words of decisions of the first `steps` steps, and answers the least costs after them. Each turn takes two
/// steps, there and back between two arrays of costs, so that no costs are copied.
pub(crate) fn forward(line: LineCode, window: &[i8], steps: usize, words: &mut [u64]) -> [u32; 64]
    requires steps { steps ≤ MOST_STEPS }
    requires words { steps ≤ length words.old }
    requires window { 2 * steps ≤ length window.now }
    ensures { IsDecided line window.now steps words.new result }
{
    let mut even = start_costs(line);
    let mut odd = [0u32; 64];
    for turn in 0..steps / 2 {
        take_step(line, window, 2 * turn, words, &even, &mut odd);
        take_step(line, window, 2 * turn + 1, words, &odd, &mut even);
    }
    if steps % 2 == 0 {
        return even;
    }
    take_step(line, window, steps - 1, words, &even, &mut odd);
    odd
}
