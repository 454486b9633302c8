//! The end that a path is read back from.

ghost use Rattle.std.specs.Prelude.{◌≡◌, ◌+◌, ◌^◌, ◌<◌, ◌≤◌, ℕ, true, false, slice_index};
ghost use Rattle.lr_trellis.specs.Trellis.{end_before};
ghost use Rattle.lr_trellis.specs.Words.{branch_by, last_one};

use crate::costs::{STEP_COST, pair};
use lr_conv::LineCode;

/// The states before the last step of a path: where its last bit has the level 0, and where it has the level 1. The
/// next marker begins with the bits 000110, of which five come before the last step. As levels after the path's last
/// one they make the states 0 00011, which is 3, and 1 00011, which is 35. Where a 1 is a change of level, these are
/// 0 00010, which is 2, and 1 11101, which is 61.
fn ends(line: LineCode) -> (usize, usize)
    ensures low { result.0 ≡ end_before line false }
    ensures high { result.1 ≡ end_before line true }
{
    if line.marks { (2, 61) } else { (3, 35) }
}

/// The state before the last step of the nearest path, from the costs of all states there and those of the last step.
/// Where both ends cost the same it is that of the level 0.
pub fn end_state(line: LineCode, costs: &[u32; 64], last: &[u32; 4]) -> usize
    requires costs { (s : ℕ) → s < 64 → slice_index costs.now s + STEP_COST < 2 ^ 32 }
    requires last { (m : ℕ) → branch_by last.now m ≤ STEP_COST }
    ensures { result ≡ end_before line (last_one line costs.now last.now) }
{
    let (low, high) = ends(line);
    let symbols = pair(low);
    if costs[high] + last[3 - symbols] < costs[low] + last[symbols] {
        high
    } else {
        low
    }
}
