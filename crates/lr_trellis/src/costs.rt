//! What the symbols of a step cost.

ghost use Rattle.std.specs.Prelude.{◌≡◌, ◌+◌, ◌*◌, ◌<◌, ◌≤◌, ℕ, not, true, false};
ghost use Rattle.lr_conv.specs.Convolution.{first_of_seven, second_of_seven};
ghost use Rattle.lr_trellis.specs.Path.{symbol_cost};
ghost use Rattle.lr_trellis.specs.Words.{branch_by, pair_of};

use lr_conv::LineCode;

/// The most that a step costs: a 0 and a 1 together cost 2 * 127 against a symbol, and a step has two symbols.
pub const STEP_COST: u32 = 4 * 127;

/// What a 0 and what a 1 costs against a symbol.
#[inline(always)]
fn symbol_costs(symbol: i8) -> (u32, u32)
    ensures zero { result.0 ≡ symbol_cost false symbol }
    ensures one { result.1 ≡ symbol_cost true symbol }
    ensures sum { result.0 + result.1 ≡ 254 }
{
    let value = i32::from(symbol.max(-127));
    ((127 + value) as u32, (127 - value) as u32)
}

/// The same of a pair's second symbol, for what it is in the standard's code.
#[inline(always)]
fn second_costs(line: LineCode, symbol: i8) -> (u32, u32)
    ensures zero { result.0 ≡ symbol_cost (not line.inverted) symbol }
    ensures one { result.1 ≡ symbol_cost line.inverted symbol }
    ensures sum { result.0 + result.1 ≡ 254 }
{
    let (zero, one) = symbol_costs(symbol);
    if line.inverted {
        (zero, one)
    } else {
        (one, zero)
    }
}

/// What the standard's pairs 00, 01, 10 and 11 cost against two symbols of a line code.
#[inline(always)]
pub fn pair_costs(line: LineCode, first: i8, second: i8) -> [u32; 4]
    ensures value { (m : ℕ) → branch_by result m ≡
        symbol_cost (first_of_seven m) first + symbol_cost (second_of_seven line m) second }
    ensures most { (m : ℕ) → branch_by result m ≤ STEP_COST }
{
    let (zero, one) = symbol_costs(first);
    let (then_zero, then_one) = second_costs(line, second);
    [
        zero + then_zero,
        zero + then_one,
        one + then_zero,
        one + then_one,
    ]
}

/// The standard's pair of symbols of a step from one of the states 0 to 31 with the level 0. A step with the level 1,
/// and one from the state 32 above, has both symbols complemented.
#[inline(always)]
pub(crate) fn pair(state: usize) -> usize
    requires { state < 32 }
    ensures value { result ≡ pair_of (2 * state) }
    ensures below { result < 4 }
{
    usize::from(PAIRS[state])
}

/// What `pair` answers, for each state.
const PAIRS: [u8; 32] = [
    1, 3, 2, 0, 2, 0, 1, 3, 1, 3, 2, 0, 2, 0, 1, 3, 0, 2, 3, 1, 3, 1, 0, 2, 0, 2, 3, 1, 3, 1, 0, 2,
];
