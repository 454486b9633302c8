//! What a step costs sixteen states, from tables with a row of lanes for each symbol. A row is loaded as a whole, where
//! the compiler else puts a vector together lane by lane.

ghost use Rattle.std.specs.Prelude.{◌≡◌, ◌+◌, ◌-◌, ◌*◌, ◌<◌, ℕ, true, false, not, length, slice_index};
ghost use Rattle.lr_conv.specs.Convolution.{first_of_seven, second_of_seven};
ghost use Rattle.lr_trellis.specs.Path.{symbol_cost};
ghost use Rattle.lr_lanes.specs.Lanes.{lowered, state_of};

use lr_conv::LineCode;
use std::simd::prelude::*;

/// The number of a symbol's row, from 0 for -128 to 255 for 127.
#[inline(always)]
fn row_of(symbol: i8) -> usize
    ensures below { result < 256 }
    ensures zero { symbol_cost false symbol ≡ result - 1 }
    ensures one { symbol_cost true symbol ≡ 254 - (result - 1) }
{
    (i64::from(symbol) + 128) as usize
}

/// What the first symbols of the steps with the level 0 cost against a symbol, less half of what both bits cost.
#[inline(always)]
pub(crate) fn first_costs(symbol: i8) -> u16x16
    ensures sum { symbol_cost false symbol + symbol_cost true symbol ≡ 254 }
    ensures size { length result ≡ 16 }
    ensures value { (j : ℕ) → j < 16 →
        slice_index result j ≡ lowered 127 (symbol_cost (first_of_seven (2 * state_of j)) symbol) }
{
    let row = row_of(symbol);
    u16x16::from_array(FIRST_COSTS.rows[row])
}

/// What their second symbols cost against a symbol of a line code, less as much.
#[inline(always)]
pub(crate) fn second_costs(line: LineCode, symbol: i8) -> u16x16
    ensures sum { symbol_cost (not line.inverted) symbol + symbol_cost line.inverted symbol ≡ 254 }
    ensures size { length result ≡ 16 }
    ensures value { (j : ℕ) → j < 16 →
        slice_index result j ≡ lowered 127 (symbol_cost (second_of_seven line (2 * state_of j)) symbol) }
{
    let row = row_of(symbol);
    u16x16::from_array(SECOND_COSTS[usize::from(line.inverted)].rows[row])
}

/// What a 0 costs less 127, in sixteen bits: half of what both bits cost is taken off, by adding 2^16 less it.
macro_rules! zero {
    ($zero:literal) => {
        ((65_409u32 + $zero) % 65_536) as u16
    };
}

/// What a 1 costs less 127, by what a 0 costs: 254 less that, and 65,409.
macro_rules! one {
    ($zero:literal) => {
        ((65_663u32 - $zero) % 65_536) as u16
    };
}

/// A row of the first symbols, by what a 0 costs.
macro_rules! first_row {
    ($z:literal) => {
        [
            zero!($z), one!($z), one!($z), zero!($z), one!($z), zero!($z), zero!($z), one!($z),
            zero!($z), one!($z), one!($z), zero!($z), one!($z), zero!($z), zero!($z), one!($z),
        ]
    };
}

/// A row of the second symbols of the inverted line code.
macro_rules! inverted_row {
    ($z:literal) => {
        [
            one!($z), one!($z), zero!($z), zero!($z), zero!($z), zero!($z), one!($z), one!($z),
            zero!($z), zero!($z), one!($z), one!($z), one!($z), one!($z), zero!($z), zero!($z),
        ]
    };
}

/// A row of the second symbols of the other one.
macro_rules! plain_row {
    ($z:literal) => {
        [
            zero!($z), zero!($z), one!($z), one!($z), one!($z), one!($z), zero!($z), zero!($z),
            one!($z), one!($z), zero!($z), zero!($z), zero!($z), zero!($z), one!($z), one!($z),
        ]
    };
}

/// A row for each symbol, by what a 0 costs against it.
macro_rules! rows {
    ($row:ident) => {
        [
            $row!(0), $row!(0), $row!(1), $row!(2), $row!(3), $row!(4), $row!(5), $row!(6),
            $row!(7), $row!(8), $row!(9), $row!(10), $row!(11), $row!(12), $row!(13), $row!(14),
            $row!(15), $row!(16), $row!(17), $row!(18), $row!(19), $row!(20), $row!(21), $row!(22),
            $row!(23), $row!(24), $row!(25), $row!(26), $row!(27), $row!(28), $row!(29), $row!(30),
            $row!(31), $row!(32), $row!(33), $row!(34), $row!(35), $row!(36), $row!(37), $row!(38),
            $row!(39), $row!(40), $row!(41), $row!(42), $row!(43), $row!(44), $row!(45), $row!(46),
            $row!(47), $row!(48), $row!(49), $row!(50), $row!(51), $row!(52), $row!(53), $row!(54),
            $row!(55), $row!(56), $row!(57), $row!(58), $row!(59), $row!(60), $row!(61), $row!(62),
            $row!(63), $row!(64), $row!(65), $row!(66), $row!(67), $row!(68), $row!(69), $row!(70),
            $row!(71), $row!(72), $row!(73), $row!(74), $row!(75), $row!(76), $row!(77), $row!(78),
            $row!(79), $row!(80), $row!(81), $row!(82), $row!(83), $row!(84), $row!(85), $row!(86),
            $row!(87), $row!(88), $row!(89), $row!(90), $row!(91), $row!(92), $row!(93), $row!(94),
            $row!(95), $row!(96), $row!(97), $row!(98), $row!(99), $row!(100), $row!(101),
            $row!(102), $row!(103), $row!(104), $row!(105), $row!(106), $row!(107), $row!(108),
            $row!(109), $row!(110), $row!(111), $row!(112), $row!(113), $row!(114), $row!(115),
            $row!(116), $row!(117), $row!(118), $row!(119), $row!(120), $row!(121), $row!(122),
            $row!(123), $row!(124), $row!(125), $row!(126), $row!(127), $row!(128), $row!(129),
            $row!(130), $row!(131), $row!(132), $row!(133), $row!(134), $row!(135), $row!(136),
            $row!(137), $row!(138), $row!(139), $row!(140), $row!(141), $row!(142), $row!(143),
            $row!(144), $row!(145), $row!(146), $row!(147), $row!(148), $row!(149), $row!(150),
            $row!(151), $row!(152), $row!(153), $row!(154), $row!(155), $row!(156), $row!(157),
            $row!(158), $row!(159), $row!(160), $row!(161), $row!(162), $row!(163), $row!(164),
            $row!(165), $row!(166), $row!(167), $row!(168), $row!(169), $row!(170), $row!(171),
            $row!(172), $row!(173), $row!(174), $row!(175), $row!(176), $row!(177), $row!(178),
            $row!(179), $row!(180), $row!(181), $row!(182), $row!(183), $row!(184), $row!(185),
            $row!(186), $row!(187), $row!(188), $row!(189), $row!(190), $row!(191), $row!(192),
            $row!(193), $row!(194), $row!(195), $row!(196), $row!(197), $row!(198), $row!(199),
            $row!(200), $row!(201), $row!(202), $row!(203), $row!(204), $row!(205), $row!(206),
            $row!(207), $row!(208), $row!(209), $row!(210), $row!(211), $row!(212), $row!(213),
            $row!(214), $row!(215), $row!(216), $row!(217), $row!(218), $row!(219), $row!(220),
            $row!(221), $row!(222), $row!(223), $row!(224), $row!(225), $row!(226), $row!(227),
            $row!(228), $row!(229), $row!(230), $row!(231), $row!(232), $row!(233), $row!(234),
            $row!(235), $row!(236), $row!(237), $row!(238), $row!(239), $row!(240), $row!(241),
            $row!(242), $row!(243), $row!(244), $row!(245), $row!(246), $row!(247), $row!(248),
            $row!(249), $row!(250), $row!(251), $row!(252), $row!(253), $row!(254),
        ]
    };
}

/// A row of lanes for each symbol. The number beside them aligns them as it is aligned itself, to sixteen bytes. So
/// eight lanes never cross the end of a line of the processor's cache.
struct Rows {
    rows: [[u16; 16]; 256],
    aligned: u128,
}

/// For each symbol what the first symbols of the sixteen steps cost.
static FIRST_COSTS: Rows = Rows {
    rows: rows!(first_row),
    aligned: 0,
};

/// For each symbol what the second symbols cost, and the same for the inverted line code.
static SECOND_COSTS: [Rows; 2] = [
    Rows {
        rows: rows!(plain_row),
        aligned: 0,
    },
    Rows {
        rows: rows!(inverted_row),
        aligned: 0,
    },
];
