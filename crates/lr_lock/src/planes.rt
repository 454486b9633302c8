//! Symbols and a tail as planes of bits, in which the hits of a place are counted at once.

ghost use Rattle.std.specs.Prelude.{◌≡◌, ◌-◌, ◌∷◌, ◌++◌, [], ℕ, ℤ, Bool, List, length, ◌<◌, ◌≤◌, MatchOption};
ghost use Rattle.lr_lock.specs.Hits.{agreeing};
ghost use Rattle.lr_lock.specs.Planes.{AreMasks, ShowsSymbols};

use lr_conv::TAIL_SYMBOLS;

/// As many symbols in a row as a tail has, as bits, the first one as the least significant: which of them are above 0,
/// and which below.
#[derive(Clone, Copy)]
pub(crate) struct Planes {
    pub above: u64,
    pub below: u64,
}

/// The marker's tail in the same way: where it has 1, and where it has 0.
#[derive(Clone, Copy)]
pub(crate) struct Masks {
    pub ones: u64,
    pub zeros: u64,
}

/// The planes of these symbols.
pub(crate) fn planes_of(symbols: &[i8]) -> Planes
    requires { length symbols.now ≤ TAIL_SYMBOLS }
    ensures { ShowsSymbols result symbols.now }
{
    let mut above = 0;
    let mut below = 0;
    for i in (0..symbols.len()).rev() {
        above = 2 * above + u64::from(symbols[i] > 0);
        below = 2 * below + u64::from(symbols[i] < 0);
    }
    Planes { above, below }
}

/// The masks of a tail.
pub(crate) fn masks_of(tail: &[bool; TAIL_SYMBOLS]) -> Masks
    ensures { AreMasks result tail.now }
{
    let mut ones = 0;
    let mut zeros = 0;
    for i in (0..TAIL_SYMBOLS).rev() {
        ones = 2 * ones + u64::from(tail[i]);
        zeros = 2 * zeros + u64::from(!tail[i]);
    }
    Masks { ones, zeros }
}

/// The planes one symbol further: without the first one, and with this one as the last.
#[inline(always)]
pub(crate) fn next_planes(planes: Planes, symbol: i8) -> Planes
    ensures { (first : ℤ) (rest : List ℤ) → length rest ≡ TAIL_SYMBOLS - 1 →
        ShowsSymbols planes (first ∷ rest) → ShowsSymbols result (rest ++ symbol ∷ []) }
{
    Planes {
        above: planes.above >> 1 | u64::from(symbol > 0) << (TAIL_SYMBOLS - 1),
        below: planes.below >> 1 | u64::from(symbol < 0) << (TAIL_SYMBOLS - 1),
    }
}

/// The polarity that has `least` hits, if one has.
#[inline(always)]
pub(crate) fn polarity_in(planes: Planes, masks: Masks, least: u32) -> Option<bool>
    ensures { (tail : List Bool) (symbols : List ℤ) → AreMasks masks tail → ShowsSymbols planes symbols →
        MatchOption result ((positive : Bool) → agreeing positive tail symbols < least)
        (λ positive. least ≤ agreeing positive tail symbols) }
{
    let hits = (planes.above & masks.ones | planes.below & masks.zeros).count_ones();
    let opposite = (planes.below & masks.ones | planes.above & masks.zeros).count_ones();
    if hits >= least {
        Some(true)
    } else if opposite >= least {
        Some(false)
    } else {
        None
    }
}
