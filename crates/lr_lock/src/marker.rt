//! The marker at a place of the symbols.

ghost use Rattle.std.specs.Prelude.{◌≡◌, ◌+◌, ◌<◌, ◌≤◌, length, MatchOption};
ghost use Rattle.lr_lock.specs.Hits.{hits};
ghost use Rattle.lr_lock.specs.Frames.{HasFewer};

use crate::planes::{masks_of, planes_of, polarity_in};
use crate::sizes::TAIL_START;
use lr_conv::{MARKER_SYMBOLS, TAIL_SYMBOLS};

/// The polarity that has `least` hits at the place, if one has.
pub(crate) fn polarity_at(
    tail: &[bool; TAIL_SYMBOLS],
    symbols: &[i8],
    place: usize,
    least: u32,
) -> Option<bool>
    requires { place + MARKER_SYMBOLS ≤ length symbols.now }
    ensures { MatchOption result (HasFewer tail.now symbols.now place least)
        (λ positive. least ≤ hits tail.now symbols.now place positive) }
{
    let planes = planes_of(&symbols[place + TAIL_START..place + MARKER_SYMBOLS]);
    polarity_in(planes, masks_of(tail), least)
}
