//! The symbols of the marker by which a receiver knows it, in each line code.

ghost use Rattle.std.specs.Prelude.{◌≡◌, ◌&&◌, List, Bool, false, length, map, not, if◌then◌else◌};
ghost use Rattle.lr_conv.specs.Levels.{last_level};
ghost use Rattle.lr_conv.specs.Marker.{tail_after, tail_of};

use crate::line::{LineCode, STANDARD};

/// The symbols of the marker's 32 bits (CCSDS 131.0-B, section 9.3).
pub const MARKER_SYMBOLS: usize = 64;

/// The symbols of the marker's tail: all but the first twelve.
pub const TAIL_SYMBOLS: usize = 52;

/// The marker's tail in the standard's code: its symbols 12 to 63, which depend on no earlier bit.
pub const MARKER_TAIL: [bool; TAIL_SYMBOLS] = [
    true, false, false, false, false, false, false, true, true, true, false, false, true, false,
    false, true, false, true, true, true, false, false, false, true, true, false, true, false,
    true, false, true, false, false, true, true, true, false, false, true, true, true, true, false,
    true, false, false, true, true, true, true, true, false,
];

/// The tail where the second symbol of each pair isn't complemented.
const PLAIN_TAIL: [bool; TAIL_SYMBOLS] = [
    true, true, false, true, false, true, false, false, true, false, false, true, true, true,
    false, false, false, false, true, false, false, true, false, false, true, true, true, true,
    true, true, true, true, false, false, true, false, false, true, true, false, true, false,
    false, false, false, true, true, false, true, false, true, true,
];

/// The tail where a 1 is a change of level, after a level 0.
const MARKS_TAIL: [bool; TAIL_SYMBOLS] = [
    false, true, false, false, false, true, false, true, true, true, true, false, false, true,
    false, true, false, true, true, true, true, false, true, false, false, true, true, false,
    false, true, true, false, true, false, false, false, false, true, true, true, false, true,
    false, true, false, false, true, false, false, false, true, true,
];

/// The tail where a 1 is a change of level, and the second symbol of each pair isn't complemented.
const PLAIN_MARKS_TAIL: [bool; TAIL_SYMBOLS] = [
    false, false, false, true, false, false, false, false, true, false, true, true, false, false,
    false, false, false, false, true, false, true, true, true, true, false, false, true, true,
    false, false, true, true, true, true, false, true, false, false, true, false, false, false,
    false, false, false, true, true, true, false, true, true, false,
];

/// The marker's tail in a line code: its symbols 12 to 63 after levels 0.
pub fn marker_tail(line: LineCode) -> [bool; TAIL_SYMBOLS]
    ensures { result ≡ tail_of line }
{
    match (line.marks, line.inverted) {
        (false, true) => MARKER_TAIL,
        (false, false) => PLAIN_TAIL,
        (true, true) => MARKS_TAIL,
        (true, false) => PLAIN_MARKS_TAIL,
    }
}

/// That `MARKER_TAIL` is the tail in the standard's code, and that after any six levels the marker's symbols 12 to 63
/// are the tail, or each symbol's complement where bits are changes of level and the last of the six is 1.
pub fn marker_tail_is_coded()
    ensures standard { MARKER_TAIL ≡ tail_of STANDARD }
    ensures any { (line : LineCode) (past : List Bool) → length past ≡ 6 →
        tail_after line past ≡ (if line.marks && last_level false past then map not (tail_of line) else tail_of line) }
{}
