//! The pulse of a symbol: the root of a raised cosine, of unit energy.

use crate::circle::turned;

const PI: f64 = 3.141592653589793;

const ROOT_OF_HALF: f64 = 0.7071067811865476;

/// Symbols within which the formula's quotient is taken for its limit: at the middle, and by its divisor elsewhere.
const AT_MIDDLE: f64 = 0.000001;

const AT_EDGE: f64 = 0.00001;

/// The pulse of this roll-off, `t` symbols from its middle.
pub(crate) fn pulse(t: f64, roll_off: f64) -> f64 {
    let divisor = 1.0 - 16.0 * roll_off * roll_off * t * t;
    if t.abs() < AT_MIDDLE {
        1.0 - roll_off + 4.0 * roll_off / PI
    } else if divisor.abs() < AT_EDGE {
        let (cosine, sine) = turned(0.125 / roll_off);
        roll_off * ROOT_OF_HALF * ((1.0 + 2.0 / PI) * sine + (1.0 - 2.0 / PI) * cosine)
    } else {
        let (_, sine) = turned(0.5 * t * (1.0 - roll_off));
        let (cosine, _) = turned(0.5 * t * (1.0 + roll_off));
        (sine + 4.0 * roll_off * t * cosine) / (PI * t * divisor)
    }
}
