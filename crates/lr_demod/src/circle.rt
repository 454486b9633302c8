//! Sines and cosines of parts of a turn: the first terms of their Taylor series, so that they need no C library and are
//! the same on every processor. Coefficient n is (2 pi)^n / n!, with the sign of the series.

/// A quarter of a turn and a half, between which a sine is led back to the first quarter.
const QUARTER: f64 = 0.25;

const HALF: f64 = 0.5;

/// The terms of the sine of x turns: of x, x^3, and so on.
const SINE_1: f64 = 6.283185307179586;

const SINE_3: f64 = -41.341702240399755;

const SINE_5: f64 = 81.60524927607506;

const SINE_7: f64 = -76.70585975306136;

const SINE_9: f64 = 42.058693944897655;

const SINE_11: f64 = -15.094642576822992;

const SINE_13: f64 = 3.819952584848282;

const SINE_15: f64 = -0.7181223017785005;

/// The same for floats of 32 bits, where six terms are enough.
const SHORT_1: f32 = 6.2831855;

const SHORT_3: f32 = -41.341702;

const SHORT_5: f32 = 81.605246;

const SHORT_7: f32 = -76.70586;

const SHORT_9: f32 = 42.058693;

const SHORT_11: f32 = -15.094643;

/// The sine of `x` turns, where `x` lies in -0.5 to 0.5.
pub(crate) fn sine(x: f32) -> f32 {
    let y = if x > 0.25 {
        0.5 - x
    } else if x < -0.25 {
        -0.5 - x
    } else {
        x
    };
    let z = y * y;
    let high = SHORT_7 + z * (SHORT_9 + z * SHORT_11);
    y * (SHORT_1 + z * (SHORT_3 + z * (SHORT_5 + z * high)))
}

/// The cosine of `x` turns, where `x` lies in -0.5 to 0.5.
pub(crate) fn cosine(x: f32) -> f32 {
    sine(0.25 - x.abs())
}

/// The sine of `x` turns, where `x` lies in -0.5 to 0.5, to some 11 digits.
fn long_sine(x: f64) -> f64 {
    let y = if x > QUARTER {
        HALF - x
    } else if x < -QUARTER {
        -HALF - x
    } else {
        x
    };
    let z = y * y;
    let high = SINE_9 + z * (SINE_11 + z * (SINE_13 + z * SINE_15));
    y * (SINE_1 + z * (SINE_3 + z * (SINE_5 + z * (SINE_7 + z * high))))
}

/// Cosine and sine of `x` turns, whatever `x` is.
pub(crate) fn turned(x: f64) -> (f64, f64) {
    let part = x - x.floor();
    let near = if part > HALF { part - 1.0 } else { part };
    (long_sine(QUARTER - near.abs()), long_sine(near))
}
