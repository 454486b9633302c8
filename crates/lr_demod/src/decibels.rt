//! Ratios of power in decibels, without the C library.

use std::num::{f32_from_bits_with_nan, f32_to_bits_with_nan, nearest_i32_to_f32};

/// What stands for a ratio of nothing, or of no number.
pub(crate) const LEAST_DECIBELS: f32 = -200.0;

/// The least ratio that counts.
const LEAST_RATIO: f32 = 0.00000000000000000001;

/// The decibels of a factor of two.
const OF_TWO: f32 = 3.0103;

/// Two over the natural logarithm of two: what leads from the series to a logarithm to base two.
const TO_BASE_TWO: f32 = 2.8853901;

/// Where a float of 32 bits has its exponent, with what is added to it, and its fraction.
const EXPONENT_PLACE: u32 = 23;

const EXPONENT_BIAS: i32 = 127;

const FRACTION_BITS: u32 = 0x7f_ffff;

const BITS_OF_ONE: u32 = 0x3f80_0000;

/// The logarithm to base two of a number from 1 to 2, by the series of the inverse hyperbolic tangent.
fn base_two(m: f32) -> f32 {
    let s = (m - 1.0) / (m + 1.0);
    let z = s * s;
    TO_BASE_TWO * s * (1.0 + z * (1.0 / 3.0 + z * (0.2 + z * (1.0 / 7.0 + z / 9.0))))
}

/// This ratio of power in decibels.
pub(crate) fn decibels(ratio: f32) -> f32 {
    if ratio > LEAST_RATIO {
        let bits = f32_to_bits_with_nan(ratio);
        let exponent = (bits >> EXPONENT_PLACE & 0xff) as i32 - EXPONENT_BIAS;
        let fraction = f32_from_bits_with_nan(bits & FRACTION_BITS | BITS_OF_ONE);
        OF_TWO * (nearest_i32_to_f32(exponent) + base_two(fraction))
    } else {
        LEAST_DECIBELS
    }
}
