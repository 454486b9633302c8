//! Sums over a block in eight lanes, so that their order is the same on every processor.

ghost use Rattle.std.specs.Prelude.{◌≡◌, length};
ghost use Rattle.lr_demod.specs.declared.sizes.TheConstants.{BLOCK_SAMPLES};

use crate::sizes::{BLOCK_VECTORS, LANES};
use std::simd::prelude::*;

/// The sum of the lanes, by halves.
pub(crate) fn sum_of(lanes: f32x8) -> f32 {
    let four = lanes.extract::<0, 4>() + lanes.extract::<4, 4>();
    let two = four.extract::<0, 2>() + four.extract::<2, 2>();
    two[0] + two[1]
}

/// The sum of a block's values.
pub(crate) fn sum(values: &[f32]) -> f32
    requires { length values.now ≡ BLOCK_SAMPLES }
{
    let mut total = f32x8::splat(0.0);
    for k in 0..BLOCK_VECTORS {
        total = total + f32x8::from_slice(&values[LANES * k..LANES * k + LANES]);
    }
    sum_of(total)
}

/// The sum of the products of two blocks' values.
pub(crate) fn sum_of_products(left: &[f32], right: &[f32]) -> f32
    requires left { length left.now ≡ BLOCK_SAMPLES }
    requires right { length right.now ≡ BLOCK_SAMPLES }
{
    let mut total = f32x8::splat(0.0);
    for k in 0..BLOCK_VECTORS {
        let at = LANES * k;
        let l = f32x8::from_slice(&left[at..at + LANES]);
        let r = f32x8::from_slice(&right[at..at + LANES]);
        total = total + l * r;
    }
    sum_of(total)
}

/// How many of the values lie at `limit` or beyond it, to both sides.
pub(crate) fn count_beyond(values: &[f32], limit: f32) -> u32 {
    let mut count = 0u32;
    for value in values {
        let is_beyond = *value >= limit || *value <= -limit;
        count = count.wrapping_add(is_beyond as u32);
    }
    count
}
