//! The constant that a receiver adds to its samples: a running mean, which is taken off. Where it jumps, as after
//! samples that were none, it begins anew.

ghost use Rattle.std.specs.Prelude.{◌≡◌, length};
ghost use Rattle.lr_demod.specs.declared.sizes.TheConstants.{BLOCK_SAMPLES};

use crate::sizes::BLOCK_SAMPLES;
use crate::sums::{sum, sum_of_products};
use std::num::nearest_usize_to_f32;

/// How much of a new block's mean comes into the running one.
const MEAN_PART: f32 = 0.02;

/// A new block's mean is off the running one by more than this part of the values' rms: sixteen times as far as noise
/// leads it.
const JUMP_PART: f32 = 0.125;

/// The running mean of one of the sample's two numbers.
#[derive(Clone, Copy)]
pub(crate) struct Constant {
    mean: f32,
    has_begun: bool,
}

/// Takes the constant off each value.
fn take_off(values: &mut [f32], constant: f32)
    ensures { length values.new ≡ length values.old }
{
    for k in 0..values.len() {
        values[k] = values[k] - constant;
    }
}

impl Constant {
    pub(crate) fn new() -> Constant {
        Constant {
            mean: 0.0,
            has_begun: false,
        }
    }

    /// Takes the running mean off a block, of which the first `count` values are samples, and zeros come after them.
    pub(crate) fn remove(&mut self, values: &mut [f32], count: usize)
        requires { length values.old ≡ BLOCK_SAMPLES }
        ensures { length values.new ≡ BLOCK_SAMPLES }
    {
        let mean = sum(values) / nearest_usize_to_f32(count.max(1));
        let power = sum_of_products(values, values) / nearest_usize_to_f32(BLOCK_SAMPLES);
        let has_jumped = (mean - self.mean).abs() > JUMP_PART * power.sqrt();
        let is_new = !self.has_begun || has_jumped && count == BLOCK_SAMPLES;
        let part = if is_new { 1.0 } else { MEAN_PART };
        self.mean = self.mean + (mean - self.mean) * part;
        self.has_begun = true;
        let end = count.min(values.len());
        take_off(&mut values[..end], self.mean);
    }
}
