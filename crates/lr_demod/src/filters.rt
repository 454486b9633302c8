//! The matched filters, one for each 1/64 of a sample, and their derivatives.

ghost use Rattle.std.specs.Prelude.{◌≡◌, ◌≤◌, ◌<◌, ◌*◌, ◌/◌, ◌+◌, ◌%◌, length, vec_len};
ghost use Rattle.lr_demod.specs.declared.sizes.TheConstants.{PLACES, MOST_TAPS, BANK_TAPS, LANES};

use crate::circle::turned;
use crate::pulse::pulse;
use crate::sizes::{BANK_TAPS, LANES, MOST_TAPS, PLACES, ROW_TAPS};
use crate::sums::sum_of;
use std::alloc::{AllocError, Global};
use std::num::{nearest_f64_to_f32_with_nan, nearest_usize_to_f64, saturating_f64_to_usize};
use std::simd::prelude::*;

/// The symbols to each side of its middle that a pulse is kept for.
const REACH: f64 = 12.0;

/// The symbols at each end over which it fades to nothing.
const FADE: f64 = 2.0;

/// The symbols to each side by which the derivative is taken.
const SLOPE_STEP: f64 = 0.001;

#[derive(Drop)]
pub(crate) struct Filters {
    /// The samples under a filter.
    width: usize,
    matched: Vec<f32>,
    slopes: Vec<f32>,
    ghost width_least: { LANES ≤ width },
    ghost width_most: { width ≤ MOST_TAPS },
    ghost matched_whole: { vec_len matched ≡ BANK_TAPS },
    ghost slopes_whole: { vec_len slopes ≡ BANK_TAPS },
}

/// What the filters give at a symbol's time: the symbol, and its derivative by the time in symbols.
#[derive(Clone, Copy)]
pub(crate) struct Filtered {
    pub(crate) i: f32,
    pub(crate) q: f32,
    pub(crate) slope_i: f32,
    pub(crate) slope_q: f32,
}

/// How much of the pulse is kept, `t` symbols from its middle.
fn kept_part(t: f64) -> f64 {
    let far = t.abs();
    if far < REACH - FADE {
        1.0
    } else if far > REACH {
        0.0
    } else {
        let (cosine, _) = turned(0.5 * (far - REACH + FADE) / FADE);
        0.5 + 0.5 * cosine
    }
}

/// Fills a filter, whose symbol is `part` of a sample after its middle. A symbol has `samples`.
fn fill_row(matched: &mut [f32], slopes: &mut [f32], part: f64, samples: f64, roll_off: f64)
    requires { length matched.old ≡ length slopes.old }
{
    let middle = nearest_usize_to_f64(matched.len() / 2) - 1.0;
    for k in 0..matched.len() {
        let t = (nearest_usize_to_f64(k) - middle - part) / samples;
        let kept = kept_part(t) / samples;
        let slope = pulse(t - SLOPE_STEP, roll_off) - pulse(t + SLOPE_STEP, roll_off);
        matched[k] = nearest_f64_to_f32_with_nan(kept * pulse(t, roll_off));
        slopes[k] = nearest_f64_to_f32_with_nan(kept * slope / (2.0 * SLOPE_STEP));
    }
}

fn fill_rows(matched: &mut [f32], slopes: &mut [f32], width: usize, samples: f64, roll_off: f64)
    requires width { width ≤ MOST_TAPS }
    requires matched { length matched.old ≡ BANK_TAPS }
    requires slopes { length slopes.old ≡ BANK_TAPS }
{
    for place in 0..PLACES {
        let start = place * ROW_TAPS;
        let part = (nearest_usize_to_f64(place) + 0.5) / nearest_usize_to_f64(PLACES);
        fill_row(
            &mut matched[start..start + width],
            &mut slopes[start..start + width],
            part,
            samples,
            roll_off,
        );
    }
}

/// The samples under a filter where a symbol has so many: a multiple of the lanes.
fn width_of(samples: f64) -> usize
    ensures least { LANES ≤ result }
    ensures most { result ≤ MOST_TAPS }
{
    let most = MOST_TAPS / LANES - 1;
    LANES * (saturating_f64_to_usize((REACH * samples + 3.0) / 4.0).min(most) + 1)
}

impl Filters {
    /// The filters of a pulse of this roll-off, where a symbol has so many samples.
    pub(crate) fn new(alloc: Global, samples: f64, roll_off: f64) -> Result<Filters, AllocError> {
        let width = width_of(samples);
        let mut matched = vec![in alloc; 0.0f32; BANK_TAPS]?;
        let mut slopes = vec![in alloc; 0.0f32; BANK_TAPS]?;
        fill_rows(&mut matched, &mut slopes, width, samples, roll_off);
        Ok(Filters {
            width,
            matched,
            slopes,
        })
    }

    /// The samples under a filter.
    pub(crate) fn width(&self) -> usize
        ensures value { result ≡ self.now.width }
        ensures most { result ≤ MOST_TAPS }
    {
        self.width
    }

    /// What the filter at this place of a sample gives of the samples under it.
    pub(crate) fn filtered(&self, place: usize, i: &[f32], q: &[f32]) -> Filtered
        requires place { place < PLACES }
        requires i { length i.now ≡ self.now.width }
        requires q { length q.now ≡ self.now.width }
    {
        let start = place * ROW_TAPS;
        let matched = &self.matched[start..start + self.width];
        let slopes = &self.slopes[start..start + self.width];
        let mut sum_i = f32x8::splat(0.0);
        let mut sum_q = f32x8::splat(0.0);
        let mut slope_i = f32x8::splat(0.0);
        let mut slope_q = f32x8::splat(0.0);
        for k in 0..self.width / LANES {
            let at = LANES * k;
            let vi = f32x8::from_slice(&i[at..at + LANES]);
            let vq = f32x8::from_slice(&q[at..at + LANES]);
            let m = f32x8::from_slice(&matched[at..at + LANES]);
            let s = f32x8::from_slice(&slopes[at..at + LANES]);
            sum_i = sum_i + vi * m;
            sum_q = sum_q + vq * m;
            slope_i = slope_i + vi * s;
            slope_q = slope_q + vq * s;
        }
        Filtered {
            i: sum_of(sum_i),
            q: sum_of(sum_q),
            slope_i: sum_of(slope_i),
            slope_q: sum_of(slope_q),
        }
    }
}
