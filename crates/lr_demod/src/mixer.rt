//! The oscillator that moves the carrier to the middle of the band.

ghost use Rattle.std.specs.Prelude.{◌≡◌, ◌≤◌, ◌*◌, ◌+◌, length};
ghost use Rattle.lr_demod.specs.declared.sizes.TheConstants.{BLOCK_SAMPLES};
ghost use Rattle.lr_demod.specs.declared.mixer.TheConstants.{ROW_SAMPLES};

use crate::circle::turned;
use crate::sizes::LANES;
use std::num::{nearest_f64_to_f32_with_nan, nearest_usize_to_f64};
use std::simd::prelude::*;

/// The samples from one exact turn to the next, and how often a block has so many.
const ROW_SAMPLES: usize = 64;

const ROWS: usize = 256;

/// A turn, as its cosine and its sine.
#[derive(Clone, Copy)]
struct Turn {
    cosine: f32,
    sine: f32,
}

/// The turns of eight samples in a row.
#[derive(Clone, Copy)]
struct Turns {
    cosines: f32x8,
    sines: f32x8,
}

/// What all rows share: the turns of the first eight samples from the row's first one on, and that over eight samples.
#[derive(Clone, Copy)]
struct Oscillator {
    first: Turns,
    next: Turn,
}

fn turn_of(turns: f64) -> Turn {
    let (cosine, sine) = turned(turns);
    Turn {
        cosine: nearest_f64_to_f32_with_nan(cosine),
        sine: nearest_f64_to_f32_with_nan(sine),
    }
}

fn fill_turns(cosines: &mut [f32; 8], sines: &mut [f32; 8], each: f64) {
    for k in 0..LANES {
        let turn = turn_of(nearest_usize_to_f64(k) * each);
        cosines[k] = turn.cosine;
        sines[k] = turn.sine;
    }
}

fn oscillator_of(each: f64) -> Oscillator {
    let mut cosines = [0.0f32; 8];
    let mut sines = [0.0f32; 8];
    fill_turns(&mut cosines, &mut sines, each);
    Oscillator {
        first: Turns {
            cosines: f32x8::from_array(cosines),
            sines: f32x8::from_array(sines),
        },
        next: turn_of(8.0 * each),
    }
}

/// These turns, turned further.
fn turned_by(turns: &Turns, by: Turn) -> Turns {
    let cosine = f32x8::splat(by.cosine);
    let sine = f32x8::splat(by.sine);
    Turns {
        cosines: turns.cosines * cosine - turns.sines * sine,
        sines: turns.cosines * sine + turns.sines * cosine,
    }
}

/// Turns the samples of a row: by the exact turn at the first one, and by products after it.
fn mix_row(
    i: &[f32],
    q: &[f32],
    mixed_i: &mut [f32],
    mixed_q: &mut [f32],
    at: usize,
    start: Turn,
    oscillator: &Oscillator,
)
    requires i { length i.now ≡ BLOCK_SAMPLES }
    requires q { length q.now ≡ BLOCK_SAMPLES }
    requires mixed_i { length mixed_i.old ≡ BLOCK_SAMPLES }
    requires mixed_q { length mixed_q.old ≡ BLOCK_SAMPLES }
    requires at { at + ROW_SAMPLES ≤ BLOCK_SAMPLES }
{
    let mut turns = turned_by(&oscillator.first, start);
    for k in 0..8usize {
        let here = at + LANES * k;
        let vi = f32x8::from_slice(&i[here..here + LANES]);
        let vq = f32x8::from_slice(&q[here..here + LANES]);
        (vi * turns.cosines - vq * turns.sines).copy_to_slice(&mut mixed_i[here..here + LANES]);
        (vi * turns.sines + vq * turns.cosines).copy_to_slice(&mut mixed_q[here..here + LANES]);
        turns = turned_by(&turns, oscillator.next);
    }
}

/// Moves a block down by `each` turns a sample. `first` is the oscillator's phase at its first sample, in turns.
pub(crate) fn mix(
    i: &[f32],
    q: &[f32],
    mixed_i: &mut [f32],
    mixed_q: &mut [f32],
    first: f64,
    each: f64,
)
    requires i { length i.now ≡ BLOCK_SAMPLES }
    requires q { length q.now ≡ BLOCK_SAMPLES }
    requires mixed_i { length mixed_i.old ≡ BLOCK_SAMPLES }
    requires mixed_q { length mixed_q.old ≡ BLOCK_SAMPLES }
{
    let oscillator = oscillator_of(-each);
    for row in 0..ROWS {
        let at = ROW_SAMPLES * row;
        let start = turn_of(-(first + nearest_usize_to_f64(at) * each));
        mix_row(i, q, mixed_i, mixed_q, at, start, &oscillator);
    }
}
