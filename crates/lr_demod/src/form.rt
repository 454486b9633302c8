//! The forms in which radios give samples.

ghost use Rattle.std.specs.Prelude.{◌≡◌, ◌≤◌, ◌*◌, length};
ghost use Rattle.lr_demod.specs.declared.sizes.TheConstants.{BLOCK_SAMPLES};

use crate::sizes::BLOCK_SAMPLES;
use std::num::f32_from_bits_with_nan;

/// The form of a sample's two numbers, I and then Q.
#[derive(Clone, Copy, Debug, PartialEq, Eq)]
pub enum Form {
    /// Unsigned bytes with their middle at 127.5, as `rtl_sdr` writes them.
    U8,
    /// Signed bytes, as `hackrf_transfer` writes them.
    S8,
    /// Signed numbers of 16 bits, the low byte first, as `airspy_rx` writes them.
    S16,
    /// Floats of 32 bits, the low byte first.
    F32,
}

/// The value of an unsigned byte that stands for nothing.
const U8_MIDDLE: f32 = 127.5;

/// A step of a form of eight and of 16 bits, where 1 is its greatest value.
const STEP_8: f32 = 0.0078125;

const STEP_16: f32 = 0.000030517578125;

/// The values from which on a number is taken for clipped, by form.
const U8_CLIPPED: f32 = 0.99;

const S8_CLIPPED: f32 = 0.99;

const S16_CLIPPED: f32 = 0.9999;

const F32_CLIPPED: f32 = 1.0;

/// Floats from here on, to both sides, are no samples, and count as 0.
const NO_SAMPLE: f32 = 1000000.0;

impl Form {
    /// The bytes of a sample.
    pub fn size(self) -> usize
        ensures least { 2 ≤ result }
        ensures most { result ≤ 8 }
    {
        match self {
            Form::U8 | Form::S8 => 2,
            Form::S16 => 4,
            Form::F32 => 8,
        }
    }

    /// The value from which on a number is taken for clipped.
    pub(crate) fn clipped(self) -> f32 {
        match self {
            Form::U8 => U8_CLIPPED,
            Form::S8 => S8_CLIPPED,
            Form::S16 => S16_CLIPPED,
            Form::F32 => F32_CLIPPED,
        }
    }
}

/// A float as a sample: one that no radio means is 0, and so is NaN.
fn sample_of(value: f32) -> f32 {
    if value > -NO_SAMPLE && value < NO_SAMPLE {
        value
    } else {
        0.0
    }
}

fn take_u8(bytes: &[u8], i: &mut [f32], q: &mut [f32], count: usize)
    requires bytes { count * 2 ≤ length bytes.now }
    requires i { count ≤ length i.old }
    requires q { count ≤ length q.old }
{
    for k in 0..count {
        i[k] = (bytes[2 * k] as f32 - U8_MIDDLE) * STEP_8;
        q[k] = (bytes[2 * k + 1] as f32 - U8_MIDDLE) * STEP_8;
    }
}

fn take_s8(bytes: &[u8], i: &mut [f32], q: &mut [f32], count: usize)
    requires bytes { count * 2 ≤ length bytes.now }
    requires i { count ≤ length i.old }
    requires q { count ≤ length q.old }
{
    for k in 0..count {
        i[k] = bytes[2 * k].cast_signed() as f32 * STEP_8;
        q[k] = bytes[2 * k + 1].cast_signed() as f32 * STEP_8;
    }
}

fn take_s16(bytes: &[u8], i: &mut [f32], q: &mut [f32], count: usize)
    requires bytes { count * 4 ≤ length bytes.now }
    requires i { count ≤ length i.old }
    requires q { count ≤ length q.old }
{
    for k in 0..count {
        let at = 4 * k;
        i[k] = i16::from_le_bytes([bytes[at], bytes[at + 1]]) as f32 * STEP_16;
        q[k] = i16::from_le_bytes([bytes[at + 2], bytes[at + 3]]) as f32 * STEP_16;
    }
}

fn take_f32(bytes: &[u8], i: &mut [f32], q: &mut [f32], count: usize)
    requires bytes { count * 8 ≤ length bytes.now }
    requires i { count ≤ length i.old }
    requires q { count ≤ length q.old }
{
    for k in 0..count {
        let at = 8 * k;
        let low = u32::from_le_bytes([bytes[at], bytes[at + 1], bytes[at + 2], bytes[at + 3]]);
        let high = u32::from_le_bytes([bytes[at + 4], bytes[at + 5], bytes[at + 6], bytes[at + 7]]);
        i[k] = sample_of(f32_from_bits_with_nan(low));
        q[k] = sample_of(f32_from_bits_with_nan(high));
    }
}

/// Takes at most a block of samples, and answers how many.
fn take_some(form: Form, bytes: &[u8], i: &mut [f32], q: &mut [f32]) -> usize
    requires i { length i.old ≡ BLOCK_SAMPLES }
    requires q { length q.old ≡ BLOCK_SAMPLES }
    ensures { result ≤ BLOCK_SAMPLES }
{
    match form {
        Form::U8 => {
            let count = (bytes.len() / 2).min(BLOCK_SAMPLES);
            take_u8(bytes, i, q, count);
            count
        }
        Form::S8 => {
            let count = (bytes.len() / 2).min(BLOCK_SAMPLES);
            take_s8(bytes, i, q, count);
            count
        }
        Form::S16 => {
            let count = (bytes.len() / 4).min(BLOCK_SAMPLES);
            take_s16(bytes, i, q, count);
            count
        }
        Form::F32 => {
            let count = (bytes.len() / 8).min(BLOCK_SAMPLES);
            take_f32(bytes, i, q, count);
            count
        }
    }
}

fn clear(values: &mut [f32], from: usize) {
    for k in from..values.len() {
        values[k] = 0.0;
    }
}

/// Takes at most a block of samples, whose I and Q go to the front of `i` and `q` with zeros after them, and answers
/// how many these are.
pub(crate) fn take_samples(form: Form, bytes: &[u8], i: &mut [f32], q: &mut [f32]) -> usize
    requires i { length i.old ≡ BLOCK_SAMPLES }
    requires q { length q.old ≡ BLOCK_SAMPLES }
    ensures { result ≤ BLOCK_SAMPLES }
{
    let count = take_some(form, bytes, i, q);
    clear(i, count);
    clear(q, count);
    count
}
