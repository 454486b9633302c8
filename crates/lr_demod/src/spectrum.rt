//! The spectrum of a block in place: a Fourier transform by halves (Gentleman and Sande, 1966). It comes out with its
//! places in the reversed order of their bits.

ghost use Rattle.std.specs.Prelude.{◌≡◌, ◌≤◌, ◌<◌, ◌*◌, length, vec_len};
ghost use Rattle.lr_demod.specs.declared.sizes.TheConstants.{BLOCK_SAMPLES, HALF_BLOCK};

use crate::circle::turned;
use crate::sizes::{BLOCK_SAMPLES, HALF_BLOCK, STAGES};
use std::alloc::{AllocError, Global};
use std::num::{nearest_f64_to_f32_with_nan, nearest_usize_to_f64};

/// The turns of the stages: for each `half` those of k / (2 half), k below `half`, at the places from `half` on.
#[derive(Drop)]
pub(crate) struct Twiddles {
    cosines: Vec<f32>,
    sines: Vec<f32>,
    ghost cosines_whole: { vec_len cosines ≡ BLOCK_SAMPLES },
    ghost sines_whole: { vec_len sines ≡ BLOCK_SAMPLES },
}

fn fill_stage(cosines: &mut [f32], sines: &mut [f32])
    requires { length cosines.old ≡ length sines.old }
{
    let each = 0.5 / nearest_usize_to_f64(cosines.len());
    for k in 0..cosines.len() {
        let (cosine, sine) = turned(nearest_usize_to_f64(k) * each);
        cosines[k] = nearest_f64_to_f32_with_nan(cosine);
        sines[k] = nearest_f64_to_f32_with_nan(-sine);
    }
}

fn fill_stages(cosines: &mut [f32], sines: &mut [f32])
    requires cosines { length cosines.old ≡ BLOCK_SAMPLES }
    requires sines { length sines.old ≡ BLOCK_SAMPLES }
{
    for stage in 0..STAGES {
        let half = 1usize << stage;
        if half <= HALF_BLOCK {
            fill_stage(&mut cosines[half..2 * half], &mut sines[half..2 * half]);
        }
    }
}

impl Twiddles {
    pub(crate) fn new(alloc: Global) -> Result<Twiddles, AllocError> {
        let mut cosines = vec![in alloc; 0.0f32; BLOCK_SAMPLES]?;
        let mut sines = vec![in alloc; 0.0f32; BLOCK_SAMPLES]?;
        fill_stages(&mut cosines, &mut sines);
        Ok(Twiddles { cosines, sines })
    }
}

/// Sums, and turned differences, of two halves.
fn butterflies(i: &mut [f32], q: &mut [f32], cosines: &[f32], sines: &[f32], half: usize)
    requires i { 2 * half ≤ length i.old }
    requires q { 2 * half ≤ length q.old }
    requires cosines { half ≤ length cosines.now }
    requires sines { half ≤ length sines.now }
{
    for k in 0..half {
        let (near_i, near_q) = (i[k], q[k]);
        let (far_i, far_q) = (i[k + half], q[k + half]);
        let (less_i, less_q) = (near_i - far_i, near_q - far_q);
        i[k] = near_i + far_i;
        q[k] = near_q + far_q;
        i[k + half] = less_i * cosines[k] - less_q * sines[k];
        q[k + half] = less_i * sines[k] + less_q * cosines[k];
    }
}

/// One stage over all samples.
fn stage(twiddles: &Twiddles, i: &mut [f32], q: &mut [f32], half: usize)
    requires half { 1 ≤ half × half ≤ HALF_BLOCK }
    requires i { length i.old ≡ BLOCK_SAMPLES }
    requires q { length q.old ≡ BLOCK_SAMPLES }
{
    let cosines = &twiddles.cosines[half..2 * half];
    let sines = &twiddles.sines[half..2 * half];
    let mut at = 0;
    for _ in 0..HALF_BLOCK {
        let here = at.min(BLOCK_SAMPLES);
        let next = here + 2 * half;
        if next <= BLOCK_SAMPLES {
            butterflies(&mut i[here..next], &mut q[here..next], cosines, sines, half);
            at = next;
        } else {
            break;
        }
    }
}

/// Replaces a block by its spectrum.
pub(crate) fn transform(twiddles: &Twiddles, i: &mut [f32], q: &mut [f32])
    requires i { length i.old ≡ BLOCK_SAMPLES }
    requires q { length q.old ≡ BLOCK_SAMPLES }
{
    for stages in 0..STAGES {
        let half = HALF_BLOCK >> stages;
        if 1 <= half && half <= HALF_BLOCK {
            stage(twiddles, i, q, half);
        }
    }
}

/// Where the spectrum's value at this frequency stands.
pub(crate) fn place_of(frequency: usize) -> usize
    ensures { result < BLOCK_SAMPLES }
{
    ((frequency as u64).reverse_bits() >> (u64::BITS - STAGES)) as usize % BLOCK_SAMPLES
}
