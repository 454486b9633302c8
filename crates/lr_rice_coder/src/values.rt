//! The mapped values of a line.

ghost use Rattle.std.specs.Prelude.{◌≡◌, ◌<◌, ◌≤◌, ◌*◌, ◌+◌, ◌-◌, ◌∷◌, ◌++◌, ◌^◌, All, IfOk, drop, length};
ghost use Rattle.std.specs.Prelude.{replicate, slice_index};
ghost use Rattle.lr_rice.specs.CodedLines.{form_of, greatest, mapped_value};
ghost use Rattle.lr_rice_coder.specs.Shortest.{all_zero, line_places, mapped_from, zero_run};

use lr_bits::NoMemory;
use std::alloc::Global;

/// The values of all places of a line.
pub(crate) fn places_of(
    alloc: Global,
    samples: &[u16],
    bits: u32,
    block: u32,
) -> Result<Vec<u32>, NoMemory>
    requires bits { bits ≤ 16 }
    requires block { 1 ≤ block }
    requires some { 1 ≤ length samples.now }
    requires few { length samples.now ≤ 65535 }
    requires small { All (λ sample. sample ≤ greatest bits) samples.now }
    ensures { IfOk result (λ places.
        places.items ≡ line_places (form_of bits block (length samples.now)) samples.now) }
{
    let size = block as usize;
    let wanted = (samples.len() + size - 1) / size * size;
    let mut places = Vec::new(alloc);
    places.resize(wanted, 0)?;
    write_values(most_of(bits), samples, &mut places);
    Ok(places)
}

/// The greatest sample of this many bits.
fn most_of(bits: u32) -> u32
    requires { bits ≤ 16 }
    ensures value { result ≡ greatest bits }
    ensures fits { result < 2 ^ 16 }
{
    (1 << bits) - 1
}

/// Writes the mapped value of each sample but the first over its place.
fn write_values(most: u32, samples: &[u16], places: &mut [u32])
    requires narrow { most < 2 ^ 16 }
    requires some { 1 ≤ length samples.now }
    requires room { length samples.now ≤ length places.old }
    requires small { All (λ sample. sample ≤ most) samples.now }
    requires clear { places.old ≡ replicate (length places.old) 0 }
    ensures { places.new ≡ 0 ∷ mapped_from most (slice_index samples.now 0) (drop 1 samples.now)
        ++ replicate (length places.old - length samples.now) 0 }
{
    for i in 1..samples.len() {
        places[i] = mapped(most, u32::from(samples[i - 1]), u32::from(samples[i]));
    }
}

/// The mapped value of a sample after the sample `p`.
#[inline(always)]
fn mapped(most: u32, p: u32, sample: u32) -> u32
    requires narrow { most < 2 ^ 16 }
    requires p { p ≤ most }
    requires sample { sample ≤ most }
    ensures value { result ≡ mapped_value most p sample }
    ensures in_range { result ≤ most }
{
    let near = p.min(most - p);
    let up = p <= sample;
    let difference = if up { sample - p } else { p - sample };
    if difference > near {
        near + difference
    } else if up {
        2 * difference
    } else {
        2 * difference - 1
    }
}

/// How many blocks from this one on, of the next `most`, are all 0.
pub(crate) fn run_at(places: &[u32], block: u32, at: usize, most: usize) -> usize
    requires block { 1 ≤ block }
    requires inside { (at + most) * block ≤ length places.now }
    requires few { length places.now < 2 ^ 32 }
    ensures { result ≡ zero_run block places.now most at }
{
    let size = block as usize;
    for i in 0..most {
        let start = (at + i) * size;
        if !is_zero(&places[start..start + size]) {
            return i;
        }
    }
    most
}

/// Whether all values are 0.
fn is_zero(values: &[u32]) -> bool
    ensures { result ≡ all_zero values.now }
{
    for value in values {
        if *value != 0 {
            return false;
        }
    }
    true
}
