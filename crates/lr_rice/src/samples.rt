//! Samples from mapped values.

ghost use Rattle.std.specs.Prelude.{◌≡◌, ◌+◌, ◌/◌, ◌%◌, ◌<◌, ◌≤◌, ◌*◌, ◌-◌, ◌^◌, All, length, min, replicate};
ghost use Rattle.lr_rice.specs.CodedLines.{greatest};
ghost use Rattle.lr_rice.specs.Samples.{places_after, sample_after, sample_of, samples_from};

/// The greatest sample of this many bits.
#[inline(always)]
pub(crate) fn most_of(bits: u32) -> u64
    requires { bits ≤ 16 }
    ensures value { result ≡ greatest bits }
    ensures fits { result < 2 ^ 16 }
{
    (1 << bits) - 1
}

/// The sample after the sample `p` that has this mapped value, where samples are at most `most`.
#[inline(always)]
fn sample(most: u64, p: u64, value: u64) -> u64
    requires narrow { most < 2 ^ 16 }
    requires sample { p ≤ most }
    requires value { value ≤ most }
    ensures value { result ≡ sample_of most p value }
    ensures in_range { result ≤ most }
{
    let near = p.wrapping_add(step(value));
    if value <= 2 * p.min(most - p) {
        near
    } else if p <= most - p {
        value
    } else {
        most - value
    }
}

/// Half the value, up for an even one and down for an odd one, in two's complement. This has no branch, since which way
/// a sample goes can't be foretold.
#[inline(always)]
fn step(value: u64) -> u64
    ensures even { value % 2 ≡ 0 → result ≡ value / 2 }
    ensures odd { value % 2 ≡ 1 → result + value / 2 + 1 ≡ 2 ^ 64 }
{
    let half = value >> 1;
    if value % 2 == 0 { half } else { !half }
}

/// Writes the samples after the sample `p` that have these mapped values, as far as there are places, and answers the
/// last one.
#[inline(always)]
pub(crate) fn write_samples(most: u64, p: u64, values: &[u64], out: &mut [u16]) -> u64
    requires narrow { most < 2 ^ 16 }
    requires sample { p ≤ most }
    requires values { All (λ value. value ≤ most) values.now }
    ensures written { out.new ≡ places_after out.old (samples_from most p values.now) }
    ensures last { length values.now ≤ length out.old → result ≡ sample_after most p values.now }
    ensures in_range { result ≤ most }
{
    let mut last = p;
    for i in 0..values.len().min(out.len()) {
        last = sample(most, last, values[i]);
        out[i] = last as u16;
    }
    last
}

/// Writes the sample `p` this many times, as far as there are places.
pub(crate) fn repeat_sample(most: u64, p: u64, count: usize, out: &mut [u16])
    requires narrow { most < 2 ^ 16 }
    requires sample { p ≤ most }
    ensures { out.new ≡ places_after out.old (samples_from most p (replicate count 0)) }
{
    let end = count.min(out.len());
    out[..end].fill(p as u16);
}
