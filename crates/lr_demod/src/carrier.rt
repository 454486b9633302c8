//! Where the carrier is: the strongest line in the spectrum of the squared signal, which noise of twice the signal's
//! power doesn't hide.
//!
//! An imbalance of I and Q has a line there too, in the very middle, where a carrier without an offset has its own. So
//! the middle is asked only where no line elsewhere stands out.

ghost use Rattle.std.specs.Prelude.{◌≡◌, ◌≤◌, ◌<◌, ◌*◌, ◌+◌, ◌-◌, length, vec_len};
ghost use Rattle.lr_demod.specs.declared.sizes.TheConstants.{BLOCK_SAMPLES};
ghost use Rattle.lr_demod.specs.declared.carrier.TheConstants.{MOST_LINES};

use crate::circle::cosine;
use crate::sizes::BLOCK_SAMPLES;
use crate::spectrum::{Twiddles, place_of, transform};
use std::alloc::{AllocError, Global};
use std::num::{f32_to_f64_with_nan, nearest_usize_to_f64, saturating_f64_to_usize};

/// The most lines of the spectrum to each side of its middle, and the fewest.
const MOST_LINES: usize = 8_190;

const LEAST_LINES: usize = 16;

/// How much of the power of earlier blocks stays in the sums.
const KEPT_PART: f32 = 0.7;

/// A line stands out where it has this many times the mean power of the others: noise alone passes it once in 10^10.
const STANDS_OUT: f64 = 25.0;

/// The lines to each side of the middle that an imbalance of I and Q may fill.
const MIDDLE_LINES: usize = 3;

/// One over the samples of a block, and over twice as many: the squared signal has its line at twice the offset.
const OF_BLOCK: f32 = 0.00006103515625;

const LINES_OF_RATE: f64 = 32768.0;

/// Powers below this are those of nothing.
const NO_POWER: f32 = 0.000000000001;

#[derive(Drop)]
pub(crate) struct Search {
    twiddles: Twiddles,
    i: Vec<f32>,
    q: Vec<f32>,
    /// The sums of the powers of the spectra, in which earlier ones fade.
    sums: Vec<f32>,
    /// The lines to each side of the middle in which the carrier is sought.
    lines: usize,
    ghost i_whole: { vec_len i ≡ BLOCK_SAMPLES },
    ghost q_whole: { vec_len q ≡ BLOCK_SAMPLES },
    ghost sums_whole: { vec_len sums ≡ BLOCK_SAMPLES },
    ghost lines_bound: { lines ≤ MOST_LINES },
}

/// The strongest line of a part of the spectrum, and the power of all lines there. A line's number is 0 at the first
/// one of the search, and one more than its lines to a side in the middle.
#[derive(Clone, Copy)]
struct Strongest {
    line: usize,
    power: f32,
    total: f64,
}

/// The strongest lines away from the middle and in it.
#[derive(Clone, Copy)]
struct Lines {
    away: Strongest,
    middle: Strongest,
}

/// The square of each sample times `scale`, under a window of a raised cosine.
fn square(i: &[f32], q: &[f32], scale: f32, squared_i: &mut [f32], squared_q: &mut [f32])
    requires i { length i.now ≡ BLOCK_SAMPLES }
    requires q { length q.now ≡ BLOCK_SAMPLES }
    requires squared_i { length squared_i.old ≡ BLOCK_SAMPLES }
    requires squared_q { length squared_q.old ≡ BLOCK_SAMPLES }
{
    for k in 0..BLOCK_SAMPLES {
        let window = scale * (0.5 + 0.5 * cosine((k as u16) as f32 * OF_BLOCK - 0.5));
        let (a, b) = (i[k], q[k]);
        squared_i[k] = (a * a - b * b) * window;
        squared_q[k] = 2.0 * a * b * window;
    }
}

/// Where the line of this number stands in a spectrum.
fn frequency_of(lines: usize, line: usize) -> usize
    requires lines { lines ≤ MOST_LINES }
    requires line { line ≤ BLOCK_SAMPLES }
    ensures { result < BLOCK_SAMPLES }
{
    (BLOCK_SAMPLES - 1 - lines + line) % BLOCK_SAMPLES
}

/// Counts a line in. The ones at both ends are neighbours alone.
fn count_in(strongest: &mut Strongest, line: usize, power: f32, is_end: bool) {
    strongest.total += f32_to_f64_with_nan(power);
    if !is_end && power > strongest.power {
        strongest.line = line;
        strongest.power = power;
    }
}

/// Adds the powers of a spectrum to the sums, and finds where these are greatest.
fn add_powers(i: &[f32], q: &[f32], sums: &mut [f32], lines: usize) -> Lines
    requires lines { lines ≤ MOST_LINES }
    requires i { length i.now ≡ BLOCK_SAMPLES }
    requires q { length q.now ≡ BLOCK_SAMPLES }
    requires sums { length sums.old ≡ BLOCK_SAMPLES }
{
    let none = Strongest {
        line: 1,
        power: -1.0,
        total: 0.0,
    };
    let mut found = Lines {
        away: none,
        middle: none,
    };
    for line in 0..2 * lines + 3 {
        let frequency = frequency_of(lines, line);
        let place = place_of(frequency);
        let power = i[place] * i[place] + q[place] * q[place];
        let sum = KEPT_PART * sums[frequency] + power;
        sums[frequency] = sum;
        let is_end = line == 0 || line == 2 * lines + 2;
        if line + MIDDLE_LINES > lines && line <= lines + 1 + MIDDLE_LINES {
            count_in(&mut found.middle, line, sum, is_end);
        } else {
            count_in(&mut found.away, line, sum, is_end);
        }
    }
    found
}

impl Search {
    /// A search at a rate of samples, within `range` Hz to each side of the middle.
    pub(crate) fn new(alloc: Global, rate: f64, range: f64) -> Result<Search, AllocError> {
        let twiddles = Twiddles::new(alloc)?;
        let i = vec![in alloc; 0.0f32; BLOCK_SAMPLES]?;
        let q = vec![in alloc; 0.0f32; BLOCK_SAMPLES]?;
        let sums = vec![in alloc; 0.0f32; BLOCK_SAMPLES]?;
        let wanted = saturating_f64_to_usize(LINES_OF_RATE * range / rate);
        let lines = wanted.clamp(LEAST_LINES, MOST_LINES);
        Ok(Search {
            twiddles,
            i,
            q,
            sums,
            lines,
        })
    }

    /// The carrier's offset by its line, in turns a sample: between two lines by what the window makes of one.
    fn offset_at(&self, line: usize) -> f64 {
        let line = line.clamp(1, 2 * self.lines + 1);
        let before = self.sums[frequency_of(self.lines, line - 1)].sqrt();
        let here = self.sums[frequency_of(self.lines, line)].sqrt();
        let after = self.sums[frequency_of(self.lines, line + 1)].sqrt();
        let between = 2.0 * (after - before) / (before + 2.0 * here + after);
        let whole = nearest_usize_to_f64(line) - nearest_usize_to_f64(self.lines + 1);
        (whole + f32_to_f64_with_nan(between)) / LINES_OF_RATE
    }

    /// The power of a line and its two neighbours.
    fn power_around(&self, line: usize) -> f64 {
        let line = line.clamp(1, 2 * self.lines + 1);
        let before = self.sums[frequency_of(self.lines, line - 1)];
        let here = self.sums[frequency_of(self.lines, line)];
        let after = self.sums[frequency_of(self.lines, line + 1)];
        f32_to_f64_with_nan(before + here + after)
    }

    /// Looks at a block of this power, and answers the carrier's offset in turns a sample where a line stands out. Each
    /// block counts the same, whatever its power.
    pub(crate) fn find(&mut self, i: &[f32], q: &[f32], power: f32) -> Option<f64>
        requires i { length i.now ≡ BLOCK_SAMPLES }
        requires q { length q.now ≡ BLOCK_SAMPLES }
    {
        let scale = if power > NO_POWER { 1.0 / power } else { 0.0 };
        square(i, q, scale, &mut self.i, &mut self.q);
        transform(&self.twiddles, &mut self.i, &mut self.q);
        let Lines { away, middle } = add_powers(&self.i, &self.q, &mut self.sums, self.lines);
        let places = nearest_usize_to_f64(2 * self.lines);
        let rest = away.total - self.power_around(away.line);
        let offset = if f32_to_f64_with_nan(away.power) * places > STANDS_OUT * rest {
            self.offset_at(away.line)
        } else if f32_to_f64_with_nan(middle.power) * places > STANDS_OUT * away.total {
            self.offset_at(middle.line)
        } else {
            return None;
        };
        self.sums.fill(0.0);
        Some(offset)
    }
}
