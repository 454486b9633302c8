//! How well a demodulator receives.

use crate::decibels::decibels;
use std::num::{nearest_f64_to_f32_with_nan, nearest_u64_to_f64};

/// The parts of a million, and of a hundred.
const MILLION: f64 = 1000000.0;

/// What a demodulator holds.
#[derive(Clone, Copy, Debug)]
pub struct Lock {
    /// Es/N0 in decibels.
    pub es_n0: f32,
    /// The carrier's offset from the middle of the band, in Hz.
    pub carrier: f64,
    /// How much faster symbols come than was said, in parts of a million.
    pub clock: f64,
}

/// What came in since the last time, and what is held now.
#[derive(Clone, Copy, Debug)]
pub struct Reception {
    /// The samples.
    pub samples: u64,
    /// Their mean power in decibels, where 0 is that of a full circle.
    pub level: f32,
    /// The part of their numbers that were clipped, 1 at most.
    pub clipped: f32,
    /// What is held; none where there is no lock.
    pub lock: Option<Lock>,
}

/// What is counted until it is told.
#[derive(Clone, Copy)]
pub(crate) struct Tally {
    samples: u64,
    /// The sum of the samples' powers.
    power: f64,
    /// The numbers that were clipped, two of a sample.
    clipped: u64,
}

impl Tally {
    pub(crate) fn new() -> Tally {
        Tally {
            samples: 0,
            power: 0.0,
            clipped: 0,
        }
    }

    /// Counts a block in: its samples, the sum of their powers, and the numbers that were clipped.
    pub(crate) fn add(&mut self, samples: usize, power: f64, clipped: u32) {
        self.samples = self.samples.saturating_add(samples as u64);
        self.power = self.power + power;
        self.clipped = self.clipped.saturating_add(clipped as u64);
    }

    /// What was counted, beside what is held.
    pub(crate) fn reception(&self, lock: Option<Lock>) -> Reception {
        let samples = nearest_u64_to_f64(self.samples.max(1));
        let clipped = nearest_u64_to_f64(self.clipped) / (2.0 * samples);
        Reception {
            samples: self.samples,
            level: decibels(nearest_f64_to_f32_with_nan(self.power / samples)),
            clipped: nearest_f64_to_f32_with_nan(clipped),
            lock,
        }
    }
}

/// What is held, by a ratio of power, an offset in Hz and the clock's error as a part.
pub(crate) fn lock_of(ratio: f32, carrier: f64, clock_error: f64) -> Lock {
    Lock {
        es_n0: decibels(ratio),
        carrier,
        clock: clock_error * MILLION,
    }
}
