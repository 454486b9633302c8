//! The loops of the clock and of the phase, and whether they hold.

ghost use Rattle.std.specs.Prelude.{◌≡◌, ◌≤◌, ◌<◌, ◌^◌};
ghost use Rattle.lr_demod.specs.declared.loops.TheConstants.{MOST_ADVANCE};

use crate::circle::{cosine, sine};
use crate::filters::Filtered;
use crate::settings::Settings;
use std::num::{
    f32_to_bits_with_nan, f32_to_f64_with_nan, nearest_f64_to_f32_with_nan, nearest_u32_to_f32,
    nearest_u64_to_f64, saturating_f64_to_u64,
};

/// The symbols from one check of the lock to the next one.
const CHECK_SYMBOLS: u32 = 2_048;

/// The checks after a carrier was found in which the loops are wide, and in which no lock is lost yet.
const WIDE_CHECKS: u32 = 4;

/// The bandwidths of the wide loops at least, in cycles a symbol.
const WIDE_CARRIER_LOOP: f32 = 0.006;

const WIDE_CLOCK_LOOP: f32 = 0.005;

/// The part of the power that stands in phase, less that across it, at which the phase is held: about -7.5 dB.
const HELD_SHARE: f32 = 0.15;

/// The greatest share that goes into Es/N0, of about 30 dB.
const MOST_SHARE: f32 = 0.999;

/// How much of a new check comes into the running values.
const CHECK_PART: f32 = 0.25;

/// The damping of both loops.
const DAMPING: f32 = 0.7071;

/// What the detectors give for an error of 1: of the phase in turns, and of the clock in symbols (a raised cosine of
/// the usual roll-off, with noise at which soft decisions are nearly hard).
const PHASE_SLOPE: f32 = 6.2831855;

const CLOCK_SLOPE: f32 = 3.46;

/// The greatest errors of one symbol that come into the loops.
const MOST_EARLY: f32 = 4.0;

const MOST_AHEAD: f32 = 2.0;

/// The greatest error of the clock, as a part of it.
const MOST_CLOCK_ERROR: f64 = 0.0005;

/// The error of the mixer, in Hz, from which on it takes over what the loop of the phase found.
const HANDED_OVER: f64 = 300.0;

/// Parts of a sample in which places are counted.
const SAMPLE_PARTS: u64 = 4_294_967_296;

/// The greatest way from a symbol to the next one, in these parts: 32 samples. The least one is a sample.
const MOST_ADVANCE: u64 = 32 * SAMPLE_PARTS;

/// Amplitudes below this are those of nothing.
const NO_AMPLITUDE: f32 = 0.000000001;

/// The greatest soft symbol.
const MOST_SOFT: f32 = 127.0;

/// Three quarters of the floats' 24 bits: a sum with it has the nearest whole number in its last bits.
const ROUNDING: f32 = 12582912.0;

/// What a loop of second order does with an error.
#[derive(Clone, Copy)]
struct Gains {
    proportional: f32,
    integral: f32,
}

/// The gains of a noise bandwidth in cycles a symbol, for a detector of this slope (Rice, "Digital Communications: A
/// Discrete-Time Approach").
fn gains_of(bandwidth: f32, slope: f32) -> Gains {
    let t = bandwidth / (DAMPING + 0.25 / DAMPING);
    let d = (1.0 + 2.0 * DAMPING * t + t * t) * slope;
    Gains {
        proportional: 4.0 * DAMPING * t / d,
        integral: 4.0 * t * t / d,
    }
}

/// The nearest value within these bounds; of NaN the least one.
fn clamped(value: f32, least: f32, most: f32) -> f32 {
    if value > most {
        most
    } else if value > least {
        value
    } else {
        least
    }
}

/// The same for floats of 64 bits.
fn long_clamped(value: f64, least: f64, most: f64) -> f64 {
    if value > most {
        most
    } else if value > least {
        value
    } else {
        least
    }
}

/// A phase that left -0.5 to 0.5 turns by less than a turn, led back.
fn wrapped(phase: f32) -> f32 {
    if phase > 0.5 {
        phase - 1.0
    } else if phase < -0.5 {
        phase + 1.0
    } else {
        phase
    }
}

#[derive(Clone, Copy)]
pub(crate) struct Loops {
    /// A symbol's samples, in parts of a sample.
    samples: f64,
    /// Symbols a second.
    symbols: f64,
    scale: f32,
    carrier_loop: f32,
    clock_loop: f32,
    carrier: Gains,
    clock: Gains,
    /// How much faster symbols come than was said, as a part.
    clock_error: f64,
    /// The frequency of the mixer, and the carrier's when it was last held, in Hz.
    offset: f64,
    held_offset: f64,
    /// The phase after the mixer in turns, and how far it turns in a symbol.
    phase: f32,
    turn: f32,
    /// The running amplitude of a symbol, and its ratio of power to that of the noise: Es/N0.
    amplitude: f32,
    ratio: f32,
    /// The powers of the symbols since the last check, in phase and across it, and how many these are.
    in_phase: f32,
    across: f32,
    checked: u32,
    /// The checks in which the loops are still wide.
    wide_checks: u32,
    is_locked: bool,
}

/// A soft symbol, the value across its phase on the same scale, and the way to the next one in parts of a sample.
#[derive(Clone, Copy)]
pub(crate) struct Step {
    pub(crate) soft: i8,
    pub(crate) across: i8,
    pub(crate) advance: u64,
}

impl Loops {
    pub(crate) fn new(settings: &Settings) -> Loops {
        let none = Gains {
            proportional: 0.0,
            integral: 0.0,
        };
        Loops {
            samples: settings.rate / settings.symbols * nearest_u64_to_f64(SAMPLE_PARTS),
            symbols: settings.symbols,
            scale: settings.scale,
            carrier_loop: settings.carrier_loop,
            clock_loop: settings.clock_loop,
            carrier: none,
            clock: none,
            clock_error: 0.0,
            offset: 0.0,
            held_offset: 0.0,
            phase: 0.0,
            turn: 0.0,
            amplitude: 1.0,
            ratio: 0.0,
            in_phase: 0.0,
            across: 0.0,
            checked: 0,
            wide_checks: 0,
            is_locked: false,
        }
    }

    /// Begins with wide loops at the carrier that was found, in Hz, with the amplitude of the samples for that of the
    /// symbols.
    pub(crate) fn begin(&mut self, offset: f64, amplitude: f32) {
        self.is_locked = true;
        self.amplitude = amplitude;
        self.wide_checks = WIDE_CHECKS;
        self.offset = offset;
        self.held_offset = offset;
        self.turn = 0.0;
        self.ratio = 1.0;
        self.carrier = gains_of(self.carrier_loop.max(WIDE_CARRIER_LOOP), PHASE_SLOPE);
        self.clock = gains_of(self.clock_loop.max(WIDE_CLOCK_LOOP), CLOCK_SLOPE);
        self.clock.integral = 0.0;
    }

    /// Whether the carrier is held.
    pub(crate) fn is_locked(&self) -> bool {
        self.is_locked
    }

    /// Es/N0, as a ratio of power.
    pub(crate) fn ratio(&self) -> f32 {
        self.ratio
    }

    /// How much faster symbols come than was said, as a part.
    pub(crate) fn clock_error(&self) -> f64 {
        self.clock_error
    }

    /// The frequency of the mixer, in Hz.
    pub(crate) fn mixer_offset(&self) -> f64 {
        self.offset
    }

    /// The carrier's offset, in Hz.
    pub(crate) fn carrier_offset(&self) -> f64 {
        self.offset + self.found_offset()
    }

    /// The offset that the loop found after the mixer, in Hz.
    fn found_offset(&self) -> f64 {
        f32_to_f64_with_nan(self.turn) * self.symbols
    }

    /// The mixer takes over what the loop found.
    pub(crate) fn hand_over(&mut self) {
        let found = self.found_offset();
        if self.is_locked
            && self.wide_checks == 0
            && (found > HANDED_OVER || found < -HANDED_OVER)
        {
            self.offset = self.offset + found;
            self.turn = 0.0;
        }
    }

    /// A check at which the phase is held: `power` is that of a symbol with its noise, `share` the signal's part of it.
    fn keep(&mut self, power: f32, share: f32) {
        let part = if self.wide_checks > 0 {
            1.0
        } else {
            CHECK_PART
        };
        let amplitude = (power * share).sqrt();
        let ratio = share / (1.0 - share.min(MOST_SHARE));
        let offset = self.carrier_offset();
        self.amplitude = self.amplitude + (amplitude - self.amplitude) * part;
        self.ratio = self.ratio + (ratio - self.ratio) * part;
        self.held_offset = self.held_offset
            + (offset - self.held_offset) * f32_to_f64_with_nan(part);
        if self.wide_checks > 0 {
            self.wide_checks -= 1;
            if self.wide_checks == 0 {
                self.carrier = gains_of(self.carrier_loop, PHASE_SLOPE);
                self.clock = gains_of(self.clock_loop, CLOCK_SLOPE);
            }
        }
    }

    /// A check at which it isn't. The loops go on at the carrier that was held, and symbols by the clock.
    fn lose(&mut self, power: f32) {
        if self.wide_checks > 0 {
            self.amplitude = power.sqrt();
            self.wide_checks -= 1;
            self.is_locked = self.wide_checks > 0;
        } else {
            self.is_locked = false;
            self.turn = nearest_f64_to_f32_with_nan(
                (self.held_offset - self.offset) / self.symbols,
            );
        }
        if !self.is_locked {
            self.amplitude = self.amplitude.max(power.sqrt());
            self.ratio = 0.0;
        }
    }

    /// Tells by the symbols since the last check whether the phase is held.
    fn check(&mut self) {
        let sum = self.in_phase + self.across;
        let share = (self.in_phase - self.across) / sum;
        self.in_phase = 0.0;
        self.across = 0.0;
        let power = sum / nearest_u32_to_f32(CHECK_SYMBOLS);
        if share > HELD_SHARE {
            self.keep(power, share);
        } else {
            self.lose(power);
        }
    }

    /// The soft symbol of a value.
    fn soft_of(&self, value: f32) -> i8 {
        let soft = clamped(value * self.scale / self.amplitude, -MOST_SOFT, MOST_SOFT);
        ((f32_to_bits_with_nan(soft + ROUNDING) & 0xff) as u8).cast_signed()
    }

    /// Leads both loops by a symbol: its values in phase and across it, and the derivative in phase. Answers what the
    /// clock's loop adds to the way to the next symbol.
    fn lead(&mut self, in_phase: f32, across: f32, slope: f32) -> f64 {
        let inverse = 1.0 / self.amplitude.max(NO_AMPLITUDE);
        // (a limiter stands for the hyperbolic tangent of the soft decision)
        let sharpness = clamped(2.0 * self.ratio, 1.0, 8.0) * 0.5 + 0.5;
        let decision = clamped(in_phase * inverse * sharpness, -1.0, 1.0);
        let early = clamped(decision * slope * inverse, -MOST_EARLY, MOST_EARLY);
        let ahead = clamped(decision * across * inverse, -MOST_AHEAD, MOST_AHEAD);
        let clock_error = self.clock_error - f32_to_f64_with_nan(self.clock.integral * early);
        self.clock_error = long_clamped(clock_error, -MOST_CLOCK_ERROR, MOST_CLOCK_ERROR);
        self.turn = self.turn + self.carrier.integral * ahead;
        self.phase = self.phase + self.carrier.proportional * ahead;
        self.samples * f32_to_f64_with_nan(self.clock.proportional * early)
    }

    /// Takes what the filters give of a symbol.
    pub(crate) fn step(&mut self, symbol: &Filtered) -> Step
        ensures { result.advance ≤ MOST_ADVANCE }
    {
        let c = cosine(self.phase);
        let s = sine(self.phase);
        let in_phase = symbol.i * c + symbol.q * s;
        let across = symbol.q * c - symbol.i * s;
        self.in_phase = self.in_phase + in_phase * in_phase;
        self.across = self.across + across * across;
        let mut advance = self.samples * (1.0 - self.clock_error);
        self.phase = self.phase + self.turn;
        if self.is_locked {
            let slope = symbol.slope_i * c + symbol.slope_q * s;
            advance = advance + self.lead(in_phase, across, slope);
        }
        self.phase = wrapped(self.phase);
        let soft = self.soft_of(in_phase);
        let across = self.soft_of(across);
        self.checked = self.checked.saturating_add(1);
        if self.checked >= CHECK_SYMBOLS {
            self.checked = 0;
            self.check();
        }
        Step {
            soft,
            across,
            advance: saturating_f64_to_u64(advance)
                .max(SAMPLE_PARTS)
                .min(MOST_ADVANCE),
        }
    }
}
