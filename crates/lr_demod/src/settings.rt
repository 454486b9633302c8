//! What a demodulator is told, and which settings make no sense.

/// The settings of a demodulator.
#[derive(Clone, Copy)]
pub struct Settings {
    /// Complex samples a second.
    pub rate: f64,
    /// Symbols a second.
    pub symbols: f64,
    /// The roll-off of the matched filter.
    pub roll_off: f64,
    /// The soft symbol of a clean symbol, of at most 127.
    pub scale: f32,
    /// How far from the middle of the band the carrier is sought, in Hz.
    pub range: f64,
    /// The noise bandwidth of the loop of the phase, in cycles a symbol.
    pub carrier_loop: f32,
    /// The noise bandwidth of the loop of the clock, in cycles a symbol.
    pub clock_loop: f32,
}

/// Why settings are refused: the setting that makes no sense.
#[derive(Clone, Copy, Debug, PartialEq, Eq)]
pub enum Refusal {
    /// The rate of samples is below 1,000 or above 1,000,000,000 a second, or no number.
    Rate,
    /// The rate of symbols is below 100 or above 1,000,000,000 a second, or no number.
    Symbols,
    /// A symbol has fewer samples than its band needs, 1 and the roll-off.
    TooFewSamples,
    /// A symbol has more than 20 samples, so that the matched filter gets too long.
    TooManySamples,
    /// The roll-off lies outside of 0.05 to 1.
    RollOff,
    /// The scale lies outside of 1 to 127.
    Scale,
    /// The range is no number above 0, or above a quarter of the rate of samples.
    Range,
    /// The bandwidth of the loop of the phase lies outside of 0.0001 to 0.05.
    CarrierLoop,
    /// The bandwidth of the loop of the clock lies outside of 0.00001 to 0.02.
    ClockLoop,
}

const LEAST_RATE: f64 = 1000.0;

const LEAST_SYMBOLS: f64 = 100.0;

const MOST_RATE: f64 = 1000000000.0;

/// The samples of a symbol, at most.
const MOST_SAMPLES: f64 = 20.0;

const LEAST_ROLL_OFF: f64 = 0.05;

const MOST_SCALE: f32 = 127.0;

/// The range at most, as a part of the rate of samples: the squared signal has its line at twice the offset.
const MOST_RANGE: f64 = 0.25;

const LEAST_CARRIER_LOOP: f32 = 0.0001;

const MOST_CARRIER_LOOP: f32 = 0.05;

const LEAST_CLOCK_LOOP: f32 = 0.00001;

const MOST_CLOCK_LOOP: f32 = 0.02;

/// What is taken where nothing else is said: a roll-off between those that are sent, 0.3 and 0.5, the scale that loses
/// least where soft symbols are bytes, and the bandwidths that lose least at low Es/N0 with a crystal's noise.
const USUAL_ROLL_OFF: f64 = 0.4;

const USUAL_SCALE: f32 = 32.0;

const USUAL_RANGE: f64 = 60000.0;

const USUAL_CARRIER_LOOP: f32 = 0.0025;

const USUAL_CLOCK_LOOP: f32 = 0.0005;

/// Whether a number lies within these bounds, which NaN doesn't.
fn is_within(value: f64, least: f64, most: f64) -> bool {
    value >= least && value <= most
}

/// The same for floats of 32 bits.
fn is_short_within(value: f32, least: f32, most: f32) -> bool {
    value >= least && value <= most
}

impl Settings {
    /// The usual settings at these rates, of samples and of symbols.
    pub fn usual(rate: f64, symbols: f64) -> Settings {
        let most = MOST_RANGE * rate;
        Settings {
            rate,
            symbols,
            roll_off: USUAL_ROLL_OFF,
            scale: USUAL_SCALE,
            range: if USUAL_RANGE < most {
                USUAL_RANGE
            } else {
                most
            },
            carrier_loop: USUAL_CARRIER_LOOP,
            clock_loop: USUAL_CLOCK_LOOP,
        }
    }

    /// The first thing in these settings that makes no sense, if any. A demodulator of refused settings takes up no
    /// signal that means something, and does no harm.
    pub fn refusal(&self) -> Option<Refusal> {
        let samples = self.rate / self.symbols;
        if !is_within(self.rate, LEAST_RATE, MOST_RATE) {
            Some(Refusal::Rate)
        } else if !is_within(self.symbols, LEAST_SYMBOLS, MOST_RATE) {
            Some(Refusal::Symbols)
        } else if !is_within(self.roll_off, LEAST_ROLL_OFF, 1.0) {
            Some(Refusal::RollOff)
        } else if samples < 1.0 + self.roll_off {
            Some(Refusal::TooFewSamples)
        } else if samples > MOST_SAMPLES {
            Some(Refusal::TooManySamples)
        } else if !is_short_within(self.scale, 1.0, MOST_SCALE) {
            Some(Refusal::Scale)
        } else if !(self.range > 0.0 && self.range <= MOST_RANGE * self.rate) {
            Some(Refusal::Range)
        } else {
            self.loop_refusal()
        }
    }

    fn loop_refusal(&self) -> Option<Refusal> {
        if !is_short_within(self.carrier_loop, LEAST_CARRIER_LOOP, MOST_CARRIER_LOOP) {
            Some(Refusal::CarrierLoop)
        } else if !is_short_within(self.clock_loop, LEAST_CLOCK_LOOP, MOST_CLOCK_LOOP) {
            Some(Refusal::ClockLoop)
        } else {
            None
        }
    }
}
