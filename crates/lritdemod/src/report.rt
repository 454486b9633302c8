//! What is told of the reception: a line on standard error, and one of JSON.

use lr_demod::{Lock, Reception};
use std::fmt;
use std::num::saturating_f64_to_i64;

/// A number with as many places after its point as `parts` has zeros.
#[derive(Clone, Copy)]
pub(crate) struct Decimal {
    value: f64,
    parts: u64,
}

/// A number to a tenth.
fn tenths(value: f64) -> Decimal {
    Decimal { value, parts: 10 }
}

/// A number to a hundredth.
fn hundredths(value: f64) -> Decimal {
    Decimal { value, parts: 100 }
}

impl fmt::Display for Decimal {
    fn fmt<W: fmt::Write>(&self, f: &mut fmt::Formatter<W>) -> fmt::Result {
        let scaled = self.value * std::num::nearest_u64_to_f64(self.parts) + 0.5;
        let count = saturating_f64_to_i64(scaled.floor());
        let sign = if count < 0 { "-" } else { "" };
        let size = count.unsigned_abs();
        let parts = self.parts.max(1);
        let (whole, rest) = (size / parts, size % parts);
        if parts > 10 {
            write!(f, "{sign}{whole}.{rest:02}")
        } else {
            write!(f, "{sign}{whole}.{rest}")
        }
    }
}

/// The parts of a hundred.
const PERCENT: f64 = 100.0;

fn long(value: f32) -> f64 {
    std::num::f32_to_f64_with_nan(value)
}

/// What is told at some seconds of the signal.
#[derive(Clone, Copy)]
pub(crate) struct Report {
    /// The seconds of the signal so far.
    pub(crate) seconds: f64,
    pub(crate) reception: Reception,
}

/// The same as a line of JSON.
#[derive(Clone, Copy)]
pub(crate) struct Json {
    pub(crate) report: Report,
}

/// What is said of a lock.
#[derive(Clone, Copy)]
struct Held {
    lock: Lock,
}

impl fmt::Display for Held {
    fn fmt<W: fmt::Write>(&self, f: &mut fmt::Formatter<W>) -> fmt::Result {
        let es_n0 = tenths(long(self.lock.es_n0));
        let carrier = saturating_f64_to_i64((self.lock.carrier + 0.5).floor());
        let clock = tenths(self.lock.clock);
        write!(
            f,
            "locked, Es/N0 {es_n0} dB, carrier {carrier} Hz, clock {clock} ppm"
        )
    }
}

impl fmt::Display for Report {
    fn fmt<W: fmt::Write>(&self, f: &mut fmt::Formatter<W>) -> fmt::Result {
        let seconds = tenths(self.seconds);
        let level = tenths(long(self.reception.level));
        let clipped = hundredths(long(self.reception.clipped) * PERCENT);
        match self.reception.lock {
            Some(lock) => {
                let held = Held { lock };
                write!(
                    f,
                    "{seconds} s: level {level} dB, clipped {clipped} %, {held}"
                )
            }
            None => write!(
                f,
                "{seconds} s: level {level} dB, clipped {clipped} %, no lock"
            ),
        }
    }
}

/// What JSON has of a lock.
#[derive(Clone, Copy)]
struct HeldJson {
    lock: Lock,
}

impl fmt::Display for HeldJson {
    fn fmt<W: fmt::Write>(&self, f: &mut fmt::Formatter<W>) -> fmt::Result {
        let es_n0 = hundredths(long(self.lock.es_n0));
        let carrier = tenths(self.lock.carrier);
        let clock = hundredths(self.lock.clock);
        write!(
            f,
            "\"locked\": true, \"es_n0_db\": {es_n0}, \"carrier_hz\": {carrier}, \"clock_ppm\": {clock}"
        )
    }
}

/// JSON of no lock.
const NOT_HELD: &str =
    "\"locked\": false, \"es_n0_db\": null, \"carrier_hz\": null, \"clock_ppm\": null";

impl fmt::Display for Json {
    fn fmt<W: fmt::Write>(&self, f: &mut fmt::Formatter<W>) -> fmt::Result {
        let seconds = tenths(self.report.seconds);
        let level = hundredths(long(self.report.reception.level));
        let clipped = hundredths(long(self.report.reception.clipped) * PERCENT);
        write!(
            f,
            "{{\"seconds\": {seconds}, \"level_db\": {level}, \"clipped_percent\": {clipped}, "
        )?;
        match self.report.reception.lock {
            Some(lock) => {
                let held = HeldJson { lock };
                write!(f, "{held}")?;
            }
            None => write!(f, "{NOT_HELD}")?,
        }
        write!(f, "}}")
    }
}
