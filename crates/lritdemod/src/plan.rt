//! The settings of a demodulator, by what the call, the input's head and the downlink say.

use crate::words::Request;
use lr_demod::{Form, Refusal, Settings};

/// What the recording says of itself, in the head of a WAV file or in SigMF's metadata.
#[derive(Clone, Copy)]
pub(crate) struct Told {
    pub(crate) rate: f64,
    pub(crate) form: Form,
}

/// What is demodulated, and how.
#[derive(Clone, Copy)]
pub(crate) struct Plan {
    pub(crate) settings: Settings,
    pub(crate) form: Form,
}

/// Why there is no plan.
#[derive(Clone, Copy, Debug, PartialEq, Eq)]
pub(crate) enum NoPlan {
    /// Nothing says the rate of samples, or that of symbols.
    NoRate,
    NoSymbols,
    /// Nothing says the form of the samples.
    NoForm,
    /// A setting makes no sense.
    Refused(Refusal),
}

impl NoPlan {
    /// What is said of it on standard error.
    pub(crate) fn text(self) -> &'static str {
        match self {
            NoPlan::NoRate => "--rate is missing, and the input doesn't say it",
            NoPlan::NoSymbols => "--symbols is missing, or --downlink, which sets it",
            NoPlan::NoForm => "--format is missing, and the input doesn't say it",
            NoPlan::Refused(refusal) => refused_text(refusal),
        }
    }
}

fn refused_text(refusal: Refusal) -> &'static str {
    match refusal {
        Refusal::Rate => "--rate can only be 1000 to 1e9 samples a second",
        Refusal::Symbols => "--symbols can only be 100 to 1e9 a second",
        Refusal::TooFewSamples =>
            "--rate is too low: a symbol needs 1 sample and the roll-off's part of one",
        Refusal::TooManySamples => "--rate is too high: a symbol can have 20 samples at most",
        Refusal::RollOff => "--roll-off can only be 0.05 to 1",
        Refusal::Scale => "--scale can only be 1 to 127",
        Refusal::Range => "--range can only be above 0 and at most a quarter of --rate",
        Refusal::CarrierLoop => "--carrier-loop can only be 0.0001 to 0.05",
        Refusal::ClockLoop => "--clock-loop can only be 0.00001 to 0.02",
    }
}

/// The settings of a call. What it says comes before what the downlink says.
fn settings_of(request: &Request<'_>, rate: f64, symbols: f64) -> Settings {
    let usual = Settings::usual(rate, symbols);
    let sent = match request.downlink {
        Some(downlink) => downlink.roll_off,
        None => usual.roll_off,
    };
    Settings {
        rate,
        symbols,
        roll_off: request.roll_off.unwrap_or(sent),
        scale: request.scale.unwrap_or(usual.scale),
        range: request.range.unwrap_or(usual.range),
        carrier_loop: request.carrier_loop.unwrap_or(usual.carrier_loop),
        clock_loop: request.clock_loop.unwrap_or(usual.clock_loop),
    }
}

/// The plan of a call, over a recording that may say its rate and its form. What the call says comes first.
pub(crate) fn plan_of(request: &Request<'_>, told: Option<Told>) -> Result<Plan, NoPlan> {
    let Some(rate) = request.rate.or(told.map(|told| told.rate)) else {
        return Err(NoPlan::NoRate);
    };
    let Some(symbols) = request
        .symbols
        .or(request.downlink.map(|downlink| downlink.symbols))
    else {
        return Err(NoPlan::NoSymbols);
    };
    let Some(form) = request.form.or(told.map(|told| told.form)) else {
        return Err(NoPlan::NoForm);
    };
    let settings = settings_of(request, rate, symbols);
    match settings.refusal() {
        Some(refusal) => Err(NoPlan::Refused(refusal)),
        None => Ok(Plan { settings, form }),
    }
}
