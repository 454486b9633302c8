//! The words of a call, as `clap` reads them.

use crate::cause::Cause;
use crate::downlink::{Downlink, NAMES, downlink_named};
use clap::error::ErrorKind;
use clap::{Arg, ArgAction, ArgMatches, Command, value_parser};
use lr_demod::Form;
use std::alloc::{AllocError, Global};

/// What a call asks for. What it doesn't say is taken from the input's head, the downlink or the usual settings.
#[derive(Clone, Copy)]
pub(crate) struct Request<'a> {
    pub(crate) rate: Option<f64>,
    pub(crate) symbols: Option<f64>,
    pub(crate) form: Option<Form>,
    pub(crate) roll_off: Option<f64>,
    pub(crate) scale: Option<f32>,
    pub(crate) range: Option<f64>,
    pub(crate) carrier_loop: Option<f32>,
    pub(crate) clock_loop: Option<f32>,
    pub(crate) downlink: Option<Downlink>,
    /// The file with SigMF's metadata.
    pub(crate) sigmf: Option<&'a str>,
    /// The file of the lines of JSON.
    pub(crate) status: Option<&'a str>,
    /// Whether no line a second is wanted on standard error.
    pub(crate) is_quiet: bool,
}

const FORMS: [&str; 4] = ["u8", "s8", "s16", "f32"];

/// The form of this name.
pub(crate) fn form_named(name: &str) -> Option<Form> {
    match name {
        "u8" => Some(Form::U8),
        "s8" => Some(Form::S8),
        "s16" => Some(Form::S16),
        "f32" => Some(Form::F32),
        _ => None,
    }
}

/// An option with a number.
fn number<'a>(alloc: Global, id: &'a str, value: &'a str, help: &'a str) -> Arg<'a> {
    Arg::new(alloc, id)
        .long(id)
        .value_name(value)
        .value_parser(value_parser!(f64))
        .help(help)
}

/// An option with a text.
fn text<'a>(alloc: Global, id: &'a str, value: &'a str, help: &'a str) -> Arg<'a> {
    Arg::new(alloc, id).long(id).value_name(value).help(help)
}

/// The options that say what the signal is like.
fn with_signal<'a>(alloc: Global, command: Command<'a>) -> Result<Command<'a>, AllocError> {
    let form = text(
        alloc,
        "format",
        "FORM",
        "Form of the samples' numbers, I and Q in turn",
    );
    let downlink = text(alloc, "downlink", "NAME", "Sets --symbols and --roll-off");
    command
        .arg(number(alloc, "rate", "SAMPLES", "Complex samples a second"))?
        .arg(number(alloc, "symbols", "SYMBOLS", "Symbols a second"))?
        .arg(downlink.value_parser(NAMES.as_slice()))?
        .arg(form.value_parser(FORMS.as_slice()))?
        .arg(text(
            alloc,
            "sigmf",
            "FILE",
            "SigMF's metadata, which have the rate and the form",
        ))
}

/// The options that say how it is demodulated.
fn with_settings<'a>(alloc: Global, command: Command<'a>) -> Result<Command<'a>, AllocError> {
    command
        .arg(number(
            alloc,
            "roll-off",
            "R",
            "Roll-off of the matched filter [usually 0.4]",
        ))?
        .arg(number(
            alloc,
            "scale",
            "S",
            "Soft symbol of a clean symbol [usually 32]",
        ))?
        .arg(number(
            alloc,
            "range",
            "HZ",
            "How far from the middle the carrier is sought [usually 60000]",
        ))?
        .arg(number(
            alloc,
            "carrier-loop",
            "B",
            "Bandwidth of the phase's loop, cycles a symbol [usually 0.0025]",
        ))?
        .arg(number(
            alloc,
            "clock-loop",
            "B",
            "Bandwidth of the clock's loop, cycles a symbol [usually 0.0005]",
        ))
}

/// The options that say what is told.
fn with_lines<'a>(alloc: Global, command: Command<'a>) -> Result<Command<'a>, AllocError> {
    let quiet = Arg::new(alloc, "quiet")
        .long("quiet")
        .action(ArgAction::SetTrue)
        .help("Without a line each second on standard error");
    command
        .arg(text(
            alloc,
            "status",
            "FILE",
            "Writes a line of JSON each second of signal to FILE",
        ))?
        .arg(quiet)
}

fn parser<'a>(alloc: Global) -> Result<Command<'a>, AllocError> {
    let command = Command::new(alloc, "lritdemod").about(
        "Demodulates BPSK: complex samples on standard input, soft symbols on standard output",
    );
    with_lines(alloc, with_settings(alloc, with_signal(alloc, command)?)?)
}

/// A number of 32 bits.
fn short(value: Option<f64>) -> Option<f32> {
    match value {
        Some(value) => Some(std::num::nearest_f64_to_f32_with_nan(value)),
        None => None,
    }
}

/// What the matches ask for.
fn request_from<'a>(matches: &ArgMatches<'a>) -> Request<'a> {
    Request {
        rate: matches.get_one::<f64>("rate"),
        symbols: matches.get_one::<f64>("symbols"),
        form: matches.get_str("format").and_then(form_named),
        roll_off: matches.get_one::<f64>("roll-off"),
        scale: short(matches.get_one::<f64>("scale")),
        range: matches.get_one::<f64>("range"),
        carrier_loop: short(matches.get_one::<f64>("carrier-loop")),
        clock_loop: short(matches.get_one::<f64>("clock-loop")),
        downlink: matches.get_str("downlink").and_then(downlink_named),
        sigmf: matches.get_str("sigmf"),
        status: matches.get_str("status"),
        is_quiet: matches.get_flag("quiet"),
    }
}

/// What the words ask for, or none where they ask for help, which is printed.
pub(crate) fn request_of<'a>(
    rt: &HostRuntime,
    words: &'a [String],
) -> Result<Option<Request<'a>>, Cause> {
    match parser(rt.alloc())?.try_get_matches_from(words) {
        Ok(matches) => Ok(Some(request_from(&matches))),
        Err(error) if error.kind() == ErrorKind::OutOfMemory => Err(Cause::NoMemory),
        Err(error) => {
            let is_shown = error.print(rt).is_ok();
            if error.use_stderr() {
                Err(Cause::Usage)
            } else if is_shown {
                Ok(None)
            } else {
                Err(Cause::Output)
            }
        }
    }
}
