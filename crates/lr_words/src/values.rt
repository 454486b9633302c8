//! The values of the options that several commands have.
ghost use Rattle.std.specs.Prelude.{◌≡◌, ◌≤◌, IfSome, codes};
ghost use Rattle.clap.specs.Words.{first_value, found_of};
ghost use Rattle.lr_mend.specs.Mending.{most_fillers};
ghost use Rattle.lr_words.specs.Values.{
  coded_input,
  any_input,
  output_of,
  marks_given,
  inverted_of,
  line_code_given,
  passes_of,
  passes_given,
  decoding_given,
  mend_given,
  most_of,
  workers_given,
};

use crate::numbers::{number_between, number_of, number_or};
use clap::ArgMatches;
use lr_conv::{LineCode, Passes};
use lr_forms::{Decoding, Input, MOST_BYTES, MOST_WORKERS, Output, UnitForm};
use lr_mend::MOST_FILLERS;

/// The most wrong bytes in each word of a test stream.
pub(crate) const MOST_WRONG: u64 = 16;

/// What `decode` reads, where symbols are decoded so.
pub(crate) fn coded_input(matches: &ArgMatches, decoding: Decoding) -> Option<Input>
    ensures { result ≡ coded_input decoding (first_value (found_of matches.now) (codes "input")) }
{
    let Some(text) = matches.get_str("input") else {
        return Some(Input::Symbols(decoding));
    };
    match text {
        "symbols" => Some(Input::Symbols(decoding)),
        "blocks" => Some(Input::Units(UnitForm::Blocks)),
        _ => None,
    }
}

/// What `receive` reads, where symbols are decoded so.
pub(crate) fn any_input(matches: &ArgMatches, decoding: Decoding) -> Option<Input>
    ensures { result ≡ any_input decoding (first_value (found_of matches.now) (codes "input")) }
{
    let Some(text) = matches.get_str("input") else {
        return Some(Input::Symbols(decoding));
    };
    match text {
        "symbols" => Some(Input::Symbols(decoding)),
        "blocks" => Some(Input::Units(UnitForm::Blocks)),
        "frames" => Some(Input::Units(UnitForm::Frames)),
        _ => None,
    }
}

/// The form of what `make` writes.
pub(crate) fn output_form(matches: &ArgMatches) -> Option<Output>
    ensures { result ≡ output_of (first_value (found_of matches.now) (codes "output")) }
{
    let Some(text) = matches.get_str("output") else {
        return Some(Output::Symbols);
    };
    match text {
        "symbols" => Some(Output::Symbols),
        "blocks" => Some(Output::Units(UnitForm::Blocks)),
        "frames" => Some(Output::Units(UnitForm::Frames)),
        _ => None,
    }
}

/// Whether a 1 is a change of level, by the name of the line code.
fn marks(matches: &ArgMatches) -> Option<bool>
    ensures { result ≡ marks_given (first_value (found_of matches.now) (codes "line")) }
{
    let Some(text) = matches.get_str("line") else {
        return Some(false);
    };
    match text {
        "nrz-l" => Some(false),
        "nrz-m" => Some(true),
        _ => None,
    }
}

/// Whether the second symbol of each pair is complemented.
fn inversion(matches: &ArgMatches) -> Option<bool>
    ensures { result ≡ inverted_of (first_value (found_of matches.now) (codes "g2")) }
{
    let Some(text) = matches.get_str("g2") else {
        return Some(true);
    };
    match text {
        "inverted" => Some(true),
        "plain" => Some(false),
        _ => None,
    }
}

/// The line code of symbols.
pub(crate) fn line_code(matches: &ArgMatches) -> Option<LineCode>
    ensures { result ≡ line_code_given (first_value (found_of matches.now) (codes "line"))
        (first_value (found_of matches.now) (codes "g2")) }
{
    let marks = marks(matches)?;
    let inverted = inversion(matches)?;
    Some(LineCode { marks, inverted })
}

/// This number of passes, if a window may be decoded so often.
fn passes_of(number: u64) -> Option<Passes>
    ensures { result ≡ passes_of number }
{
    match number {
        1 => Some(Passes::One),
        2 => Some(Passes::Two),
        3 => Some(Passes::Three),
        4 => Some(Passes::Four),
        _ => None,
    }
}

/// How many passes are made over the window of a frame.
fn passes(matches: &ArgMatches) -> Option<Passes>
    ensures { result ≡ passes_given (first_value (found_of matches.now) (codes "passes")) }
{
    let Some(text) = matches.get_str("passes") else {
        return Some(Passes::One);
    };
    passes_of(number_of(text)?)
}

/// How symbols are decoded.
pub(crate) fn decoding(matches: &ArgMatches) -> Option<Decoding>
    ensures { result ≡ decoding_given (first_value (found_of matches.now) (codes "line"))
        (first_value (found_of matches.now) (codes "g2")) (first_value (found_of matches.now) (codes "passes")) }
{
    let line = line_code(matches)?;
    let passes = passes(matches)?;
    Some(Decoding { line, passes })
}

/// The most bytes that are taken.
pub(crate) fn most(matches: &ArgMatches) -> Option<u64>
    ensures gives { result ≡ most_of (first_value (found_of matches.now) (codes "symbols")) }
    ensures high { IfSome result (λ n. n ≤ MOST_BYTES) }
{
    number_or(matches, "symbols", 0, MOST_BYTES, MOST_BYTES)
}

/// How many work on windows, the caller among them.
pub(crate) fn workers(matches: &ArgMatches) -> Option<u32>
    ensures gives { result ≡ workers_given (first_value (found_of matches.now) (codes "workers")) }
    ensures some { IfSome result (λ n. 1 ≤ n) }
    ensures few { IfSome result (λ n. n ≤ MOST_WORKERS) }
{
    let workers = number_or(matches, "workers", 1, MOST_WORKERS, 1)?;
    Some(workers as u32)
}

/// How many fillers an image may have; where the option isn't given, none is mended.
pub(crate) fn mend(matches: &ArgMatches) -> Option<u16>
    ensures gives { result ≡ mend_given (first_value (found_of matches.now) (codes "mend")) }
    ensures few { IfSome result (λ n. n ≤ most_fillers) }
{
    let Some(text) = matches.get_str("mend") else {
        return Some(0);
    };
    let fillers = number_between(1, u64::from(MOST_FILLERS), text)?;
    Some(fillers as u16)
}
