//! Numbers as words give them.
ghost use Rattle.std.specs.Prelude.{◌≡◌, ◌≤◌, IfSome};
ghost use Rattle.clap.specs.Words.{first_value, found_of};
ghost use Rattle.lr_words.specs.Numbers.{number_in_text, number_between, number_or, number_given};

use clap::ArgMatches;

/// The most digits of a number.
const MOST_DIGITS: usize = 20;

/// The number that a text of 1 to 20 decimal digits gives, where it is below 2^64.
pub(crate) fn number_of(text: &str) -> Option<u64>
    ensures { result ≡ number_in_text text.now }
{
    let bytes = text.as_bytes();
    if bytes.len() == 0 {
        return None;
    }
    if bytes.len() > MOST_DIGITS {
        return None;
    }
    if bytes[0] == b'+' {
        return None;
    }
    match text.parse::<u64>() {
        Ok(number) => Some(number),
        Err(_) => None,
    }
}

/// The number from `low` to `high` that a text gives.
pub(crate) fn number_between(low: u64, high: u64, text: &str) -> Option<u64>
    ensures gives { result ≡ number_between low high text.now }
    ensures low { IfSome result (λ n. low ≤ n) }
    ensures high { IfSome result (λ n. n ≤ high) }
{
    let number = number_of(text)?;
    if low <= number && number <= high {
        Some(number)
    } else {
        None
    }
}

/// The number from `low` to `high` of an option, or `missing` where the option isn't there.
pub(crate) fn number_or(
    matches: &ArgMatches,
    id: &str,
    low: u64,
    high: u64,
    missing: u64,
) -> Option<u64>
    requires least { low ≤ missing }
    requires most { missing ≤ high }
    ensures gives { result ≡ number_or low high missing (first_value (found_of matches.now) id.now) }
    ensures low { IfSome result (λ n. low ≤ n) }
    ensures high { IfSome result (λ n. n ≤ high) }
{
    match matches.get_str(id) {
        Some(text) => number_between(low, high, text),
        None => Some(missing),
    }
}

/// The number from `low` to `high` of an argument that has to be there.
pub(crate) fn number_given(matches: &ArgMatches, id: &str, low: u64, high: u64) -> Option<u64>
    ensures gives { result ≡ number_given low high (first_value (found_of matches.now) id.now) }
    ensures low { IfSome result (λ n. low ≤ n) }
    ensures high { IfSome result (λ n. n ≤ high) }
{
    number_between(low, high, matches.get_str(id)?)
}
