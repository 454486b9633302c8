//! Reading the words of one command by `clap`.

ghost use Rattle.std.specs.Prelude.{◌≡◌, true, map, IfOk, string_bytes};
ghost use Rattle.clap.specs.Words.{App, app_of};
ghost use Rattle.lr_words.specs.Words.{is_covered, IsMatched};

use clap::error::ErrorKind;
use clap::{ArgMatches, Command as Parser};
use lr_bits::NoMemory;
use std::alloc::AllocError;

/// The matches of the words, of which the first is the command's name, or none where the command refuses them.
pub(crate) fn matches_of<'a>(
    command: Parser<'a>,
    words: &'a [String],
) -> Result<Option<ArgMatches<'a>>, NoMemory>
    requires { is_covered (app_of command) ≡ true }
    ensures { IfOk result (IsMatched (app_of command.entry) (map string_bytes words.entry.now)) }
{
    match command.try_get_matches_from(words) {
        Ok(matches) => Ok(Some(matches)),
        Err(error) => match error.kind() {
            ErrorKind::OutOfMemory => Err(NoMemory),
            _ => Ok(None),
        },
    }
}

/// The matches of the words by a parser, or none where it refuses them. Where memory was refused for the parser, it is
/// refused here.
pub(crate) fn matches_by<'a>(
    parser: Result<Parser<'a>, AllocError>,
    words: &'a [String],
) -> Result<Option<ArgMatches<'a>>, NoMemory>
    requires { IfOk parser (λ c. is_covered (app_of c) ≡ true) }
    ensures { (app : App) → IfOk parser.entry (λ c. app_of c ≡ app)
        → IfOk result (IsMatched app (map string_bytes words.entry.now)) }
{
    matches_of(parser?, words)
}
