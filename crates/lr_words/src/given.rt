//! The command that the values of arguments give, by what the words look like.
ghost use Rattle.std.specs.Prelude.{◌≡◌, codes};
ghost use Rattle.clap.specs.Words.{first_value, found_of};
ghost use Rattle.lr_words.specs.Commands.{block_of, input_of, intake_given, given_by, IsInRange, MayHaveFillers};
ghost use Rattle.lr_words.specs.declared.shape.Shape.TheVariants.{
  Capacity,
  Number,
  Symbols,
  Intake,
  MendedIntake,
  Line,
  Workers,
  Segments,
  Sent,
  Block,
  Made,
  Tried,
};

use crate::command::{Command, FileAction, FrameLines, IntakeAction};
use crate::numbers::number_given;
use crate::shape::Shape;
use crate::values::{
    MOST_WRONG, any_input, coded_input, decoding, line_code, mend, most, output_form, workers,
};
use clap::ArgMatches;
use lr_forms::{Decoding, Input};
use lr_shelf_format::{LEAST_CAPACITY, MOST_CAPACITY};

/// The greatest application identifier of a packet that isn't an idle one.
const MOST_APID: u64 = 2046;

/// The greatest identifier of an image.
const MOST_IMAGE: u64 = 65_535;

/// The most frames that `make` writes.
const MOST_MADE_FRAMES: u64 = 65_536;

/// The most frames that `trial` takes.
const MOST_TRIED_FRAMES: u64 = 1024;

impl IntakeAction {
    /// What is read, where symbols are decoded so.
    fn input(self, matches: &ArgMatches, decoding: Decoding) -> Option<Input>
        ensures { result ≡ input_of self decoding (first_value (found_of matches.now) (codes "input")) }
    {
        match self {
            IntakeAction::Decode => coded_input(matches, decoding),
            IntakeAction::Receive { mend: _ } => any_input(matches, decoding),
        }
    }
}

fn with_capacity(matches: &ArgMatches) -> Option<Command>
    ensures gives { result ≡ given_by Capacity (first_value (found_of matches.now)) }
    ensures range { IsInRange result }
{
    let capacity = number_given(matches, "capacity", LEAST_CAPACITY, MOST_CAPACITY)?;
    Some(Command::Init { capacity })
}

fn with_number(action: FileAction, matches: &ArgMatches) -> Option<Command>
    ensures gives { result ≡ given_by (Number action) (first_value (found_of matches.now)) }
    ensures range { IsInRange result }
{
    let number = number_given(matches, "number", 0, u64::MAX)?;
    Some(Command::OnFile(action, number))
}

fn with_symbols(lines: FrameLines, matches: &ArgMatches) -> Option<Command>
    ensures gives { result ≡ given_by (Symbols lines) (first_value (found_of matches.now)) }
    ensures range { IsInRange result }
{
    let most = most(matches)?;
    Some(Command::Frames { lines, most })
}

/// The work on a stream.
fn with_action(action: IntakeAction, matches: &ArgMatches) -> Option<Command>
    requires { MayHaveFillers action }
    ensures gives { result ≡ intake_given action (first_value (found_of matches.now)) }
    ensures range { IsInRange result }
{
    let workers = workers(matches)?;
    let decoding = decoding(matches)?;
    let input = action.input(matches, decoding)?;
    let most = most(matches)?;
    Some(Command::Intake {
        action,
        input,
        workers,
        most,
    })
}

fn with_intake(matches: &ArgMatches) -> Option<Command>
    ensures gives { result ≡ given_by Intake (first_value (found_of matches.now)) }
    ensures range { IsInRange result }
{
    with_action(IntakeAction::Decode, matches)
}

fn with_mended_intake(matches: &ArgMatches) -> Option<Command>
    ensures gives { result ≡ given_by MendedIntake (first_value (found_of matches.now)) }
    ensures range { IsInRange result }
{
    let mend = mend(matches)?;
    with_action(IntakeAction::Receive { mend }, matches)
}

fn with_line(matches: &ArgMatches) -> Option<Command>
    ensures gives { result ≡ given_by Line (first_value (found_of matches.now)) }
    ensures range { IsInRange result }
{
    let line = line_code(matches)?;
    Some(Command::Downlinks { line })
}

fn with_workers(matches: &ArgMatches) -> Option<Command>
    ensures gives { result ≡ given_by Workers (first_value (found_of matches.now)) }
    ensures range { IsInRange result }
{
    let workers = workers(matches)?;
    Some(Command::Render { workers })
}

fn with_segments(matches: &ArgMatches) -> Option<Command>
    ensures gives { result ≡ given_by Segments (first_value (found_of matches.now)) }
    ensures range { IsInRange result }
{
    let from = number_given(matches, "from", 0, u64::MAX)?;
    let to = number_given(matches, "to", 0, u64::MAX)?;
    let apid = number_given(matches, "apid", 0, MOST_APID)?;
    let image = number_given(matches, "image", 0, MOST_IMAGE)?;
    Some(Command::Assemble {
        from,
        to,
        apid: apid as u16,
        image: image as u16,
    })
}

fn with_sent(matches: &ArgMatches) -> Option<Command>
    ensures gives { result ≡ given_by Sent (first_value (found_of matches.now)) }
    ensures range { IsInRange result }
{
    let from = number_given(matches, "from", 0, u64::MAX)?;
    let to = number_given(matches, "to", 0, u64::MAX)?;
    let wrong = number_given(matches, "wrong", 0, MOST_WRONG)?;
    let line = line_code(matches)?;
    Some(Command::Transmit {
        from,
        to,
        wrong: wrong as u8,
        line,
    })
}

/// The number of samples, if a block may have it.
fn block_of(number: u64) -> Option<u32>
    ensures { result ≡ block_of number }
{
    match number {
        8 => Some(8),
        16 => Some(16),
        32 => Some(32),
        64 => Some(64),
        _ => None,
    }
}

fn with_block(matches: &ArgMatches) -> Option<Command>
    ensures gives { result ≡ given_by Block (first_value (found_of matches.now)) }
    ensures range { IsInRange result }
{
    let number = number_given(matches, "number", 0, u64::MAX)?;
    let block = block_of(number_given(matches, "block", 0, u64::MAX)?)?;
    Some(Command::Repack { number, block })
}

fn with_made(matches: &ArgMatches) -> Option<Command>
    ensures gives { result ≡ given_by Made (first_value (found_of matches.now)) }
    ensures range { IsInRange result }
{
    let start = number_given(matches, "start", 0, u64::MAX)?;
    let frames = number_given(matches, "frames", 1, MOST_MADE_FRAMES)?;
    let wrong = number_given(matches, "wrong", 0, MOST_WRONG)?;
    let form = output_form(matches)?;
    Some(Command::Make {
        start,
        frames,
        wrong: wrong as u8,
        form,
    })
}

fn with_tried(matches: &ArgMatches) -> Option<Command>
    ensures gives { result ≡ given_by Tried (first_value (found_of matches.now)) }
    ensures range { IsInRange result }
{
    let start = number_given(matches, "start", 0, u64::MAX)?;
    let frames = number_given(matches, "frames", 1, MOST_TRIED_FRAMES)?;
    let wrong = number_given(matches, "wrong", 0, MOST_WRONG)?;
    let workers = workers(matches)?;
    Some(Command::Trial {
        start,
        frames,
        wrong: wrong as u8,
        workers,
    })
}

/// The command that these values give, where the words look like this.
pub(crate) fn command_given(shape: Shape, matches: &ArgMatches) -> Option<Command>
    ensures gives { result ≡ given_by shape (first_value (found_of matches.now)) }
    ensures range { IsInRange result }
{
    match shape {
        Shape::Capacity => with_capacity(matches),
        Shape::Nothing(action) => Some(Command::OnShelf(action)),
        Shape::Number(action) => with_number(action, matches),
        Shape::Symbols(lines) => with_symbols(lines, matches),
        Shape::Intake => with_intake(matches),
        Shape::MendedIntake => with_mended_intake(matches),
        Shape::Line => with_line(matches),
        Shape::Workers => with_workers(matches),
        Shape::Segments => with_segments(matches),
        Shape::Sent => with_sent(matches),
        Shape::Block => with_block(matches),
        Shape::Made => with_made(matches),
        Shape::Tried => with_tried(matches),
    }
}
