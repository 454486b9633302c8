//! Which words are read, and as which command.
use lr_conv::{LineCode, Passes, STANDARD};
use lr_forms::{Decoding, Input, Output, UnitForm};
use lr_trials_support::{is_text, words_of};
use lr_words::{Command, FileAction, FrameLines, IntakeAction, ShelfAction, read_words};
use std::alloc::Global;
use std::test::Fail;

fn lines_name(lines: FrameLines) -> &'static str {
    match lines {
        FrameLines::Frames => "frames",
        FrameLines::Packets => "packets",
    }
}

fn intake_name(action: IntakeAction) -> &'static str {
    match action {
        IntakeAction::Decode => "decode",
        IntakeAction::Receive { mend: _ } => "receive",
    }
}

/// How many fillers an image may have.
fn mend_of(action: IntakeAction) -> u16 {
    match action {
        IntakeAction::Decode => 0,
        IntakeAction::Receive { mend } => mend,
    }
}

fn shelf_name(action: ShelfAction) -> &'static str {
    match action {
        ShelfAction::List => "list",
        ShelfAction::Verify => "verify",
    }
}

fn file_name(action: FileAction) -> &'static str {
    match action {
        FileAction::Extract => "extract",
        FileAction::Show => "show",
        FileAction::Export => "export",
        FileAction::Discard => "discard",
    }
}

fn unit_name(form: UnitForm) -> &'static str {
    match form {
        UnitForm::Blocks => "blocks",
        UnitForm::Frames => "frames",
    }
}

fn output_name(form: Output) -> &'static str {
    match form {
        Output::Symbols => "symbols",
        Output::Units(form) => unit_name(form),
    }
}

fn line_name(line: LineCode) -> &'static str {
    if line.marks { "nrz-m" } else { "nrz-l" }
}

fn g2_name(line: LineCode) -> &'static str {
    if line.inverted { "inverted" } else { "plain" }
}

fn passes_number(passes: Passes) -> u8 {
    match passes {
        Passes::One => 1,
        Passes::Two => 2,
        Passes::Three => 3,
        Passes::Four => 4,
    }
}

fn told_input(alloc: Global, input: Input) -> Result<String, Fail> {
    Ok(match input {
        Input::Symbols(Decoding { line, passes }) => format!(in alloc;
            "symbols {} {}, {} passes",
            line_name(line),
            g2_name(line),
            passes_number(passes)
        )?,
        Input::Units(form) => String::from_str(alloc, unit_name(form))?,
    })
}

/// What a command with a line code, or with several numbers, says.
fn told_long(alloc: Global, command: Command) -> Result<String, Fail> {
    Ok(match command {
        Command::Downlinks { line } => {
            format!(in alloc; "downlinks {} {}", line_name(line), g2_name(line))?
        }
        Command::Assemble {
            from,
            to,
            apid,
            image,
        } => format!(in alloc; "assemble {from} {to} {apid} {image}")?,
        Command::Transmit {
            from,
            to,
            wrong,
            line,
        } => {
            format!(in alloc;
                "transmit {from} {to} {wrong} {} {}",
                line_name(line),
                g2_name(line)
            )?
        }
        Command::Make {
            start,
            frames,
            wrong,
            form,
        } => format!(in alloc; "make {start} {frames} {wrong} {}", output_name(form))?,
        Command::Trial {
            start,
            frames,
            wrong,
            workers,
        } => format!(in alloc; "trial {start} {frames} {wrong}, {workers} workers")?,
        _ => String::new(alloc),
    })
}

/// What a command says.
fn told(alloc: Global, command: Command) -> Result<String, Fail> {
    Ok(match command {
        Command::Init { capacity } => format!(in alloc; "init {capacity}")?,
        Command::Frames { lines, most } => format!(in alloc; "{} {most}", lines_name(lines))?,
        Command::Intake {
            action,
            input,
            workers,
            most,
        } => {
            let form = told_input(alloc, input)?;
            let mend = mend_of(action);
            format!(in alloc;
                "{} {form}, {workers} workers, {most}, {mend} fillers",
                intake_name(action)
            )?
        }
        Command::OnShelf(action) => String::from_str(alloc, shelf_name(action))?,
        Command::OnFile(action, number) => format!(in alloc; "{} {number}", file_name(action))?,
        Command::Render { workers } => format!(in alloc; "render, {workers} workers")?,
        Command::Repack { number, block } => format!(in alloc; "repack {number} {block}")?,
        other => told_long(alloc, other)?,
    })
}

/// That each line is read as its command.
fn are_read(alloc: Global, cases: &[(&str, Command)]) -> Result<(), Fail> {
    for (line, wanted) in cases {
        let Some(command) = read_words(alloc, &words_of(alloc, line)?)? else {
            return Err(Fail::new(format_args!("{line:?} is refused")));
        };
        let (came, wanted) = (told(alloc, command)?, told(alloc, *wanted)?);
        is_text(*line, came.as_bytes(), wanted.as_bytes())?;
    }
    Ok(())
}

/// The most bytes that are taken.
const MOST: u64 = 1 << 40;

const PLAIN: LineCode = LineCode {
    marks: false,
    inverted: false,
};

const MARKS: LineCode = LineCode {
    marks: true,
    inverted: true,
};

const PLAIN_MARKS: LineCode = LineCode {
    marks: true,
    inverted: false,
};

/// Symbols of a line code in one pass.
fn in_one_pass(line: LineCode) -> Input {
    in_passes(line, Passes::One)
}

fn in_passes(line: LineCode, passes: Passes) -> Input {
    Input::Symbols(Decoding { line, passes })
}

const BLOCKS: Input = Input::Units(UnitForm::Blocks);

fn on_file(action: FileAction, number: u64) -> Command {
    Command::OnFile(action, number)
}

fn assemble(from: u64, to: u64, apid: u16, image: u16) -> Command {
    Command::Assemble {
        from,
        to,
        apid,
        image,
    }
}

fn transmit(from: u64, to: u64, wrong: u8, line: LineCode) -> Command {
    Command::Transmit {
        from,
        to,
        wrong,
        line,
    }
}

fn frames(most: u64) -> Command {
    let lines = FrameLines::Frames;
    Command::Frames { lines, most }
}

fn packets(most: u64) -> Command {
    let lines = FrameLines::Packets;
    Command::Frames { lines, most }
}

fn decode(input: Input, workers: u32, most: u64) -> Command {
    Command::Intake {
        action: IntakeAction::Decode,
        input,
        workers,
        most,
    }
}

fn receive(input: Input, workers: u32, most: u64) -> Command {
    mending(0, input, workers, most)
}

fn mending(mend: u16, input: Input, workers: u32, most: u64) -> Command {
    Command::Intake {
        action: IntakeAction::Receive { mend },
        input,
        workers,
        most,
    }
}

fn make(start: u64, frames: u64, wrong: u8, form: Output) -> Command {
    Command::Make {
        start,
        frames,
        wrong,
        form,
    }
}

fn trial(start: u64, frames: u64, wrong: u8, workers: u32) -> Command {
    Command::Trial {
        start,
        frames,
        wrong,
        workers,
    }
}

fn words_on_shelves(alloc: Global) -> Result<(), Fail> {
    let list = Command::OnShelf(ShelfAction::List);
    let verify = Command::OnShelf(ShelfAction::Verify);
    are_read(
        alloc,
        &[
            ("init 100", Command::Init { capacity: 100 }),
            ("init -- 100", Command::Init { capacity: 100 }),
            ("init 00000000000000000100", Command::Init { capacity: 100 }),
            ("init 20", Command::Init { capacity: 20 }),
            ("init 1099511627776", Command::Init { capacity: MOST }),
            ("extract -- 0", on_file(FileAction::Extract, 0)),
            ("extract 0 --", on_file(FileAction::Extract, 0)),
            (
                "extract 18446744073709551615",
                on_file(FileAction::Extract, u64::MAX),
            ),
            ("discard 7", on_file(FileAction::Discard, 7)),
            (
                "repack 7 16",
                Command::Repack {
                    number: 7,
                    block: 16,
                },
            ),
            (
                "repack -- 0 08",
                Command::Repack {
                    number: 0,
                    block: 8,
                },
            ),
            ("list", list),
            ("list --", list),
            ("show 7", on_file(FileAction::Show, 7)),
            ("show -- 00", on_file(FileAction::Show, 0)),
            ("export -- 07", on_file(FileAction::Export, 7)),
            ("render", Command::Render { workers: 1 }),
            ("render --", Command::Render { workers: 1 }),
            ("render --workers=64", Command::Render { workers: 64 }),
            ("assemble 0 2 -- 100 1", assemble(0, 2, 100, 1)),
            (
                "assemble 18446744073709551615 00 2046 65535",
                assemble(u64::MAX, 0, 2_046, 65_535),
            ),
            ("transmit 0 2 16 --g2=plain", transmit(0, 2, 16, PLAIN)),
            ("transmit --line nrz-m 9 9 0", transmit(9, 9, 0, MARKS)),
            ("verify", verify),
            ("verify --", verify),
        ],
    )
}

fn words_of_streams(alloc: Global) -> Result<(), Fail> {
    let symbols = in_one_pass(STANDARD);
    are_read(
        alloc,
        &[
            ("downlinks", Command::Downlinks { line: STANDARD }),
            ("downlinks --", Command::Downlinks { line: STANDARD }),
            (
                "downlinks --g2=plain --line nrz-m",
                Command::Downlinks { line: PLAIN_MARKS },
            ),
            ("frames", frames(MOST)),
            ("frames --", frames(MOST)),
            ("frames --symbols 5 --", frames(5)),
            ("frames --symbols=5", frames(5)),
            ("frames --symbols 5", frames(5)),
            ("frames --symbols 1099511627776", frames(MOST)),
            ("packets", packets(MOST)),
            ("packets --symbols 0", packets(0)),
            ("decode", decode(symbols, 1, MOST)),
            (
                "decode --symbols=0 --workers=1 --input=blocks",
                decode(BLOCKS, 1, 0),
            ),
            (
                "decode --input=blocks --symbols=0 --workers=1",
                decode(BLOCKS, 1, 0),
            ),
            (
                "decode --line nrz-m --symbols 9",
                decode(in_one_pass(MARKS), 1, 9),
            ),
            (
                "decode --g2=plain --symbols 9",
                decode(in_one_pass(PLAIN), 1, 9),
            ),
            (
                "decode --g2 plain --line nrz-m --symbols 9",
                decode(in_one_pass(PLAIN_MARKS), 1, 9),
            ),
            ("decode --workers 64 --symbols 9", decode(symbols, 64, 9)),
            ("decode --passes 1", decode(symbols, 1, MOST)),
            (
                "decode --passes 2 --line nrz-m --symbols 9",
                decode(in_passes(MARKS, Passes::Two), 1, 9),
            ),
            ("decode --input blocks --passes 3", decode(BLOCKS, 1, MOST)),
            ("receive", receive(symbols, 1, MOST)),
            (
                "receive --passes=3 --symbols 1",
                receive(in_passes(STANDARD, Passes::Three), 1, 1),
            ),
            (
                "receive --mend 64 --g2 plain --passes 04 --workers 2",
                mending(64, in_passes(PLAIN, Passes::Four), 2, MOST),
            ),
            (
                "receive --input frames --line nrz-m --g2 plain --symbols 1",
                receive(Input::Units(UnitForm::Frames), 1, 1),
            ),
            (
                "receive --g2 inverted --line nrz-l --workers 1 --symbols 1",
                receive(symbols, 1, 1),
            ),
            (
                "receive --input blocks --workers 2",
                receive(BLOCKS, 2, MOST),
            ),
            (
                "receive --mend 1 --input blocks",
                mending(1, BLOCKS, 1, MOST),
            ),
            (
                "receive --symbols 9 --mend=1023 --workers 4",
                mending(1_023, symbols, 4, 9),
            ),
        ],
    )
}

fn words_that_make(alloc: Global) -> Result<(), Fail> {
    let blocks = Output::Units(UnitForm::Blocks);
    are_read(
        alloc,
        &[
            ("make 1 2 3", make(1, 2, 3, Output::Symbols)),
            ("make --output blocks 1 2 3", make(1, 2, 3, blocks)),
            ("make 1 --output=blocks 2 -- 3", make(1, 2, 3, blocks)),
            (
                "make 1 2 3 --output frames",
                make(1, 2, 3, Output::Units(UnitForm::Frames)),
            ),
            (
                "make 18446744073709551615 65536 16",
                make(u64::MAX, 65_536, 16, Output::Symbols),
            ),
            ("trial 0 1 0", trial(0, 1, 0, 1)),
            ("trial 9 1024 16", trial(9, 1_024, 16, 1)),
            ("trial 9 --workers 08 1024 16", trial(9, 1_024, 16, 8)),
            ("trial 9 --workers 1 1024 16", trial(9, 1_024, 16, 1)),
        ],
    )
}

#[test]
fn words_are_read_in_any_order_that_says_the_same(rt: HostRuntime) -> Result<(), Fail> {
    let alloc = rt.alloc();
    words_on_shelves(alloc)?;
    words_of_streams(alloc)?;
    words_that_make(alloc)
}
