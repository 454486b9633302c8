//! Which words are refused, and which may write.
use lr_trials_support::words_of;
use lr_words::{read_words, writes_shelf};
use std::alloc::Global;
use std::test::Fail;

/// Words of which the arguments don't fit the command.
static WRONG_ARGUMENTS: [&str; 43] = [
    "",
    " ",
    "init",
    "init 100 100",
    "init --capacity 100",
    "init -100",
    "extract",
    "extract ",
    "extract --",
    "extract -0",
    "extract -- -- 0",
    "extract 0 --symbols 5",
    "discard",
    "downlinks 2",
    "downlinks --workers 2",
    "repack 0",
    "repack 0 8 8",
    "list 0",
    "list -- x",
    "show",
    "show 0 0",
    "export",
    "export 0 0",
    "render 0",
    "assemble 0 2 100",
    "assemble 0 2 100 1 1",
    "transmit 0 2",
    "verify 0",
    "verify ",
    "verify -- x",
    "frames 5",
    "frames ",
    "frames -- --symbols 5",
    "frames --line nrz-l",
    "frames --input symbols",
    "packets --workers 1",
    "make 1 2",
    "make 1 2 3 4",
    "make 1 2 3 --input blocks",
    "trial 1 2",
    "trial 1 2 3 --output symbols",
    "trial 1 2 3 --workers",
    "decode blocks",
];

/// Words of which an option is named or used in a wrong way.
static WRONG_OPTIONS: [&str; 23] = [
    "frames --symbols",
    "frames --symbols --symbols",
    "frames --symbols --help",
    "frames --symbols -- 5",
    "frames --symbols -5",
    "frames --symbols 5 --symbols 5",
    "frames --symbols 5 --symbols=5",
    "frames --symbol 5",
    "frames --sym=5",
    "frames --Symbols 5",
    "frames -s 5",
    "frames -symbols 5",
    "frames --=5",
    "frames ---symbols 5",
    "frames --version",
    "frames -V",
    "decode --input --workers 1",
    "decode --input blocks --input blocks",
    "decode --line nrz-l --line nrz-m",
    "receive --g2 plain --g2 plain",
    "receive --workers 1 --workers 1",
    "make --output 1 2 3",
    "make 1 2 3 --output",
];

/// Words that ask for help, or name no command.
static NO_COMMAND: [&str; 22] = [
    "--help",
    "-h",
    "help",
    "help frames",
    "frames help",
    "frames --help",
    "frames -h",
    "frames -hh",
    "frames -h5",
    "frames --help=5",
    "frames --hel",
    "frames --symbols 5 --help",
    "frames --symbol 5 --help",
    "init -- --help",
    "init --help",
    "--version",
    "--",
    "-",
    "Frames",
    "frame",
    "frames5",
    " frames",
];

/// Words of which a value is none.
static WRONG_VALUES: [&str; 72] = [
    "downlinks --line plain",
    "repack 0 10",
    "repack 0 0",
    "repack 0 x",
    "repack x 8",
    "init 19",
    "init 1099511627777",
    "init +100",
    "init 1e2",
    "init 0x10",
    "init 10_0",
    "init 000000000000000000100",
    "extract +1",
    "show +1",
    "export +1",
    "assemble 0 2 2047 1",
    "assemble 0 2 100 65536",
    "transmit 0 2 17",
    "transmit 0 2 0 --line nrz",
    "show 18446744073709551616",
    "extract -",
    "extract -- -0",
    "extract 18446744073709551616",
    "extract 000000000000000000000",
    "discard one",
    "frames --symbols=",
    "frames --symbols =5",
    "frames --symbols=-5",
    "frames --symbols 1099511627777",
    "packets --symbols five",
    "decode --input -",
    "decode --input=",
    "decode --input frames",
    "decode --input Symbols",
    "decode --input sym",
    "decode --workers 0",
    "decode --workers 1,2",
    "decode --workers 1 2",
    "decode --workers 65",
    "render --workers 0",
    "render --workers 65",
    "decode --line nrz",
    "decode --line plain",
    "decode --g2 nrz-m",
    "decode --g2=",
    "receive --workers 0",
    "receive --workers 65",
    "receive --mend 0",
    "receive --mend 1024",
    "receive --mend",
    "decode --mend 1",
    "decode --passes 0",
    "decode --passes 5",
    "decode --passes",
    "receive --passes=",
    "receive --passes one",
    "receive --passes +2",
    "downlinks --passes 2",
    "trial 0 1 0 --passes 2",
    "trial 0 1 0 --mend 1",
    "downlinks --mend 1",
    "trial 0 1 0 --workers 0",
    "receive --input windows",
    "receive --line NRZ-L",
    "receive --g2 Inverted",
    "make 0 0 0",
    "make 0 65537 0",
    "make 0 1 17",
    "make 18446744073709551616 1 0",
    "make 1 2 3 --output lines",
    "trial 0 0 0",
    "trial 0 1025 0",
];

/// That no line gives a command.
fn are_refused(alloc: Global, lines: &[&str]) -> Result<(), Fail> {
    for line in lines {
        if read_words(alloc, &words_of(alloc, line)?)?.is_some() {
            return Err(Fail::new(format_args!("{line:?} gives a command")));
        }
    }
    Ok(())
}

/// First words of commands that may write.
static WRITES: [&str; 6] = [
    "init 20",
    "receive",
    "downlinks",
    "trial",
    "discard x",
    "repack",
];

/// And those of words that may not.
static READS: [&str; 15] = [
    "",
    "frames",
    "packets",
    "decode",
    "list",
    "show 0",
    "extract 0",
    "export 0",
    "render",
    "assemble",
    "verify",
    "transmit",
    "make init",
    "Init",
    "init5",
];

/// That all of these lines may write, or none.
fn all_may(alloc: Global, lines: &[&str], wanted: bool) -> Result<(), Fail> {
    for line in lines {
        let may = writes_shelf(&words_of(alloc, line)?);
        if may != wanted {
            return Err(Fail::new(format_args!("{line:?}: that it may write is {may}")));
        }
    }
    Ok(())
}

/// No words, and a number with a space in it.
#[test]
fn words_that_give_no_command_are_refused(rt: HostRuntime) -> Result<(), Fail> {
    let alloc = rt.alloc();
    are_refused(alloc, &WRONG_ARGUMENTS)?;
    are_refused(alloc, &WRONG_OPTIONS)?;
    are_refused(alloc, &NO_COMMAND)?;
    are_refused(alloc, &WRONG_VALUES)?;
    assert!(rt; read_words(alloc, &Vec::new(alloc))?.is_none());
    let mut spaced = words_of(alloc, "init")?;
    spaced.push(String::from_str(alloc, "1 00")?)?;
    assert!(rt; read_words(alloc, &spaced)?.is_none());
    Ok(())
}

#[test]
fn the_first_word_says_whether_the_shelf_may_change(rt: HostRuntime) -> Result<(), Fail> {
    let alloc = rt.alloc();
    all_may(alloc, &WRITES, true)?;
    all_may(alloc, &READS, false)?;
    assert!(rt; !writes_shelf(&Vec::new(alloc)));
    Ok(())
}
