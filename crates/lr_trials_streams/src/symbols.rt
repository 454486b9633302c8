//! `decode` and `receive` read symbols.
use lr_bits::FRAME_SYMBOLS;
use lr_conv::LineCode;
use lr_trials_coding::streams::{bytes_of, coded_frames, leave_hits, sent_symbols, silence, turn};
use lr_trials_station::call::called;
use lr_trials_station::steps::HEADER_1000;
use lr_trials_support::{Call, DONE, End, SOURCE_FAILED, disk, faultless, shelf_bytes};
use std::alloc::Global;
use std::test::Fail;

const EIGHT_WINDOWS: &str = "window 0 at 0 polarity + restored 0 0 0 0\n\
                             window 1 at 16384 polarity + restored 0 0 0 0\n\
                             window 2 at 32768 polarity + restored 0 0 0 0\n\
                             window 3 at 49152 polarity + restored 0 0 0 0\n\
                             window 4 at 65536 polarity + restored 0 0 0 0\n\
                             window 5 at 81920 polarity + restored 0 0 0 0\n\
                             window 6 at 98304 polarity + restored 0 0 0 0\n\
                             window 7 at 114688 polarity + restored 0 0 0 0\n\
                             symbols 131072 frames 8 restored 8 lost 0 left 0 stop end\n";

const NEGATED: &str = "window 0 at 0 polarity - restored 0 0 0 0\n\
                       window 1 at 16384 polarity - restored 0 0 0 0\n\
                       window 2 at 32768 polarity - restored 0 0 0 0\n\
                       window 3 at 49152 polarity - restored 0 0 0 0\n\
                       window 4 at 65536 polarity - restored 0 0 0 0\n\
                       window 5 at 81920 polarity - restored 0 0 0 0\n\
                       window 6 at 98304 polarity - restored 0 0 0 0\n\
                       window 7 at 114688 polarity - restored 0 0 0 0\n\
                       symbols 131072 frames 8 restored 8 lost 0 left 0 stop end\n";

const ALL: &str = "symbols 131072 frames 8 restored 8 lost 0 left 0 stop end\n";

const ONE_GONE: &str = "symbols 131072 frames 7 restored 7 lost 0 left 0 stop end\n";

const CUT_SHORT: &str = "symbols 131071 frames 7 restored 7 lost 0 left 0 stop end\n";

const ONE_WINDOW: &str = "window 0 at 0 polarity + restored 0 0 0 0\n\
                          symbols 16384 frames 1 restored 1 lost 0 left 0 stop end\n";

const ONE_NEGATED: &str = "window 0 at 0 polarity - restored 0 0 0 0\n\
                           symbols 16384 frames 1 restored 1 lost 0 left 0 stop end\n";

const TWO: &str = "symbols 32768 frames 2 restored 2 lost 0 left 0 stop end\n";

const NOTHING: &str = "symbols 0 frames 0 restored 0 lost 0 packets 0 files 0 left 0 stop end\n";

const NO_FILE: &str =
    "symbols 131072 frames 8 restored 8 lost 0 packets 0 files 0 left 0 stop end\n";

const FAILED: &str =
    "symbols 70000 frames 4 restored 4 lost 0 packets 0 files 0 left 0 stop fault\n";

/// The symbols of the other polarity, as bytes.
fn turned_bytes(alloc: Global, symbols: &[i8]) -> Result<Vec<u8>, Fail> {
    let mut other = symbols.to_vec(alloc)?;
    turn(&mut other);
    Ok(bytes_of(alloc, &other)?)
}

/// Whether these words print just this of these bytes, over a disk of which no call succeeds.
fn decodes(alloc: Global, words: &str, bytes: &[u8], out: &str) -> Result<bool, Fail> {
    let call = faultless(words, bytes, 4_096);
    called(alloc, &mut disk(alloc, &[], 0)?, &call)?.ended_so(words, out.as_bytes(), DONE)
}

/// Whether these words end with this line.
fn ends(alloc: Global, case: &str, call: &Call<'_>, last: &str) -> Result<bool, Fail> {
    called(alloc, &mut disk(alloc, &[], 0)?, call)?.ended_with(case, last.as_bytes(), DONE)
}

/// Whether `decode` ends with this line, in reads of this size.
fn ends_in(
    alloc: Global,
    case: &str,
    bytes: &[u8],
    reads: usize,
    last: &str,
) -> Result<bool, Fail> {
    let name = format!(in alloc; "{case}, reads of {reads}")?;
    ends(alloc, &name, &faultless("decode", bytes, reads), last)
}

/// Whether `decode` ends with this line, in reads of each size and in both polarities.
fn ends_alike(alloc: Global, case: &str, symbols: &[i8], last: &str) -> Result<bool, Fail> {
    let bytes = bytes_of(alloc, symbols)?;
    let turned = turned_bytes(alloc, symbols)?;
    let other = format!(in alloc; "{case}, turned")?;
    for reads in [1, 4_096, 65_536] {
        ends_in(alloc, case, &bytes, reads, last)?;
        ends_in(alloc, &other, &turned, reads, last)?;
    }
    Ok(true)
}

/// Whether this call, onto an empty shelf, prints this and ends so.
fn receives(alloc: Global, call: &Call<'_>, out: &str, end: End<'_>) -> Result<bool, Fail> {
    let mut shelf = disk(alloc, &shelf_bytes(alloc, HEADER_1000, &[])?, 1_000)?;
    called(alloc, &mut shelf, call)?.ended_so(call.words, out.as_bytes(), end)
}

#[test]
fn each_window_has_its_line(rt: HostRuntime) -> Result<(), Fail> {
    let alloc = rt.alloc();
    let symbols = sent_symbols(alloc)?;
    assert!(rt; decodes(alloc, "decode", &bytes_of(alloc, &symbols)?, EIGHT_WINDOWS)?);
    assert!(rt; decodes(alloc, "decode", &turned_bytes(alloc, &symbols)?, NEGATED)?);
    Ok(())
}

#[test]
fn last_lines_are_those_of_any_reads(rt: HostRuntime) -> Result<(), Fail> {
    let alloc = rt.alloc();
    let mut symbols = sent_symbols(alloc)?;
    assert!(rt; ends_alike(alloc, "all", &symbols, ALL)?);
    let shorter = symbols.len().saturating_sub(1);
    assert!(rt; ends_alike(alloc, "one symbol less", &symbols[..shorter], CUT_SHORT)?);
    for number in 1..=3 {
        leave_hits(&mut symbols, number, 0);
    }
    assert!(rt; ends_alike(alloc, "three markers less", &symbols, ALL)?);
    silence(&mut symbols, 4 * FRAME_SYMBOLS, FRAME_SYMBOLS);
    assert!(rt; ends_alike(alloc, "one frame less", &symbols, ONE_GONE)?);
    Ok(())
}

/// Whether `decode` with these options restores frames of this line code, in both polarities.
fn decodes_line(alloc: Global, words: &str, line: LineCode) -> Result<bool, Fail> {
    let symbols = coded_frames(alloc, line, 1)?;
    let two = bytes_of(alloc, &coded_frames(alloc, line, 2)?)?;
    Ok(
        decodes(alloc, words, &bytes_of(alloc, &symbols)?, ONE_WINDOW)?
            && decodes(alloc, words, &turned_bytes(alloc, &symbols)?, ONE_NEGATED)?
            && ends(alloc, words, &faultless(words, &two, 4_096), TWO)?,
    )
}

#[test]
fn each_line_code_is_decoded(rt: HostRuntime) -> Result<(), Fail> {
    let alloc = rt.alloc();
    for marks in [false, true] {
        for inverted in [false, true] {
            let name = if marks { "nrz-m" } else { "nrz-l" };
            let g2 = if inverted { "inverted" } else { "plain" };
            let words = format!(in alloc; "decode --line {name} --g2 {g2}")?;
            decodes_line(alloc, &words, LineCode { marks, inverted })?;
        }
    }
    Ok(())
}

#[test]
fn symbols_without_files_leave_the_shelf_empty(rt: HostRuntime) -> Result<(), Fail> {
    let alloc = rt.alloc();
    assert!(rt; receives(alloc, &faultless("receive", &[], 4_096), NOTHING, DONE)?);
    let bytes = bytes_of(alloc, &sent_symbols(alloc)?)?;
    assert!(rt; receives(alloc, &faultless("receive", &bytes, 4_096), NO_FILE, DONE)?);
    Ok(())
}

#[test]
fn frames_before_a_fault_are_received(rt: HostRuntime) -> Result<(), Fail> {
    let alloc = rt.alloc();
    let bytes = bytes_of(alloc, &sent_symbols(alloc)?)?;
    let call = Call {
        source_fails: 70_000,
        ..faultless("receive --input symbols", &bytes, 4_096)
    };
    assert!(rt; receives(alloc, &call, FAILED, SOURCE_FAILED)?);
    Ok(())
}
