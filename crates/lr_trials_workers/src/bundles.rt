//! Several recordings in a bundle come onto one shelf, with a thread for each.
use crate::calls::{call, empty_shelf, symbols};
use lr_trials_station::call::called;
use lr_trials_support::{
    Call, DONE, End, SOURCE_FAILED, USAGE, disk, faultless, is_number, is_text,
};
use std::alloc::Global;
use std::sync::Wait;
use std::test::Fail;
use std::thread::Threads;

const WORDS: &str = "downlinks";

/// A bundle of these recordings.
fn bundle_of(alloc: Global, recordings: &[Vec<u8>]) -> Result<Vec<u8>, Fail> {
    let mut all = vec![in alloc; recordings.len().min(255) as u8]?;
    for recording in recordings {
        all.extend_from_slice(&(recording.len() as u64).to_be_bytes())?;
        all.extend_from_slice(recording)?;
    }
    Ok(all)
}

/// A bundle of the first frames, this many of each, of two test streams.
fn two_streams(alloc: Global, first: &str, second: &str, frames: usize) -> Result<Vec<u8>, Fail> {
    let one = symbols(alloc, first, frames)?;
    let other = symbols(alloc, second, frames)?;
    bundle_of(alloc, &vec![in alloc; one, other]?)
}

/// The number in this line, where it is that of the receipt for this place of this downlink.
fn receipt_number(
    alloc: Global,
    line: &str,
    downlink: usize,
    place: usize,
) -> Result<Option<u64>, Fail> {
    let words = format!(in alloc; "receipt {downlink} {place} number ")?;
    Ok(
        line.strip_prefix(words.as_str())
            .and_then(|number| number.parse::<u64>().ok()),
    )
}

/// The numbers of receipts, which stand in the order of downlinks and places, seven of each.
fn numbers_in(alloc: Global, text: &[u8]) -> Result<Vec<u64>, Fail> {
    let mut numbers = Vec::new(alloc);
    for line in str::from_utf8(text)?.lines() {
        let at = numbers.len();
        if let Some(number) = receipt_number(alloc, line, at / 7, at % 7)? {
            numbers.push(number)?;
        }
    }
    Ok(numbers)
}

/// Whether each number below 14 stands there once, and those of each downlink rise.
fn is_merge(numbers: &[u64]) -> bool {
    numbers.len() == 14
        && (0..14).all(|number| numbers.contains(&number))
        && (0..6).all(|at| numbers[at] < numbers[at + 1] && numbers[at + 7] < numbers[at + 8])
}

#[test]
fn two_recordings_come_onto_one_shelf(rt: HostRuntime) -> Result<(), Fail> {
    let alloc = rt.alloc();
    let bytes = two_streams(alloc, "make 1 8 0", "make 2 8 0", 8)?;
    let mut disk = empty_shelf(alloc)?;
    let printed = call(&rt, alloc, &faultless(WORDS, &bytes, 65_536), &mut disk)?;
    let last = b"downlinks 2 symbols 262144 files 14\n";
    assert!(rt; printed.ended_with(WORDS, last, DONE)?);
    let numbers = numbers_in(alloc, printed.out.as_slice())?;
    assert!(rt; is_merge(&numbers), "the numbers are {numbers:?}");
    let listed = called(alloc, &mut disk, &faultless("list", &[], 1))?;
    assert!(rt; listed.has_status("list", 0)?);
    Ok(())
}

/// Whether these bytes are refused as no bundle, and nothing is changed on the shelf.
fn is_flawed<R: Threads + Wait + Sync>(
    rt: &R,
    alloc: Global,
    bytes: &[u8],
    line: &str,
) -> Result<bool, Fail> {
    let untouched = empty_shelf(alloc)?;
    let mut disk = empty_shelf(alloc)?;
    let printed = call(rt, alloc, &faultless(WORDS, bytes, 3), &mut disk)?;
    Ok(
        printed.ended_so(line, &[], End(14, line))?
            && is_text("the disk", disk.as_slice(), untouched.as_slice())?,
    )
}

#[test]
fn bytes_that_are_no_bundle_are_refused(rt: HostRuntime) -> Result<(), Fail> {
    let alloc = rt.alloc();
    assert!(rt; is_flawed(&rt, alloc, &[], "station: bad bundle: ended 0\n")?);
    assert!(rt; is_flawed(&rt, alloc, &[0], "station: bad bundle: count 0\n")?);
    assert!(rt; is_flawed(&rt, alloc, &[17, 1], "station: bad bundle: count 17\n")?);
    let ended = [1, 0, 0, 0, 0];
    assert!(rt; is_flawed(&rt, alloc, &ended, "station: bad bundle: ended 5\n")?);
    let rest = [1, 0, 0, 0, 0, 0, 0, 0, 0, 0];
    assert!(rt; is_flawed(&rt, alloc, &rest, "station: bad bundle: rest 9\n")?);
    Ok(())
}

#[test]
fn recordings_may_have_no_symbols(rt: HostRuntime) -> Result<(), Fail> {
    let alloc = rt.alloc();
    let mut empty = Vec::new(alloc);
    for _ in 0..16 {
        empty.push(Vec::new(alloc))?;
    }
    let bytes = bundle_of(alloc, &empty)?;
    let printed = call(
        &rt,
        alloc,
        &faultless(WORDS, &bytes, 1),
        &mut empty_shelf(alloc)?,
    )?;
    assert!(rt; printed.ended_so(WORDS, b"downlinks 16 symbols 0 files 0\n", DONE)?);
    Ok(())
}

#[test]
fn one_thread_knows_no_downlinks(rt: HostRuntime) -> Result<(), Fail> {
    let alloc = rt.alloc();
    let printed = called(alloc, &mut empty_shelf(alloc)?, &faultless(WORDS, &[0], 1))?;
    assert!(rt; printed.ended_so(WORDS, &[], USAGE)?);
    Ok(())
}

#[test]
fn a_source_that_fails_shelves_nothing(rt: HostRuntime) -> Result<(), Fail> {
    let alloc = rt.alloc();
    let bytes = two_streams(alloc, "make 1 2 0", "make 2 2 0", 2)?;
    let untouched = empty_shelf(alloc)?;
    for place in [0, 1, 9, 20_000] {
        let fails = Call {
            source_fails: place,
            ..faultless(WORDS, &bytes, 4_096)
        };
        let name = format!(in alloc; "a source that fails at {place}")?;
        let mut disk = empty_shelf(alloc)?;
        call(&rt, alloc, &fails, &mut disk)?.ended_so(&name, &[], SOURCE_FAILED)?;
        is_text(name, disk.as_slice(), untouched.as_slice())?;
    }
    Ok(())
}

#[test]
fn an_output_that_fails_leaves_the_files(rt: HostRuntime) -> Result<(), Fail> {
    let alloc = rt.alloc();
    let bytes = two_streams(alloc, "make 1 2 0", "make 2 2 0", 2)?;
    let mut whole = empty_shelf(alloc)?;
    let all = call(&rt, alloc, &faultless(WORDS, &bytes, 65_536), &mut whole)?;
    assert!(rt; all.has_status(WORDS, 0)?);
    for place in [0, 10, 30] {
        let fails = Call {
            out_fails: place,
            ..faultless(WORDS, &bytes, 65_536)
        };
        let name = format!(in alloc; "an output that fails at {place}")?;
        let mut disk = empty_shelf(alloc)?;
        let printed = call(&rt, alloc, &fails, &mut disk)?;
        printed.has_status(&name, 5)?;
        is_number(name.as_str(), printed.out.as_slice().len() as u64, place)?;
        is_number(
            name,
            disk.as_slice().len() as u64,
            whole.as_slice().len() as u64,
        )?;
    }
    Ok(())
}

#[test]
fn a_full_shelf_keeps_what_has_a_receipt(rt: HostRuntime) -> Result<(), Fail> {
    let alloc = rt.alloc();
    let bytes = two_streams(alloc, "make 1 8 0", "make 2 8 0", 8)?;
    let mut full = disk(alloc, &[], 10_000)?;
    let made = called(alloc, &mut full, &faultless("init 2020", &[], 1))?;
    assert!(rt; made.has_status("init 2020", 0)?);
    let printed = call(&rt, alloc, &faultless(WORDS, &bytes, 65_536), &mut full)?;
    let (out, err) = (printed.out.as_slice(), printed.err.as_slice());
    assert!(rt; printed.has_status(WORDS, 10)?);
    assert!(rt;
        err.starts_with(b"station: capacity: needs "),
        "err has {err:?}"
    );
    assert!(rt; out.starts_with(b"receipt "), "out has {out:?}");
    assert!(rt; !out.ends_with(b" files 14\n"), "out has {out:?}");
    Ok(())
}
