//! Any number of workers prints and shelves the same.
use crate::calls::{call, empty_shelf, symbols};
use lr_trials_station::call::called;
use lr_trials_support::{
    AFTER_SILENCE, ALL_FRAMES, DONE, FIRST_SHELVED, disk, faultless, is_number, is_text,
};
use std::alloc::Global;
use std::sync::Wait;
use std::test::Fail;
use std::thread::Threads;

const SIXTEEN_WRONG: &str = "window 7 at 114688 polarity + restored 16 16 16 16\n\
                             symbols 131072 frames 8 restored 8 lost 0 left 0 stop end\n";

/// Whether these words print and shelve what one thread does, in reads of each size.
fn receives_alike<R: Threads + Wait + Sync>(
    rt: &R,
    alloc: Global,
    words: &str,
    bytes: &[u8],
) -> Result<bool, Fail> {
    let mut whole = empty_shelf(alloc)?;
    let alone = called(alloc, &mut whole, &faultless("receive", bytes, 4_096))?;
    for reads in [1, 4_096, 65_536] {
        let name = format!(in alloc; "{words}, reads of {reads}")?;
        let mut other = empty_shelf(alloc)?;
        call(rt, alloc, &faultless(words, bytes, reads), &mut other)?.is_like(&name, &alone)?;
        is_text(
            format_args!("{name}: the disk"),
            other.as_slice(),
            whole.as_slice(),
        )?;
    }
    let front = alone.out.as_slice();
    let front = &front[..front.len().min(FIRST_SHELVED.len())];
    Ok(
        is_text("the first line", front, FIRST_SHELVED.as_bytes())?
            && alone.ended_with("receive", AFTER_SILENCE.as_bytes(), DONE)?,
    )
}

#[test]
fn a_recording_is_received_alike(rt: HostRuntime) -> Result<(), Fail> {
    let alloc = rt.alloc();
    let mut bytes = vec![in alloc; 0; 700]?;
    bytes.extend_from_slice(&symbols(alloc, "make 1 64 0", 64)?)?;
    assert!(rt; receives_alike(&rt, alloc, "receive --workers 1", &bytes)?);
    assert!(rt; receives_alike(&rt, alloc, "receive --workers 2", &bytes)?);
    assert!(rt; receives_alike(&rt, alloc, "receive --workers 8", &bytes)?);
    Ok(())
}

#[test]
fn windows_are_decoded_alike(rt: HostRuntime) -> Result<(), Fail> {
    let alloc = rt.alloc();
    let bytes = symbols(alloc, "make 1 8 16", 8)?;
    for words in ["decode --workers 2", "decode --workers 64"] {
        let mut none = disk(alloc, &[], 0)?;
        call(&rt, alloc, &faultless(words, &bytes, 65_536), &mut none)?.ended_with(
            words,
            SIXTEEN_WRONG.as_bytes(),
            DONE,
        )?;
    }
    Ok(())
}

/// Whether a trial of these words prints the line of 64 frames, and leaves the shelf of their 63 files.
fn tries<R: Threads + Wait + Sync>(rt: &R, alloc: Global, words: &str) -> Result<bool, Fail> {
    let mut left = disk(alloc, &[], 10_000)?;
    let printed = call(rt, alloc, &faultless(words, &[], 1), &mut left)?;
    let length = left.as_slice().len() as u64;
    Ok(
        printed.ended_so(words, ALL_FRAMES.as_bytes(), DONE)?
            && is_number("the disk's length", length, 41_666)?,
    )
}

#[test]
fn trials_print_the_same_line(rt: HostRuntime) -> Result<(), Fail> {
    let alloc = rt.alloc();
    assert!(rt; tries(&rt, alloc, "trial 1 64 0 --workers 1")?);
    assert!(rt; tries(&rt, alloc, "trial 1 64 0 --workers 2")?);
    assert!(rt; tries(&rt, alloc, "trial 1 64 0 --workers 8")?);
    assert!(rt; tries(&rt, alloc, "trial 1 64 0 --workers 64")?);
    Ok(())
}

#[test]
fn blocks_need_no_worker(rt: HostRuntime) -> Result<(), Fail> {
    let alloc = rt.alloc();
    let mut none = disk(alloc, &[], 0)?;
    let given = faultless("decode --input blocks --workers 8", &[7; 1_020], 1_020);
    let printed = call(&rt, alloc, &given, &mut none)?;
    assert!(rt; printed.ended_with(given.words, b" left 0 stop end\n", DONE)?);
    Ok(())
}
