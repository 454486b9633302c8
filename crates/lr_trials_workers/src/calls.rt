//! The station is called with workers, and shelves and symbols for its calls.
use lr_bits::FRAME_SYMBOLS;
use lr_disk::MemDisk;
use lr_station::station;
use lr_trials_station::call::{called, written};
use lr_trials_support::{Call, Printed, disk, faultless, parts_of};
use std::alloc::Global;
use std::sync::Wait;
use std::test::Fail;
use std::thread::Threads;

/// What comes of a call with threads, as many as its words ask for.
pub(crate) fn call<R: Threads + Wait + Sync>(
    rt: &R,
    alloc: Global,
    call: &Call<'_>,
    disk: &mut MemDisk,
) -> Result<Printed, Fail> {
    let mut parts = parts_of(alloc, call)?;
    let status = station(
        rt,
        alloc,
        &parts.words,
        &mut parts.source,
        disk,
        &mut parts.out,
        &mut parts.err,
    );
    Ok(parts.ended(status))
}

/// An empty shelf of 65,536 bytes, on a disk that allows this many calls in all.
pub(crate) fn shelf_of_calls(alloc: Global, calls: u64) -> Result<MemDisk, Fail> {
    let mut made = disk(alloc, &[], calls)?;
    called(alloc, &mut made, &faultless("init 65536", &[], 1))?.has_status("init 65536", 0)?;
    Ok(made)
}

/// An empty shelf on a disk that allows 10,000 calls.
pub(crate) fn empty_shelf(alloc: Global) -> Result<MemDisk, Fail> {
    shelf_of_calls(alloc, 10_000)
}

/// The symbols of this many frames, which these words make.
pub(crate) fn symbols(alloc: Global, words: &str, frames: usize) -> Result<Vec<u8>, Fail> {
    written(alloc, words, frames.min(64) * FRAME_SYMBOLS)
}
