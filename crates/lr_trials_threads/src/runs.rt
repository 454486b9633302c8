//! Bundles are run, and the shelf and the receipts looked at.
use crate::made::{Stream, bundle_of, shelf_of};
use lr_conv::STANDARD;
use lr_disk::MemDisk;
use lr_downlinks::{Bundle, Run, RunEnd, run_downlinks};
use lr_shelf::Shelf;
use std::alloc::Global;
use std::sync::Wait;
use std::test::Fail;
use std::thread::Threads;

/// A capacity, less 20 bytes, at which all files of the trials fit.
const AMPLE: u32 = 190_000;

/// Streams of eight frames. Each gives seven files.
fn eight_frames(start: u64) -> Stream {
    Stream { start, frames: 8 }
}

fn three_frames(start: u64) -> Stream {
    Stream { start, frames: 3 }
}

/// What a run left.
#[derive(Drop)]
struct Ran {
    run: Run,
    disk: MemDisk,
    /// How many calls of the disk came before the run.
    before: u64,
}

/// A run onto an empty shelf of this capacity and 20 bytes, where the disk fails at this call of the run, if it comes
/// so far.
fn run<R: Threads + Wait + Sync>(
    rt: &R,
    alloc: Global,
    bundle: &Bundle,
    capacity: u32,
    failing: u64,
) -> Result<Ran, Fail> {
    let (mut disk, shelf) = shelf_of(alloc, capacity)?;
    let before = disk.calls();
    disk.fail_at(failing);
    let run = run_downlinks(rt, alloc, bundle, STANDARD, shelf, &mut disk);
    Ok(Ran { run, disk, before })
}

/// How many files the shelf on the disk has; 1,000 where there is no shelf.
fn files_on(alloc: Global, disk: &mut MemDisk) -> u64 {
    match Shelf::load(alloc, disk) {
        Ok(shelf) => shelf.len(),
        Err(_) => 1000,
    }
}

/// How many files were appended.
fn appended(run: &Run) -> u64 {
    run.order.as_slice().len() as u64
}

/// How many receipts the downlink has; 1,000 where one of them doesn't count its place, or isn't that of its number.
fn receipts_of(run: &Run, downlink: u8) -> u64 {
    let mut place = 0u64;
    for receipt in run.receipts_of(downlink) {
        let at = receipt.number.saturating_sub(run.base) as usize;
        if receipt.place != place || at >= run.order.as_slice().len() {
            return 1000;
        }
        let same = run.receipt(at);
        if same.downlink != downlink || same.place != place || same.number != receipt.number {
            return 1000;
        }
        place = place.wrapping_add(1);
    }
    place
}

/// That the first downlinks have this many receipts each, and the others none.
fn have_receipts(run: &Run, downlinks: u8, each: u64) -> Result<(), Fail> {
    for downlink in 0..20u8 {
        let wanted = if downlink < downlinks { each } else { 0 };
        let came = receipts_of(run, downlink);
        if came != wanted {
            return Err(Fail::new(format_args!(
                "downlink {downlink} has {came} receipts (1000: not in order), and not {wanted}"
            )));
        }
    }
    Ok(())
}

#[test]
fn two_downlinks_have_seven_files_each(rt: HostRuntime) -> Result<(), Fail> {
    let alloc = rt.alloc();
    let bundle = bundle_of(alloc, &[eight_frames(1), eight_frames(2)])?;
    let mut made = run(&rt, alloc, &bundle, 65_516, 10_000)?;
    assert!(rt; matches!(made.run.result, RunEnd::All));
    assert_eq!(rt; made.run.base, 0);
    assert_eq!(rt; appended(&made.run), 14);
    have_receipts(&made.run, 2, 7)?;
    assert_eq!(rt; files_on(alloc, &mut made.disk), 14);
    Ok(())
}

#[test]
fn one_downlink_keeps_its_order(rt: HostRuntime) -> Result<(), Fail> {
    let alloc = rt.alloc();
    let bundle = bundle_of(alloc, &[eight_frames(1)])?;
    let made = run(&rt, alloc, &bundle, AMPLE, 10_000)?;
    assert!(rt; matches!(made.run.result, RunEnd::All));
    assert!(rt; made.run.order.as_slice() == [0; 7].as_slice());
    have_receipts(&made.run, 1, 7)?;
    Ok(())
}

#[test]
fn sixteen_downlinks_have_seven_files_each(rt: HostRuntime) -> Result<(), Fail> {
    let alloc = rt.alloc();
    let mut streams = [eight_frames(1); 16];
    for k in 0..16 {
        streams[k].start = k as u64;
    }
    let bundle = bundle_of(alloc, &streams)?;
    let mut made = run(&rt, alloc, &bundle, AMPLE, 10_000)?;
    assert!(rt; matches!(made.run.result, RunEnd::All));
    have_receipts(&made.run, 16, 7)?;
    assert_eq!(rt; files_on(alloc, &mut made.disk), 112);
    Ok(())
}

#[test]
fn an_empty_stream_has_no_files(rt: HostRuntime) -> Result<(), Fail> {
    let alloc = rt.alloc();
    let empty = Stream {
        start: 1,
        frames: 0,
    };
    let bundle = bundle_of(alloc, &[eight_frames(1), empty])?;
    let made = run(&rt, alloc, &bundle, AMPLE, 10_000)?;
    assert!(rt; matches!(made.run.result, RunEnd::All));
    have_receipts(&made.run, 1, 7)?;
    let bundle = bundle_of(alloc, &[empty])?;
    let made = run(&rt, alloc, &bundle, 0, 0)?;
    assert!(rt; matches!(made.run.result, RunEnd::All));
    assert_eq!(rt; made.disk.calls(), made.before);
    Ok(())
}

#[test]
fn a_full_shelf_ends_the_run(rt: HostRuntime) -> Result<(), Fail> {
    let alloc = rt.alloc();
    let bundle = bundle_of(alloc, &[eight_frames(1), eight_frames(2)])?;
    let mut made = run(&rt, alloc, &bundle, 2_000, 10_000)?;
    let RunEnd::Capacity { needed, capacity } = made.run.result else {
        return Err(Fail::from("the shelf wasn't full"));
    };
    assert_eq!(rt; capacity, 2_020);
    assert!(rt; needed > 2_020);
    assert!(rt; appended(&made.run) > 0);
    assert!(rt; appended(&made.run) < 14);
    assert_eq!(rt; files_on(alloc, &mut made.disk), appended(&made.run));
    Ok(())
}

/// That a disk that fails at this call of the run ends it, and the files of all receipts are on the shelf, and at most
/// one more.
fn ends_at<R: Threads + Wait + Sync>(
    rt: &R,
    alloc: Global,
    bundle: &Bundle,
    call: u64,
) -> Result<(), Fail> {
    let mut made = run(rt, alloc, bundle, AMPLE, call)?;
    let count = appended(&made.run);
    let files = files_on(alloc, &mut made.disk);
    have_receipts(&made.run, 1, count)?;
    let by_disk = matches!(made.run.result, RunEnd::Disk);
    if by_disk && files.saturating_sub(count) <= 1 && files >= count {
        return Ok(());
    }
    Err(Fail::new(format_args!(
        "call {call} fails: ended by the disk: {by_disk}, and not true; or files (1000: no shelf): {files}, and not \
         {count} or one more"
    )))
}

#[test]
fn a_disk_that_fails_at_any_call_ends_the_run(rt: HostRuntime) -> Result<(), Fail> {
    let alloc = rt.alloc();
    let bundle = bundle_of(alloc, &[three_frames(1)])?;
    let made = run(&rt, alloc, &bundle, AMPLE, 10_000)?;
    assert!(rt; matches!(made.run.result, RunEnd::All));
    let calls = made.disk.calls().saturating_sub(made.before);
    assert!(rt; calls > 0);
    for call in 0..calls {
        ends_at(&rt, alloc, &bundle, call)?;
    }
    Ok(())
}

/// That a stop inside this call of the disk leaves a shelf of at most this many files, whatever was pending.
fn leaves_a_shelf(alloc: Global, disk: &MemDisk, call: u64, most: u64) -> Result<(), Fail> {
    for kind in 0..3u8 {
        if call < disk.calls() {
            let files = files_on(alloc, &mut disk.image(alloc, call, kind)?);
            if files > most {
                return Err(Fail::new(format_args!(
                    "a stop of kind {kind} in call {call}: {files} files (1000: no shelf), and not {most} at most"
                )));
            }
        }
    }
    Ok(())
}

#[test]
fn a_stop_at_any_moment_leaves_a_shelf(rt: HostRuntime) -> Result<(), Fail> {
    let alloc = rt.alloc();
    let bundle = bundle_of(alloc, &[three_frames(1), three_frames(2)])?;
    let made = run(&rt, alloc, &bundle, AMPLE, 10_000)?;
    assert!(rt; matches!(made.run.result, RunEnd::All));
    for call in made.before..made.disk.calls() {
        leaves_a_shelf(alloc, &made.disk, call, appended(&made.run))?;
    }
    Ok(())
}
