//! Source, disk and `out` fail while workers run: what is printed and shelved is what one thread prints and shelves.
use crate::calls::{call, empty_shelf, shelf_of_calls, symbols};
use lr_disk::MemDisk;
use lr_trials_station::call::called;
use lr_trials_support::{Call, faultless, is_text};
use std::alloc::Global;
use std::sync::Wait;
use std::test::Fail;
use std::thread::Threads;

const WORDS: &str = "receive --workers 8";

/// Whether the call has this status, and leaves what one thread leaves.
fn ends_alike<R: Threads + Wait + Sync>(
    rt: &R,
    alloc: Global,
    case: &str,
    given: &Call<'_>,
    disks: (MemDisk, MemDisk),
    status: u8,
) -> Result<bool, Fail> {
    let (mut disk, mut other) = disks;
    let printed = call(rt, alloc, given, &mut disk)?;
    let alone = called(alloc, &mut other, given)?;
    Ok(
        printed.has_status(case, status)?
            && printed.is_like(case, &alone)?
            && is_text(
                format_args!("{case}: the disk"),
                disk.as_slice(),
                other.as_slice(),
            )?,
    )
}

#[test]
fn a_source_that_fails_ends_the_input(rt: HostRuntime) -> Result<(), Fail> {
    let alloc = rt.alloc();
    let bytes = symbols(alloc, "make 1 16 0", 16)?;
    for place in [0, 16_384, 131_072, 200_000] {
        let fails = Call {
            source_fails: place,
            ..faultless(WORDS, &bytes, 4_096)
        };
        let name = format!(in alloc; "a source that fails at {place}")?;
        let disks = (empty_shelf(alloc)?, empty_shelf(alloc)?);
        ends_alike(&rt, alloc, &name, &fails, disks, 3)?;
    }
    Ok(())
}

#[test]
fn an_output_that_fails_ends_the_run(rt: HostRuntime) -> Result<(), Fail> {
    let alloc = rt.alloc();
    let bytes = symbols(alloc, "make 1 16 0", 16)?;
    for place in [0, 60, 300] {
        let fails = Call {
            out_fails: place,
            ..faultless(WORDS, &bytes, 65_536)
        };
        let name = format!(in alloc; "an output that fails at {place}")?;
        let disks = (empty_shelf(alloc)?, empty_shelf(alloc)?);
        ends_alike(&rt, alloc, &name, &fails, disks, 5)?;
    }
    Ok(())
}

#[test]
fn a_disk_that_fails_ends_the_run(rt: HostRuntime) -> Result<(), Fail> {
    let alloc = rt.alloc();
    let bytes = symbols(alloc, "make 1 16 0", 16)?;
    for calls in [12, 20, 33] {
        let good = faultless(WORDS, &bytes, 65_536);
        let name = format!(in alloc; "a disk of {calls} calls")?;
        let disks = (shelf_of_calls(alloc, calls)?, shelf_of_calls(alloc, calls)?);
        ends_alike(&rt, alloc, &name, &good, disks, 4)?;
    }
    Ok(())
}
