//! Runs that a failure of the disk or of the output ends.
use crate::calls::{Call, ended, ends};
use crate::entries::with_two;
use lr_disk::MemDisk;
use lr_trials_support::{BOTH_OK, DISCARDED_0, OLD_SHELF, SECOND_OK, disk};
use std::alloc::Global;
use std::test::Fail;

/// Whether the first of two files is gone: `verify` says so, or that both are good.
fn is_discarded(alloc: Global, case: &str, made: &mut MemDisk) -> Result<bool, Fail> {
    let is_gone = ended(alloc, made, Call::Verify, 1_000)?.out.as_slice() != BOTH_OK.as_bytes();
    let lines = if is_gone { SECOND_OK } else { BOTH_OK };
    ends(
        alloc,
        case,
        made,
        Call::Verify,
        1_000,
        (0, lines.as_bytes()),
    )?;
    Ok(is_gone)
}

/// Discards file 0 with this many bytes of room for the line: whether the status is this one, and the file is gone.
fn discards_into(alloc: Global, room: usize, status: u8, put: &str) -> Result<bool, Fail> {
    let case = format!(in alloc; "room for {room}")?;
    let mut made = with_two(alloc)?;
    ends(
        alloc,
        &case,
        &mut made,
        Call::Discard(0),
        room,
        (status, put.as_bytes()),
    )?;
    is_discarded(alloc, &case, &mut made)
}

/// Discards file 0 where one call of the disk fails, counted from the run's first: status 4, and nothing is put.
/// Whether the file is gone then. The load makes the calls 0 to 4; the item is written by call 5, and its gate is
/// synced by 8.
fn stopped_at(alloc: Global, after: u64) -> Result<bool, Fail> {
    let case = format!(in alloc; "call {after} fails")?;
    let mut made = with_two(alloc)?;
    made.fail_at(after);
    ends(alloc, &case, &mut made, Call::Discard(0), 1_000, (4, b""))?;
    is_discarded(alloc, &case, &mut made)
}

fn extracts_into(alloc: Global, room: usize, status: u8) -> Result<bool, Fail> {
    let mut made = disk(alloc, &OLD_SHELF, 1_000)?;
    let put = &OLD_SHELF[43..43 + room.min(16)];
    ends(
        alloc,
        "extract",
        &mut made,
        Call::Extract(0),
        room,
        (status, put),
    )
}

#[test]
fn the_line_comes_after_the_discard(rt: HostRuntime) -> Result<(), Fail> {
    let alloc = rt.alloc();
    assert!(rt; discards_into(alloc, 12, 0, DISCARDED_0)?);
    assert!(rt; discards_into(alloc, 10, 5, "discarded ")?);
    assert!(rt; discards_into(alloc, 0, 5, "")?);
    Ok(())
}

#[test]
fn a_disk_that_fails_leaves_one_of_the_two(rt: HostRuntime) -> Result<(), Fail> {
    let alloc = rt.alloc();
    assert!(rt; !stopped_at(alloc, 0)?);
    assert!(rt; !stopped_at(alloc, 5)?);
    assert!(rt; stopped_at(alloc, 8)?);
    Ok(())
}

#[test]
fn an_output_that_fails_has_a_part(rt: HostRuntime) -> Result<(), Fail> {
    let alloc = rt.alloc();
    assert!(rt; extracts_into(alloc, 16, 0)?);
    assert!(rt; extracts_into(alloc, 5, 5)?);
    Ok(())
}
