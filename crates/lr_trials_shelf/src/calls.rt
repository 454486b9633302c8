//! How often the shelf asks its disk, and how many bytes it reads.
use crate::counting::Counting;
use crate::shared::{
    add_first, append, at, check, discard, empty, file, get, load, second, with_two,
};
use lr_bits::{Origin, Placed};
use std::alloc::Global;
use std::test::Fail;

/// The bytes of a page, which is what is read at a gate that stands alone.
const PAGE_BYTES: u64 = 4096;

/// How many long files there are.
const LONG_FILES: u64 = 12;

/// How many short files there are.
const SHORT_FILES: u64 = 1500;

/// A shelf of this many such files.
fn many(alloc: Global, files: u64, placed: &Placed) -> Result<Counting, Fail> {
    let mut made = empty(alloc, 1 << 30)?;
    let mut shelf = load(alloc, &mut made)?;
    for _ in 0..files {
        append(&mut shelf, &mut made, placed)?;
    }
    Ok(Counting::of(made))
}

fn wrote_twice(made: &Counting) -> bool {
    made.reads == 0 && made.writes == 2 && made.syncs == 2 && made.others == 0
}

/// An append and a discard make two writes and two syncs each, and read nothing.
fn adding_reads_nothing(alloc: Global) -> Result<bool, Fail> {
    let mut made = Counting::of(with_two(alloc)?);
    let mut shelf = load(alloc, &mut made)?;
    made.clear();
    add_first(alloc, &mut shelf, &mut made)?;
    let appended = wrote_twice(&made);
    made.clear();
    Ok(appended && discard(&mut shelf, &mut made, 0).is_ok() && wrote_twice(&made))
}

fn read_twice(made: &Counting) -> bool {
    made.reads <= 2 && made.writes == 0 && made.syncs == 0
}

/// A short record is checked in at most two reads, and got in as many.
fn a_short_record_is_read_once(alloc: Global) -> Result<bool, Fail> {
    let mut made = Counting::of(with_two(alloc)?);
    let mut shelf = load(alloc, &mut made)?;
    made.clear();
    let checked = check(&mut shelf, &mut made, 0).is_ok() && read_twice(&made);
    made.clear();
    Ok(checked && get(&mut shelf, &mut made, 1).is_ok() && read_twice(&made))
}

/// Files of 66,000 bytes: of each no more than a page is read.
fn long_records_are_passed_over(alloc: Global) -> Result<bool, Fail> {
    let origin = Origin {
        first: 0,
        last: 0,
        corrected: 0,
    };
    let file = file(alloc, 1, 2, 2, &[0xA5; 33_000])?;
    let mut made = many(alloc, LONG_FILES, &Placed { file, origin })?;
    let shelf = load(alloc, &mut made)?;
    let ended = at(&shelf) == (LONG_FILES, 20 + LONG_FILES * 66_043, 1 << 30);
    Ok(ended && made.bytes <= 20 + (LONG_FILES + 1) * PAGE_BYTES && made.writes == 0)
}

/// 1,500 records of 50 bytes are read in a few reads, each byte about once.
fn short_records_are_read_ahead(alloc: Global) -> Result<bool, Fail> {
    let mut made = many(alloc, SHORT_FILES, &second(alloc)?)?;
    let shelf = load(alloc, &mut made)?;
    let ended = at(&shelf) == (SHORT_FILES, 20 + SHORT_FILES * 51, 1 << 30);
    Ok(ended && made.reads <= 7 && made.bytes <= 80_000 && made.writes == 0)
}

#[test]
fn adding_writes_twice(rt: HostRuntime) -> Result<(), Fail> {
    assert!(rt; adding_reads_nothing(rt.alloc())?);
    Ok(())
}

#[test]
fn short_records_are_read_at_once(rt: HostRuntime) -> Result<(), Fail> {
    assert!(rt; a_short_record_is_read_once(rt.alloc())?);
    Ok(())
}

#[test]
fn loading_reads_heads(rt: HostRuntime) -> Result<(), Fail> {
    assert!(rt; long_records_are_passed_over(rt.alloc())?);
    assert!(rt; short_records_are_read_ahead(rt.alloc())?);
    Ok(())
}
