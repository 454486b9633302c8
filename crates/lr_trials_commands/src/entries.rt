//! What the commands put and answer, on a shelf of version 1 that goes on. Its bytes are those of `reference/shelf.py`.
use crate::calls::{Call, add, ended, ends};
use crate::image_files::file_of;
use lr_causes::{Cause, Refusal};
use lr_disk::MemDisk;
use lr_shelf_format::old_header_of;
use lr_trials_support::{BOTH_OK, DISCARDED_0, OLD_SHELF, SECOND_OK, bytes_with, disk};
use std::alloc::Global;
use std::test::Fail;

/// A shelf.
#[derive(Clone, Copy)]
pub(crate) enum Start {
    /// The old one, with one file.
    Old,
    /// The same of two files, and of two of which the first is discarded.
    Two,
    WithoutFirst,
    /// The old one, with another byte at a place.
    Byte(usize, u8),
    /// The old one, of another capacity.
    Capacity(u64),
}

/// A command on a shelf, the status that it ends with, and what it puts.
pub(crate) struct Case(
    pub(crate) Start,
    pub(crate) Call,
    pub(crate) u8,
    pub(crate) &'static str,
);

/// The old shelf, on which its file was received again. It ends at 129.
pub(crate) fn with_two(alloc: Global) -> Result<MemDisk, Fail> {
    let mut made = disk(alloc, &OLD_SHELF, 1_000)?;
    add(alloc, &mut made, file_of(alloc, &[&OLD_SHELF[33..59]])?)?;
    Ok(made)
}

/// The same, where the first file is discarded.
fn without_first(alloc: Global) -> Result<MemDisk, Fail> {
    let mut made = with_two(alloc)?;
    ends(
        alloc,
        "without the first",
        &mut made,
        Call::Discard(0),
        1_000,
        (0, DISCARDED_0.as_bytes()),
    )?;
    Ok(made)
}

/// The bytes of the old shelf after its header, behind that of another capacity.
pub(crate) fn with_capacity(alloc: Global, capacity: u64, rest: &[u8]) -> Result<Vec<u8>, Fail> {
    let mut bytes = old_header_of(capacity)[..19].to_vec(alloc)?;
    bytes.extend_from_slice(rest)?;
    Ok(bytes)
}

fn started(alloc: Global, start: Start) -> Result<MemDisk, Fail> {
    let bytes = match start {
        Start::Two => return with_two(alloc),
        Start::WithoutFirst => return without_first(alloc),
        Start::Old => OLD_SHELF.to_vec(alloc)?,
        Start::Byte(place, byte) => bytes_with(alloc, &OLD_SHELF, place, byte)?,
        Start::Capacity(capacity) => with_capacity(alloc, capacity, &OLD_SHELF[19..])?,
    };
    Ok(disk(alloc, &bytes, 1_000)?)
}

/// That each command ends so. Where one doesn't, the failure says which, and what differs.
pub(crate) fn hold(alloc: Global, cases: &[Case]) -> Result<(), Fail> {
    for (number, Case(start, call, status, text)) in cases.iter().enumerate() {
        let name = format!(in alloc; "case {number}")?;
        let mut made = started(alloc, *start)?;
        ends(
            alloc,
            &name,
            &mut made,
            *call,
            1_000,
            (*status, text.as_bytes()),
        )?;
    }
    Ok(())
}

/// What the refusal for want of room says of a discard.
fn needs(alloc: Global, most: u64) -> Result<u64, Fail> {
    let mut made = started(alloc, Start::Capacity(most))?;
    match ended(alloc, &mut made, Call::Discard(0), 1_000)?.cause {
        Cause::Refused(Refusal::Capacity { needed, capacity }) if capacity == most => Ok(needed),
        cause => Err(Fail::new(format_args!("the status is {}", cause.status()))),
    }
}

/// The file after its transport header.
const PROPER: &str = "\0\0\x10\x02\0\0\0\x10\0\0\0\0\0\0\0\0";

static EXTRACTED: [Case; 5] = [
    Case(Start::Old, Call::Extract(0), 0, PROPER),
    Case(Start::Two, Call::Extract(1), 0, PROPER),
    Case(Start::Two, Call::Extract(2), 7, ""),
    Case(Start::WithoutFirst, Call::Extract(0), 13, ""),
    Case(Start::WithoutFirst, Call::Extract(1), 0, PROPER),
];

static NOT_EXTRACTED: [Case; 4] = [
    Case(Start::Byte(0, 0), Call::Extract(0), 6, ""),
    Case(Start::Byte(32, 0x1B), Call::Extract(0), 6, ""),
    Case(Start::Byte(58, 1), Call::Extract(0), 12, ""),
    Case(Start::Byte(19, 0), Call::Extract(0), 7, ""),
];

static VERIFIED: [Case; 5] = [
    Case(Start::Two, Call::Verify, 0, BOTH_OK),
    Case(Start::WithoutFirst, Call::Verify, 0, SECOND_OK),
    Case(
        Start::Byte(59, 0x8C),
        Call::Verify,
        12,
        "file 0 bad stored 8CCA computed 8BCA\n",
    ),
    Case(Start::Byte(32, 0x1B), Call::Verify, 6, ""),
    Case(Start::Byte(19, 0), Call::Verify, 0, ""),
];

static DISCARDED: [Case; 4] = [
    Case(Start::WithoutFirst, Call::Discard(0), 13, ""),
    Case(Start::WithoutFirst, Call::Discard(2), 7, ""),
    Case(Start::WithoutFirst, Call::Discard(1), 0, "discarded 1\n"),
    Case(Start::Byte(0, 0), Call::Discard(0), 6, ""),
];

static ROOM: [Case; 3] = [
    Case(Start::Capacity(73), Call::Discard(0), 10, ""),
    Case(Start::Capacity(74), Call::Discard(0), 0, DISCARDED_0),
    Case(Start::Capacity(73), Call::Discard(1), 7, ""),
];

#[test]
fn a_file_is_extracted_by_its_number(rt: HostRuntime) -> Result<(), Fail> {
    hold(rt.alloc(), &EXTRACTED)
}

#[test]
fn extract_is_refused_for_what_it_finds(rt: HostRuntime) -> Result<(), Fail> {
    hold(rt.alloc(), &NOT_EXTRACTED)
}

#[test]
fn verify_has_a_line_for_each_entry(rt: HostRuntime) -> Result<(), Fail> {
    hold(rt.alloc(), &VERIFIED)
}

#[test]
fn a_file_is_discarded_once(rt: HostRuntime) -> Result<(), Fail> {
    hold(rt.alloc(), &DISCARDED)
}

#[test]
fn a_discard_needs_twelve_bytes(rt: HostRuntime) -> Result<(), Fail> {
    assert_eq!(rt; needs(rt.alloc(), 73)?, 74);
    hold(rt.alloc(), &ROOM)
}
