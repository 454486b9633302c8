//! Shelves that no station wrote, each refused by its cause. The checksums are those of `reference/shelf.py`.
use lr_trials_station::call::called;
use lr_trials_station::steps::{Step, hold_on};
use lr_trials_support::{DISCARDED_0, DONE, End, NO_SHELF_AT_19, bytes_with, disk, faultless};
use std::alloc::Global;
use std::test::Fail;

/// The header of the capacity 1,048,576, up to the first gate.
const HEADER: &[u8] = b"\x5ALRSHELF\x02\x00\x00\x00\x00\x00\x10\x00\x00\x8F\x12";

/// An open gate, and the item of a file of 26 bytes.
const FILE: &[u8] = b"\x01\x80\x00\x00\x64\x00\x00\x00\x01\x00\x00\x00\x1A\
\x00\x00\x00\x00\x00\x00\x00\x00\x00\x00\x00\x00\x00\x00\x00\x00\x00\x00\x00\x00\x00\x00\x00\x00\x00\x1A\
\x00\x07\x00\x00\x00\x00\x00\x00\x00\x88\x00\x00\x10\x02\x00\x00\x00\x10\x00\x00\x00\x00\x00\x00\x00\x00\x3B\x39";

/// A closed gate, and bytes enough for the item of a short file.
const CLOSED: &[u8] = &[0; 80];

/// What stands from the first gate on, and ends the file there.
static CUT_OFF: [&[u8]; 2] = [
    // A gate, and an item with no gate after it.
    b"\x01", FILE,
];

/// The same, where a closed gate and further bytes follow.
static FIRST: [&[u8]; 12] = [
    // A file of 1,050 bytes, and one of the most bytes and packets, in both forms: they aren't all there.
    b"\x01\x80\x00\x00\x64\x00\x00\x00\x01\x00\x00\x04\x1A",
    b"\x01\x80\x00\x00\x64\x00\x10\x00\x00\x04\x00\x00\x00",
    b"\x01\x00\x00\x64\x00\x10\x00\x00\x04\x00\x00\x00",
    // A channel, an application, a number of packets and a number of bytes outside their ranges.
    b"\x01\x80\x40\x00\x64\x00\x00\x00\x01\x00\x00\x00\x1A",
    b"\x01\x80\x00\x07\xFF\x00\x00\x00\x01\x00\x00\x00\x1A",
    b"\x01\x80\x00\x00\x64\x00\x00\x00\x00\x00\x00\x00\x1A",
    b"\x01\x80\x00\x00\x64\x00\x10\x00\x01\x00\x00\x00\x1A",
    b"\x01\x80\x00\x00\x64\x00\x00\x00\x01\x00\x00\x00\x09",
    b"\x01\x80\x00\x00\x64\x00\x00\x00\x01\x04\x00\x00\x01",
    // A kind of item that there is not.
    b"\x01\x82",
    // A Discard of the entry that would come next, and of one that comes later.
    b"\x01\x81\x00\x00\x00\x00\x00\x00\x00\x00\x4C\xE3",
    b"\x01\x81\x00\x00\x00\x00\x00\x00\x00\x00\x4C\xE3\x01\x00\x00\x64\x00\x00\x00\x01\x00\x00\x00\x0A\x00\x0A",
];

/// The same after a file, whose next gate is at 86.
static AFTER_A_FILE: [&[u8]; 3] = [
    // A kind of item that there is not, a Discard of the entry that would come next, and one with a wrong checksum.
    b"\x01\x40",
    b"\x01\x81\x00\x00\x00\x00\x00\x00\x00\x01\x5C\xC2",
    b"\x01\x81\x00\x00\x00\x00\x00\x00\x00\x00\x4C\xE2",
];

/// The same after a file and its Discard, whose next gate is at 98: the Discard once more.
static AFTER_A_DISCARD: [&[u8]; 1] = [
    b"\x01\x81\x00\x00\x00\x00\x00\x00\x00\x00\x4C\xE3\x01\x81\x00\x00\x00\x00\x00\x00\x00\x00\x4C\xE3",
];

/// The bytes of a shelf that has these pieces from the first gate on.
fn joined(alloc: Global, pieces: &[&[u8]]) -> Result<Vec<u8>, Fail> {
    let mut bytes = HEADER.to_vec(alloc)?;
    for piece in pieces {
        bytes.extend_from_slice(piece)?;
    }
    Ok(bytes)
}

/// That `list` refuses each shelf by this gate, where these pieces stand before and after the items.
fn are_refused(
    alloc: Global,
    front: &[u8],
    all: &[&[u8]],
    back: &[u8],
    gate: usize,
) -> Result<(), Fail> {
    let line = format!(in alloc; "station: not a shelf at {gate}\n")?;
    for (number, items) in all.iter().enumerate() {
        let name = format!(in alloc; "shelf {number} with a fault at {gate}")?;
        let mut made = disk(alloc, &joined(alloc, &[front, items, back])?, 400)?;
        called(alloc, &mut made, &faultless("list", &[], 1))?.ended_so(&name, &[], End(6, &line))?;
    }
    Ok(())
}

#[test]
fn a_broken_shelf_is_named_by_its_gate(rt: HostRuntime) -> Result<(), Fail> {
    let alloc = rt.alloc();
    are_refused(alloc, &[], &CUT_OFF, &[], 19)?;
    are_refused(alloc, FILE, &CUT_OFF, &[], 86)?;
    are_refused(alloc, &[], &FIRST, CLOSED, 19)?;
    are_refused(alloc, FILE, &AFTER_A_FILE, CLOSED, 86)?;
    are_refused(alloc, FILE, &AFTER_A_DISCARD, CLOSED, 98)
}

/// A file of 26 bytes whose only length says 25: no command reads it, and it is discarded.
static WITHOUT_THE_FILE: [Step; 6] = [
    Step::Call("list", "", NO_SHELF_AT_19),
    Step::Call("verify", "", NO_SHELF_AT_19),
    Step::Call("show 0", "", NO_SHELF_AT_19),
    Step::Call("extract 0", "", NO_SHELF_AT_19),
    Step::Call("discard 0", DISCARDED_0, DONE),
    Step::Call("verify", "file 0 discarded\n", DONE),
];

/// How many damaged items there are.
const DAMAGED: usize = 10_000;

/// An open gate, and an item of 10 bytes whose length says 11.
const DAMAGED_ITEM: &[u8] = b"\x01\x80\x00\x00\x64\x00\x00\x00\x01\x00\x00\x00\x0A\
\x00\x00\x00\x00\x00\x00\x00\x00\x00\x00\x00\x00\x00\x00\x00\x00\x00\x00\x00\x00\x00\x00\x00\x00\x00\x0B\
\x00\x00\x00\x00\x00\x00\x00\x00\x00\x00\x00\x00";

/// That these steps over a shelf of damaged items, with this from the last gate on, come to what they must.
fn damaged_hold(alloc: Global, last: &[u8], steps: &[Step]) -> Result<(), Fail> {
    let mut bytes = HEADER.to_vec(alloc)?;
    for _ in 0..DAMAGED {
        bytes.extend_from_slice(DAMAGED_ITEM)?;
    }
    bytes.extend_from_slice(last)?;
    let _ = hold_on(alloc, disk(alloc, &bytes, 400)?, steps, 0)?;
    Ok(())
}

/// The items are passed, and each is refused by itself.
static PASSED: [Step; 4] = [
    Step::Call("verify", "", NO_SHELF_AT_19),
    Step::Call(
        "extract 9999",
        "",
        End(6, "station: not a shelf at 509968\n"),
    ),
    Step::Call(
        "extract 10000",
        "",
        End(7, "station: no such file, count 10000\n"),
    ),
    Step::Call("discard 9999", "discarded 9999\n", DONE),
];

/// The last one is no item, so there is no shelf.
static BROKEN_OFF: [Step; 1] = [Step::Call(
    "extract 0",
    "",
    End(6, "station: not a shelf at 510019\n"),
)];

#[test]
fn a_file_whose_lengths_do_not_sum_is_named_by_its_gate(rt: HostRuntime) -> Result<(), Fail> {
    let alloc = rt.alloc();
    let file = bytes_with(alloc, FILE, 38, 25)?;
    let made = disk(alloc, &joined(alloc, &[&file, &[0]])?, 400)?;
    let _ = hold_on(alloc, made, &WITHOUT_THE_FILE, 0)?;
    Ok(())
}

#[test]
fn ten_thousand_damaged_items_are_walked(rt: HostRuntime) -> Result<(), Fail> {
    damaged_hold(rt.alloc(), &[0], &PASSED)?;
    damaged_hold(rt.alloc(), &[1, 0x7F], &BROKEN_OFF)
}
