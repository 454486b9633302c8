//! One command over bytes that a caller lends: what it leaves in the three rooms, and the answers that are no status.
use crate::{Counts, NO_ROOM, lr_run};
use lr_words::NO_TEXT;
use std::alloc::Global;
use std::process::Abort;
use std::test::Fail;

/// What each byte of a room is before a call.
const BEFORE: u8 = 7;

/// The bytes of each room.
const ROOM: usize = 64;

/// How many calls of the shelf a call may make.
const CALLS: u64 = 50;

/// A new shelf of 100 bytes: its header and a closed gate.
const NEW: &[u8] = b"\x5ALRSHELF\x02\x00\x00\x00\x00\x00\x00\x00\x64\xE0\x53\x00";

/// A call: its words, the shelf, and the bytes of the rooms for what is printed and for the shelf.
struct Given(&'static [u8], &'static [u8], usize, usize);

/// The statuses of a command that did its work, met a failing disk, and a failing output.
const DONE: u32 = 0;

const DISK_FAILED: u32 = 4;

const OUTPUT_FAILED: u32 = 5;

/// What each call answers, and what the rooms for its output, its errors and the shelf get.
static COMMANDS: [(Given, u32, [&[u8]; 3]); 4] = [
    (
        Given(b"init\n100", b"", ROOM, ROOM),
        DONE,
        [b"shelf capacity 100\n", b"", NEW],
    ),
    (
        Given(b"list", NEW, ROOM, 20),
        DONE,
        [b"files 0 used 20 capacity 100\n", b"", NEW],
    ),
    (
        Given(b"init\n100", b"", 5, ROOM),
        OUTPUT_FAILED,
        [b"shelf", b"station: output failed\n", NEW],
    ),
    (
        Given(b"init\n100", b"", ROOM, 0),
        DISK_FAILED,
        [b"", b"station: disk failed\n", b""],
    ),
];

/// The words aren't UTF-8, or the shelf is longer than the room for it; and the length of the shelf that is told then.
static NOT_RUN: [(Given, u32, u64); 2] = [
    (Given(b"list\xFF", NEW, ROOM, 19), NO_TEXT, 1),
    (Given(b"list", NEW, ROOM, 19), NO_ROOM, 20),
];

/// What a call answered, and the three rooms after it.
#[derive(Drop)]
struct Handed {
    answer: u32,
    counts: Counts,
    out: [u8; ROOM],
    err: [u8; ROOM],
    shelf: [u8; ROOM],
}

/// Makes this call.
fn run(alloc: Global, call: &Given) -> Handed {
    let mut counts = Counts {
        out: 1,
        err: 1,
        shelf: 1,
    };
    let (mut out, mut err, mut shelf) = ([BEFORE; ROOM], [BEFORE; ROOM], [BEFORE; ROOM]);
    let answer = lr_run(
        alloc,
        call.0,
        &[],
        call.1,
        CALLS,
        &mut out[..call.2.min(ROOM)],
        &mut err,
        &mut shelf[..call.3.min(ROOM)],
        &mut counts,
    );
    Handed {
        answer,
        counts,
        out,
        err,
        shelf,
    }
}

/// Asserts that a room begins with these bytes, of which it was told how many, and is otherwise as it was.
fn has_got(rt: &impl Abort, room: &[u8], count: u64, bytes: &[u8]) -> Result<(), Fail> {
    let (front, rest) = room.split_at(bytes.len().min(room.len()));
    assert_eq!(rt; (count, front), (bytes.len() as u64, bytes));
    assert_eq!(rt; rest.iter().filter(|byte| **byte != BEFORE).count(), 0);
    Ok(())
}

#[test]
fn a_command_fills_the_rooms(rt: HostRuntime) -> Result<(), Fail> {
    for (call, answer, [out, err, shelf]) in COMMANDS.iter() {
        let came = run(rt.alloc(), call);
        assert_eq!(rt; (call.0, came.answer), (call.0, *answer));
        has_got(&rt, &came.out, came.counts.out, out)?;
        has_got(&rt, &came.err, came.counts.err, err)?;
        has_got(&rt, &came.shelf, came.counts.shelf, shelf)?;
    }
    Ok(())
}

#[test]
fn an_answer_that_is_no_status_leaves_the_rooms(rt: HostRuntime) -> Result<(), Fail> {
    for (call, answer, length) in NOT_RUN.iter() {
        let came = run(rt.alloc(), call);
        assert_eq!(rt; (came.answer, came.counts.shelf), (*answer, *length));
        for room in [&came.out, &came.err, &came.shelf] {
            has_got(&rt, room, 0, b"")?;
        }
    }
    Ok(())
}
