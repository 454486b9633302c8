//! Calls of the station, one after another over one disk, and what must come of them, as tables of steps.
use crate::call::{called, written};
use lr_bits::FRAME_BYTES;
use lr_disk::MemDisk;
use lr_trials_support::{
    Call, DONE, End, FILE_7, NEVER, Printed, RECEIVED_7, bytes_with, disk, faultless, is_number,
    is_text, put_frame, shelf_bytes,
};
use std::alloc::Global;
use std::test::Fail;

/// A part of what a call reads.
#[derive(Clone, Copy)]
pub enum Piece {
    Bytes(&'static [u8]),
    /// These bytes of a frame, and zeros up to its end.
    Frame(&'static [u8]),
    /// This many bytes of one value.
    Same(usize, u8),
    /// What these words write, at most N bytes.
    Written(&'static str, usize),
    /// What stands before, without the last N bytes.
    Less(usize),
}

/// A step of a session, which begins with an empty disk.
#[derive(Clone, Copy)]
pub enum Step {
    /// These words print this, and end so.
    Call(&'static str, &'static str, End<'static>),
    /// The same, where more may be printed before it.
    CallEnding(&'static str, &'static str, End<'static>),
    /// These words print these bytes, and are done.
    Writes(&'static str, &'static [u8]),
    /// What the calls from here on read.
    Reads(&'static [Piece]),
    /// The place at which the source of the next call fails once.
    SourceFails(u64),
    /// The place at which `out` of the next call fails once.
    OutFails(u64),
    /// The room of `out` in the next call, in bytes.
    OutHas(usize),
    /// The disk is a new one with these bytes.
    Disk(&'static [u8]),
    /// It is a new one with a shelf of the capacity 1,000 and these items.
    Shelf(&'static [&'static [u8]]),
    /// The disk has another byte at this place.
    Byte(usize, u8),
    /// The disk is a new one with the same bytes, which allows this many calls.
    Allows(u64),
    /// The disk has these bytes now.
    HasBytes(&'static [u8]),
    /// It has that shelf, with these items.
    HasItems(&'static [&'static [u8]]),
    /// It has this many bytes.
    HasLength(usize),
    /// It has what it had before the last call.
    HasTheSame,
}

/// The header of a shelf of the capacity 1,000, up to the first gate. It is that of `reference/shelf.py`.
pub const HEADER_1000: &[u8] = b"\x5ALRSHELF\x02\x00\x00\x00\x00\x00\x00\x03\xE8\xE5\x04";

/// An empty shelf of the capacity 1,000 is made.
pub const MADE: Step = Step::Call("init 1000", "shelf capacity 1000\n", DONE);

/// The words to receive frames.
pub const FRAMES: &str = "receive --input frames";

/// What is read is the frame of the file 7.
pub const READS_7: Step = Step::Reads(&[Piece::Frame(FILE_7)]);

/// That frame is received onto an empty shelf.
pub const RECEIVES_7: Step = Step::Call(FRAMES, RECEIVED_7, DONE);

/// How many calls a disk allows where no step says so.
const CALLS: u64 = 10_000;

/// What a session has come to: its disk, and what stood there before the last call; what its calls read, and what is
/// said of the next one.
#[derive(Drop)]
struct Stage {
    disk: MemDisk,
    before: Vec<u8>,
    input: Vec<u8>,
    source_fails: u64,
    out_fails: u64,
    out_room: usize,
}

/// The room of `out` where no step says so.
const OUT_ROOM: usize = 10_000;

fn stage_on(alloc: Global, disk: MemDisk) -> Stage {
    Stage {
        disk,
        before: Vec::new(alloc),
        input: Vec::new(alloc),
        source_fails: NEVER,
        out_fails: NEVER,
        out_room: OUT_ROOM,
    }
}

/// Which step of a table it is: the places of its session and of the step in it, and the length of the reads.
#[derive(Clone, Copy)]
struct At {
    session: usize,
    step: usize,
    reads: usize,
}

fn name_of(alloc: Global, at: At, words: &str) -> Result<String, Fail> {
    let At {
        session,
        step,
        reads,
    } = at;
    Ok(format!(in alloc; "session {session}, step {step} ({words}), reads of {reads}")?)
}

fn put_piece(alloc: Global, bytes: &mut Vec<u8>, piece: Piece) -> Result<(), Fail> {
    let length = bytes.len();
    match piece {
        Piece::Bytes(more) => bytes.extend_from_slice(more)?,
        Piece::Frame(front) => put_frame(bytes, front)?,
        Piece::Same(count, byte) => bytes.resize(length.saturating_add(count), byte)?,
        Piece::Written(words, most) => bytes.extend_from_slice(&written(alloc, words, most)?)?,
        Piece::Less(count) => bytes.truncate(length.saturating_sub(count)),
    }
    Ok(())
}

/// What a call reads.
pub fn input_of(alloc: Global, pieces: &[Piece]) -> Result<Vec<u8>, Fail> {
    let mut bytes = Vec::new(alloc);
    for piece in pieces {
        put_piece(alloc, &mut bytes, *piece)?;
    }
    Ok(bytes)
}

/// What comes of the next call.
fn call(alloc: Global, stage: &mut Stage, words: &str, reads: usize) -> Result<Printed, Fail> {
    stage.before = stage.disk.as_slice().to_vec(alloc)?;
    let given = Call {
        source_fails: stage.source_fails,
        out_fails: stage.out_fails,
        out_room: stage.out_room,
        ..faultless(words, &stage.input, reads)
    };
    let printed = called(alloc, &mut stage.disk, &given)?;
    stage.source_fails = NEVER;
    stage.out_fails = NEVER;
    stage.out_room = OUT_ROOM;
    Ok(printed)
}

/// Changes the disk, or what the next call has.
fn prepare(alloc: Global, stage: &mut Stage, step: Step) -> Result<(), Fail> {
    match step {
        Step::Reads(pieces) => stage.input = input_of(alloc, pieces)?,
        Step::SourceFails(place) => stage.source_fails = place,
        Step::OutFails(place) => stage.out_fails = place,
        Step::OutHas(room) => stage.out_room = room,
        Step::Disk(bytes) => stage.disk = disk(alloc, bytes, CALLS)?,
        Step::Shelf(items) => {
            stage.disk = disk(alloc, &shelf_bytes(alloc, HEADER_1000, items)?, CALLS)?;
        }
        Step::Byte(place, byte) => {
            let bytes = bytes_with(alloc, stage.disk.as_slice(), place, byte)?;
            stage.disk = disk(alloc, &bytes, CALLS)?;
        }
        Step::Allows(calls) => stage.disk = disk(alloc, stage.disk.as_slice(), calls)?,
        _ => {}
    }
    Ok(())
}

/// That a step comes to what it must. Where it doesn't, the failure says which, and what differs.
fn step_holds(alloc: Global, stage: &mut Stage, at: At, step: Step) -> Result<bool, Fail> {
    match step {
        Step::Call(words, out, end) => {
            let name = name_of(alloc, at, words)?;
            call(alloc, stage, words, at.reads)?.ended_so(&name, out.as_bytes(), end)
        }
        Step::CallEnding(words, out, end) => {
            let name = name_of(alloc, at, words)?;
            call(alloc, stage, words, at.reads)?.ended_with(&name, out.as_bytes(), end)
        }
        Step::HasBytes(bytes) => {
            is_text(
                name_of(alloc, at, "the disk")?,
                stage.disk.as_slice(),
                bytes,
            )
        }
        Step::HasItems(items) => {
            let bytes = shelf_bytes(alloc, HEADER_1000, items)?;
            is_text(
                name_of(alloc, at, "the disk")?,
                stage.disk.as_slice(),
                &bytes,
            )
        }
        Step::HasLength(length) => {
            let came = stage.disk.as_slice().len();
            is_number(
                name_of(alloc, at, "the disk's length")?,
                came as u64,
                length as u64,
            )
        }
        Step::HasTheSame => {
            is_text(
                name_of(alloc, at, "the disk")?,
                stage.disk.as_slice(),
                &stage.before,
            )
        }
        _ => {
            prepare(alloc, stage, step)?;
            Ok(true)
        }
    }
}

fn steps_hold(alloc: Global, stage: &mut Stage, at: At, steps: &[Step]) -> Result<(), Fail> {
    let mut at = at;
    for step in steps {
        step_holds(alloc, stage, at, *step)?;
        at.step = at.step.wrapping_add(1);
    }
    Ok(())
}

/// That each step of each session comes to what it must, for each length of the reads. Where one doesn't, the failure
/// says which, and what differs.
pub fn hold_in(alloc: Global, reads: &[usize], sessions: &[&[Step]]) -> Result<(), Fail> {
    for (session, steps) in sessions.iter().enumerate() {
        for reads in reads {
            let at = At {
                session,
                step: 0,
                reads: *reads,
            };
            let mut stage = stage_on(alloc, disk(alloc, &[], CALLS)?);
            steps_hold(alloc, &mut stage, at, steps)?;
        }
    }
    Ok(())
}

/// The same in reads of a frame.
pub fn hold(alloc: Global, sessions: &[&[Step]]) -> Result<(), Fail> {
    hold_in(alloc, &[FRAME_BYTES], sessions)
}

/// That these steps, over this disk, come to what they must, as those of a session of this number; and what they leave.
pub fn hold_on(
    alloc: Global,
    disk: MemDisk,
    steps: &[Step],
    session: usize,
) -> Result<MemDisk, Fail> {
    let at = At {
        session,
        step: 0,
        reads: FRAME_BYTES,
    };
    let mut stage = stage_on(alloc, disk);
    steps_hold(alloc, &mut stage, at, steps)?;
    let Stage { disk, .. } = stage;
    Ok(disk)
}
