//! Calls of a shelf, one after another over one disk, as tables, and what they must answer.
use crate::shared::{
    append, at, check, discard, disk, empty, file, first, get, holds, is_same, load, second,
    with_byte, with_two,
};
use lr_bits::{Origin, Placed};
use lr_disk::MemDisk;
use lr_shelf::{Shelf, ShelfError};
use lr_shelf_format::old_header_of;
use lr_trials_support::{OLD_SHELF, is_number, is_text};
use std::alloc::Global;
use std::test::Fail;

/// What the disk has before.
#[derive(Clone, Copy)]
pub(crate) enum Start {
    Bytes(&'static [u8]),
    /// An empty shelf of this capacity.
    Empty(u64),
    /// A shelf of the capacity 1,000 with both files, with another byte at a place.
    Two(usize, u8),
    /// A shelf of both files, whose last gate is open, and these bytes after it.
    Opened(&'static [u8]),
    /// A shelf of both files, and these bytes after it.
    Longer(&'static [u8]),
    /// The shelf of version 1, of another capacity.
    Old(u64),
}

/// A file.
#[derive(Clone, Copy)]
pub(crate) enum Which {
    First,
    Second,
    /// The file of the shelf of version 1, received again in the outcome 0.
    Again,
}

/// What a call answers.
#[derive(Clone, Copy, Debug)]
pub(crate) enum Answer {
    Done,
    /// It's done, with this number.
    Number(u64),
    Gone,
    Disk,
    /// There are only this many files.
    Past(u64),
    /// How many bytes are needed, and the capacity.
    Full(u64, u64),
    /// The checksum that stands there, and the right one.
    Crc(u16, u16),
    /// There is no shelf, from a place on.
    NoShelf(u64),
}

/// A call with its answer, or what is looked at.
#[derive(Clone, Copy)]
pub(crate) enum Step {
    Append(Which, Answer),
    Discard(u64, Answer),
    Get(u64, Answer),
    Check(u64, Answer),
    /// The shelf is loaded anew.
    Load,
    /// The next call of the disk fails.
    Fails,
    /// The file of this number is this one with its origin.
    Holds(u64, Which),
    /// It is this one, with no origin.
    HoldsOld(u64, Which),
    /// How many files the shelf has, where it ends, and its capacity.
    At(u64, u64, u64),
    /// How many bytes the disk has.
    Length(usize),
    /// The disk begins with the first N bytes that it had before.
    Begins(usize),
}

/// A disk, what its load answers, and what follows where that is done.
pub(crate) struct Case(
    pub(crate) Start,
    pub(crate) Answer,
    pub(crate) &'static [Step],
);

/// Where the last gate of the shelf of both files stands.
const LAST_GATE: usize = 137;

pub(crate) const OLD: Start = Start::Bytes(&OLD_SHELF);

fn again(alloc: Global) -> Result<Placed, Fail> {
    let origin = Origin {
        first: 0,
        last: 0,
        corrected: 0,
    };
    let file = file(alloc, 0, 100, 1, &OLD_SHELF[33..59])?;
    Ok(Placed { file, origin })
}

fn placed(alloc: Global, which: Which) -> Result<Placed, Fail> {
    match which {
        Which::First => first(alloc),
        Which::Second => second(alloc),
        Which::Again => again(alloc),
    }
}

/// The shelf of both files without its bytes from a place on, and these bytes.
fn two_and(alloc: Global, front: usize, more: &[u8]) -> Result<MemDisk, Fail> {
    let whole = with_two(alloc)?;
    let mut bytes = whole.as_slice().to_vec(alloc)?;
    bytes.truncate(front);
    bytes.extend_from_slice(more)?;
    disk(alloc, &bytes)
}

/// The same, with an open gate before the bytes.
fn opened(alloc: Global, more: &[u8]) -> Result<MemDisk, Fail> {
    let mut bytes = Vec::new(alloc);
    bytes.push(1)?;
    bytes.extend_from_slice(more)?;
    two_and(alloc, LAST_GATE, &bytes)
}

fn old_of(alloc: Global, capacity: u64) -> Result<MemDisk, Fail> {
    let mut bytes = old_header_of(capacity)[..19].to_vec(alloc)?;
    bytes.extend_from_slice(&OLD_SHELF[19..])?;
    disk(alloc, &bytes)
}

fn started(alloc: Global, start: Start) -> Result<MemDisk, Fail> {
    match start {
        Start::Bytes(bytes) => disk(alloc, bytes),
        Start::Empty(capacity) => empty(alloc, capacity),
        Start::Two(place, byte) => with_byte(alloc, place, byte),
        Start::Opened(more) => opened(alloc, more),
        Start::Longer(more) => two_and(alloc, usize::MAX, more),
        Start::Old(capacity) => old_of(alloc, capacity),
    }
}

fn is_refusal(error: ShelfError, wanted: Answer) -> bool {
    match (error, wanted) {
        (ShelfError::Discarded, Answer::Gone) | (ShelfError::Disk, Answer::Disk) => true,
        (ShelfError::NoSuchFile { count }, Answer::Past(files)) => count == files,
        (ShelfError::Capacity { needed, capacity }, Answer::Full(end, most)) => {
            needed == end && capacity == most
        }
        (ShelfError::Crc { stored, computed }, Answer::Crc(stands, right)) => {
            stored == stands && computed == right
        }
        (ShelfError::NotAShelf { at }, Answer::NoShelf(place)) => at == place,
        _ => false,
    }
}

/// Which step of a table it is: the places of its case and of the step in it, where the load is before the first one.
#[derive(Clone, Copy, Debug)]
enum At {
    Load(usize),
    Step(usize, usize),
}

/// That a call with no number answers this. Where it doesn't, the failure says at which step, and what came.
fn is_answer<T: Drop>(at: At, answer: Result<T, ShelfError>, wanted: Answer) -> Result<(), Fail> {
    match answer {
        Ok(_) if matches!(wanted, Answer::Done) => Ok(()),
        Ok(_) => Err(Fail::new(format_args!("{at:?}: it is done, and not {wanted:?}"))),
        Err(error) if is_refusal(error, wanted) => Ok(()),
        Err(error) => Err(Fail::new(format_args!("{at:?}: came {error:?}, and not {wanted:?}"))),
    }
}

/// That this holds of a step. Where it doesn't, the failure says at which step.
fn is_so(at: At, holds: bool, what: &str) -> Result<(), Fail> {
    if holds {
        return Ok(());
    }
    Err(Fail::new(format_args!("{at:?}: {what} isn't there")))
}

fn appends(
    alloc: Global,
    at: At,
    shelf: &mut Shelf,
    made: &mut MemDisk,
    step: (Which, Answer),
) -> Result<(), Fail> {
    let file = placed(alloc, step.0)?;
    match (append(shelf, made, &file), step.1) {
        (Ok(came), Answer::Number(number)) => {
            is_number(format_args!("{at:?}: the file"), came, number)?;
            Ok(())
        }
        (answer, wanted) => is_answer(at, answer, wanted),
    }
}

fn is_held_old(shelf: &mut Shelf, made: &mut MemDisk, number: u64, file: &Placed) -> bool {
    match get(shelf, made, number) {
        Ok(stored) => is_same(&stored.file, &file.file) && stored.origin.is_none(),
        Err(_) => false,
    }
}

/// That a step is as it must be.
fn step_holds(
    alloc: Global,
    place: At,
    shelf: &mut Shelf,
    made: &mut MemDisk,
    before: &[u8],
    step: Step,
) -> Result<(), Fail> {
    match step {
        Step::Append(which, answer) => appends(alloc, place, shelf, made, (which, answer))?,
        Step::Discard(number, answer) => is_answer(place, discard(shelf, made, number), answer)?,
        Step::Get(number, answer) => is_answer(place, get(shelf, made, number), answer)?,
        Step::Check(number, answer) => is_answer(place, check(shelf, made, number), answer)?,
        Step::Load => *shelf = load(alloc, made)?,
        Step::Fails => made.fail_at(0),
        Step::Holds(number, which) => {
            let file = placed(alloc, which)?;
            is_so(place, holds(shelf, made, number, &file), "the file")?;
        }
        Step::HoldsOld(number, which) => {
            let file = placed(alloc, which)?;
            is_so(
                place,
                is_held_old(shelf, made, number, &file),
                "the old file",
            )?;
        }
        Step::At(files, end, capacity) => {
            let (came, wanted) = (at(shelf), (files, end, capacity));
            if came != wanted {
                return Err(Fail::new(format_args!("{place:?}: {came:?}, and not {wanted:?}")));
            }
        }
        Step::Length(length) => {
            let came = made.as_slice().len() as u64;
            is_number(format_args!("{place:?}: the length"), came, length as u64)?;
        }
        Step::Begins(count) => {
            let count = count.min(before.len()).min(made.as_slice().len());
            let front = &made.as_slice()[..count];
            is_text(
                format_args!("{place:?}: the front"),
                front,
                &before[..count],
            )?;
        }
    }
    Ok(())
}

/// That the load and each step of a case are as they must be.
fn case_holds(alloc: Global, number: usize, case: &Case) -> Result<(), Fail> {
    let Case(start, answer, steps) = case;
    let mut made = started(alloc, *start)?;
    let before = made.as_slice().to_vec(alloc)?;
    let mut shelf = match load(alloc, &mut made) {
        Ok(shelf) if matches!(answer, Answer::Done) => shelf,
        loaded => return is_answer(At::Load(number), loaded, *answer),
    };
    for (place, step) in steps.iter().enumerate() {
        let at = At::Step(number, place);
        step_holds(alloc, at, &mut shelf, &mut made, &before, *step)?;
    }
    Ok(())
}

/// That each step of each case is as it must be. Where one isn't, the failure says which, and what came.
pub(crate) fn hold(alloc: Global, cases: &[Case]) -> Result<(), Fail> {
    for (number, case) in cases.iter().enumerate() {
        case_holds(alloc, number, case)?;
    }
    Ok(())
}
