//! Stops inside calls, and calls that fail.
use crate::shared::{
    add_first, add_second, append, at, check, discard, disk, empty, get, holds_first, holds_two,
    init, is_disk, is_failed, is_not_empty, load, second,
};
use crate::tables::{Answer, Case, Start, Step, Which, hold};
use lr_bits::Placed;
use lr_disk::{Disk, MemDisk};
use lr_shelf::Shelf;
use std::alloc::Global;
use std::test::Fail;

/// How many calls `load` makes on a short shelf.
const LOAD_CALLS: u64 = 5;

/// How many calls `append` makes: it writes and syncs the item, and then the gate.
const APPEND_CALLS: u64 = 4;

/// The call of `append` that writes the gate.
const GATE_CALL: u64 = LOAD_CALLS + 2;

/// The bytes of a shelf of the first file.
fn with_first(alloc: Global) -> Result<MemDisk, Fail> {
    let mut made = empty(alloc, 1000)?;
    let mut shelf = load(alloc, &mut made)?;
    add_first(alloc, &mut shelf, &mut made)?;
    disk(alloc, made.as_slice())
}

/// A shelf of the first file to which the second was added.
fn with_second(alloc: Global) -> Result<MemDisk, Fail> {
    let mut made = with_first(alloc)?;
    let mut shelf = load(alloc, &mut made)?;
    add_second(alloc, &mut shelf, &mut made)?;
    Ok(made)
}

/// What a stop inside this call leaves.
fn stopped_disk(alloc: Global, made: &MemDisk, call: u64, kind: u8) -> Result<MemDisk, Fail> {
    if call >= made.calls() || kind > 2 {
        return Err(Fail::from("no such call"));
    }
    Ok(made.image(alloc, call, kind)?)
}

fn has_made_its_calls(alloc: Global) -> Result<bool, Fail> {
    Ok(with_second(alloc)?.calls() == LOAD_CALLS + APPEND_CALLS)
}

/// The first file is on the shelf, and nothing else, or the second too.
fn holds_one_or_two(alloc: Global, made: &mut MemDisk) -> Result<bool, Fail> {
    let mut shelf = load(alloc, made)?;
    if shelf.len() == 2 {
        return holds_two(alloc, made);
    }
    Ok(at(&shelf) == (1, 87, 1000) && holds_first(alloc, &mut shelf, made, 0)?)
}

/// Whether each stop inside these calls leaves one of both.
fn stops_are_harmless(alloc: Global, kind: u8) -> Result<bool, Fail> {
    let made = with_second(alloc)?;
    for call in 0..LOAD_CALLS + APPEND_CALLS {
        let mut left = stopped_disk(alloc, &made, call, kind)?;
        if !holds_one_or_two(alloc, &mut left)? {
            return Ok(false);
        }
    }
    Ok(true)
}

/// Whether a shelf of one file whose last gate is torn stands as it was, and is no place for a new shelf.
fn is_kept(shelf: &Shelf, left: &mut MemDisk, torn: &[u8]) -> bool {
    torn.get(86).copied() == Some(0x7F)
        && at(shelf) == (1, 87, 1000)
        && is_not_empty(init(left, 1000), 138)
        && left.as_slice() == torn
}

/// A stop in the write that opens the second gate left 7F there.
fn a_torn_gate_is_closed(alloc: Global) -> Result<bool, Fail> {
    let whole = with_second(alloc)?;
    let mut left = stopped_disk(alloc, &whole, GATE_CALL, 2)?;
    let torn = left.as_slice().to_vec(alloc)?;
    let mut shelf = load(alloc, &mut left)?;
    Ok(
        is_kept(&shelf, &mut left, torn.as_slice())
            && add_second(alloc, &mut shelf, &mut left)? == 1
            && left.as_slice() == whole.as_slice(),
    )
}

/// The call of this number fails in `append`; after that the shelf answers nothing until it is loaded again.
fn a_fault_spoils_the_shelf(alloc: Global, call: u64) -> Result<bool, Fail> {
    let placed = second(alloc)?;
    let mut made = with_first(alloc)?;
    let mut shelf = load(alloc, &mut made)?;
    made.fail_at(call);
    let failed = is_disk(append(&mut shelf, &mut made, &placed));
    Ok(
        failed
            && answers_nothing(&mut shelf, &mut made, &placed)
            && holds_one_or_two(alloc, &mut made)?,
    )
}

fn answers_nothing<D: Disk>(shelf: &mut Shelf, disk: &mut D, placed: &Placed) -> bool {
    is_failed(append(shelf, disk, placed))
        && is_failed(discard(shelf, disk, 0))
        && is_failed(get(shelf, disk, 0))
        && is_failed(check(shelf, disk, 0))
}

/// The call of this number fails in `load`, and then none does.
fn a_load_is_tried_again(alloc: Global, call: u64) -> Result<bool, Fail> {
    let mut made = with_first(alloc)?;
    made.fail_at(call);
    Ok(is_disk(load(alloc, &mut made)) && load(alloc, &mut made).is_ok())
}

/// A read fails, and then none does.
static READ_AGAIN: [Case; 1] = [Case(
    Start::Empty(1000),
    Answer::Done,
    &[
        Step::Append(Which::First, Answer::Number(0)),
        Step::Load,
        Step::Fails,
        Step::Check(0, Answer::Disk),
        Step::Fails,
        Step::Get(0, Answer::Disk),
        Step::Check(0, Answer::Done),
        Step::Get(0, Answer::Done),
    ],
)];

#[test]
fn an_append_makes_four_calls(rt: HostRuntime) -> Result<(), Fail> {
    assert!(rt; has_made_its_calls(rt.alloc())?);
    Ok(())
}

#[test]
fn a_stop_leaves_the_files_before_or_one_more(rt: HostRuntime) -> Result<(), Fail> {
    for kind in 0..3u8 {
        assert!(rt;
            stops_are_harmless(rt.alloc(), kind)?,
            "a stop of kind {kind}"
        );
    }
    Ok(())
}

#[test]
fn a_stop_in_the_write_of_a_gate_leaves_no_file(rt: HostRuntime) -> Result<(), Fail> {
    assert!(rt; a_torn_gate_is_closed(rt.alloc())?);
    Ok(())
}

#[test]
fn a_shelf_that_met_a_fault_has_failed(rt: HostRuntime) -> Result<(), Fail> {
    for call in 0..4u64 {
        assert!(rt;
            a_fault_spoils_the_shelf(rt.alloc(), call)?,
            "a fault in call {call}"
        );
    }
    Ok(())
}

#[test]
fn what_only_reads_is_tried_again(rt: HostRuntime) -> Result<(), Fail> {
    for call in 0..4u64 {
        assert!(rt;
            a_load_is_tried_again(rt.alloc(), call)?,
            "a fault in call {call}"
        );
    }
    hold(rt.alloc(), &READ_AGAIN)
}
