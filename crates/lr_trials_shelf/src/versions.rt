//! Shelves of version 1 that go on, and how far a shelf goes.
use crate::tables::{Answer, Case, OLD, Start, Step, Which, hold};
use std::test::Fail;

/// A file is added after the old one.
static GOES_ON: [Case; 1] = [Case(
    OLD,
    Answer::Done,
    &[
        Step::At(1, 62, 200),
        Step::Append(Which::Again, Answer::Number(1)),
        Step::At(2, 129, 200),
        Step::HoldsOld(0, Which::Again),
        Step::Holds(1, Which::Again),
        Step::Begins(61),
    ],
)];

/// The old file is discarded, and is so after a further load.
static DISCARDED: [Case; 1] = [Case(
    OLD,
    Answer::Done,
    &[
        Step::Append(Which::Again, Answer::Number(1)),
        Step::Discard(0, Answer::Done),
        Step::At(2, 141, 200),
        Step::Get(0, Answer::Gone),
        Step::Check(0, Answer::Gone),
        Step::Discard(0, Answer::Gone),
        Step::Discard(2, Answer::Past(2)),
        Step::Check(1, Answer::Done),
        Step::Load,
        Step::At(2, 141, 200),
        Step::Get(0, Answer::Gone),
        Step::Check(0, Answer::Gone),
        Step::Discard(0, Answer::Gone),
        Step::Discard(2, Answer::Past(2)),
        Step::Check(1, Answer::Done),
        Step::Length(141),
    ],
)];

/// The first file on an empty shelf.
static FITS: [Case; 2] = [
    Case(
        Start::Empty(87),
        Answer::Done,
        &[
            Step::Append(Which::First, Answer::Number(0)),
            Step::At(1, 87, 87),
            Step::Length(87),
        ],
    ),
    Case(
        Start::Empty(86),
        Answer::Done,
        &[
            Step::Append(Which::First, Answer::Full(87, 86)),
            Step::At(0, 20, 86),
            Step::Length(20),
        ],
    ),
];

/// The first file on a shelf that holds it alone is discarded.
static DISCARD_FITS: [Case; 2] = [
    Case(
        Start::Empty(99),
        Answer::Done,
        &[
            Step::Append(Which::First, Answer::Number(0)),
            Step::Load,
            Step::Discard(0, Answer::Done),
            Step::At(1, 99, 99),
        ],
    ),
    Case(
        Start::Empty(98),
        Answer::Done,
        &[
            Step::Append(Which::First, Answer::Number(0)),
            Step::Load,
            Step::Discard(0, Answer::Full(99, 98)),
            Step::At(1, 87, 98),
            Step::Check(0, Answer::Done),
        ],
    ),
];

/// A shelf whose end is past its capacity is read, and takes nothing more.
static PAST_ITS_CAPACITY: [Case; 1] = [Case(
    Start::Old(50),
    Answer::Done,
    &[
        Step::At(1, 62, 50),
        Step::Check(0, Answer::Done),
        Step::Discard(0, Answer::Full(74, 50)),
        Step::Append(Which::Again, Answer::Full(129, 50)),
        Step::Begins(62),
        Step::Length(62),
    ],
)];

#[test]
fn a_shelf_of_version_1_goes_on(rt: HostRuntime) -> Result<(), Fail> {
    hold(rt.alloc(), &GOES_ON)
}

#[test]
fn a_file_of_version_1_is_discarded(rt: HostRuntime) -> Result<(), Fail> {
    hold(rt.alloc(), &DISCARDED)
}

#[test]
fn a_file_fits_or_not(rt: HostRuntime) -> Result<(), Fail> {
    hold(rt.alloc(), &FITS)
}

#[test]
fn a_discard_fits_or_not(rt: HostRuntime) -> Result<(), Fail> {
    hold(rt.alloc(), &DISCARD_FITS)
}

#[test]
fn a_shelf_past_its_capacity_is_read(rt: HostRuntime) -> Result<(), Fail> {
    hold(rt.alloc(), &PAST_ITS_CAPACITY)
}
