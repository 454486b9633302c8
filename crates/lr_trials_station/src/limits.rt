//! How many bytes are taken, where a word says so.
use crate::steps::{MADE, Piece, Step, hold_in};
use lr_trials_support::DONE;
use std::test::Fail;

const ONE: &str = "frame 0 vc 0 counter 4210752 spacecraft 1 replay 0 pointer 64\n\
                   frames 1 left 0 stop limit\n";

/// 893 bytes of 40 hex are there.
const READS_893: Step = Step::Reads(&[Piece::Same(893, 0x40)]);

/// No call on the disk would succeed. A source that was asked for more than the words say would fail.
static LIMITS: [&[Step]; 1] = [&[
    Step::Allows(0),
    READS_893,
    Step::Call("frames --symbols 892", ONE, DONE),
    Step::Call(
        "frames --symbols=891",
        "frames 0 left 891 stop limit\n",
        DONE,
    ),
    Step::SourceFails(892),
    Step::Call("frames --symbols 892", ONE, DONE),
    Step::SourceFails(0),
    Step::Call("frames --symbols 0", "frames 0 left 0 stop limit\n", DONE),
]];

const NOTHING: &str = "symbols 0 frames 0 restored 0 lost 0 packets 0 files 0 left 0 stop limit\n";

/// Nothing is received, and the source isn't asked.
static FORMS: [&[Step]; 1] = [&[
    MADE,
    READS_893,
    Step::SourceFails(0),
    Step::Call("receive --symbols 0 --input symbols", NOTHING, DONE),
    Step::SourceFails(0),
    Step::Call("receive --symbols 0 --input blocks", NOTHING, DONE),
    Step::SourceFails(0),
    Step::Call("receive --symbols 0 --input frames", NOTHING, DONE),
]];

#[test]
fn no_more_bytes_are_taken_than_the_words_say(rt: HostRuntime) -> Result<(), Fail> {
    hold_in(rt.alloc(), &[893], &LIMITS)
}

#[test]
fn a_limit_of_nothing_shelves_nothing(rt: HostRuntime) -> Result<(), Fail> {
    hold_in(rt.alloc(), &[893], &FORMS)
}
