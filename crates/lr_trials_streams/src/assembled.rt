//! `assemble` puts segments together.
use crate::bodies::{Body, Case, cases_hold};
use lr_trials_station::steps::Step;
use lr_trials_support::{DISCARDED_0, DONE, End, NO_THIRD_FILE, USAGE};
use std::test::Fail;

/// Ten bytes of transport header, then the header of an image of 2 columns and 1 line, of 8 bits and not compressed. It
/// is a segment of the image 1, which has 2 columns and 2 lines; it begins at the column 0 and the line 0.
const SEGMENT: [u8; 52] = [
    0, 1, 0, 0, 0, 0, 0, 0, 1, 0x60, 0x00, 0x00, 0x10, 0x00, 0x00, 0x00, 0x00, 0x2A, 0, 0, 0, 0, 0,
    0, 0, 16, 0x01, 0x00, 0x09, 8, 0, 2, 0, 1, 0, 0x80, 0x00, 0x11, 0, 1, 0, 0, 0, 0, 0, 0, 0, 2,
    0, 2, 0, 2,
];

/// Two segments: the pixels 1 and 2 at the column 0, and 9 at the column 1.
const LEFT: &[Body] = &[Body(&SEGMENT, &[]), Body(&[1, 2], &[])];

const RIGHT: &[Body] = &[Body(&SEGMENT, &[(31, 1), (43, 1)]), Body(&[9], &[])];

const NO_SEGMENT: End<'static> = End(8, "station: cannot export: no-segment\n");

static TOGETHER: [Case; 1] = [Case(
    &[LEFT, RIGHT],
    &[
        Step::Call(
            "assemble 0 2 100 1",
            "P5\n2 2\n255\n\u{1}\u{9}\0\0",
            End(0, "assembled 2 skipped 0 uncovered 2\n"),
        ),
        Step::Call("assemble 0 2 100 2", "", NO_SEGMENT),
        Step::Call("assemble 0 2 101 1", "", NO_SEGMENT),
        Step::Call("assemble 2 2 100 1", "", NO_SEGMENT),
        Step::Call("assemble 1 0 100 1", "", NO_THIRD_FILE),
        Step::Call("assemble 0 3 100 1", "", NO_THIRD_FILE),
        Step::Call("assemble 0 2 2047 1", "", USAGE),
        Step::Call("assemble 0 2 100 65536", "", USAGE),
    ],
)];

static SKIPPED_OR_GONE: [Case; 2] = [
    Case(
        &[
            LEFT,
            &[
                Body(&SEGMENT, &[(31, 1), (43, 1), (34, 2)]),
                Body(&[9], &[]),
            ],
        ],
        &[Step::Call(
            "assemble 0 2 100 1",
            "P5\n2 2\n255\n\u{1}\u{2}\0\0",
            End(0, "assembled 1 skipped 1 uncovered 2\n"),
        )],
    ),
    Case(
        &[LEFT, RIGHT],
        &[
            Step::Call("discard 0", DISCARDED_0, DONE),
            Step::Call(
                "assemble 0 2 100 1",
                "P5\n2 2\n255\n\0\u{9}\0\0",
                End(0, "assembled 1 skipped 0 uncovered 3\n"),
            ),
        ],
    ),
];

const OUTSIDE: Step = Step::Call(
    "assemble 0 2 100 1",
    "",
    End(8, "station: cannot export: outside\n"),
);

/// Of the first two the second segment has another header, and two pixels; of the others the first one.
static REFUSED_SEGMENTS: [Case; 5] = [
    Case(
        &[
            LEFT,
            &[
                Body(&SEGMENT, &[(31, 1), (43, 1), (29, 16)]),
                Body(&[9, 9], &[]),
            ],
        ],
        &[Step::Call(
            "assemble 0 2 100 1",
            "",
            End(8, "station: cannot export: depths\n"),
        )],
    ),
    Case(
        &[
            LEFT,
            &[Body(&SEGMENT, &[(31, 1), (43, 2)]), Body(&[9, 9], &[])],
        ],
        &[OUTSIDE],
    ),
    Case(
        &[&[Body(&SEGMENT, &[(43, 1)]), Body(&[1, 2], &[])], LEFT],
        &[OUTSIDE],
    ),
    Case(
        &[&[Body(&SEGMENT, &[(49, 0)]), Body(&[1, 2], &[])], LEFT],
        &[Step::Call(
            "assemble 0 2 100 1",
            "",
            End(8, "station: cannot export: empty\n"),
        )],
    ),
    Case(
        &[
            &[
                Body(&SEGMENT, &[(48, 0xFF), (50, 0xFF)]),
                Body(&[1, 2], &[]),
            ],
            LEFT,
        ],
        &[Step::Call(
            "assemble 0 2 100 1",
            "",
            End(8, "station: cannot export: too-large\n"),
        )],
    ),
];

#[test]
fn segments_are_put_together(rt: HostRuntime) -> Result<(), Fail> {
    cases_hold(rt.alloc(), &TOGETHER)
}

#[test]
fn segments_without_an_image_are_skipped_and_gone_ones_left_out(
    rt: HostRuntime,
) -> Result<(), Fail> {
    cases_hold(rt.alloc(), &SKIPPED_OR_GONE)
}

#[test]
fn segments_that_do_not_fit_are_refused(rt: HostRuntime) -> Result<(), Fail> {
    cases_hold(rt.alloc(), &REFUSED_SEGMENTS)
}
