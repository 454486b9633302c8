//! `discard`, and the commands after it.
use crate::steps::{Step, hold};
use lr_trials_support::{DISCARDED_0, DONE, GONE, ITEM_7, ITEM_8, NO_THIRD_FILE, SECOND_OK};
use std::test::Fail;

/// The first of two files is discarded, and what other words give then.
static AFTER_IT: [&[Step]; 1] = [&[
    Step::Shelf(&[ITEM_7, ITEM_8]),
    Step::Call("discard 0", DISCARDED_0, DONE),
    Step::Call("extract 0", "", GONE),
    Step::HasLength(166),
    Step::Call("discard 0", "", GONE),
    Step::HasLength(166),
    Step::Call("discard 2", "", NO_THIRD_FILE),
    Step::Call("verify", SECOND_OK, DONE),
    Step::HasLength(166),
]];

#[test]
fn a_discarded_file_is_refused(rt: HostRuntime) -> Result<(), Fail> {
    hold(rt.alloc(), &AFTER_IT)
}
