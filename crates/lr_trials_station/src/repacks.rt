//! `repack` refuses files that can't be coded anew.
use crate::steps::{Step, hold};
use lr_trials_support::{BOTH_OK, DONE, ITEM_7, ITEM_8, NOT_IMAGE, USAGE};
use std::test::Fail;

/// Over a shelf of two texts, which stays as it is.
static REFUSED: [&[Step]; 1] = [&[
    Step::Shelf(&[ITEM_7, ITEM_8]),
    Step::Call("repack 0 8", "", NOT_IMAGE),
    Step::HasTheSame,
    Step::Call("repack 0 10", "", USAGE),
    Step::HasTheSame,
    Step::Call("verify", BOTH_OK, DONE),
]];

#[test]
fn a_text_is_not_coded(rt: HostRuntime) -> Result<(), Fail> {
    hold(rt.alloc(), &REFUSED)
}
