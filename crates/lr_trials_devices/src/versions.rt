//! A shelf of version 1, through the station.
use lr_trials_station::steps::{FRAMES, READS_7, Step, hold_on};
use lr_trials_support::{
    DISCARDED_0, DONE, GONE, NEW_ALONE, NO_THIRD_FILE, OLD_AND_NEW, OLD_SHELF, disk, is_text,
};
use std::test::Fail;

static STEPS: [Step; 8] = [
    READS_7,
    Step::Call(
        FRAMES,
        "shelved 1 vc 0 apid 100 counter 7 bytes 26 packets 1\n\
         symbols 892 frames 1 restored 1 lost 0 packets 1 files 1 left 0 stop end\n",
        DONE,
    ),
    Step::Call("list", OLD_AND_NEW, DONE),
    Step::Call("discard 0", DISCARDED_0, DONE),
    Step::Call("list", NEW_ALONE, DONE),
    Step::Call("extract 0", "", GONE),
    Step::Call("discard 0", "", GONE),
    Step::Call("discard 2", "", NO_THIRD_FILE),
];

/// A file is received after the old one, and the old one is discarded. Its header and its item stay as they were.
#[test]
fn a_shelf_of_version_1_goes_on(rt: HostRuntime) -> Result<(), Fail> {
    let alloc = rt.alloc();
    let left = hold_on(alloc, disk(alloc, &OLD_SHELF, 400)?, &STEPS, 0)?;
    let bytes = left.as_slice();
    assert!(rt; is_text("the front", &bytes[..bytes.len().min(61)], &OLD_SHELF[..61])?);
    Ok(())
}
